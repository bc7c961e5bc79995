// What the program `alike` prints: the lines of its answers, put one behind the other.
#![tactic(auto)]

ghost use Rattle.std.specs.Prelude.{◌++◌, ◌+◌, ◌*◌, ◌≤◌, length};
ghost use Rattle.scope.specs.Limits.{word_bytes};
ghost use Rattle.scope.specs.Lines.{outcome_lines, printed};
ghost use Rattle.answers.specs.Numbers.{compared_number, compared_rounds};
ghost use Rattle.line_pieces.specs.Appended.{Appended};
ghost use Rattle.line_pieces.specs.Lines.{RoomFor, PutBehind};
ghost use Rattle.put_lines.specs.Printing.{side_of, outcome, counted, told, same, separated};

mod sides;

use answers::{Compared, Refusal};
use line_pieces::Lines;
use scope::Machine;
pub use sides::Refused;

// How many bytes two numbers and a line end have at most: a number has at most 20 digits.
const COUNTS: usize = 20 + 20 + 1;

// How many bytes a side's line has at most, behind its name and with it, and the lines of the comparison but for the string.
const TOLD: usize = b" states ".len() + b" classes ".len() + COUNTS;

const SIDE_LINE: usize = 5 + TOLD;

const OUTCOME_LINES: usize = 73;

// How many bytes the program's lines take at most. Each byte of the string is shown as two.
pub const LINES: usize = SIDE_LINE + SIDE_LINE + OUTCOME_LINES + Machine::WORD * 2;

// What compiling one side answered: the head of its room, or how it is refused.
pub type Side = Result<Machine, Refused>;

// Puts two numbers, each behind its text, and a line end.
#[tactic(auto, using(line_pieces::proofs::Numerals::number_short))]
fn put_counts(lines: &mut Lines, before: &[u8], first: usize, between: &[u8], second: usize)
    requires { RoomFor (length before.now + length between.now + COUNTS) lines.old }
    ensures put { PutBehind (counted before.now first between.now second) lines.old lines.new }
    ensures short { length (counted before.now first between.now second) ≤ length before.now + length between.now + COUNTS }
{
    lines.text(before);
    lines.decimal(first);
    lines.text(between);
    lines.decimal(second);
    lines.byte(b'\n');
}

// Puts the line of one side.
fn put_side(lines: &mut Lines, name: &[u8], side: Side)
    requires { RoomFor (length name.now + TOLD) lines.old }
    ensures put { PutBehind (name.now ++ told (side_of side)) lines.old lines.new }
    ensures short { length (told (side_of side)) ≤ TOLD }
{
    lines.text(name);
    match side {
        Ok(machine) => put_counts(
            lines,
            b" states ",
            machine.states,
            b" classes ",
            machine.classes,
        ),
        Err(refused) => put_counts(
            lines,
            b" refused ",
            refused.number as usize,
            b" at ",
            refused.place,
        ),
    }
}

// Puts the lines of two machines that `word` separates.
#[tactic(auto, using(line_pieces::proofs::Numerals::shown_short))]
fn put_separated(lines: &mut Lines, word: &[u8], rounds: usize)
    requires { RoomFor (2 * length word.now + OUTCOME_LINES) lines.old }
    ensures put { PutBehind (separated word.now rounds) lines.old lines.new }
    ensures short { length (separated word.now rounds) ≤ 2 * length word.now + OUTCOME_LINES }
{
    put_counts(lines, b"separated length ", word.len(), b" rounds ", rounds);
    lines.text(b"word ");
    lines.word(word);
    lines.byte(b'\n');
}

// Puts the line of two machines that are the same.
#[tactic(auto, using(line_pieces::proofs::Numerals::number_short))]
fn put_same(lines: &mut Lines, rounds: usize)
    requires { RoomFor OUTCOME_LINES lines.old }
    ensures put { PutBehind (same rounds) lines.old lines.new }
    ensures short { length (same rounds) ≤ OUTCOME_LINES }
{
    lines.text(b"same rounds ");
    lines.decimal(rounds);
    lines.byte(b'\n');
}

// Puts the lines of the comparison. `outcome_lines` has lines for a refusal too, which has no rounds.
fn put_outcome(lines: &mut Lines, compared: Result<Compared, Refusal>, word: &[u8])
    requires { RoomFor (2 * length word.now + OUTCOME_LINES) lines.old }
    ensures put { PutBehind (outcome_lines (outcome (compared_number compared) (compared_rounds compared) word.now)) lines.old lines.new }
    ensures short { length (outcome_lines (outcome (compared_number compared) (compared_rounds compared) word.now)) ≤ 2 * length word.now + OUTCOME_LINES }
{
    match compared {
        Ok(Compared::Same(rounds)) => put_same(lines, rounds),
        Ok(Compared::Separated(_, rounds)) => put_separated(lines, word, rounds),
        Err(_) => put_separated(lines, word, 0),
    }
}

// Puts the lines of both sides, and those of the comparison if neither is refused.
fn put_all(
    lines: &mut Lines,
    left: Side,
    right: Side,
    compared: Result<Compared, Refusal>,
    word: &[u8],
)
    requires { RoomFor (SIDE_LINE + SIDE_LINE + OUTCOME_LINES + 2 * length word.now) lines.old }
    ensures put { PutBehind (printed (side_of left) (side_of right) (outcome (compared_number compared) (compared_rounds compared) word.now)) lines.old lines.new }
    ensures short { lines.new.at ≤ lines.old.at + (SIDE_LINE + SIDE_LINE + OUTCOME_LINES + 2 * length word.now) }
{
    put_side(lines, b"left", left);
    put_side(lines, b"right", right);
    if left.is_ok() && right.is_ok() {
        put_outcome(lines, compared, word);
    }
}

// Puts the program's lines at the start of `out`; answers how many bytes they are.
pub fn print_lines(
    out: &mut [u8],
    left: Side,
    right: Side,
    compared: Result<Compared, Refusal>,
    word: &[u8],
) -> usize
    requires { (LINES ≤ length out.old) × (length word.now ≤ word_bytes) }
    ensures appended { Appended out.old out.new 0
        (printed (side_of left) (side_of right) (outcome (compared_number compared) (compared_rounds compared) word.now)) result }
    ensures upper_bound { result ≤ LINES }
{
    let mut lines = Lines::new(out);
    put_all(&mut lines, left, right, compared, word);
    lines.size()
}
