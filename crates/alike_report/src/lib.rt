// What the program prints for two texts: both are compiled, their rooms compared, and the lines put together. A side that is refused leaves its room empty,
// which comparing refuses; then nothing is printed but the lines of the sides.
#![tactic(auto)]

ghost use Rattle.std.specs.Prelude.{◌≡◌, ◌≤◌, length};
ghost use Rattle.scope.specs.Machines.Room.{states_of, classes_of};
ghost use Rattle.scope.specs.Operations.Buffers.{Lent};
ghost use Rattle.put_lines.specs.Printing.{side_of};
ghost use Rattle.alike_report.specs.Report.{Compiling, Reports};

use answers::Numbered;
use put_lines::{LINES, Side};
use scope::Machine;

// Compiles one side into its room, which is empty.
fn side(text: &[u8], room: &mut [u8], bytes: &mut [u8], words: &mut [u64]) -> Side
    requires { Lent room.old bytes.old words.old }
    ensures { (states_of room.old ≡ 0) × (classes_of room.old ≡ 0) → Compiling text.now room.new (side_of result) }
{
    compile::compile(text, room, bytes, words)?;
    Ok(room::head(room))
}

// Puts the program's lines for two texts at the start of `out`; answers how many bytes they are.
pub fn report(left: &[u8], right: &[u8], out: &mut [u8]) -> usize
    requires { LINES ≤ length out.old }
    ensures reports { Reports left.now right.now out.old out.new result }
    ensures result_bound { result ≤ LINES }
{
    let mut bytes = [0u8; Machine::SCRATCH_BYTES];
    let mut words = [0u64; Machine::SCRATCH_WORDS];
    let mut left_room = [0u8; Machine::ROOM];
    let mut right_room = [0u8; Machine::ROOM];
    let mut word = [0u8; Machine::WORD];
    let left_side = side(left, &mut left_room, &mut bytes, &mut words);
    let right_side = side(right, &mut right_room, &mut bytes, &mut words);
    let compared = compare::compare(&left_room, &right_room, &mut word, &mut bytes, &mut words);
    // An answer with no string has the length 0, as `compared_length` says.
    let count = compared.value();
    put_lines::print_lines(out, left_side, right_side, compared, &word[..count])
}
