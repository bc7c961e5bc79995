// Comparing two machine rooms.
//
// The states of both machines are refined together until nothing splits. The machines are the same exactly if their two starts then lie in one part. Else the first
// round after which the starts are not together says how long the string is that tells them apart, and it is spelled.
//
// Where both rooms hold one machine byte for byte, they are the same, and its states are refined once.
#![tactic(auto)]

ghost use Rattle.std.specs.Prelude.{◌≤◌, length};
ghost use Rattle.answers.specs.Numbers.{compared_number, compared_length, compared_rounds, compared_value_number, compared_value_length, compared_value_rounds};
ghost use Rattle.scope.specs.Operations.Buffers.{TailKept};
ghost use Rattle.scope.specs.Operations.Compare.{CompareLent, Compares};
ghost use Rattle.scope.specs.Limits.{word_bytes};
ghost use Rattle.scope.specs.Machines.Room.{machine};
ghost use Rattle.scope.specs.Machines.Rounds.{Rounds};
ghost use Rattle.buffers.specs.Stored.{Decides};
ghost use Rattle.two_rooms.specs.Side.{both_limit};
ghost use Rattle.compare.specs.Twins.{Twins};
ghost use Rattle.compare.specs.CompareAnswer.{AnswersCompare};

use answers::{Compared, Refusal};
use room::Table;
use round::Lineage;
use scope::Machine;
use soundness::SoundRoom;
use spelling::Tree;
use two_rooms::Pair;

// Whether the two rooms, the string room and the scratch are long enough.
fn is_lent(left: &[u8], right: &[u8], word: &[u8], bytes: &[u8], words: &[u64]) -> bool
    ensures { Decides result (CompareLent left.now right.now word.now bytes.now words.now) }
{
    left.len() >= Machine::ROOM
        && right.len() >= Machine::ROOM
        && word.len() >= Machine::WORD
        && buffers::is_scratch(bytes, words)
}

// Whether both rooms hold one machine byte for byte, as far as the used cells go.
fn are_twins(left: &Table, right: &Table) -> bool
    ensures { Decides result (Twins left.now right.now) }
{
    let machine = left.head();
    let cells = machine.states * machine.classes;
    buffers::same(left.bytes(), right.bytes(), Machine::CELLS_AT + cells)
}

// The rounds of one room's machine alone.
fn rounds_alone(room: &Table, words: &mut [u64]) -> usize
    requires { both_limit ≤ length words.old }
    ensures { Rounds (machine room.now) result × TailKept both_limit words.old words.new }
{
    let mut column = [0u8; Machine::BYTES];
    let mut part = [0u16; refinement::STATES];
    refinement::refine_alone(room, &mut column, &mut part, words).rounds
}

// The answer for two sound rooms whose states are refined together.
fn refined(left: &SoundRoom, right: &SoundRoom, word: &mut [u8], words: &mut [u64]) -> Compared
    requires { (word_bytes ≤ length word.old) × (both_limit ≤ length words.old) }
    ensures answers_compare { AnswersCompare left.now right.now word.old word.new (compared_value_number result) (compared_value_length result) (compared_value_rounds result) }
    ensures tail_kept { TailKept both_limit words.old words.new }
{
    let pair = Pair::both(left.table(), right.table());
    let kinds = pair.kinds(Machine::BYTES);
    let mut part = [0u16; refinement::STATES];
    let mut lineage = Lineage {
        parent: [0; refinement::STATES],
        born: [0; refinement::STATES],
    };
    let rounds = refinement::refine(&pair, &kinds, &mut part, &mut lineage, words);
    let s = pair.left.head().states;
    if part[0] == part[s] {
        return Compared::Same(rounds);
    }
    let tree = Tree {
        part: &part,
        lineage: &lineage,
    };
    let long = tree.distance(0, s, rounds);
    tree.spell(&pair, &kinds, long, word);
    Compared::Separated(long, rounds)
}

// The answer for two sound rooms.
fn answer(left: &SoundRoom, right: &SoundRoom, word: &mut [u8], words: &mut [u64]) -> Compared
    requires { (word_bytes ≤ length word.old) × (both_limit ≤ length words.old) }
    ensures answers_compare { AnswersCompare left.now right.now word.old word.new (compared_value_number result) (compared_value_length result) (compared_value_rounds result) }
    ensures tail_kept { TailKept both_limit words.old words.new }
{
    if are_twins(left.table(), right.table()) {
        return Compared::Same(rounds_alone(left.table(), words));
    }
    refined(left, right, word, words)
}

// Compares two rooms: Same, or Separated, and then the string room begins with the string that tells the machines apart.
pub fn compare(
    left: &[u8],
    right: &[u8],
    word: &mut [u8],
    bytes: &mut [u8],
    words: &mut [u64],
) -> Result<Compared, Refusal>
    ensures { Compares left.now right.now word.old word.new bytes.old bytes.new words.old words.new (compared_number result) (compared_length result) (compared_rounds result) }
{
    if !is_lent(left, right, word, bytes, words) {
        return Err(Refusal::Room);
    }
    // The right room is not judged where the left one is not sound, and both refusals clear the scratch at one place.
    if !soundness::is_sound(left) || !soundness::is_sound(right) {
        buffers::clear(bytes, words);
        return Err(Refusal::Form);
    }
    let answer = answer(&SoundRoom::new(left), &SoundRoom::new(right), word, words);
    buffers::clear(bytes, words);
    Ok(answer)
}
