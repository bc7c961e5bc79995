// What judging and writing ways home share: the classes of a room that some byte has.
#![tactic(auto)]

ghost use Rattle.std.specs.Prelude.{◌≡◌, ◌+◌, ◌≤◌, length};
ghost use Rattle.scope.specs.Limits.{class_limit, marks_at};
ghost use Rattle.buffers.specs.Stored.{Decides};
ghost use Rattle.ways.specs.Held.{block, blocks, Occurs, BlockFound, HeldClasses};

use room::Table;
use scope::Machine;

// So many classes of bytes are looked at together, and so often.
const BLOCK: usize = 64;

const BLOCKS: usize = Machine::BYTES / BLOCK;

// Whether the class is among those of the block of bytes at `from`. All are read: an exit at the first would keep them from being read many at once.
fn is_among(room: &[u8], from: usize, class: u8) -> bool
    requires { from + block ≤ length room.now }
    ensures { Decides result (Occurs room.now from (from + block) class) }
{
    let mut found = false;
    for i in from..from + BLOCK {
        if room[i] == class {
            found = true;
        }
    }
    found
}

// A block with a byte that has the class, from `from` on and then from the first, if some byte has it.
fn find(room: &[u8], from: usize, class: u8) -> Option<usize>
    requires { (marks_at ≤ length room.now) × (from ≤ blocks) }
    ensures { BlockFound room.now class result }
{
    for tried in 0..BLOCKS {
        let at = (from + tried) % BLOCKS;
        if is_among(room, Machine::CLASSES_AT + at * BLOCK, class) {
            return Some(at);
        }
    }
    None
}

// Writes the classes that some byte has to the front of the list: their number, as `HeldClasses` and `LeastOver` speak of the list and of how many of it. A class mostly begins where the one before it was found, or later.
pub fn held(room: &Table, list: &mut [u8; Machine::CLASSES]) -> usize
    ensures { HeldClasses room.now list.new result }
{
    let bytes = room.bytes();
    let mut count: usize = 0;
    let mut at: usize = 0;
    for class in 0..room.head().classes {
        if let Some(found) = find(bytes, at, class as u8) {
            list[count] = class as u8;
            count += 1;
            at = found;
        }
    }
    count
}
