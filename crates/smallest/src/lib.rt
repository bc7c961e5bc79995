// From any room with a sound table the canonical room of the same strings. The states are refined into parts that no string tells apart, and those that are reached numbered on
// first arrival; kinds of bytes that every state sends alike share a class; and what came out is written as a room. A room is canonical if nothing of it would change.
#![tactic(auto)]

mod stay;

ghost use Rattle.std.specs.Prelude.{◌≤◌, length};
ghost use Rattle.answers.specs.Numbers.{minimised_number};
ghost use Rattle.scope.specs.Limits.{room_bytes};
ghost use Rattle.scope.specs.Machines.Machine.{Equal};
ghost use Rattle.scope.specs.Machines.Room.{machine};
ghost use Rattle.scope.specs.Machines.Canonical.{CanonicalTable, Canonical};
ghost use Rattle.scope.specs.Operations.Buffers.{TailKept};
ghost use Rattle.scope.specs.Operations.Minimise.{Minimises};
ghost use Rattle.buffers.specs.Stored.{Decides};
ghost use Rattle.two_rooms.specs.Side.{both_limit};
ghost use Rattle.smallest_plan.specs.Planned.{Planned};

use answers::Refusal;
use room::Table;
use scope::Machine;
use smallest_plan::Plan;
use soundness::SoundRoom;

// Makes the plan of the smallest machine of a room. It writes over the words.
fn make_plan(room: &Table, words: &mut [u64], plan: &mut Plan)
    requires { both_limit ≤ length words.old }
    ensures { Planned room.now plan.new × TailKept both_limit words.old words.new }
{
    let mut column = [0u8; Machine::BYTES];
    let mut part = [0u16; refinement::STATES];
    let alone = refinement::refine_alone(room, &mut column, &mut part, words);
    let columns = &column[..alone.kinds];
    arrivals::arrivals(room, &part, columns, &mut plan.states);
    class_merging::merge(room, &plan.states, columns, &mut plan.classes);
}

// Writes the canonical room of the strings of a room.
pub fn smallest(room: &Table, to: &mut [u8], words: &mut [u64])
    requires { (room_bytes ≤ length to.old) × (both_limit ≤ length words.old) }
    ensures canonical { Canonical to.new × Equal (machine room.now) (machine to.new) × TailKept room_bytes to.old to.new }
    ensures tail_kept { TailKept both_limit words.old words.new }
{
    let mut plan = Plan::EMPTY;
    make_plan(room, words, &mut plan);
    room_writing::write(room, &plan, to);
    way_writing::write_ways(to);
}

// Whether a sound table is canonical.
pub fn is_canonical(room: &Table, words: &mut [u64]) -> bool
    requires { both_limit ≤ length words.old }
    ensures { Decides result (CanonicalTable room.now) × TailKept both_limit words.old words.new }
{
    let mut plan = Plan::EMPTY;
    make_plan(room, words, &mut plan);
    stay::stays(room, &plan)
}

// Minimising: reads one room, and writes into another the canonical machine of the same strings.
pub fn minimise(
    from: &[u8],
    to: &mut [u8],
    bytes: &mut [u8],
    words: &mut [u64],
) -> Result<(), Refusal>
    ensures { Minimises from.now to.old to.new bytes.old bytes.new words.old words.new (minimised_number result) }
{
    if from.len() < Machine::ROOM || !buffers::is_lent(to, bytes, words) {
        return Err(Refusal::Room);
    }
    let Some(room) = SoundRoom::of(from) else {
        buffers::clear(bytes, words);
        return Err(Refusal::Form);
    };
    smallest(room.table(), to, words);
    buffers::clear(bytes, words);
    Ok(())
}
