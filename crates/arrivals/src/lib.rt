// The states: the parts of a room's states, numbered on first arrival, row by row, over the least byte of each kind. A byte of a kind leads where its least byte
// leads, and that one is read before it, so no other byte can bring a new state.
#![tactic(auto)]

ghost use Rattle.std.specs.Prelude.{◌+◌, ◌*◌, ◌≤◌, ◌<◌, length};
ghost use Rattle.scope.specs.Limits.{state_limit};
ghost use Rattle.scope.specs.Machines.Room.{Below};
ghost use Rattle.arrivals.specs.Swept.{Sweepable, PlacesSwept, Numbers, Arrived};

use room::Table;
use scope::Machine;
use smallest_plan::States;

// Numbers the parts to which the state q leads that have no number yet.
fn sweep(
    room: &Table,
    part: &[u16; refinement::STATES],
    columns: &[u8],
    q: usize,
    states: &mut States,
    number: &mut [Option<u8>; Machine::STATES],
)
    requires sweepable { Sweepable room.now part.now columns.now }
    requires swept { (q < states.old.count) × PlacesSwept room.now part.now columns.now states.old.order number.old states.old.count (q * length columns.now) }
    ensures { (q < states.new.count) × PlacesSwept room.now part.now columns.now states.new.order number.new states.new.count ((q + 1) * length columns.now) }
{
    let state = states.order[q] as usize;
    let row = room.row(state);
    let mut count = states.count;
    for &column in columns {
        let t = part[row[column as usize] as usize] as usize;
        if number[t].is_none() {
            states.order[count] = t as u8;
            number[t] = Some(count as u8);
            count += 1;
        }
    }
    states.count = count;
}

// Writes the number of the part of each state, where it has one.
fn numbers(part: &[u16], number: &[Option<u8>; Machine::STATES], into: &mut [u8; Machine::STATES])
    requires { (length part.now ≤ state_limit) × Below part.now 0 (length part.now) state_limit }
    ensures { Numbers part.now number.now into.new (length part.now) }
{
    for (state, &t) in part.iter().enumerate() {
        if let Some(v) = number[t as usize] {
            into[state] = v;
        }
    }
}

// Numbers the parts on first arrival.
pub fn arrivals(room: &Table, part: &[u16; refinement::STATES], columns: &[u8], states: &mut States)
    requires { Sweepable room.now part.now columns.now }
    ensures { Arrived room.now part.now columns.now states.new }
{
    let mut number = [None; Machine::STATES];
    let first = part[0] as usize;
    states.order[0] = first as u8;
    states.count = 1;
    number[first] = Some(0);
    let mut q = 0;
    while q < states.count {
        sweep(room, part, columns, q, states, &mut number);
        q += 1;
    }
    numbers(&part[..room.head().states], &number, &mut states.into);
}
