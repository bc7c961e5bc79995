// Writes the ways home of a machine room: they sink from 65,535, sweep by sweep, until none moves.
#![tactic(auto)]

ghost use Rattle.std.specs.Prelude.{◌≤◌, ◌<◌, ◌≡◌, length, get_or};
ghost use Rattle.scope.specs.Limits.{state_limit, room_bytes};
ghost use Rattle.scope.specs.Machines.Room.{states_of, SoundTable};
ghost use Rattle.ways.specs.Held.{HeldClasses};
ghost use Rattle.ways.specs.LeastOver.{LeastOver};
ghost use Rattle.way_writing.specs.Sinking.{Sinking, WaysSwept};
ghost use Rattle.way_writing.specs.WaysWritten.{WaysHome, WaysPut, WaysWritten};

use room::Table;
use scope::Machine;

// 0 for each accepting state, 65,535 for the others.
fn first_ways(room: &Table) -> [u16; Machine::STATES]
    ensures sinking { Sinking room.now result (states_of room.now) }
    ensures sound { SoundTable room.now }
{
    let mut ways = [Machine::NO_WAY; Machine::STATES];
    for q in 0..room.head().states {
        if room.mark(q) == 1 {
            ways[q] = 0;
        }
    }
    ways
}

// The least way of the states to which bytes lead from the state q; the classes of the list are those that some byte has.
fn least(
    room: &Table,
    list: &[u8; Machine::CLASSES],
    count: usize,
    ways: &[u16; Machine::STATES],
    q: usize,
) -> u16
    requires held_classes { HeldClasses room.now list.now count }
    requires q_bound { q < states_of room.now }
    ensures { LeastOver room.now (λ p. get_or ways.now p 0) list.now count q result }
{
    let mut way = Machine::NO_WAY;
    for i in 0..count {
        way = way.min(ways[room.cell(q, list[i])]);
    }
    way
}

// Lowers the way of each state to one more than the least ahead, the last state first: states are numbered on arrival, so acceptance is mostly ahead. Whether one moved.
fn sweep(
    room: &Table,
    list: &[u8; Machine::CLASSES],
    count: usize,
    ways: &mut [u16; Machine::STATES],
) -> bool
    requires held_classes { HeldClasses room.now list.now count }
    requires sinking { Sinking room.now ways.old (states_of room.now) }
    ensures { WaysSwept room.now ways.old ways.new result }
{
    let mut moved = false;
    for q in (0..room.head().states).rev() {
        let ahead = least(room, list, count, ways, q);
        if (ahead as usize + 1) < ways[q] as usize {
            ways[q] = ahead + 1;
            moved = true;
        }
    }
    moved
}

// The ways home.
fn ways_home(room: &Table) -> [u16; Machine::STATES]
    ensures { WaysHome room.now result }
{
    let mut list: [u8; Machine::CLASSES] = [0; Machine::CLASSES];
    let count = ways::held(room, &mut list);
    let mut ways = first_ways(room);
    while sweep(room, &list, count, &mut ways) {}
    ways
}

// Writes the ways of the first n states, the high byte first.
fn put(room: &mut [u8], ways: [u16; Machine::STATES], n: usize)
    requires { (room_bytes ≤ length room.old) × (n ≤ state_limit) }
    ensures { WaysPut ways n room.old room.new }
{
    for q in 0..n {
        let at = Machine::WAYS_AT + q * 2;
        let [high, low] = ways[q].to_be_bytes();
        room[at] = high;
        room[at + 1] = low;
    }
}

// Writes the ways home of a room whose table is sound.
pub fn write_ways(room: &mut [u8])
    requires { SoundTable room.old }
    ensures { WaysWritten room.old room.new }
{
    let table = Table::new(room);
    let n = table.head().states;
    let ways = ways_home(&table);
    put(room, ways, n);
    buffers::fill(room, Machine::WAYS_AT + n * 2, Machine::ROOM, 0);
}
