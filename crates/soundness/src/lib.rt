// Whether a room is sound: its table, and then its ways home, by the rule that they keep.
//
// An accepting state has 0, another one more than the least of those that bytes lead to. The least is found for all states together, first over one to four classes and
// then over four at a time: a field of hex digits has many states and few classes, and a loop over the classes of each state would cost more to begin than to run. Ways
// are compared as they lie in the room, with no turn of their bytes and no table of them: a way below 256 has the high byte 0, so that the number with the low byte
// first keeps the order.
#![tactic(auto)]

ghost use Rattle.std.specs.Prelude.{◌≡◌, ◌+◌, ◌<◌, ◌≤◌, List, ℕ, None, IfSome, eqb, length};
ghost use Rattle.scope.specs.Limits.{class_limit, state_limit, room_bytes};
ghost use Rattle.scope.specs.Machines.Room.{states_of, classes_of, cell_of, Below, SoundWays, Sound};
ghost use Rattle.buffers.specs.Stored.{Decides};
ghost use Rattle.room.specs.Head.{way_of};
ghost use Rattle.ways.specs.LeastOver.{LeastOver};
ghost use Rattle.soundness.specs.WaysJudged.{four, key_of, Lowered, right_key, RightKeys};

use room::Table;
use scope::Machine;
use std::marker::Model;

// The two bytes beside the state q as a number, the low one first.
fn key(room: &[u8], q: usize) -> u16
    requires { (room_bytes ≤ length room.now) × (q < state_limit) }
    ensures { result ≡ key_of room.now q }
{
    let at = Machine::WAYS_AT + q * 2;
    u16::from_le_bytes([room[at], room[at + 1]])
}

// The key of the state to which a class leads from the state q.
fn next_key(room: &Table, q: usize, class: u8) -> u16
    requires { (q < states_of room.now) × (class < classes_of room.now) }
    ensures { result ≡ key_of room.now (cell_of room.now q class) }
{
    key(room.bytes(), room.cell(q, class))
}

// So many classes are taken at a time, from a place of the list on: `LeastOver` counts them from its front.
const FOUR: usize = 4;

// The least key of those to which the first i classes of the list, one to four, lead from the state q.
fn of_first(room: &Table, list: &[u8; Machine::CLASSES], i: usize, q: usize) -> u16
    requires q_bound { q < states_of room.now }
    requires i_nonzero { (0 < i) × (i ≤ four) × Below list.now 0 i (classes_of room.now) }
    ensures { LeastOver room.now (key_of room.now) list.now i q result }
{
    let one = next_key(room, q, list[0]);
    if i == 1 {
        return one;
    }
    let two = one.min(next_key(room, q, list[1]));
    if i == 2 {
        return two;
    }
    let three = two.min(next_key(room, q, list[2]));
    if i == 3 {
        return three;
    }
    three.min(next_key(room, q, list[3]))
}

// The least key over the first i classes of the list, one to four, for all states.
fn begin(room: &Table, list: &[u8; Machine::CLASSES], i: usize, least: &mut [u16; Machine::STATES])
    requires { (0 < i) × (i ≤ four) × Below list.now 0 i (classes_of room.now) }
    ensures { Lowered room.now list.now i (states_of room.now) least.new }
{
    for q in 0..room.head().states {
        least[q] = of_first(room, list, i, q);
    }
}

// The least key over the first i classes of the list, lowered by those to which the next four lead from the state q.
fn of_four(room: &Table, list: &[u8; Machine::CLASSES], i: usize, q: usize, least: u16) -> u16
    requires q_bound { q < states_of room.now }
    requires four_bound { (i + four ≤ class_limit) × Below list.now 0 (i + four) (classes_of room.now) }
    requires least_over { LeastOver room.now (key_of room.now) list.now i q least }
    ensures { LeastOver room.now (key_of room.now) list.now (i + four) q result }
{
    let x = least.min(next_key(room, q, list[i]));
    let y = x.min(next_key(room, q, list[i + 1]));
    let z = next_key(room, q, list[i + 2]).min(next_key(room, q, list[i + 3]));
    y.min(z)
}

// The least key over the first i classes of the list, lowered by the next four, for all states. It stays apart from `begin`, before which there is no least key: one function
// of both would take a key that is none, and a class more of each state.
fn lower(room: &Table, list: &[u8; Machine::CLASSES], i: usize, least: &mut [u16; Machine::STATES])
    requires four_bound { (i + four ≤ class_limit) × Below list.now 0 (i + four) (classes_of room.now) }
    requires lowered { Lowered room.now list.now i (states_of room.now) least.old }
    ensures { Lowered room.now list.now (i + four) (states_of room.now) least.new }
{
    for q in 0..room.head().states {
        least[q] = of_four(room, list, i, q, least[q]);
    }
}

// The keys of ways below the number of states are below this.
const KEYS: u16 = Machine::STATES as u16 * 256;

// The key that a state has by its mark, where `least` is the least of those that bytes lead to.
fn right_key(mark: u8, least: u16) -> u16
    ensures { result ≡ right_key (eqb mark 1) least }
{
    if mark == 1 {
        return 0;
    }
    if least < KEYS {
        least + 256
    } else {
        Machine::NO_WAY
    }
}

// Whether each of the n states has the key that its mark and the least ones give. There is no early end: many are compared at a time.
fn are_right(room: &[u8], n: usize, least: &[u16; Machine::STATES]) -> bool
    requires { (room_bytes ≤ length room.now) × (n ≤ state_limit) }
    ensures { Decides result (RightKeys room.now least.now n) }
{
    let mut right = true;
    for q in 0..n {
        if key(room, q) != right_key(room[Machine::MARKS_AT + q], least[q]) {
            right = false;
        }
    }
    right
}

// Whether the ways home of a room with a sound table are right.
fn are_ways(room: &Table) -> bool
    ensures { Decides result (SoundWays room.now) }
{
    let n = room.head().states;
    let mut list: [u8; Machine::CLASSES] = [0; Machine::CLASSES];
    let count = ways::held(room, &mut list);
    let mut least: [u16; Machine::STATES] = [0; Machine::STATES];
    let mut i = (count - 1) % FOUR + 1;
    begin(room, &list, i, &mut least);
    while i < count {
        lower(room, &list, i, &mut least);
        i += FOUR;
    }
    let bytes = room.bytes();
    are_right(bytes, n, &least)
        && room::are_below(bytes, Machine::WAYS_AT + n * 2, Machine::ROOM, 1)
}

// Whether a room is sound. The tail of a longer one is not read. A part of known length is passed on in a register; the room as it came would be copied in memory.
pub fn is_sound(room: &[u8]) -> bool
    ensures { Decides result (Sound room.now) }
{
    if room.len() < Machine::ROOM {
        return false;
    }
    let start: usize = 0;
    match Table::of(&room[start..Machine::ROOM]) {
        Some(table) => are_ways(&table),
        None => false,
    }
}

// A sound room. A clause sees its bytes.
#[derive(Drop)]
pub struct SoundRoom<'a> {
    table: Table<'a>,
}

impl<'a> Model for SoundRoom<'a> {
    ghost Value = { List ℕ };

    ghost view = { λ s. s.table };

    ghost invariant = { λ s. Sound s.table };
}

impl<'a> SoundRoom<'a> {
    // A room that is sound.
    pub fn new(room: &'a [u8]) -> SoundRoom<'a>
        requires { Sound room.now }
        ensures { result ≡ room.now }
    {
        SoundRoom {
            table: Table::new(room),
        }
    }

    // A room, if it is sound.
    pub fn of(room: &'a [u8]) -> Option<SoundRoom<'a>>
        ensures some { IfSome result (λ s. (s ≡ room.now) × Sound room.now) }
        ensures none { result ≡ None → Sound room.now → ⊥ }
    {
        is_sound(room).then(|| SoundRoom::new(room))
    }

    // Its table.
    pub fn table(&self) -> &Table<'a>
        ensures table { result.now ≡ self.now }
        ensures sound { Sound self.now }
    {
        &self.table
    }

    // The way home that is kept for the state q.
    pub fn way(&self, q: usize) -> u16
        requires { q < states_of self.now }
        ensures way { result ≡ way_of self.now q }
        ensures sound { Sound self.now }
    {
        room::way(self.table.bytes(), q)
    }
}
