// Two rooms side by side, the states of the right one after those of the left: where a state leads and its mark, and the kinds of the bytes.
//
// Two bytes are of one kind if they have one class in each room. What goes over bytes need only go over the least byte of each kind.
#![tactic(auto)]

ghost use Rattle.std.specs.Prelude.{◌≡◌, ◌+◌, ◌≤◌, ◌<◌, length, replicate};
ghost use Rattle.std.specs.List.{Any};
ghost use Rattle.scope.specs.Limits.{byte_values};
ghost use Rattle.scope.specs.Machines.Room.{states_of};
ghost use Rattle.buffers.specs.Stored.{Decides};
ghost use Rattle.two_rooms.specs.Side.{both, mark_in, FirstStates};
ghost use Rattle.two_rooms.specs.Kinds.{pair_of, stretch, LevelStretch, Kinds, Most, Column};

use room::Table;
use scope::Machine;

// The most states that two rooms have.
pub const STATES: usize = Machine::STATES + Machine::STATES;

// Two rooms side by side, of whose states the first ones are looked at: all, or those of the left room.
#[derive(Drop)]
pub struct Pair<'a> {
    pub left: Table<'a>,
    pub right: Table<'a>,
    pub states: usize,
    pub ghost first_states: { FirstStates left right states },
}

// The kinds of the bytes by two rooms: the least byte of each. There is no heap: `least` has room for every byte, and behind the first `count` it is 0, which fills a row of
// fewer kinds.
#[derive(Clone, Copy)]
pub struct ByteKinds {
    pub least: [u8; Machine::BYTES],
    pub count: usize,
}

// How many bytes are passed over at once where their classes do not change.
const STRETCH: usize = 16;

impl<'a> Pair<'a> {
    // All states of two rooms.
    pub fn both(left: &Table<'a>, right: &Table<'a>) -> Pair<'a>
        ensures rooms { (result.left ≡ left.now) × (result.right ≡ right.now) }
        ensures states { result.states ≡ states_of left.now + states_of right.now }
    {
        Pair {
            left: Table::new(left.bytes()),
            right: Table::new(right.bytes()),
            states: left.head().states + right.head().states,
        }
    }

    // The states of one room, which stands beside itself.
    pub fn alone(room: &Table<'a>) -> Pair<'a>
        ensures rooms { (result.left ≡ room.now) × (result.right ≡ room.now) }
        ensures states { result.states ≡ states_of room.now }
    {
        Pair {
            left: Table::new(room.bytes()),
            right: Table::new(room.bytes()),
            states: room.head().states,
        }
    }

    // The state after q on the byte x. The room and the state in it, as one value, would be taken apart here again: `mark` and this are as short without it.
    pub fn step(&self, q: usize, x: u8) -> usize
        requires { q < states_of self.now.left + states_of self.now.right }
        ensures { (result ≡ (both self.now.left self.now.right).next q x) × (result < states_of self.now.left + states_of self.now.right) }
    {
        let s = self.left.head().states;
        if q < s {
            self.left.step(q, x)
        } else {
            s + self.right.step(q - s, x)
        }
    }

    // The mark of the state q.
    pub fn mark(&self, q: usize) -> u8
        requires { q < states_of self.now.left + states_of self.now.right }
        ensures { result ≡ mark_in self.now.left self.now.right q }
    {
        let s = self.left.head().states;
        if q < s {
            self.left.mark(q)
        } else {
            self.right.mark(q - s)
        }
    }

    // The classes of the byte x in the two rooms, as one number.
    fn classes(&self, x: u8) -> usize
        ensures { result ≡ pair_of self.now.left self.now.right x }
    {
        self.left.class(x) as usize * Machine::CLASSES + self.right.class(x) as usize
    }

    // Whether the least byte of a kind has the pair of classes p.
    fn is_known(&self, least: &[u8], p: usize) -> bool
        ensures { Decides result (Any (λ x. pair_of self.now.left self.now.right x ≡ p) least.now) }
    {
        least.iter().any(|x| self.classes(*x) == p)
    }

    // The kinds of the bytes, of which there are at most `most`: of one kind are those with one class in each room. Most stretches of bytes are level.
    pub fn kinds(&self, most: usize) -> ByteKinds
        requires { Most self.now.left self.now.right most }
        ensures { Kinds self.now.left self.now.right result.least result.count }
    {
        let mut least = [0u8; Machine::BYTES];
        let mut count: usize = 1;
        let mut last = self.classes(0);
        let mut x: usize = 1;
        while x < Machine::BYTES && count < most {
            if x % STRETCH == 0 && is_level(&self.left, x) && is_level(&self.right, x) {
                x += STRETCH;
            } else {
                let p = self.classes(x as u8);
                if p != last {
                    if !self.is_known(&least[..count], p) {
                        least[count] = x as u8;
                        count += 1;
                    }
                    last = p;
                }
                x += 1;
            }
        }
        ByteKinds { least, count }
    }
}

// Whether each byte of the stretch from x on has the class of the byte before it.
fn is_level(room: &Table, x: usize) -> bool
    requires { (0 < x) × (x + stretch ≤ byte_values) }
    ensures { Decides result (LevelStretch room.now x (x + stretch)) }
{
    let bytes = room.bytes();
    let mut level = true;
    for y in x..x + STRETCH {
        // The byte before stands first: else one load is moved out of the loop, which is then taken apart.
        if bytes[Machine::CLASSES_AT - 1 + y] != bytes[Machine::CLASSES_AT + y] {
            level = false;
        }
    }
    level
}

// Writes the column of each kind, where all are 0: the class of its least byte.
pub fn columns(room: &Table, least: &[u8], column: &mut [u8; Machine::BYTES])
    requires { (length least.now ≤ byte_values) × (column.old ≡ replicate byte_values 0) }
    ensures { Column room.now least.now column.new (length least.now) }
{
    for (j, x) in least.iter().enumerate() {
        column[j] = room.class(*x);
    }
}
