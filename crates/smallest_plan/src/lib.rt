// The plan of the smallest machine of a room: which states it has, numbered on first arrival, and which classes, numbered by their smallest byte. What numbers the
// states, merges the classes and writes the room stands above it.
#![tactic(auto)]

ghost use Rattle.std.specs.Prelude.{◌≡◌, ◌≤◌, ◌<◌, ℕ, length, get_or};
ghost use Rattle.scope.specs.Limits.{byte_values};
ghost use Rattle.scope.specs.Machines.Room.{classes_of, mark_of, cell_of};
ghost use Rattle.buffers.specs.Stored.{Decides};
ghost use Rattle.smallest_plan.specs.Smallest.{led, StatesIn};
ghost use Rattle.smallest_plan.specs.Planned.{SameOrder};

use room::Table;
use scope::Machine;

// The states of the smallest machine: for each of the first `count` numbers one of the room's states, and for each of the room's states its number. There is no heap: `order`
// is the room of a list, and `count` its length.
#[derive(Clone, Copy)]
pub struct States {
    pub order: [u8; Machine::STATES],
    pub into: [u8; Machine::STATES],
    pub count: usize,
}

// Its classes: that of each byte, and for each of the first `count` one of the room's classes, in a list like that of the states.
#[derive(Clone, Copy)]
pub struct Classes {
    pub class: [u8; Machine::BYTES],
    pub leader: [u8; Machine::BYTES],
    pub count: usize,
}

// The smallest machine of a room.
#[derive(Clone, Copy)]
pub struct Plan {
    pub states: States,
    pub classes: Classes,
}

impl Plan {
    // No plan yet.
    pub const EMPTY: Plan = Plan {
        states: States {
            order: [0; Machine::STATES],
            into: [0; Machine::STATES],
            count: 0,
        },
        classes: Classes {
            class: [0; Machine::BYTES],
            leader: [0; Machine::BYTES],
            count: 0,
        },
    };
}

// The rows of the numbered states: the row q is that of the state `order[q]` of the room.
#[derive(Drop)]
pub struct Rows<'a> {
    pub room: Table<'a>,
    pub states: &'a States,
    ghost in_room: { StatesIn room states.now },
}

impl<'a> Rows<'a> {
    // The rows of numbered states in a room.
    pub fn new(room: &Table<'a>, states: &'a States) -> Rows<'a>
        requires { StatesIn room.now states.now }
        ensures { (result.room ≡ room.now) × (result.states.now ≡ states.now) }
    {
        let bytes = room.bytes();
        Rows {
            room: Table::new(bytes),
            states,
        }
    }

    // The mark of the row q.
    pub fn mark(&self, q: usize) -> u8
        requires { q < self.now.states.now.count }
        ensures { result ≡ mark_of self.now.room (get_or self.now.states.now.order q 0) }
    {
        self.room.mark(self.states.order[q] as usize)
    }

    // The cells of the row q, one for each column.
    pub fn row(&self, q: usize) -> &'a [u8]
        requires { q < self.now.states.now.count }
        ensures { (length result.now ≡ classes_of self.now.room) × ((u : ℕ) → u < classes_of self.now.room → get_or result.now u 0 ≡ cell_of self.now.room (get_or self.now.states.now.order q 0) u) }
    {
        self.room.row(self.states.order[q] as usize)
    }

    // The number of the state to which a column leads in the row q.
    pub fn cell(&self, q: usize, column: u8) -> u8
        requires { (q < self.now.states.now.count) × (column < classes_of self.now.room) }
        ensures { result ≡ led self.now.room self.now.states.now q column }
    {
        self.states.into[self.room.cell(self.states.order[q] as usize, column)]
    }
}

// Whether each number stands for itself.
pub fn is_same_order(order: &[u8]) -> bool
    requires { length order.now ≤ byte_values }
    ensures { Decides result (SameOrder order.now (length order.now)) }
{
    for (q, &state) in order.iter().enumerate() {
        if state != q as u8 {
            return false;
        }
    }
    true
}
