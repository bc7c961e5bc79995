// A machine room: its head read and written, whether its table is sound, one step of its machine, and the way home of a state.
#![tactic(auto)]

ghost use Rattle.std.specs.Prelude.{◌≡◌, ◌+◌, ◌*◌, ◌<◌, ◌≤◌, List, ℕ, None, IfSome, length, get_or, slice_index};
ghost use Rattle.scope.specs.Limits.{byte_values, class_limit, state_limit, classes_at, room_bytes};
ghost use Rattle.scope.specs.Operations.Buffers.{Written};
ghost use Rattle.scope.specs.Machines.Room.{states_of, classes_of, class_of, mark_of, cell_of, next_of, Below, SoundTable};
ghost use Rattle.buffers.specs.Stored.{Decides};
ghost use Rattle.room.specs.Head.{head_byte, TableRead, way_of};

use scope::Machine;
use std::marker::Model;

// The head of a room: how many states and classes it has.
pub fn head(room: &[u8]) -> Machine
    requires { classes_at ≤ length room.now }
    ensures { (result.states ≡ states_of room.now) × (result.classes ≡ classes_of room.now) }
{
    Machine {
        states: room[0] as usize,
        classes: room[1] as usize,
    }
}

// Writes the head of a room.
pub fn write_head(room: &mut [u8], machine: Machine)
    requires { (classes_at ≤ length room.old) × (machine.states ≤ state_limit) × (machine.classes ≤ class_limit) }
    ensures { Written classes_at (head_byte machine.states machine.classes) room.old room.new }
{
    room[0] = machine.states as u8;
    room[1] = machine.classes as u8;
}

// Whether the bytes from `from` up to `to` are below the limit.
pub fn are_below(room: &[u8], from: usize, to: usize, limit: usize) -> bool
    requires { (to ≤ length room.now) × (0 < limit) }
    ensures { Decides result (Below room.now from to limit) }
{
    (buffers::greatest(room, from, to) as usize) < limit
}

// Whether the table of a room is sound. The ways home are not read.
pub fn is_table(room: &[u8]) -> bool
    ensures { Decides result (SoundTable room.now) }
{
    if room.len() < Machine::ROOM {
        return false;
    }
    let machine = head(room);
    let n = machine.states;
    let k = machine.classes;
    if n < 1 {
        return false;
    }
    if n > Machine::STATES {
        return false;
    }
    if k < 1 {
        return false;
    }
    if k > Machine::CLASSES {
        return false;
    }
    let marks_end = Machine::MARKS_AT + n;
    let cells_end = Machine::CELLS_AT + n * k;
    are_below(room, Machine::CLASSES_AT, Machine::MARKS_AT, k)
        && are_below(room, Machine::MARKS_AT, marks_end, 2)
        && are_below(room, marks_end, Machine::CELLS_AT, 1)
        && are_below(room, Machine::CELLS_AT, cells_end, n)
        && buffers::are_zero(room, cells_end, Machine::WAYS_AT)
}

// A room whose table is sound, with its head read. A clause sees the bytes of the room. That a number is one of its states is asked by each method: the number alone does
// not know its room.
#[derive(Drop)]
pub struct Table<'a> {
    bytes: &'a [u8],
    head: Machine,
}

impl<'a> Model for Table<'a> {
    ghost Value = { List ℕ };

    ghost view = { λ t. t.bytes.now };

    ghost invariant = { λ t. TableRead t.bytes.now t.head.states t.head.classes };
}

impl<'a> Table<'a> {
    // The table of a room, where it is sound.
    pub fn new(room: &'a [u8]) -> Table<'a>
        requires { SoundTable room.now }
        ensures { result ≡ room.now }
    {
        let head = head(room);
        Table { bytes: room, head }
    }

    // The table of a room, if it is sound.
    pub fn of(room: &'a [u8]) -> Option<Table<'a>>
        ensures some { IfSome result (λ t. (t ≡ room.now) × SoundTable room.now) }
        ensures none { result ≡ None → SoundTable room.now → ⊥ }
    {
        is_table(room).then(|| Table::new(room))
    }

    // The bytes of the room.
    pub fn bytes(&self) -> &'a [u8]
        ensures bytes { result.now ≡ self.now }
        ensures sound { SoundTable self.now }
        ensures fit { (i : ℕ) → slice_index self.now i < byte_values }
    {
        self.bytes
    }

    // How many states and classes it has.
    pub fn head(&self) -> Machine
        ensures counts { (result.states ≡ states_of self.now) × (result.classes ≡ classes_of self.now) }
        ensures sound { SoundTable self.now }
    {
        self.head
    }

    // The class of each byte.
    pub fn classes(&self) -> &'a [u8]
        ensures { (length result.now ≡ byte_values) × ((b : ℕ) → b < byte_values → get_or result.now b 0 ≡ class_of self.now b) }
    {
        let bytes = self.bytes;
        &bytes[Machine::CLASSES_AT..Machine::MARKS_AT]
    }

    // The class of the byte b.
    pub fn class(&self, b: u8) -> u8
        ensures { (result ≡ class_of self.now b) × (result < classes_of self.now) }
    {
        self.bytes[Machine::CLASSES_AT + b as usize]
    }

    // The mark of the state q: the byte of the room, as `mark_of` reads it.
    pub fn mark(&self, q: usize) -> u8
        requires { q < states_of self.now }
        ensures { (result ≡ mark_of self.now q) × (result < 2) }
    {
        let bytes = self.bytes;
        bytes[Machine::MARKS_AT + q]
    }

    // The cells of the state q, one for each class.
    pub fn row(&self, q: usize) -> &'a [u8]
        requires { q < states_of self.now }
        ensures { (length result.now ≡ classes_of self.now) × ((c : ℕ) → c < classes_of self.now → get_or result.now c 0 ≡ cell_of self.now q c) }
    {
        let bytes = self.bytes;
        let at = Machine::CELLS_AT + q * self.head.classes;
        &bytes[at..at + self.head.classes]
    }

    // The cell for the state q and a class.
    pub fn cell(&self, q: usize, class: u8) -> usize
        requires { (q < states_of self.now) × (class < classes_of self.now) }
        ensures { (result ≡ cell_of self.now q class) × (result < states_of self.now) × (states_of self.now ≤ state_limit) }
    {
        self.bytes[Machine::CELLS_AT + (q * self.head.classes + class as usize)] as usize
    }

    // The state to which the byte b leads from the state q.
    pub fn step(&self, q: usize, b: u8) -> usize
        requires { q < states_of self.now }
        ensures { (result ≡ next_of self.now q b) × (result < states_of self.now) }
    {
        self.cell(q, self.class(b))
    }
}

// The way home that is kept for the state q.
pub fn way(room: &[u8], q: usize) -> u16
    requires { (room_bytes ≤ length room.now) × (q < state_limit) }
    ensures { result ≡ way_of room.now q }
{
    let at = Machine::WAYS_AT + q * 2;
    u16::from_be_bytes([room[at], room[at + 1]])
}
