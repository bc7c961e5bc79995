// The rooms that questions are asked of.
ghost use Rattle.std.specs.Prelude.{◌≤◌};
ghost use Rattle.scope.specs.Limits.{room_bytes};

use scope::Machine;

// The room that an operation is asked of, and how many of its bytes are lent.
#[derive(Clone, Copy)]
pub struct Lent {
    room: [u8; Machine::ROOM],
    long: usize,
    ghost within: { long ≤ room_bytes },
}

impl Lent {
    // The bytes that are lent.
    pub fn bytes(&self) -> &[u8] {
        &self.room[..self.long]
    }
}

// Compiles a pattern into a room; a refusal leaves it as it was. A room is lent to be written: by value each would be copied.
fn compiled(pattern: &[u8], room: &mut [u8; Machine::ROOM]) {
    let mut bytes = [7u8; Machine::SCRATCH_BYTES];
    let mut words = [7u64; Machine::SCRATCH_WORDS];
    let _ = compile::compile(pattern, room, &mut bytes, &mut words);
}

// `{empty}`: the machine of no word at all. But for its head, and the way home that its state has not, all is 0.
fn empty(room: &mut [u8; Machine::ROOM]) {
    room::write_head(room, Machine::empty());
    room[Machine::WAYS_AT..Machine::WAYS_AT + 2].copy_from_slice(&Machine::NO_WAY.to_be_bytes());
}

// `{padded}`: the machine of `(ab*|a)b` with a class that no byte has, whose cells lead from every state to acceptance, and a state that nothing reaches. It is
// compiled with the byte c as that class, which is then taken out of it: the start is two bytes from acceptance, and the state 1 has no way.
fn padded(room: &mut [u8; Machine::ROOM]) {
    compiled(b"[\\x00-\\xFF]*c|(ab*|a)b", room);
    room[Machine::CLASSES_AT + 99] = 0;
    room[Machine::WAYS_AT + 1] = 2;
    room[Machine::WAYS_AT + 2..Machine::WAYS_AT + 4].copy_from_slice(
        &Machine::NO_WAY.to_be_bytes(),
    );
}

// `{unsound}`: the machine of `(ab*|a)b` with a mark of a state that it has not.
fn unsound(room: &mut [u8; Machine::ROOM]) {
    compiled(b"(ab*|a)b", room);
    room[Machine::MARKS_AT + 9] = 1;
}

// The room of a name or a pattern; all 0, which is not sound, if the pattern is refused. Of `{short}`, the room of `(ab*|a)b`, the last byte is not lent.
pub fn room_of(given: &[u8]) -> Lent {
    let long = match given {
        b"{short}" => Machine::ROOM - 1,
        _ => Machine::ROOM,
    };
    let mut lent = Lent {
        room: [0; Machine::ROOM],
        long,
    };
    match given {
        b"{empty}" => empty(&mut lent.room),
        b"{padded}" => padded(&mut lent.room),
        b"{unsound}" => unsound(&mut lent.room),
        b"{short}" => compiled(b"(ab*|a)b", &mut lent.room),
        _ => compiled(given, &mut lent.room),
    }
    lent
}
