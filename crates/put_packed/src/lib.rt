// Packing: the fields of a room, put out bit by bit in the order of its form.
#![tactic(auto)]

ghost use Rattle.std.specs.Prelude.{◌≡◌, ◌≤◌, length};
ghost use Rattle.scope.specs.Machines.Room.{SoundTable};
ghost use Rattle.scope.specs.Packing.PackedForm.{form_length, form_byte};
ghost use Rattle.scope.specs.Operations.Buffers.{Written};
ghost use Rattle.scope.specs.Packing.Laid.{end_bit, classes_bit};
ghost use Rattle.packed_bits.specs.PackedFields.{room_bit};
ghost use Rattle.put_packed.specs.PutBits.{place, PutsUpTo};

mod bits;

use bits::Bits;
use packed_bits::{CLASS_BITS, FORM_NUMBER, FORM_NUMBER_BITS, MARK_BITS, STATE_BITS};
use room::Table;
use scope::Machine;

// The head: the form's number, and how many states and classes the room has.
fn put_head(bits: &mut Bits, room: &Table)
    requires { (form_length room.now ≤ length bits.old.out.now) × (place bits.old ≡ 0) }
    ensures { PutsUpTo (room_bit room.now) 0 classes_bit bits.old bits.new }
{
    let machine = room.head();
    bits.put(FORM_NUMBER_BITS, FORM_NUMBER);
    bits.put(STATE_BITS, machine.states - 1);
    bits.put(CLASS_BITS, machine.classes - 1);
}

// The fields behind the head: classes, marks and cells.
fn put_parts(bits: &mut Bits, room: &Table)
    requires { (form_length room.now ≤ length bits.old.out.now) × (place bits.old ≡ classes_bit) }
    ensures put { PutsUpTo (room_bit room.now) classes_bit (end_bit room.now) bits.old bits.new }
    ensures sound { SoundTable room.now }
{
    let machine = room.head();
    let bytes = room.bytes();
    let marks_end = Machine::MARKS_AT + machine.states;
    let cells_end = Machine::CELLS_AT + packed_bits::used_cells(machine);
    bits.put_each(CLASS_BITS, &bytes[Machine::CLASSES_AT..Machine::MARKS_AT]);
    bits.put_each(MARK_BITS, &bytes[Machine::MARKS_AT..marks_end]);
    bits.put_each(STATE_BITS, &bytes[Machine::CELLS_AT..cells_end]);
}

// Writes the form of a room to the start of `out`, and answers how many bytes it has.
pub fn pack_fields(room: &Table, out: &mut [u8]) -> usize
    requires { form_length room.now ≤ length out.old }
    ensures { (result ≡ form_length room.now) × Written result (form_byte room.now) out.old out.new }
{
    let mut bits = Bits::new(out);
    put_head(&mut bits, room);
    put_parts(&mut bits, room);
    bits.finish()
}
