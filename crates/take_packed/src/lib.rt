// Unpacking: a field of at most eight bits lies in two bytes; past its end a form reads as 0.
#![tactic(auto)]

ghost use Rattle.std.specs.Prelude.{◌+◌, ◌*◌, ◌^◌, ◌≤◌, ◌<◌, length};
ghost use Rattle.scope.specs.Limits.{state_limit, class_limit, ways_at, room_bytes};
ghost use Rattle.scope.specs.Operations.Buffers.{TailKept};
ghost use Rattle.scope.specs.Packing.Laid.{Holds};
ghost use Rattle.packed_bits.specs.PackedFields.{FieldsFrom};
ghost use Rattle.take_packed.specs.FormImage.{form_bit, HeadNames, FormShaped, ShapeJudged, BlankRoom, Image, UnpacksFields};

use packed_bits::{
    CLASS_BITS, CLASSES_BIT, FORM_NUMBER, FORM_NUMBER_BITS, MARK_BITS, MARKS_BIT, STATE_BITS,
};
use scope::Machine;

// The byte i of a form, 0 past its end.
fn byte_at(form: &[u8], i: usize) -> usize
    ensures { Holds (form_bit form.now) (i * 8) 8 result × (result < 256) }
{
    form.get(i).copied().unwrap_or(0) as usize
}

// The field of `width` bits at the bit p.
fn take(form: &[u8], p: usize, width: usize) -> usize
    requires { width ≤ 8 }
    ensures { Holds (form_bit form.now) p width result × (result < 2 ^ width) }
{
    let i = p / 8;
    let two = byte_at(form, i) * 256 + byte_at(form, i + 1);
    packed_bits::low(two >> (16 - p % 8 - width), width)
}

// Takes the bytes from the fields of a form at the bit p.
fn take_each(form: &[u8], p: usize, width: usize, bytes: &mut [u8])
    requires { (width ≤ 8) × (p + length bytes.old * width < 2 ^ 32) }
    ensures { FieldsFrom (form_bit form.now) p width bytes.new (length bytes.new) }
{
    for (i, byte) in bytes.iter_mut().enumerate() {
        *byte = take(form, p + i * width, width) as u8;
    }
}

// Whether a form that names this head has the number, the length and the filling of such a form.
fn has_shape(form: &[u8], machine: Machine) -> bool
    requires { HeadNames machine.states machine.classes form.now }
    ensures { ShapeJudged machine.states machine.classes form.now result }
{
    let bits = packed_bits::form_bits(machine);
    let size = bits.div_ceil(8);
    form.len() == size
        && take(form, 0, FORM_NUMBER_BITS) == FORM_NUMBER
        && take(form, bits, size * 8 - bits) == 0
}

// A room with this head, and 0 elsewhere.
fn blank(room: &mut [u8], machine: Machine)
    requires { (machine.states ≤ state_limit) × (machine.classes ≤ class_limit) × (room_bytes ≤ length room.old) }
    ensures { BlankRoom machine.states machine.classes room.old room.new }
{
    buffers::fill(room, 0, Machine::WAYS_AT, 0);
    room::write_head(room, machine);
}

// The room whose fields a form has.
fn take_all(form: &[u8], room: &mut [u8], machine: Machine)
    requires { FormShaped machine.states machine.classes form.now × (room_bytes ≤ length room.old) }
    ensures { Image form.now room.new × TailKept ways_at room.old room.new }
{
    let cells_bit = MARKS_BIT + machine.states * MARK_BITS;
    let marks_end = Machine::MARKS_AT + machine.states;
    let cells_end = Machine::CELLS_AT + packed_bits::used_cells(machine);
    blank(room, machine);
    take_each(
        form,
        CLASSES_BIT,
        CLASS_BITS,
        &mut room[Machine::CLASSES_AT..Machine::MARKS_AT],
    );
    take_each(
        form,
        MARKS_BIT,
        MARK_BITS,
        &mut room[Machine::MARKS_AT..marks_end],
    );
    take_each(
        form,
        cells_bit,
        STATE_BITS,
        &mut room[Machine::CELLS_AT..cells_end],
    );
}

// Whether the bytes have the shape of a sound room's form; if so, the room then holds their fields.
pub fn unpack_fields(form: &[u8], room: &mut [u8]) -> bool
    requires { room_bytes ≤ length room.old }
    ensures { UnpacksFields result form.now room.old room.new }
{
    let machine = Machine {
        states: take(form, FORM_NUMBER_BITS, STATE_BITS) + 1,
        classes: take(form, FORM_NUMBER_BITS + STATE_BITS, CLASS_BITS) + 1,
    };
    let shaped = has_shape(form, machine);
    if shaped {
        take_all(form, room, machine);
    }
    shaped
}
