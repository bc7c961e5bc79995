// The form of the entry desk: where its parts lie, and the test of it.
//
// A form is a lent buffer, and the machine rooms are lent end to end with it. A form is judged a field at a time: `test` asks what is asked of every form, of closed
// fields and of those that are not open yet; how the open field stands is asked in `standings`. Texts are judged by the contract of matching, rooms by that of the
// test whether a room is sound.
#![tactic(auto)]

pub mod valid;

ghost use Rattle.std.specs.Prelude.{◌≡◌, ◌*◌, ◌<◌, ◌≤◌, length};
ghost use Rattle.scope.specs.Limits.{room_bytes};
ghost use Rattle.entry_form.specs.EntryForm.{field_limit, text_limit, form_bytes, length_of, text_of};
ghost use Rattle.entry_form.specs.Text.{field_room};

use scope::Machine;

// A form may be longer than its parts, and keeps its tail: it is lent as a slice, and each function on one asks for its length.

// The most fields, and the most bytes of a text.
pub const FIELDS: usize = 16;

pub const TEXT: usize = 128;

// Where the parts of a form begin, and its size.
pub const LENGTHS_AT: usize = 2;

pub const TEXTS_AT: usize = LENGTHS_AT + FIELDS;

pub const FORM_BYTES: usize = TEXTS_AT + FIELDS * TEXT;

// The two bytes that are keys and never text: take back the last byte, close the field.
pub const BACK: u8 = 0x08;

pub const CLOSE: u8 = 0x0D;

// The machine room of the field f: the rooms lie end to end.
pub fn room_at(rooms: &[u8], f: usize) -> &[u8]
    requires { f * room_bytes ≤ length rooms.now }
    ensures { result.now ≡ field_room rooms.now f }
{
    &rooms[f * Machine::ROOM..]
}

// The text of the field f.
pub fn text_at(form: &[u8], f: usize) -> &[u8]
    requires { (f < field_limit) × (form_bytes ≤ length form.now) × (length_of form.now f ≤ text_limit) }
    ensures { result.now ≡ text_of form.now f }
{
    let at = TEXTS_AT + f * TEXT;
    let long = form[LENGTHS_AT + f] as usize;
    &form[at..at + long]
}
