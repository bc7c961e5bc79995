// The test of a form: what is asked of it, a field at a time.
ghost use Rattle.std.specs.Prelude.{ℕ, ◌*◌, ◌<◌, ◌≤◌, length};
ghost use Rattle.scope.specs.Limits.{byte_values, room_bytes};
ghost use Rattle.scope.specs.Machines.Room.{Sound};
ghost use Rattle.buffers.specs.Stored.{Decides};
ghost use Rattle.entry_form.specs.EntryForm.{field_limit, form_bytes, count_of, closed_of, text_of, Fields, DeskLent};
ghost use Rattle.entry_form.specs.Text.{field_room, IsAccepted};
ghost use Rattle.entry_form.specs.ValidForm.{Plain, Empty, ClosedField, NoKeys};

use crate::{BACK, CLOSE, FIELDS, FORM_BYTES, LENGTHS_AT, TEXT, TEXTS_AT};
use answers::Matched;
use scope::Machine;

// Whether the form and so many machine rooms are long enough.
pub fn is_lent(count: usize, rooms: &[u8], form: &[u8]) -> bool
    requires { count < byte_values }
    ensures { Decides result (DeskLent count rooms.now form.now) }
{
    form.len() >= FORM_BYTES && rooms.len() >= count * Machine::ROOM
}

// Whether a room is sound, as the matcher judges it: it refuses none that is.
fn is_sound(room: &[u8]) -> bool
    ensures { Decides result (Sound room.now) }
{
    matching::match_text(room, b"").is_ok()
}

// Whether the machines from `from` on, up to `count`, are sound.
pub fn are_sound(rooms: &[u8], from: usize, count: usize) -> bool
    requires { (count < byte_values) × (count * room_bytes ≤ length rooms.now) }
    ensures { Decides result ((f : ℕ) → f < count → from ≤ f → Sound (field_room rooms.now f)) }
{
    for f in from..count {
        if !is_sound(crate::room_at(rooms, f)) {
            return false;
        }
    }
    true
}

// Whether the form has 1 to 16 fields, and no more are closed.
pub fn is_within(form: &[u8]) -> bool
    requires { form_bytes ≤ length form.now }
    ensures { Decides result (Fields (count_of form.now) × (closed_of form.now ≤ count_of form.now)) }
{
    form[0] >= 1 && form[0] as usize <= FIELDS && form[1] <= form[0]
}

// Whether none of the bytes of a text is a key. There is no early end: many are read at a time.
fn has_no_keys(text: &[u8]) -> bool
    ensures { Decides result (NoKeys text.now (length text.now)) }
{
    let mut none = true;
    for x in text {
        if *x == BACK || *x == CLOSE {
            none = false;
        }
    }
    none
}

// Whether the field f has at most 128 bytes, none of them a key, and zero after them.
pub fn is_plain(form: &[u8], f: usize) -> bool
    requires { (f < field_limit) × (form_bytes ≤ length form.now) }
    ensures { Decides result (Plain form.now f) }
{
    let long = form[LENGTHS_AT + f] as usize;
    let at = TEXTS_AT + f * TEXT;
    long <= TEXT
        && buffers::greatest(form, at + long, at + TEXT) == 0
        && has_no_keys(crate::text_at(form, f))
}

// Whether the fields from f on are empty.
pub fn are_empty(form: &[u8], f: usize) -> bool
    requires { (f ≤ field_limit) × (form_bytes ≤ length form.now) }
    ensures { Decides result ((g : ℕ) → g < field_limit → f ≤ g → Empty form.now g) }
{
    buffers::greatest(form, LENGTHS_AT + f, TEXTS_AT) == 0
        && buffers::greatest(form, TEXTS_AT + f * TEXT, FORM_BYTES) == 0
}

// Whether the machine of the field f accepts its text.
fn is_accepted(rooms: &[u8], form: &[u8], f: usize) -> bool
    requires { DeskLent (count_of form.now) rooms.now form.now × (f < count_of form.now) × (f < field_limit) × Plain form.now f }
    ensures { Decides result (IsAccepted (field_room rooms.now f) (text_of form.now f)) }
{
    let matched = matching::match_text(crate::room_at(rooms, f), crate::text_at(form, f));
    matches!(matched, Ok(Matched::Accepted))
}

// Whether each of the first n fields holds a text that its machine accepts.
pub fn are_filled(rooms: &[u8], form: &[u8], n: usize) -> bool
    requires { DeskLent (count_of form.now) rooms.now form.now × (n ≤ count_of form.now) × (count_of form.now ≤ field_limit) }
    ensures { Decides result ((f : ℕ) → f < n → ClosedField rooms.now form.now f) }
{
    for f in 0..n {
        if !is_plain(form, f) || !is_accepted(rooms, form, f) {
            return false;
        }
    }
    true
}
