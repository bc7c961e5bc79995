// The entry desk: a student fills the fields of a form key by key, each judged by the field's machine.
//
// A form is a lent buffer, and the machine rooms are lent end to end with every call. Nothing is kept between calls, so each key judges all that it is lent:
// that the machines are sound, and that the form is one that they and some keys can give. Of the library the desk uses the contracts of matching and of the
// test whether a room is sound, beside the helpers on slices, and not how they do it. A key costs one judgement of each room, one pass over each closed text,
// and one match of the open field. The rules are those of `desk_rules`; `entry_form` judges a form, `standings` how its open field stands; `pressing` and `typing` do the keys.
#![tactic(auto)]

ghost use Rattle.desk_rules.specs.DeskAnswers.{opened_number, pressed_number};
ghost use Rattle.desk_rules.specs.Open.{Opens};
ghost use Rattle.desk_rules.specs.Press.{Presses};

pub use desk_rules::{OpenRefusal, PressRefusal};
use entry_form::{FIELDS, FORM_BYTES, valid};

// Opens a form of so many fields, in which nothing is entered.
pub fn open_form(count: usize, rooms: &[u8], form: &mut [u8]) -> Result<(), OpenRefusal>
    ensures { Opens count rooms.now form.old form.new (opened_number result) }
{
    if !(1..=FIELDS).contains(&count) {
        return Err(OpenRefusal::Fields);
    }
    if !valid::is_lent(count, rooms, form) {
        return Err(OpenRefusal::Room);
    }
    if !valid::are_sound(rooms, 0, count) {
        return Err(OpenRefusal::Form);
    }
    form[0] = count as u8;
    buffers::fill(form, 1, FORM_BYTES, 0);
    Ok(())
}

// Takes a key, or refuses it.
pub fn press(rooms: &[u8], form: &mut [u8], key: u8) -> Result<(), PressRefusal>
    ensures { Presses rooms.now form.old form.new key (pressed_number result) }
{
    if form.len() < FORM_BYTES || !valid::is_lent(form[0] as usize, rooms, form) {
        return Err(PressRefusal::Room);
    }
    pressing::press_lent(rooms, form, key)
}
