// A key on a form that is long enough: everything but the open field is judged here, and the open field with the key in `typing`.
#![tactic(auto)]

ghost use Rattle.entry_form.specs.EntryForm.{count_of, DeskLent};
ghost use Rattle.desk_rules.specs.DeskAnswers.{pressed_number};
ghost use Rattle.desk_rules.specs.Press.{Presses};

use desk_rules::PressRefusal;
use entry_form::valid;

// A key, where the form and the rooms are long enough.
pub fn press_lent(rooms: &[u8], form: &mut [u8], key: u8) -> Result<(), PressRefusal>
    requires { DeskLent (count_of form.old) rooms.now form.old }
    ensures { Presses rooms.now form.old form.new key (pressed_number result) }
{
    if !valid::is_within(form) {
        return Err(PressRefusal::Form);
    }
    let count = form[0] as usize;
    let closed = form[1] as usize;
    if !valid::are_filled(rooms, form, closed) {
        return Err(PressRefusal::Form);
    }
    if closed == count {
        if !valid::are_empty(form, closed) {
            return Err(PressRefusal::Form);
        }
        return Err(PressRefusal::Closed);
    }
    if !valid::are_empty(form, closed + 1) {
        return Err(PressRefusal::Form);
    }
    if !valid::are_sound(rooms, closed + 1, count) {
        return Err(PressRefusal::Form);
    }
    typing::press_open(rooms, form, closed, key)
}
