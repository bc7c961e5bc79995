// The keys, on a form in which everything but the open field was judged.
// A key writes the form, and no longer finds it so afterwards (its field may be closed then): what is asked of it is a `requires`, and no invariant of a struct that holds it.
#![tactic(auto)]

ghost use Rattle.entry_form.specs.Text as text;
ghost use Rattle.entry_form.specs.ValidForm.{Plain};
ghost use Rattle.standings.specs.Stand.{OtherFields};
ghost use Rattle.desk_rules.specs.DeskAnswers.{pressed_number};
ghost use Rattle.desk_rules.specs.Press.{Presses};

use desk_rules::PressRefusal;
use entry_form::{BACK, CLOSE, TEXT, room_at, text_at, valid};
use standings::{Standing, of_text, of_typed};

// The key that takes back the last byte.
fn take_back(rooms: &[u8], form: &mut [u8], f: usize) -> Result<(), PressRefusal>
    requires { OtherFields rooms.now form.old f × Plain form.old f }
    ensures { Presses rooms.now form.old form.new text.BACK (pressed_number result) }
{
    of_text(room_at(rooms, f), text_at(form, f)).ok_or(PressRefusal::Form)?;
    retyping::take_last(form, f);
    Ok(())
}

// The key that closes the field.
fn close(rooms: &[u8], form: &mut [u8], f: usize) -> Result<(), PressRefusal>
    requires { OtherFields rooms.now form.old f × Plain form.old f }
    ensures { Presses rooms.now form.old form.new text.CLOSE (pressed_number result) }
{
    match of_text(room_at(rooms, f), text_at(form, f)).ok_or(PressRefusal::Form)? {
        Standing::Accepted => {
            form[1] = (f + 1) as u8;
            Ok(())
        }
        Standing::Unfinished | Standing::Dead => Err(PressRefusal::Unfinished),
    }
}

// Any other byte.
fn add(rooms: &[u8], form: &mut [u8], f: usize, key: u8) -> Result<(), PressRefusal>
    requires { OtherFields rooms.now form.old f × Plain form.old f × text.Literal key }
    ensures { Presses rooms.now form.old form.new key (pressed_number result) }
{
    let room = room_at(rooms, f);
    let text = text_at(form, f);
    if text.len() == TEXT {
        of_text(room, text).ok_or(PressRefusal::Form)?;
        return Err(PressRefusal::Length);
    }
    match of_typed(room, text, key).ok_or(PressRefusal::Form)? {
        Standing::Accepted | Standing::Unfinished => {
            retyping::append(form, f, key);
            Ok(())
        }
        Standing::Dead => Err(PressRefusal::DeadByte),
    }
}

// A key for the open field f.
pub fn press_open(rooms: &[u8], form: &mut [u8], f: usize, key: u8) -> Result<(), PressRefusal>
    requires { OtherFields rooms.now form.old f }
    ensures { Presses rooms.now form.old form.new key (pressed_number result) }
{
    if !valid::is_plain(form, f) {
        return Err(PressRefusal::Form);
    }
    match key {
        BACK => take_back(rooms, form, f),
        CLOSE => close(rooms, form, f),
        _ => add(rooms, form, f, key),
    }
}
