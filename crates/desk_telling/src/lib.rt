// A key at the desk that also tells what could have stood there: with DEAD BYTE the bytes are marked that the open field could have taken. The form is as it was then, so
// these are the ones that its own text goes on with. Nothing is written with any other answer.
#![tactic(auto)]

ghost use Rattle.scope.specs.Machines.Room.{machine};
ghost use Rattle.telling.specs.Expected.{CanFollow};
ghost use Rattle.entry_form.specs.EntryForm.{closed_of, text_of};
ghost use Rattle.desk_rules.specs.DeskAnswers.{pressed_number};
ghost use Rattle.desk_rules.specs.Press.{Presses};
ghost use Rattle.desk_telling.specs.Pass.{open_room, Passes};
ghost use Rattle.desk_telling.specs.OpenLent.{OpenLent};

use desk_rules::PressRefusal;
use entry_form::{room_at, text_at};
use scope::Machine;
use soundness::SoundRoom;

// Marks the bytes that keep the text of the open field completable.
fn tell(rooms: &[u8], form: &[u8], expected: &mut [u8; Machine::BYTES])
    requires { OpenLent rooms.now form.now }
    ensures { CanFollow (machine (open_room rooms.now form.now)) (text_of form.now (closed_of form.now)) expected.new }
{
    let f = form[1] as usize;
    let room = SoundRoom::new(room_at(rooms, f));
    telling::can_follow(&room, text_at(form, f), expected);
}

// Takes a key, or refuses it, and tells of a byte with which the open field is dead what could have stood there.
#[tactic(auto, using(crate::proofs::Passes::untold))]
pub fn press_told(
    rooms: &[u8],
    form: &mut [u8],
    key: u8,
    expected: &mut [u8; Machine::BYTES],
) -> Result<(), PressRefusal>
    ensures { Presses rooms.now form.old form.new key (pressed_number result) × Passes rooms.now form.old key expected.old expected.new (pressed_number result) }
{
    let pressed = desk::press(rooms, form, key);
    if let Err(PressRefusal::DeadByte) = pressed {
        tell(rooms, form, expected);
    }
    pressed
}
