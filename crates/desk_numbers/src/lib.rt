// The desk with its answers as numbers, for the C boundary.
#![tactic(auto)]

ghost use Rattle.desk_rules.specs.Open.{Opens};
ghost use Rattle.desk_rules.specs.Press.{Presses};

use answers::Numbered;

// Opens a form, and returns the number of the answer.
pub fn open_form(count: usize, rooms: &[u8], form: &mut [u8]) -> u8
    ensures { Opens count rooms.now form.old form.new result }
{
    desk::open_form(count, rooms, form).number()
}

// Does a key, and returns the number of the answer.
pub fn press(rooms: &[u8], form: &mut [u8], key: u8) -> u8
    ensures { Presses rooms.now form.old form.new key result }
{
    desk::press(rooms, form, key).number()
}
