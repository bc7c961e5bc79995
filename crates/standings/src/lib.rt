// How the open field stands: one match of its text, or of its text with a byte after it. The place where a text died tells whether it was dead before that byte.
#![tactic(auto)]

ghost use Rattle.std.specs.Prelude.{◌<◌, ◌≤◌, [], ◌∷◌, ◌++◌, length};
ghost use Rattle.entry_form.specs.EntryForm.{text_limit};
ghost use Rattle.standings.specs.Stand.{Stands};

use answers::Matched;
use entry_form::TEXT;

// How the text of an open field stands, with a byte after it or not. A dead one has no place: once it is judged whether keys lead there, that tells nothing more.
#[derive(Clone, Copy, PartialEq, Eq)]
pub enum Standing {
    Accepted,
    Unfinished,
    Dead,
}

// How a text stands, of which the first `kept` bytes are in the field; None if no keys lead to the field.
fn of_bytes(room: &[u8], text: &[u8], kept: usize) -> Option<Standing>
    requires { kept ≤ length text.now }
    ensures { Stands room.now text.now kept result }
{
    let Ok(matched) = matching::match_text(room, text) else {
        return None;
    };
    match matched {
        Matched::Accepted => Some(Standing::Accepted),
        Matched::Unfinished => Some(Standing::Unfinished),
        Matched::Dead(place) => {
            if kept == 0 || place > kept {
                Some(Standing::Dead)
            } else {
                None
            }
        }
    }
}

// How the text of an open field stands.
pub fn of_text(room: &[u8], text: &[u8]) -> Option<Standing>
    ensures { Stands room.now text.now (length text.now) result }
{
    of_bytes(room, text, text.len())
}

// How the text of an open field stands with a byte after it.
pub fn of_typed(room: &[u8], text: &[u8], key: u8) -> Option<Standing>
    requires { length text.now < text_limit }
    ensures { Stands room.now (text.now ++ (key ∷ [])) (length text.now) result }
{
    let long = text.len();
    let mut typed = [0u8; TEXT + 1];
    typed[..long].copy_from_slice(text);
    typed[long] = key;
    of_bytes(room, &typed[..long + 1], long)
}
