// What could have stood there: matching that also tells, of a dead text, which bytes could have stood where it died. They are marked in a lent array of 256 bytes, 1 for
// yes and 0 for no. Nothing is written with any other answer.
#![tactic(auto)]

ghost use Rattle.std.specs.Prelude.{◌≡◌, ◌<◌, length};
ghost use Rattle.answers.specs.Numbers.{matched_number, matched_place};
ghost use Rattle.scope.specs.Limits.{byte_values};
ghost use Rattle.scope.specs.Machines.Room.{states_of, machine};
ghost use Rattle.scope.specs.Operations.Match.{DeadAt, Matches};
ghost use Rattle.matching.specs.Live.{Live};
ghost use Rattle.telling.specs.Expected.{Marked, Expected, MatchTells, CanFollow};
ghost use Rattle.telling.specs.Classes.{ClassMarked, LiveNext};

use answers::{Matched, Refusal};
use room::Table;
use scope::Machine;
use soundness::SoundRoom;

// The mark of a state: 1 if it is live.
fn mark(room: &SoundRoom, q: usize) -> u8
    requires { q < states_of room.now }
    ensures { Marked (Live (machine room.now) q) result }
{
    u8::from(matching::is_live(room, q))
}

// Gives all bytes of a class one mark. Each byte is written, so that many are at a time.
fn mark_class(room: &Table, class: u8, mark: u8, expected: &mut [u8; Machine::BYTES])
    ensures { ClassMarked room.now class mark expected.old expected.new byte_values }
{
    for (b, x) in expected.iter_mut().enumerate() {
        *x = if room.class(b as u8) == class {
            mark
        } else {
            *x
        };
    }
}

// Marks each byte that leads from the state q to a live one, class by class.
fn mark_next(room: &SoundRoom, q: usize, expected: &mut [u8; Machine::BYTES])
    requires { q < states_of room.now }
    ensures { LiveNext room.now q expected.new }
{
    let table = room.table();
    // A class is cut to a byte where it is used: counted as one, it would be held against the class of each byte at eight bytes each.
    for class in 0..table.head().classes {
        let next = table.cell(q, class as u8);
        mark_class(table, class as u8, mark(room, next), expected);
    }
}

// Marks the bytes that keep the text completable. The array is assigned whole first: then its length is known.
pub fn can_follow(room: &SoundRoom, text: &[u8], expected: &mut [u8; Machine::BYTES])
    ensures { CanFollow (machine room.now) text.now expected.new }
{
    let q = matching::last_state(room.table(), text);
    *expected = [0u8; Machine::BYTES];
    mark_next(room, q, expected);
}

// Marks the bytes that could have stood where the text died.
fn tell(room: &SoundRoom, text: &[u8], place: usize, expected: &mut [u8; Machine::BYTES])
    requires { DeadAt (machine room.now) text.now place }
    ensures { Expected (machine room.now) text.now place expected.new }
{
    if place == 0 {
        *expected = [0u8; Machine::BYTES];
        return;
    }
    can_follow(room, &text[..place - 1], expected);
}

// Matches, and tells of a dead text what could have stood where it died.
#[tactic(auto, using(crate::proofs::Marks::untold))]
pub fn match_told(
    room: &[u8],
    text: &[u8],
    expected: &mut [u8; Machine::BYTES],
) -> Result<Matched, Refusal>
    ensures { Matches room.now text.now (matched_number result) (matched_place result) × MatchTells room.now text.now expected.old expected.new (matched_number result) (matched_place result) }
{
    let matched = matching::match_text(room, text);
    if let Ok(Matched::Dead(place)) = matched {
        tell(&SoundRoom::new(room), text, place, expected);
    }
    matched
}
