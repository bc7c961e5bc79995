// Matching a text against a machine room: one plain pass over the text, and a second, to the place where it died, only if it is dead.
#![tactic(auto)]

ghost use Rattle.std.specs.Prelude.{◌≡◌, ◌<◌, drop};
ghost use Rattle.answers.specs.Numbers.{matched_number, matched_place, matched_value_number, matched_value_place};
ghost use Rattle.scope.specs.Machines.Machine.{run};
ghost use Rattle.scope.specs.Operations.Match.{DeadAt, Matches};
ghost use Rattle.scope.specs.Limits.{cells_at};
ghost use Rattle.scope.specs.Machines.Room.{states_of, next_of, machine};
ghost use Rattle.buffers.specs.Stored.{Decides};
ghost use Rattle.matching.specs.Live.{Live};

use answers::{Matched, Refusal};
use room::Table;
use scope::Machine;
use soundness::SoundRoom;

// Judges the room, and answers how the text stands: accepted, dead from a place on, or unfinished.
pub fn match_text(room: &[u8], text: &[u8]) -> Result<Matched, Refusal>
    ensures { Matches room.now text.now (matched_number result) (matched_place result) }
{
    if room.len() < Machine::ROOM {
        return Err(Refusal::Room);
    }
    let Some(sound) = SoundRoom::of(room) else {
        return Err(Refusal::Form);
    };
    Ok(match_sound(&sound, text))
}

// The same of a sound room.
fn match_sound(room: &SoundRoom, text: &[u8]) -> Matched
    ensures { Matches room.now text.now (matched_value_number result) (matched_value_place result) }
{
    let table = room.table();
    let q = last_state(table, text);
    if table.mark(q) == 1 {
        return Matched::Accepted;
    }
    if is_live(room, q) {
        return Matched::Unfinished;
    }
    Matched::Dead(first_dead(room, text))
}

// The state to which the byte b leads from the state q. `cells` is the room from its first cell on: where one cell is, is then one product and one sum.
fn step(room: &Table, cells: &[u8], q: usize, b: u8) -> usize
    requires { (q < states_of room.now) × (cells.now ≡ drop cells_at room.now) }
    ensures { (result ≡ next_of room.now q b) × (result < states_of room.now) }
{
    cells[q * room.head().classes + room.class(b) as usize] as usize
}

// The state to which the text leads.
pub fn last_state(room: &Table, text: &[u8]) -> usize
    ensures { (result ≡ run (machine room.now) 0 text.now) × (result < states_of room.now) }
{
    let cells = &room.bytes()[Machine::CELLS_AT..];
    let mut q: usize = 0;
    for b in text {
        q = step(room, cells, q, *b);
    }
    q
}

// Whether some string leads from the state q to acceptance: its way home says so.
pub fn is_live(room: &SoundRoom, q: usize) -> bool
    requires { q < states_of room.now }
    ensures { Decides result (Live (machine room.now) q) }
{
    room.way(q) < Machine::NO_WAY
}

// The length of the shortest prefix that leads to a dead state, where the text does.
fn first_dead(room: &SoundRoom, text: &[u8]) -> usize
    requires { Live (machine room.now) (run (machine room.now) 0 text.now) → ⊥ }
    ensures { DeadAt (machine room.now) text.now result }
{
    let table = room.table();
    let mut q: usize = 0;
    for (place, b) in text.iter().enumerate() {
        if !is_live(room, q) {
            return place;
        }
        q = table.step(q, *b);
    }
    text.len()
}
