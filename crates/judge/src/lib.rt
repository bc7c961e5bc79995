// Judging a pattern text: SYNTAX, RANGE, DEPTH and POSITIONS with their places, in one pass with a mode and a count of open parentheses.
#![tactic(auto)]

ghost use Rattle.std.specs.Prelude.{◌≡◌, ◌↔◌, IsTrue};
ghost use Rattle.modes.specs.Modes.{at, after_atom};
ghost use Rattle.judge_state.specs.Reading.{standing};
ghost use Rattle.judge.specs.Judges.{JudgesText};
ghost use Rattle.judge.specs.Faults.{Faults};

use answers::Fault;
use judge_state::{Piece, Reading, Stage};
use scope::Machine;

// Whether the text may end here: after an atom, with nothing open.
fn may_end(x: &Reading) -> bool
    ensures { IsTrue result ↔ (standing x.now ≡ at after_atom 0) }
{
    matches!((x.stage, x.piece, x.deep), (Stage::Done, Piece::Atom, 0))
}

// At the end of a legal text: its first fault of the order of a range's ends, and of the limits.
fn first_fault(x: &Reading) -> Result<(), Fault>
    ensures { Faults x.now result }
{
    if let Some(place) = x.falls.beyond(0) {
        return Err(Fault::Range(place));
    }
    if let Some(place) = x.opens.beyond(0) {
        return Err(Fault::Depth(place));
    }
    if let Some(place) = x.firsts.beyond(Machine::POSITIONS) {
        return Err(Fault::Positions(place));
    }
    Ok(())
}

// What the text is judged: nothing is wrong, or the first fault in the order of judgement, with its place.
pub fn judge(text: &[u8]) -> Result<(), Fault>
    ensures { JudgesText text.now result }
{
    let mut x = Reading::new();
    for (place, &b) in text.iter().enumerate() {
        judge_step::advance(&mut x, b, place);
        if let Stage::Stuck = x.stage {
            return Err(Fault::Syntax(place));
        }
    }
    if !may_end(&x) {
        return Err(Fault::Syntax(text.len()));
    }
    first_fault(&x)
}
