// How a side is refused.
ghost use Rattle.std.specs.Prelude.{◌≡◌, ◌≢◌};
ghost use Rattle.scope.specs.Answers.{DONE};
ghost use Rattle.answers.specs.Numbers.{compile_refusal_number, compile_refusal_place};

use answers::{CompileRefusal, Numbered};

// The number and the place that are shown, whatever they are. The number is not that of a side that is compiled.
#[derive(Clone, Copy)]
pub struct Refused {
    pub number: u8,
    pub place: usize,
    pub ghost refused: { number ≢ DONE },
}

impl From<CompileRefusal> for Refused {
    ghost from_gives = { λ e r. (r.number ≡ compile_refusal_number e) × (r.place ≡ compile_refusal_place e) };

    // A refusal of compiling is shown by its number and place.
    fn from(refusal: CompileRefusal) -> Refused {
        Refused {
            number: refusal.number(),
            place: refusal.value(),
        }
    }
}
