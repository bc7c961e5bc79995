// One byte more of a text: what is known after it, of what was known before it.
#![tactic(auto)]

ghost use Rattle.std.specs.Prelude.{◌≡◌, ◌<◌};
ghost use Rattle.modes.specs.Modes.{atom};
ghost use Rattle.judge_state.specs.Reading.{Bounded};
ghost use Rattle.judge_inside.specs.Steps.{Begins, Advances};
ghost use Rattle.judge_step.specs.Nests.{Nests};

use judge_state::{Piece, Reading, Stage};
use scope::Machine;

// A parenthesis opens.
fn nest(x: &mut Reading, place: usize)
    requires { (x.old.deep < 18446744073709551615) × (x.old.piece ≡ Piece.Atom) }
    ensures nests { Nests place x.old x.new }
    ensures bounded { Bounded x.old x.new }
{
    let around = x.deep;
    x.stage = Stage::Await;
    x.deep += 1;
    if around == Machine::NESTED {
        x.opens.more(0, place);
    }
}

// The byte b, where an atom may begin.
fn begin_atom(x: &mut Reading, b: u8, place: usize)
    requires { (x.old.deep < 18446744073709551615) × (x.old.piece ≡ Piece.Atom) }
    ensures begins { Begins atom x.old b place x.new }
    ensures bounded { Bounded x.old x.new }
{
    x.from = place;
    match b {
        _ if literals::is_literal(b) => x.read_as(b),
        b'\\' => x.stage = Stage::Back,
        b'.' => x.read_as(b),
        b'[' => {
            x.read_as(b);
            x.stage = Stage::Await;
            x.piece = Piece::Low;
        }
        b'(' => nest(x, place),
        _ => x.stage = Stage::Stuck,
    }
}

// The byte b, after an atom.
fn after_atom(x: &mut Reading, b: u8, place: usize)
    requires { (x.old.deep < 18446744073709551615) × (x.old.piece ≡ Piece.Atom) × (x.old.stage ≡ Stage.Done) }
    ensures advances { Advances x.old b place x.new }
    ensures bounded { Bounded x.old x.new }
{
    match b {
        _ if literals::is_mark(b as usize) => {}
        b'|' => x.stage = Stage::Await,
        b')' if 0 < x.deep => x.deep -= 1,
        b')' => x.stage = Stage::Stuck,
        _ => begin_atom(x, b, place),
    }
}

// One byte more, at place. That one parenthesis more can be counted is required of each step: `judge` alone knows that a text has fewer bytes.
pub fn advance(x: &mut Reading, b: u8, place: usize)
    requires { (x.old.deep < 18446744073709551615) × (x.old.half < 16) }
    ensures advances { Advances x.old b place x.new }
    ensures bounded { Bounded x.old x.new }
{
    match (x.stage, x.piece) {
        (Stage::Await, Piece::Atom) => begin_atom(x, b, place),
        (Stage::Await, _) => judge_inside::begin_byte(x, b),
        (Stage::Done, Piece::Atom) => after_atom(x, b, place),
        (Stage::Done, _) => judge_inside::after_byte(x, b, place),
        (Stage::Back, _) => judge_inside::after_back(x, b),
        (Stage::Code, _) => judge_inside::after_code(x, b),
        (Stage::Digit, _) => judge_inside::after_digit(x, b),
        (Stage::Stuck, _) => {}
    }
}
