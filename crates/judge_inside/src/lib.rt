// Inside one atom: the bytes of its class, with their ranges, and escapes, of the atom itself and of the bytes of a class.
#![tactic(auto)]

ghost use Rattle.std.specs.Prelude.{◌≡◌, ◌≢◌, ◌<◌};
ghost use Rattle.modes.specs.Modes.{back, code, digit};
ghost use Rattle.judge_state.specs.Reading.{piece_of, Bounded};
ghost use Rattle.judge_inside.specs.Steps.{Begins, Placeless, Advances};

use judge_state::{Piece, Reading, Stage};

// The byte b, where a byte of a class may begin.
pub fn begin_byte(x: &mut Reading, b: u8)
    requires { x.old.piece ≢ Piece.Atom }
    ensures begins { Begins (piece_of x.old.piece) x.old b 0 x.new }
    ensures bounded { Bounded x.old x.new }
{
    match b {
        _ if literals::is_bare(b) => x.read_as(b),
        b'\\' => x.stage = Stage::Back,
        _ => x.stage = Stage::Stuck,
    }
}

// The byte b, after a byte of a class.
pub fn after_byte(x: &mut Reading, b: u8, place: usize)
    requires { (x.old.stage ≡ Stage.Done) × (x.old.piece ≢ Piece.Atom) }
    ensures advances { Advances x.old b place x.new }
    ensures bounded { Bounded x.old x.new }
{
    match b {
        b']' => x.piece = Piece::Atom,
        b'-' => match x.piece {
            Piece::Low => {
                x.stage = Stage::Await;
                x.piece = Piece::High;
                x.from = place;
            }
            Piece::Atom | Piece::High => x.stage = Stage::Stuck,
        },
        _ => {
            x.piece = Piece::Low;
            begin_byte(x, b);
        }
    }
}

// The byte b, after a backslash.
pub fn after_back(x: &mut Reading, b: u8)
    ensures placeless { Placeless (back (piece_of x.old.piece)) x.old b x.new }
    ensures bounded { Bounded x.old x.new }
{
    match (b, x.piece) {
        _ if literals::is_escapable(b) => x.read_as(b),
        (b'x', _) => x.stage = Stage::Code,
        (b'e' | b'0', Piece::Atom) => x.stage = Stage::Done,
        _ => x.stage = Stage::Stuck,
    }
}

// The byte b, where the first digit of a code is awaited.
pub fn after_code(x: &mut Reading, b: u8)
    ensures placeless { Placeless (code (piece_of x.old.piece)) x.old b x.new }
    ensures bounded { Bounded x.old x.new }
{
    match literals::hex_value(b) {
        Some(value) => {
            x.stage = Stage::Digit;
            x.half = value;
        }
        None => x.stage = Stage::Stuck,
    }
}

// The byte b, where the second is.
pub fn after_digit(x: &mut Reading, b: u8)
    requires { x.old.half < 16 }
    ensures placeless { Placeless (digit (piece_of x.old.piece)) x.old b x.new }
    ensures bounded { Bounded x.old x.new }
{
    let half = x.half;
    match literals::hex_value(b) {
        Some(value) => x.read_as(half * 16 + value),
        None => x.stage = Stage::Stuck,
    }
}
