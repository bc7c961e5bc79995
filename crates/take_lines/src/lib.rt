// How the program `alike` takes its two lines from an input that comes in blocks.
#![tactic(auto)]

ghost use Rattle.std.specs.Prelude.{◌≡◌, List, [], ◌∷◌, ℕ, ◌+◌, ◌≤◌, min, length};
ghost use Rattle.scope.specs.Limits.{pattern_limit};
ghost use Rattle.take_lines.specs.Taking.{ended, GrownBy, Taken, TakesBlock};

use scope::Machine;

// The line that the next byte of the input belongs to: both are ended before a further one.
#[derive(Clone, Copy, PartialEq, Eq)]
pub enum Line {
    First,
    Second,
    Further,
}

impl Line {
    // The line behind this one.
    fn next(self) -> Line
        ensures { ended result ≡ min (ended self + 1) 2 }
    {
        match self {
            Line::First => Line::Second,
            Line::Second => Line::Further,
            Line::Further => Line::Further,
        }
    }
}

// How far the two lines are taken: at which one, and their lengths so far; one more than a pattern may have stands for any more.
// Their buffers are lent beside it, since `TakesBlock` says of each apart what is kept.
#[derive(Clone, Copy)]
pub struct Taking {
    pub line: Line,
    pub first: usize,
    pub second: usize,
}

// Nothing is taken yet.
pub fn begin() -> Taking
    ensures { (left right : List ℕ) → Taken [] result left right }
{
    Taking {
        line: Line::First,
        first: 0,
        second: 0,
    }
}

// Puts one byte more to a line of so many bytes; answers how many it then has.
// `Held` counts an over-long line as one byte too long: so it is a text that is refused as too long, like any longer one.
fn keep(line: &mut [u8], count: usize, byte: u8) -> usize
    requires { pattern_limit ≤ length line.old }
    ensures { GrownBy byte count result line.old line.new }
{
    if count < Machine::PATTERN {
        line[count] = byte;
        return count + 1;
    }
    count.max(Machine::PATTERN + 1)
}

// Takes one byte of the input.
fn take_byte(t: Taking, byte: u8, left: &mut [u8], right: &mut [u8]) -> Taking
    requires { (pattern_limit ≤ length left.old) × (pattern_limit ≤ length right.old) }
    ensures { TakesBlock (byte ∷ []) t result left.old left.new right.old right.new }
{
    if byte == b'\n' {
        return Taking {
            line: t.line.next(),
            ..t
        };
    }
    match t.line {
        Line::First => Taking {
            first: keep(left, t.first, byte),
            ..t
        },
        Line::Second => Taking {
            second: keep(right, t.second, byte),
            ..t
        },
        Line::Further => t,
    }
}

// Takes one block of the input: the bytes of the two lines go into `left` and `right`, and those behind them are not looked at.
pub fn take_block(t: Taking, block: &[u8], left: &mut [u8], right: &mut [u8]) -> Taking
    requires { (pattern_limit ≤ length left.old) × (pattern_limit ≤ length right.old) }
    ensures { TakesBlock block.now t result left.old left.new right.old right.new }
{
    let mut so_far = t;
    for &byte in block {
        if let Line::Further = so_far.line {
            return so_far;
        }
        so_far = take_byte(so_far, byte, left, right);
    }
    so_far
}
