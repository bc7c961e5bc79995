// The sets of bytes that the pattern language names, and the value of a hex digit. A test has no branch.
#![tactic(auto)]

ghost use Rattle.std.specs.Prelude.{◌≡◌, ◌<◌, SomeIff};
ghost use Rattle.scope.specs.Bytes.{between};
ghost use Rattle.scope.specs.Text.Grammar.{twelve, literal, escapable, class_literal, is_mark, hex};

// Whether b is one of low to high.
fn is_in(b: u8, low: u8, high: u8) -> bool
    ensures { result ≡ between low high b }
{
    (low <= b) & (b <= high)
}

// Whether b is one of the twelve: `( ) * +`, `.`, `?`, `[ \ ]`, `{ | }`.
fn is_twelve(b: u8) -> bool
    ensures { result ≡ twelve b }
{
    is_in(b, b'(', b'+') | (b == b'.') | (b == b'?') | is_in(b, b'[', b']') | is_in(b, b'{', b'}')
}

// Whether b is a literal: 0x20 to 0x7E, except the twelve.
pub fn is_literal(b: u8) -> bool
    ensures { result ≡ literal b }
{
    is_in(b, b' ', b'~') & !is_twelve(b)
}

// Whether b may be escaped: one of the twelve, `^` or `-`.
pub fn is_escapable(b: u8) -> bool
    ensures { result ≡ escapable b }
{
    is_twelve(b) | (b == b'^') | (b == b'-')
}

// Whether b stands for itself in a class: 0x20 to 0x7E, except `-` and `[ \ ] ^`.
pub fn is_bare(b: u8) -> bool
    ensures { result ≡ class_literal b }
{
    is_in(b, b' ', b',') | is_in(b, b'.', b'Z') | is_in(b, b'_', b'~')
}

// Whether b is a mark: `*`, `+` or `?`.
pub fn is_mark(b: usize) -> bool
    ensures { result ≡ is_mark b }
{
    (b == b'*' as usize) | (b == b'+' as usize) | (b == b'?' as usize)
}

// The value of a hex digit, if b is one.
pub fn hex_value(b: u8) -> Option<u8>
    ensures { SomeIff result (hex b < 16) (hex b) }
{
    let digit = (b as char).to_digit(16)?;
    Some(digit as u8)
}
