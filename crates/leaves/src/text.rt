// Single bytes of a pattern's text. The text and the place are two parameters: the text stays, and each call is of another place.
ghost use Rattle.std.specs.Prelude.{◌≡◌, ◌<◌, ◌≤◌, length};
ghost use Rattle.scope.specs.Bytes.{byte};
ghost use Rattle.scope.specs.Text.Grammar.{Escape, ClassByte};
ghost use Rattle.scope.specs.Limits.{pattern_limit};
ghost use Rattle.leaves.specs.ReadAt.{byte_of, Backslash, Some};

use literals::hex_value;

// A byte that was read, and the place after it.
#[derive(Clone, Copy)]
pub struct Taken {
    pub next: usize,
    pub byte: u8,
}

// The byte at a place of the text, unless that is past its end.
pub fn byte_at(text: &[u8], at: usize) -> Option<u8>
    ensures { byte_of result ≡ byte text.now at }
{
    text.get(at).copied()
}

// The byte after a backslash at a place, if one is there.
pub fn escaped(text: &[u8], at: usize) -> Option<u8>
    requires { (at < length text.now) × (length text.now ≤ pattern_limit) }
    ensures { Backslash text.now at (byte_of result) }
{
    match text[at] {
        b'\\' => byte_at(text, at + 1),
        _ => None,
    }
}

// The byte that an escape is.
pub fn escape(text: &[u8], at: usize) -> Taken
    requires { Some Escape text.now at }
    ensures { Escape text.now at result.next result.byte }
{
    match text[at + 1] {
        b'x' => Taken {
            next: at + 4,
            byte: hex_value(text[at + 2]).unwrap() * 16 + hex_value(text[at + 3]).unwrap(),
        },
        byte => Taken { next: at + 2, byte },
    }
}

// A byte in a class.
pub fn class_byte(text: &[u8], at: usize) -> Taken
    requires { Some ClassByte text.now at }
    ensures { ClassByte text.now at result.next result.byte }
{
    match text[at] {
        b'\\' => escape(text, at),
        byte => Taken { next: at + 1, byte },
    }
}
