// What lines are made of, each piece put behind the one before: a byte, a text, a number in decimal, a string in hex.
#![tactic(auto)]

ghost use Rattle.std.specs.Prelude.{◌≡◌, [], ◌∷◌, ◌<◌, length};
ghost use Rattle.scope.specs.Lines.{decimal, hex_digit, shown};
ghost use Rattle.line_pieces.specs.Lines.{RoomFor, PutBehind};

// The lines put into `out` so far: its first `at` bytes. The next piece goes behind them.
#[derive(Drop)]
pub struct Lines<'a> {
    out: &'a mut [u8],
    at: usize,
}

impl<'a> Lines<'a> {
    // No line yet.
    pub fn new(out: &'a mut [u8]) -> Lines<'a>
        ensures same_buffer { result.out.ghost_name ≡ out.entry.ghost_name }
        ensures kept { result.out.now ≡ out.old }
        ensures none { result.at ≡ 0 }
    {
        Lines { out, at: 0 }
    }

    // How many bytes the lines have.
    pub fn size(&self) -> usize
        ensures { result ≡ self.now.at }
    {
        self.at
    }

    // Puts one byte.
    pub fn byte(&mut self, byte: u8)
        requires { RoomFor 1 self.old }
        ensures { PutBehind (byte ∷ []) self.old self.new }
    {
        self.out[self.at] = byte;
        self.at += 1;
    }

    // Puts a text.
    pub fn text(&mut self, text: &[u8])
        requires { RoomFor (length text.now) self.old }
        ensures { PutBehind text.now self.old self.new }
    {
        let next = self.at + text.len();
        self.out[self.at..next].copy_from_slice(text);
        self.at = next;
    }

    // Puts `n` in decimal; it has few digits, so the calls are few.
    // By `write!` each piece would answer a Result, though there is always room for it.
    pub fn decimal(&mut self, n: usize)
        requires { RoomFor (length (decimal n)) self.old }
        ensures { PutBehind (decimal n) self.old self.new }
    {
        if n >= 10 {
            self.decimal(n / 10);
        }
        self.byte(b'0' + (n % 10) as u8);
    }

    // Puts the bytes of `word` in hex, `-` if it has none.
    pub fn word(&mut self, word: &[u8])
        requires { RoomFor (length (shown word.now)) self.old }
        ensures { PutBehind (shown word.now) self.old self.new }
    {
        if word.is_empty() {
            return self.byte(b'-');
        }
        for &byte in word {
            self.byte(hex_digit(byte / 16));
            self.byte(hex_digit(byte % 16));
        }
    }
}

// The hex digit of `d`.
// `char::from_digit` answers an Option of a char, and every `d` here has a digit of one byte.
fn hex_digit(d: u8) -> u8
    requires { d < 16 }
    ensures { result ≡ hex_digit d }
{
    if d < 10 { b'0' + d } else { b'a' + d % 10 }
}
