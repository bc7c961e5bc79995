// The byte sets of all positions of a judged text, made in one pass from left to right.
#![tactic(auto)]

ghost use Rattle.std.specs.Prelude.{◌≡◌, ◌≤◌, length};
ghost use Rattle.scope.specs.Limits.{pattern_limit};
ghost use Rattle.sets.specs.Layout.{byte_sets};
ghost use Rattle.byte_sets.specs.LeavesOf.{is_frame, LeafFound};
ghost use Rattle.byte_sets.specs.BytesCame.{Fillable, Filled};

use leaves::single;
use leaves::text::escaped;
use literals::is_mark;

// Whether b stands around leaves: a parenthesis, the bar or a mark.
fn is_frame(b: u8) -> bool
    ensures { result ≡ is_frame b }
{
    is_mark(b as usize) | (b == b'(') | (b == b')') | (b == b'|')
}

// Where the next atom of one position begins, at a place or after it, if there is one.
fn next_leaf(text: &[u8], at: usize) -> Option<usize>
    requires { length text.now ≤ pattern_limit }
    ensures { LeafFound text.now at result }
{
    let mut next = at;
    while next < text.len() {
        if is_frame(text[next]) {
            next += 1;
        } else if let Some(b'e' | b'0') = escaped(text, next) {
            next += 2;
        } else {
            return Some(next);
        }
    }
    None
}

// Puts the bytes of every position of a judged text into its byte set.
pub fn fill(text: &[u8], bytes: &mut [u8])
    requires { Fillable text.now × (byte_sets ≤ length bytes.old) }
    ensures { Filled text.now bytes.old bytes.new }
{
    let mut k = 0;
    let mut from = 0;
    while let Some(at) = next_leaf(text, from) {
        from = single(text, at, k, bytes);
        k += 1;
    }
}
