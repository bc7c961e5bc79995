// Spans of positions in the sets of a buffer: those after one position up to another. A set is changed there word by word, and no set is held by value.
#![tactic(auto)]

ghost use Rattle.std.specs.Prelude.{◌≡◌, ◌&&◌, ◌||◌, not, ℕ, ◌+◌, ◌*◌, ◌<◌, ◌≤◌, leb, length};
ghost use Rattle.scope.specs.Bytes.{between};
ghost use Rattle.scope.specs.Limits.{set_words};
ghost use Rattle.scope.specs.Positions.Bits.{has};
ghost use Rattle.sets.specs.Value.{set_bits, set_at};
ghost use Rattle.spans.specs.Became.{Became};

use scope::Machine;

// The positions after one up to another.
#[derive(Clone, Copy)]
pub struct Span {
    pub after: usize,
    pub upto: usize,
}

impl Span {
    // The bits of the word number w of a set that stand for its positions.
    fn bits(self, w: usize) -> u64
        ensures { (j : ℕ) → j < 64 → has result j ≡ between (self.after + 1) self.upto (64 * w + j) }
    {
        low(w, self.upto) & !low(w, self.after)
    }
}

// The bits of the word number w of a set that stand for the positions up to p.
fn low(w: usize, p: usize) -> u64
    ensures { (j : ℕ) → j < 64 → has result j ≡ leb (64 * w + j) p }
{
    if w < p / 64 {
        return u64::MAX;
    }
    if w == p / 64 {
        return u64::MAX >> (63 - p % 64);
    }
    0
}

// Whether p is in the set number i.
pub fn is_in(words: &[u64], i: usize, p: usize) -> bool
    requires { (p < set_bits) × (i * set_words + set_words ≤ length words.now) }
    ensures { result ≡ has (set_at words.now i) p }
{
    let at = i * Machine::SET_WORDS;
    (words[at + p / 64] >> (p % 64)) % 2 == 1
}

// Puts the positions of a span into the set number i.
pub fn add(words: &mut [u64], i: usize, span: Span)
    requires { i * set_words + set_words ≤ length words.old }
    ensures { Became words.old words.new i (λ q. has (set_at words.old i) q || between (span.after + 1) span.upto q) }
{
    let at = i * Machine::SET_WORDS;
    for w in 0..Machine::SET_WORDS {
        words[at + w] |= span.bits(w);
    }
}

// Takes the positions of a span out of the set number i.
pub fn remove(words: &mut [u64], i: usize, span: Span)
    requires { i * set_words + set_words ≤ length words.old }
    ensures { Became words.old words.new i (λ q. has (set_at words.old i) q && not (between (span.after + 1) span.upto q)) }
{
    let at = i * Machine::SET_WORDS;
    for w in 0..Machine::SET_WORDS {
        words[at + w] &= !span.bits(w);
    }
}

// Puts what the set number i has of a span into the set number p.
// It reads the words that it writes, as a closure over one word could not: so each of the three has its loop.
pub fn put(words: &mut [u64], p: usize, i: usize, span: Span)
    requires { (p ≡ i → ⊥) × (p * set_words + set_words ≤ length words.old) × (i * set_words + set_words ≤ length words.old) }
    ensures { Became words.old words.new p (λ q. has (set_at words.old p) q || (has (set_at words.old i) q && between (span.after + 1) span.upto q)) }
{
    let at = i * Machine::SET_WORDS;
    let into = p * Machine::SET_WORDS;
    for w in 0..Machine::SET_WORDS {
        words[into + w] |= words[at + w] & span.bits(w);
    }
}
