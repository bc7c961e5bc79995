// Sets of positions by value. A set is a number whose bit p stands for the position p, bit 0 for the state 0; the number is kept in words of 64 bits,
// the lowest first.
#![tactic(auto)]

ghost use Rattle.std.specs.Prelude.{◌≡◌, ℕ, ◌+◌, ◌*◌, ◌^◌, ◌<◌, ◌≤◌, eqb, length, slice_index};
ghost use Rattle.std.specs.Int.Bits.{bit_or, bit_and};
ghost use Rattle.scope.specs.Limits.{set_words};
ghost use Rattle.sets.specs.Value.{set_bits, set_value, set_at, Put};

use scope::Machine;

pub mod layout;

// A set of positions: its words, each below 2 ^ 64.
#[derive(Clone, Copy, PartialEq, Eq)]
pub struct Set {
    pub words: [u64; Machine::SET_WORDS],
    ghost long: { length words ≡ set_words },
    ghost fits: { (w : ℕ) → slice_index words w < 2 ^ 64 },
}

impl Set {
    // How many bits a set has.
    pub const BITS: usize = 64 * Machine::SET_WORDS;

    // The empty set.
    pub fn none() -> Set
        ensures { set_value result.words ≡ 0 }
    {
        Set {
            words: [0u64; Machine::SET_WORDS],
        }
    }

    // The set of p alone.
    pub fn one(p: usize) -> Set
        requires { p < set_bits }
        ensures { set_value result.words ≡ 2 ^ p }
    {
        let mut r = [0u64; Machine::SET_WORDS];
        r[p / 64] = 1u64 << (p % 64);
        Set { words: r }
    }

    // The set, with p in it.
    pub fn with(self, p: usize) -> Set
        requires { p < set_bits }
        ensures { set_value result.words ≡ bit_or (set_value self.words) (2 ^ p) }
    {
        self.joined(Set::one(p))
    }

    // The union.
    pub fn joined(self, other: Set) -> Set
        ensures { set_value result.words ≡ bit_or (set_value self.words) (set_value other.words) }
    {
        let mut r = [0u64; Machine::SET_WORDS];
        for i in 0..Machine::SET_WORDS {
            r[i] = self.words[i] | other.words[i];
        }
        Set { words: r }
    }

    // What both have. It differs from the union in one operator, and a closure for that is as long as the loop.
    pub fn common(self, other: Set) -> Set
        ensures { set_value result.words ≡ bit_and (set_value self.words) (set_value other.words) }
    {
        let mut r = [0u64; Machine::SET_WORDS];
        for i in 0..Machine::SET_WORDS {
            r[i] = self.words[i] & other.words[i];
        }
        Set { words: r }
    }

    // Whether no position is in the set.
    pub fn is_empty(self) -> bool
        ensures { result ≡ eqb (set_value self.words) 0 }
    {
        self == Set::none()
    }
}

// The set number i of the words.
pub fn load(words: &[u64], i: usize) -> Set
    requires { i * set_words + set_words ≤ length words.now }
    ensures { set_value result.words ≡ set_at words.now i }
{
    let at = i * Machine::SET_WORDS;
    let mut r = [0u64; Machine::SET_WORDS];
    r.copy_from_slice(&words[at..at + Machine::SET_WORDS]);
    Set { words: r }
}

// Puts s into the words as their set number i.
pub fn store(words: &mut [u64], i: usize, s: Set)
    requires { i * set_words + set_words ≤ length words.old }
    ensures { Put words.old words.new i (set_value s.words) }
{
    let at = i * Machine::SET_WORDS;
    words[at..at + Machine::SET_WORDS].copy_from_slice(&s.words);
}
