// Runs of byte values: stretches that every position holds wholly or not at all. Neighbouring byte values that no position tells apart are split, and given
// their masks, once. A run is known by its last byte, its end; the ends are kept as bits, 64 byte values a word.
#![tactic(auto)]

ghost use Rattle.std.specs.Prelude.{◌≡◌, true, ℕ, ◌*◌, ◌^◌, ◌<◌, ◌≤◌, ◌+◌, length, slice_index};
ghost use Rattle.scope.specs.Limits.{byte_values, position_limit};
ghost use Rattle.sets.specs.Layout.{byte_set, bit_at};
ghost use Rattle.byte_runs.specs.Runs.{last_byte, is_end, EightBytes, EndsNoted, RunEnd, RunsOf, Like};

use scope::Machine;
use sets::layout::BYTE_SET;

// The byte sets of an expression: those of so many positions, from the start of the bytes on. They are no part of the bytes cut out, since the byte after the last set is read
// too.
#[derive(Clone, Copy)]
pub struct ByteSets<'a> {
    pub bytes: &'a [u8],
    pub count: usize,
    ghost few: { count ≤ position_limit },
    ghost there: { count * byte_set ≤ length bytes.now },
}

// How many words have a bit for each byte value.
pub const END_WORDS: usize = Machine::BYTES / 64;

// The ends of runs of byte values, 255 among them.
#[derive(Clone, Copy)]
pub struct RunEnds {
    pub words: [u64; END_WORDS],
    ghost last: { is_end words last_byte ≡ true },
    ghost fits: { (w : ℕ) → slice_index words w < 2 ^ 64 },
}

// The highest bit of a word.
const HIGHEST: u64 = 1 << 63;

// 1 if the position p + 1 holds the byte b, else 0: a number, since splitting makes a key of it and a class. b is a usize, since runs end at a number of byte values.
pub fn bit(bytes: &[u8], p: usize, b: usize) -> usize
    requires { (b < byte_values) × (p * byte_set + byte_set ≤ length bytes.now) }
    ensures { (result ≡ bit_at bytes.now p b) × (result < 2) }
{
    let x = bytes[p * BYTE_SET + b / 8] as usize;
    (x >> (b % 8)) % 2
}

// The eight bytes from `at` on as one number, the lowest first.
fn word(bytes: &[u8], at: usize) -> u64
    requires { at + 8 ≤ length bytes.now }
    ensures { EightBytes bytes.now at result }
{
    let mut eight = [0u8; 8];
    eight.copy_from_slice(&bytes[at..at + 8]);
    u64::from_le_bytes(eight)
}

// Adds to the ends each b where the position p + 1 holds one of b and b + 1 and not the other. 255, after which the byte set is over, is an end anyway.
fn note(bytes: &[u8], p: usize, ends: &mut [u64; END_WORDS])
    requires { p * byte_set + byte_set < length bytes.now }
    ensures { EndsNoted bytes.now p ends.old ends.new byte_values }
{
    for (w, noted) in ends.iter_mut().enumerate() {
        let at = p * BYTE_SET + 8 * w;
        let x = word(bytes, at);
        let y = bytes[at + 8] as u64;
        *noted |= x ^ (y % 2 * HIGHEST + x / 2);
    }
}

// The ends of the runs of byte values that all positions hold wholly or not at all.
pub fn find(sets: ByteSets) -> RunEnds
    requires { sets.count * byte_set < length sets.bytes.now }
    ensures { RunsOf (Like sets.entry.bytes.now sets.entry.count) result.words }
{
    let mut words = [0u64; END_WORDS];
    words[END_WORDS - 1] = HIGHEST;
    for p in 0..sets.count {
        note(sets.bytes, p, &mut words);
    }
    RunEnds { words }
}

impl RunEnds {
    // The end of the run that b is in.
    pub fn end_of(self, b: usize) -> usize
        requires { b < byte_values }
        ensures { RunEnd self.words b result }
    {
        let mut w = b / 64;
        let mut rest = (self.words[w] >> (b % 64)) << (b % 64);
        // 255 is an end, so a word that has one comes, and no bound is tested.
        while rest == 0 {
            w += 1;
            rest = self.words[w];
        }
        64 * w + u64::trailing_zeros(rest) as usize
    }
}
