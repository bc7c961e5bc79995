// What every layer needs of a lent buffer: fill, copy, compare, the greatest byte, whether all are 0, the classes of a room; each with a contract that says every element.
// A part is a buffer and two places in it, as `Stored`, `AtMost` and `Greatest` speak of it.
#![tactic(auto)]

ghost use Rattle.std.specs.Prelude.{◌+◌, ◌-◌, ◌≤◌, length, get_or};
ghost use Rattle.scope.specs.Limits.{classes_at, marks_at};
ghost use Rattle.scope.specs.Operations.Buffers.{Written, Scratch, Lent, Cleared};
ghost use Rattle.buffers.specs.Stored.{Decides, Stored, BeginAlike, AtMost, Greatest};

// Stores v from `from` up to `to`.
pub fn fill(m: &mut [u8], from: usize, to: usize, v: u8)
    requires { (from ≤ to) × (to ≤ length m.old) }
    ensures { Stored m.old m.new from to (λ i. v) }
{
    m[from..to].fill(v);
}

// Copies the first n bytes, and says so as `Written`, which parts put together by the library do not. The library's copy of slices becomes a call of `memmove` where n is known,
// which an archive would then need from outside.
pub fn copy(from: &[u8], to: &mut [u8], n: usize)
    requires { (n ≤ length from.now) × (n ≤ length to.old) }
    ensures { Written n (λ i. get_or from.now i 0) to.old to.new }
{
    for i in 0..n {
        to[i] = from[i];
    }
}

// Writes the class of each byte into a machine room.
pub fn write_classes(room: &mut [u8], class: &[u8; scope::Machine::BYTES])
    requires { marks_at ≤ length room.old }
    ensures { Stored room.old room.new classes_at marks_at (λ i. get_or class.now (i - classes_at) 0) }
{
    room[scope::Machine::CLASSES_AT..scope::Machine::MARKS_AT].copy_from_slice(class);
}

// Whether the first n bytes are the same. All are compared: an exit at the first that differs, as `==` of slices has, would keep them from being compared many at once.
pub fn same(a: &[u8], b: &[u8], n: usize) -> bool
    requires { (n ≤ length a.now) × (n ≤ length b.now) }
    ensures { Decides result (BeginAlike a.now b.now n) }
{
    let mut alike = true;
    for i in 0..n {
        if a[i] != b[i] {
            alike = false;
        }
    }
    alike
}

// The greatest byte from `from` up to `to`, 0 if there is none: where `from` lies beyond `to` too, which a part `m[from..to]` does not allow.
pub fn greatest(m: &[u8], from: usize, to: usize) -> u8
    requires { to ≤ length m.now }
    ensures { Greatest m.now from to result }
{
    let mut top: u8 = 0;
    for i in from..to {
        let x = m[i];
        if x > top {
            top = x;
        }
    }
    top
}

// From a multiple of this on, many bytes are read at once with no load across the borders of such blocks.
const BLOCK: usize = 16;

// Whether two parts of `half` bytes, the first from `from` on and the second after it, are all 0. They are read side by side.
fn are_zero_halves(m: &[u8], from: usize, half: usize) -> bool
    requires { from + half + half ≤ length m.now }
    ensures { Decides result (AtMost m.now from (from + half + half) 0) }
{
    let mut first: u8 = 0;
    let mut second: u8 = 0;
    for i in from..from + half {
        first |= m[i];
        second |= m[i + half];
    }
    first | second == 0
}

// Whether the bytes from `from` up to `to` are 0. Of a long part, two halves of whole blocks are read side by side.
pub fn are_zero(m: &[u8], from: usize, to: usize) -> bool
    requires { (from ≤ to) × (to ≤ length m.now) }
    ensures { Decides result (AtMost m.now from to 0) }
{
    let at = (from + (BLOCK - 1)) / BLOCK * BLOCK;
    if to < at {
        return greatest(m, from, to) == 0;
    }
    let half = (to - at) / (BLOCK * 4) * (BLOCK * 2);
    let rest = at + half + half;
    are_zero_halves(m, at, half) && greatest(m, from, at) == 0 && greatest(m, rest, to) == 0
}

// Whether the scratch is long enough. Its bytes and its words are lent apart, as the C interface has them, and each contract says what becomes of each.
pub fn is_scratch(bytes: &[u8], words: &[u64]) -> bool
    ensures { Decides result (Scratch bytes.now words.now) }
{
    bytes.len() >= scope::Machine::SCRATCH_BYTES && words.len() >= scope::Machine::SCRATCH_WORDS
}

// Whether a machine room and the scratch are long enough.
pub fn is_lent(room: &[u8], bytes: &[u8], words: &[u64]) -> bool
    ensures { Decides result (Lent room.now bytes.now words.now) }
{
    room.len() >= scope::Machine::ROOM && is_scratch(bytes, words)
}

// Makes the named scratch zero.
pub fn clear(bytes: &mut [u8], words: &mut [u64])
    requires { Scratch bytes.old words.old }
    ensures { Cleared bytes.old bytes.new words.old words.new }
{
    bytes[..scope::Machine::SCRATCH_BYTES].fill(0);
    words[..scope::Machine::SCRATCH_WORDS].fill(0);
}
