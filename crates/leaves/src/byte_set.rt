// Byte sets of positions, into which the bytes of a range are put.
ghost use Rattle.std.specs.Prelude.{◌≡◌, ℕ, ◌<◌, ◌≤◌, length};
ghost use Rattle.scope.specs.Positions.Bits.{has};
ghost use Rattle.scope.specs.Bytes.{between};
ghost use Rattle.scope.specs.Limits.{position_limit};
ghost use Rattle.sets.specs.Layout.{byte_sets};
ghost use Rattle.leaves.specs.GrownSets.{SetGrown};

use sets::layout::BYTE_SET;

// The byte that has the bits from first to last.
fn bits(first: usize, last: usize) -> u8
    requires { (first < 8) × (last < 8) }
    ensures { (n : ℕ) → has result n ≡ between first last n }
{
    (u8::MAX << first) & (u8::MAX >> (7 - last))
}

// Puts the bytes low to high into the set of the position that has k others before it, in one step those that have their bits in one byte.
pub fn insert(bytes: &mut [u8], k: usize, low: u8, high: u8)
    requires { (k < position_limit) × (byte_sets ≤ length bytes.old) }
    ensures { SetGrown k (between low high) bytes.old bytes.new }
{
    let from = low as usize;
    let to = high as usize;
    for i in from / 8..to / 8 + 1 {
        let first = from.max(8 * i);
        let last = to.min(8 * i + 7);
        bytes[k * BYTE_SET + i] |= bits(first % 8, last % 8);
    }
}
