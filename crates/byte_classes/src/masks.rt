// For each class the positions that hold its bytes.
ghost use Rattle.std.specs.Prelude.{◌≡◌, ℕ, ◌<◌};
ghost use Rattle.scope.specs.Limits.{byte_values};
ghost use Rattle.sets.specs.Value.{set_value};
ghost use Rattle.byte_classes.specs.Group.{own_place, Grouped};
ghost use Rattle.byte_runs.specs.Runs.{RunsOf, Like};
ghost use Rattle.byte_classes.specs.Masks.{mask_of, Masked};

use crate::group::Groups;
use byte_runs::{ByteSets, RunEnds};
use scope::Machine;
use sets::Set;

// The positions that hold the byte b.
fn byte_mask(sets: ByteSets, b: usize) -> Set
    requires { b < byte_values }
    ensures { set_value result.words ≡ mask_of sets.entry.bytes.now b sets.entry.count }
{
    let mut mask = Set::none();
    for p in 0..sets.count {
        if byte_runs::bit(sets.bytes, p, b) == 1 {
            mask = mask.with(p + 1);
        }
    }
    mask
}

// Writes the masks of the classes: each class has that of its first run, with which all its bytes agree.
pub fn class_masks(
    sets: ByteSets,
    ends: RunEnds,
    groups: &Groups,
    masks: &mut [u64; Machine::CLASSES * Machine::SET_WORDS],
)
    requires runs_of { RunsOf (Like sets.bytes.now sets.count) ends.words }
    requires grouped { (k : ℕ) × Grouped (Like sets.bytes.now sets.count) own_place groups.now.map k }
    ensures { Masked sets.entry.bytes.now sets.entry.count groups.now.map masks.new byte_values }
{
    let mut n = 0;
    let mut from = 0;
    while from < Machine::BYTES {
        let b = ends.end_of(from);
        let class = groups.map[b] as usize;
        if class == n {
            sets::store(masks, class, byte_mask(sets, b));
            n += 1;
        }
        from = b + 1;
    }
}
