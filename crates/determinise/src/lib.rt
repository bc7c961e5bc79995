// From the sets of positions of an expression to a sound room image whose states are the reached sets: `byte_runs` finds the runs of byte values, `byte_classes` gives their
// classes and masks, `reach` finds the reached sets row by row, and `image` writes the room around them.
#![tactic(auto)]

ghost use Rattle.std.specs.Prelude.{◌≤◌};
ghost use Rattle.scope.specs.Operations.Buffers.{Scratch};
ghost use Rattle.scope.specs.Limits.{position_limit};
ghost use Rattle.sets.specs.Value.{set_value};
ghost use Rattle.determinise.specs.Build.{Builds};

use answers::Excess;
use byte_runs::ByteSets;
use scope::Machine;
use sets::Set;
use sets::layout::IMAGE_AT;

mod image;

// Groups the byte values, determinises, and writes a sound room image into the scratch.
pub fn build(
    bytes: &mut [u8],
    words: &mut [u64],
    count: usize,
    last: Set,
    null: bool,
) -> Result<(), Excess>
    requires { (count ≤ position_limit) × Scratch bytes.old words.old }
    ensures { Builds bytes.old words.old count (set_value last.words) null bytes.new words.new result }
{
    let sets = ByteSets { bytes, count };
    let ends = byte_runs::find(sets);
    let groups = byte_classes::group::group(sets, ends).ok_or(Excess::Classes)?;
    let mut masks = [0u64; Machine::CLASSES * Machine::SET_WORDS];
    byte_classes::masks::class_masks(sets, ends, &groups, &mut masks);
    image::determinise(
        &mut bytes[IMAGE_AT..],
        words,
        &masks,
        groups,
        image::finals(last, null),
    )
}
