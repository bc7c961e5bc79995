// The pattern classes of the 256 byte values: "Two bytes share a pattern class when every position holds both or neither."
ghost use Rattle.std.specs.Prelude.{◌≡◌, ◌*◌, ◌≤◌, ◌+◌, length, get_or};
ghost use Rattle.scope.specs.Limits.{byte_values};
ghost use Rattle.buffers.specs.Stored.{Stored};
ghost use Rattle.sets.specs.Layout.{byte_set};
ghost use Rattle.byte_runs.specs.Runs.{RunsOf, Like};
ghost use Rattle.byte_classes.specs.Group.{end_of, Key, ClassesBelow, GroupAnswer};
ghost use Rattle.byte_classes.specs.Groups.{GroupsAnswer};

use byte_runs::{ByteSets, END_WORDS, RunEnds};
use scope::Machine;

// The class of each byte value, and how many classes there are.
#[derive(Clone, Copy)]
pub struct Groups {
    pub map: [u8; Machine::BYTES],
    pub classes: usize,
}

// Splits the classes of the runs by whether the position p + 1 holds their bytes, and answers how many there are, if not too many. The class of a run stands in `map`
// at its end. A class and a bit make a key; `names` has for each key its class, if it has one yet.
fn split(bytes: &[u8], p: usize, ends: RunEnds, map: &mut [u8; Machine::BYTES]) -> Option<usize>
    requires byte_set_in_bounds { p * byte_set + byte_set ≤ length bytes.now }
    requires classes_below { ClassesBelow (end_of ends.words) map.old }
    ensures { GroupAnswer (Key bytes.now p (end_of ends.words) map.old) (end_of ends.words) map.new result }
{
    let mut names = [None; 2 * Machine::CLASSES];
    let mut k = 0;
    for w in 0..END_WORDS {
        let mut rest = ends.words[w];
        while rest != 0 {
            let b = 64 * w + u64::trailing_zeros(rest) as usize;
            let key = 2 * (map[b] as usize) + byte_runs::bit(bytes, p, b);
            if let Some(class) = names[key] {
                map[b] = class;
            } else {
                if k == Machine::CLASSES {
                    return None;
                }
                map[b] = k as u8;
                names[key] = Some(k as u8);
                k += 1;
            }
            rest &= rest - 1;
        }
    }
    Some(k)
}

// Gives all bytes of a run the class that stands at its end.
fn spread(ends: RunEnds, map: &mut [u8; Machine::BYTES])
    ensures { Stored map.old map.new 0 byte_values (λ b. get_or map.old (end_of ends.words b) 0) }
{
    let mut from = 0;
    while from < Machine::BYTES {
        let end = ends.end_of(from);
        let class = map[end];
        buffers::fill(map, from, end + 1, class);
        from = end + 1;
    }
}

// The classes by all positions, if they are not too many: the runs, all of one class, are split by one position after the other, and their classes spread over the
// bytes.
pub fn group(sets: ByteSets, ends: RunEnds) -> Option<Groups>
    requires { RunsOf (Like sets.bytes.now sets.count) ends.words }
    ensures { GroupsAnswer (Like sets.entry.bytes.now sets.entry.count) result }
{
    let mut map = [0u8; Machine::BYTES];
    let mut classes = 1;
    for p in 0..sets.count {
        classes = split(sets.bytes, p, ends, &mut map)?;
    }
    spread(ends, &mut map);
    Some(Groups { map, classes })
}
