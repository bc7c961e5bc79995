// The room image: its classes, the rows, then the head and the marks.
ghost use Rattle.std.specs.Prelude.{◌≡◌, ◌+◌, ◌-◌, ◌*◌, ◌≤◌, length};
ghost use Rattle.std.specs.Int.Bits.{bit_or};
ghost use Rattle.scope.specs.Limits.{class_limit, state_limit, marks_at, room_bytes, set_words};
ghost use Rattle.scope.specs.Positions.Bits.{given};
ghost use Rattle.buffers.specs.Stored.{Stored};
ghost use Rattle.sets.specs.Value.{set_value};
ghost use Rattle.sets.specs.Layout.{sets_at};
ghost use Rattle.seats.specs.SeatLayout.{reached_set};
ghost use Rattle.reach.specs.Reach.{RowFits};
ghost use Rattle.determinise.specs.Image.{mark_by, MapWritten, Stated, ClassMap, ImageAnswer};

use answers::Excess;
use byte_classes::group::Groups;
use scope::Machine;
use sets::Set;
use sets::layout::SETS_AT;

// Writes the classes, and zeros around them.
fn write_map(image: &mut [u8], map: &[u8; Machine::BYTES])
    requires { room_bytes ≤ length image.old }
    ensures { MapWritten image.old image.new map.now }
{
    buffers::fill(image, 0, Machine::WAYS_AT, 0);
    buffers::write_classes(image, map);
}

// The positions of Last, and the state 0 if the expression is nullable.
pub fn finals(last: Set, null: bool) -> Set
    ensures { set_value result.words ≡ bit_or (set_value last.words) (given null 1) }
{
    if null { last.with(0) } else { last }
}

// The mark of a set: 1 if it has a final position, else 0.
fn mark(s: Set, finals: Set) -> u8
    ensures { result ≡ mark_by (set_value finals.words) (set_value s.words) }
{
    u8::from(!s.common(finals).is_empty())
}

// Writes the marks of the n reached sets.
fn write_marks(image: &mut [u8], words: &[u64], n: usize, finals: Set)
    requires { (n ≤ state_limit) × (room_bytes ≤ length image.old) × ((sets_at + state_limit) * set_words ≤ length words.now) }
    ensures { Stored image.old image.new marks_at (marks_at + n) (λ i. mark_by (set_value finals.words) (reached_set words.now (i - marks_at))) }
{
    for i in 0..n {
        image[Machine::MARKS_AT + i] = mark(sets::load(words, SETS_AT + i), finals);
    }
}

// Writes how many reached sets and classes there are, and the marks of the sets.
fn write_states(image: &mut [u8], words: &[u64], head: Machine, finals: Set)
    requires { (head.states ≤ state_limit) × (head.classes ≤ class_limit) × (room_bytes ≤ length image.old) × ((sets_at + state_limit) * set_words ≤ length words.now) }
    ensures { Stated image.old image.new (reached_set words.now) head.states head.classes (set_value finals.words) }
{
    room::write_head(image, head);
    write_marks(image, words, head.states, finals);
}

// Writes the image whose states are the reached sets, {0} first, if they are not too many.
pub fn determinise(
    image: &mut [u8],
    words: &mut [u64],
    masks: &[u64],
    groups: Groups,
    finals: Set,
) -> Result<(), Excess>
    requires row_fits { RowFits image.old words.old masks.now groups.classes 0 1 }
    requires class_map { ClassMap groups.map groups.classes }
    ensures { ImageAnswer image.old words.old masks.now groups.map (set_value finals.words) image.new words.new result }
{
    write_map(image, &groups.map);
    sets::store(words, SETS_AT, Set::one(0));
    let classes = groups.classes;
    let states = reach::rows(image, words, masks, classes).ok_or(Excess::States)?;
    write_states(image, words, Machine { states, classes }, finals);
    Ok(())
}
