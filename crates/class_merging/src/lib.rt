// The classes: the kinds of bytes whose columns lead each state to the same state. The kinds come in the order of their least bytes, and a kind is compared with the
// first of each class so far, so the classes are numbered by their smallest byte.
#![tactic(auto)]

ghost use Rattle.std.specs.Prelude.{◌≤◌, ◌<◌, length, get_or, All};
ghost use Rattle.scope.specs.Limits.{byte_values};
ghost use Rattle.scope.specs.Machines.Room.{classes_of, Below, SoundTable};
ghost use Rattle.buffers.specs.Stored.{Decides};
ghost use Rattle.smallest_plan.specs.Smallest.{StatesIn};
ghost use Rattle.smallest_plan.specs.Classed.{SameColumn};
ghost use Rattle.class_merging.specs.Merged.{FirstWith, Distinct, MergedClasses, ColumnMap};

use room::Table;
use scope::Machine;
use smallest_plan::{Classes, Rows, States};

// Whether the columns u and v lead each state to the same state.
fn are_alike(rows: &Rows, u: u8, v: u8) -> bool
    requires { (u < classes_of rows.now.room) × (v < classes_of rows.now.room) }
    ensures { Decides result (SameColumn rows.now.room rows.now.states.now u v) }
{
    (0..rows.states.count).all(|q| rows.cell(q, u) == rows.cell(q, v))
}

// The first of the leaders that is alike to the column u.
fn find(rows: &Rows, leaders: &[u8], u: u8) -> Option<usize>
    requires columns { All (λ v. v < classes_of rows.now.room) leaders.now }
    requires column { u < classes_of rows.now.room }
    ensures { FirstWith (λ c. SameColumn rows.now.room rows.now.states.now (get_or leaders.now c 0) u) (length leaders.now) result }
{
    leaders
        .iter()
        .position(|&leader| are_alike(rows, leader, u))
}

// The class of each byte: that of its column. Mostly each column has the class of its own number, and then the bytes keep theirs.
pub fn of_bytes(room: &Table, sort: &[u8; Machine::BYTES], class: &mut [u8; Machine::BYTES])
    ensures { ColumnMap room.now sort.now class.new }
{
    if smallest_plan::is_same_order(&sort[..room.head().classes]) {
        buffers::copy(room.classes(), class, Machine::BYTES);
    } else {
        for (byte, &column) in room.classes().iter().enumerate() {
            class[byte] = sort[column as usize];
        }
    }
}

// Merges the kinds whose columns are alike, and tells the class of each byte.
pub fn merge(room: &Table, states: &States, columns: &[u8], classes: &mut Classes)
    requires states_in { StatesIn room.now states.now }
    requires distinct { (length columns.now ≤ byte_values) × Below columns.now 0 (length columns.now) (classes_of room.now) × Distinct columns.now (length columns.now) }
    ensures { MergedClasses room.now states.now columns.now classes.new }
{
    let rows = Rows::new(room, states);
    let mut sort = [0u8; Machine::BYTES];
    let mut count = 0;
    for &u in columns {
        if let Some(c) = find(&rows, &classes.leader[..count], u) {
            sort[u as usize] = c as u8;
        } else {
            sort[u as usize] = count as u8;
            classes.leader[count] = u;
            count += 1;
        }
    }
    classes.count = count;
    of_bytes(room, &sort, &mut classes.class);
}
