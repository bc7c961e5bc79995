// The room: the bytes of the smallest machine, part by part.
#![tactic(auto)]

ghost use Rattle.std.specs.Prelude.{◌≡◌, ◌+◌, ◌*◌, ◌≤◌, ◌<◌, ℕ, length, get_or, All};
ghost use Rattle.scope.specs.Limits.{class_limit, cells_at, ways_at};
ghost use Rattle.scope.specs.Machines.Room.{classes_of, mark_of, Below};
ghost use Rattle.scope.specs.Operations.Buffers.{Written};
ghost use Rattle.buffers.specs.Stored.{Stored};
ghost use Rattle.smallest_plan.specs.Smallest.{led};
ghost use Rattle.smallest_plan.specs.Planned.{Planned};
ghost use Rattle.room_writing.specs.PlanImage.{table_byte, image_byte};

use room::Table;
use scope::Machine;
use smallest_plan::{Classes, Plan, Rows};

// Writes the marks of the rows.
fn write_marks(rows: &Rows, marks: &mut [u8])
    requires { length marks.old ≡ rows.now.states.now.count }
    ensures { (q : ℕ) → q < length marks.new → get_or marks.new q 0 ≡ mark_of rows.now.room (get_or rows.now.states.now.order q 0) }
{
    for (q, mark) in marks.iter_mut().enumerate() {
        *mark = rows.mark(q);
    }
}

// Writes the cells of the row q, one for each leader.
fn write_row(rows: &Rows, q: usize, leaders: &[u8], cells: &mut [u8])
    requires row { q < rows.now.states.now.count }
    requires columns { All (λ u. u < classes_of rows.now.room) leaders.now }
    requires size { length cells.old ≡ length leaders.now }
    ensures { (c : ℕ) → c < length leaders.now → get_or cells.new c 0 ≡ led rows.now.room rows.now.states.now q (get_or leaders.now c 0) }
{
    let row = rows.row(q);
    let into = &rows.states.into;
    for (c, &leader) in leaders.iter().enumerate() {
        cells[c] = into[row[leader as usize] as usize];
    }
}

// Writes the cells, row by row.
fn write_cells(rows: &Rows, classes: &Classes, to: &mut [u8])
    requires few { classes.now.count ≤ class_limit }
    requires columns { Below classes.now.leader 0 classes.now.count (classes_of rows.now.room) }
    requires ways_at_in_bounds { ways_at ≤ length to.old }
    ensures { Stored to.old to.new cells_at (cells_at + rows.now.states.now.count * classes.now.count) (table_byte rows.now.room rows.now.states.now classes.now) }
{
    let k = classes.count;
    let mut at = Machine::CELLS_AT;
    for q in 0..rows.states.count {
        write_row(rows, q, &classes.leader[..k], &mut to[at..at + k]);
        at += k;
    }
}

// Writes the room of a plan, up to the ways home.
pub fn write(room: &Table, plan: &Plan, to: &mut [u8])
    requires planned { Planned room.now plan.now }
    requires ways_at_in_bounds { ways_at ≤ length to.old }
    ensures { Written ways_at (image_byte room.now plan.now) to.old to.new }
{
    let rows = Rows::new(room, &plan.states);
    let head = Machine {
        states: plan.states.count,
        classes: plan.classes.count,
    };
    let marks_end = Machine::MARKS_AT + head.states;
    let cells_end = Machine::CELLS_AT + head.states * head.classes;
    room::write_head(to, head);
    buffers::write_classes(to, &plan.classes.class);
    write_marks(&rows, &mut to[Machine::MARKS_AT..marks_end]);
    buffers::fill(to, marks_end, Machine::CELLS_AT, 0);
    write_cells(&rows, &plan.classes, to);
    buffers::fill(to, cells_end, Machine::WAYS_AT, 0);
}
