// Whether a plan changes nothing of its room: as many states and classes, each state its own number, each byte its own class. Then the cells and marks are the room's too.
ghost use Rattle.buffers.specs.Stored.{Decides};
ghost use Rattle.smallest_plan.specs.Planned.{Planned};
ghost use Rattle.smallest.specs.Stays.{Stays};

use room::Table;
use scope::Machine;
use smallest_plan::Plan;

// Whether a plan changes nothing.
pub fn stays(room: &Table, plan: &Plan) -> bool
    requires { Planned room.now plan.now }
    ensures { Decides result (Stays room.now plan.now) }
{
    let head = room.head();
    let n = plan.states.count;
    n == head.states
        && plan.classes.count == head.classes
        && smallest_plan::is_same_order(&plan.states.order[..n])
        && buffers::same(&plan.classes.class, room.classes(), Machine::BYTES)
}
