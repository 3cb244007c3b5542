// The visits in a row, from an open position on.
ghost use Rattle.std.specs.Prelude.{true, false, ◌≡◌, ◌*◌, length};
ghost use Rattle.calls.specs.Plan.{Within};
ghost use Rattle.calls.specs.Position.{landed, step_by, iterate, opening};
ghost use Rattle.composites.specs.Plan.{matrix_place, Room};
ghost use Rattle.matrix_visits.specs.Kernel.{visit_of};

use calls::position;
use calls::position::{Outcome, Position, Progress};
use composites::plan as places;
use matrix_visits::kernel;
use matrix_visits::task::Task;

// One visit of an open position.
fn step(task: &Task, ws: &mut [f64], out: &mut [f64], s: Position) -> Progress
    requires { let p = task.now.fitted.plan in Room p (length ws.old) × (length out.old ≡ p.side * p.side) × Within true p s × (s.closed ≡ false) }
    ensures { let p = task.now.fitted.plan in ((result, ws.new, out.new) ≡ landed (matrix_place p.n) (opening s, ws.old, out.old) (visit_of p task.now.fitted.rotation task.now.fitted.model.now task.now.q.now s.visits ws.old)) × Within true p result.position }
{
    let o = kernel::visit(task, ws, s.visits);
    position::close(
        o,
        ws,
        out,
        task.fitted.plan.n * places::JOINT + places::ROOT,
    );
    s.advanced(o)
}

// At most `budget` visits.
pub fn run(task: &Task, ws: &mut [f64], out: &mut [f64], from: Position, budget: usize) -> Progress
    requires { let p = task.now.fitted.plan in Room p (length ws.old) × (length out.old ≡ p.side * p.side) × Within true p from }
    ensures { let p = task.now.fitted.plan in (result, ws.new, out.new) ≡ iterate (step_by (visit_of p task.now.fitted.rotation task.now.fitted.model.now task.now.q.now) (matrix_place p.n)) budget (opening from, ws.old, out.old) }
{
    let mut s = Progress {
        position: from,
        outcome: Outcome::Open,
    };
    for _ in 0..budget {
        if s.position.closed {
            return s;
        }
        s = step(task, ws, out, s.position);
    }
    s
}
