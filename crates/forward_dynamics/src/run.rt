// The visits in a row, from an open position on.
ghost use Rattle.std.specs.Prelude.{false, ◌≡◌, length};
ghost use Rattle.calls.specs.Plan.{Within};
ghost use Rattle.calls.specs.Position.{landed, step_by, iterate, opening};
ghost use Rattle.forward_slots.specs.Layout.{results_place, Room};
ghost use Rattle.forward_visits.specs.Kernel.{visits_for};

use calls::position;
use calls::position::{Outcome, Position, Progress};
use forward_slots::layout;
use forward_visits::kernel;
use forward_visits::task::Task;

// One visit of an open position.
#[tactic(auto, unfolding(calls::specs::Position::visits_of))]
fn step(task: &Task, ws: &mut [f64], out: &mut [f64], s: Position) -> Progress
    requires { let p = task.now.arm.plan in Room p (length ws.old) × (length out.old ≡ p.side) × Within false p s × (s.closed ≡ false) }
    ensures { let p = task.now.arm.plan in ((result, ws.new, out.new) ≡ landed (results_place p.n) (opening s, ws.old, out.old) (visits_for task.now s.visits ws.old)) × Within false p result.position }
{
    let o = kernel::visit(task, ws, s.visits);
    position::close(
        o,
        ws,
        out,
        task.arm.plan.n * layout::JOINT + layout::RESULTS,
    );
    s.advanced(o)
}

// At most `budget` visits.
pub fn run(task: &Task, ws: &mut [f64], out: &mut [f64], from: Position, budget: usize) -> Progress
    requires { let p = task.now.arm.plan in Room p (length ws.old) × (length out.old ≡ p.side) × Within false p from }
    ensures { (result, ws.new, out.new) ≡ iterate (step_by (visits_for task.now) (results_place task.now.arm.plan.n)) budget (opening from, ws.old, out.old) }
{
    let mut s = Progress {
        position: from,
        outcome: Outcome::Open,
    };
    for _ in 0..budget {
        let position = s.position;
        if position.closed {
            return s;
        }
        s = step(task, ws, out, position);
    }
    s
}
