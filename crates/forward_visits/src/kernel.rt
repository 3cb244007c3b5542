// The visits: joints rising, joints falling, the root, joints rising.
ghost use Rattle.std.specs.Prelude.{◌≡◌, ◌+◌, ◌≤◌, length};
ghost use Rattle.forward_slots.specs.Layout.{Room};
ghost use Rattle.forward_visits.specs.Kernel.{outcome_of, pass_visit, visits_for};

use crate::task::Task;
use calls::position::Outcome;
use forward_passes::{first, root, second, third};
use refusals::Refusal;

// The last visit accepts.
#[tactic(auto, unfolding(crate::specs::Kernel::outcome_of))]
fn outcome(v: Result<(), Refusal>, last: bool) -> Outcome
    ensures { result ≡ outcome_of v last }
{
    match v {
        Err(refusal) => Outcome::Refused(refusal),
        Ok(()) if last => Outcome::Accepted,
        Ok(()) => Outcome::Open,
    }
}

// Visit `at`, after what the first brings.
#[tactic(auto, unfolding(crate::specs::Kernel::pass_visit))]
fn pass(task: &Task, ws: &mut [f64], at: usize) -> Result<(), Refusal>
    requires { let p = task.now.arm.plan in Room p (length ws.old) × (at ≤ p.n + p.n + p.n) }
    ensures { let t = task.now in (result, ws.new) ≡ pass_visit t.arm.plan t.rotation t.velocity t.arm.model.now t.inputs.q.now t.inputs.qd.now t.inputs.forces.now at ws.old }
{
    let arm = &task.arm;
    let n = arm.plan.n;
    let i = &task.inputs;
    if at < n {
        first::first_visit(arm, task.velocity, i.q, i.qd, ws, at);
        return Ok(());
    }
    if at < n + n {
        return second::second_visit(arm, i.forces, ws, n + n - 1 - at);
    }
    if at == n + n {
        return root::root_visit(arm.plan, task.rotation, task.velocity, i.forces, ws);
    }
    third::third_visit(arm, ws, at - (n + n) - 1)
}

// Visit `at`.
#[tactic(auto, unfolding(crate::specs::Kernel::visit_of))]
pub fn visit(task: &Task, ws: &mut [f64], at: usize) -> Outcome
    requires { let p = task.now.arm.plan in Room p (length ws.old) × (at ≤ p.n + p.n + p.n) }
    ensures { (result, ws.new) ≡ visits_for task.now at ws.old }
{
    let n = task.arm.plan.n;
    let i = &task.inputs;
    root::begin(task.arm.model, task.velocity, i.loaded, i.loads, ws, at);
    outcome(pass(task, ws, at), at == n + n + n)
}
