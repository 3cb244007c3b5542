// The calls of either calculation: start, portion and the undivided call. A model is lent: by value it would be copied at each call.
#![tactic(auto)]

pub mod calculation;

ghost use Rattle.std.specs.Prelude.{◌≡◌, OnOk, length};
ghost use Rattle.refusals.specs.Refusals.{or_else, fine};
ghost use Rattle.arm.specs.Model.{Good};
ghost use Rattle.arm.specs.Topology.{actives_of, active_numbers};
ghost use Rattle.calls.specs.Plan.{plan_by, Within};
ghost use Rattle.calls.specs.Position.{position_verdict, ran, start_of, portion_of, whole_of};
ghost use Rattle.forward_visits.specs.Inputs.{inputs_of};
ghost use Rattle.dynamics.specs.Calculation.{work_of, is_matrix, floats, verdict_of};

use crate::calculation::Calculation;
use arm::model::Model;
use arm::topology;
use articulated::root;
use calls::position::{Answer, Position};
use calls::{plan, position};
use forward_dynamics::{checks as forward_checks, run as forward};
use forward_passes::fitted::Fitted;
use forward_visits::task::{Inputs, Task};
use mass_matrix::{checks as matrix_checks, run as matrix};
use matrix_columns::fitted::Fitted as MatrixFitted;
use matrix_visits::task::Task as MatrixTask;
use refusals::Refusal;

// The checks to 22.
fn judged(
    c: Calculation,
    model: &Model,
    numbers: &[u8; 33],
    inputs: &Inputs,
    ws: usize,
    out: usize,
) -> Result<(), Refusal>
    requires { numbers.now ≡ active_numbers model.now.kinds }
    ensures verdict { let m = model.now in result ≡ verdict_of c m.n m.parents m.kinds (inputs_of inputs.now) ws out }
    ensures good { let m = model.now in OnOk result (Good m.n m.parents m.kinds) }
{
    match c {
        Calculation::Matrix(mode) => {
            matrix_checks::judged(mode, model, numbers, inputs.q, ws, out)
        }
        Calculation::Forward(mode) => {
            let rotation = mode.rotation();
            let base = mode.base();
            forward_checks::judged(
                mode.floats(),
                rotation,
                base,
                model,
                numbers,
                inputs,
                ws,
                out,
            )
        }
    }
}

// The checks of a portion.
#[tactic(auto, using(crate::proofs::Works::counted), unfolding(refusals::specs::Refusals::or_else))]
fn judged_at(
    position: Position,
    c: Calculation,
    model: &Model,
    numbers: &[u8; 33],
    inputs: &Inputs,
    ws: usize,
    out: usize,
) -> Result<(), Refusal>
    requires { numbers.now ≡ active_numbers model.now.kinds }
    ensures verdict { let m = model.now in result ≡ or_else (verdict_of c m.n m.parents m.kinds (inputs_of inputs.now) ws out) (position_verdict (is_matrix c) (floats c) m.n (actives_of m.kinds m.n) position) }
    ensures good { let m = model.now in OnOk result (Good m.n m.parents m.kinds) }
    ensures passed { let m = model.now in OnOk result (verdict_of c m.n m.parents m.kinds (inputs_of inputs.now) ws out ≡ fine) }
    ensures within { let m = model.now in OnOk result (Within (is_matrix c) (plan_by (floats c) m.n (actives_of m.kinds m.n)) position) }
{
    judged(c, model, numbers, inputs, ws, out)?;
    let a = topology::number_at(&model.kinds, numbers, model.n);
    position.judged(c.is_matrix(), c.floats(), model.n, a)
}

// What at most `budget` visits from a position answer, once the checks have passed.
#[tactic(auto, using(crate::proofs::Works::counted))]
fn ran<'a>(
    c: Calculation,
    a: usize,
    model: &'a Model,
    numbers: &'a [u8; 33],
    inputs: &'a Inputs<'a>,
    ws: &mut [f64],
    out: &mut [f64],
    from: Position,
    budget: usize,
) -> Answer
    requires numbered { numbers.now ≡ active_numbers model.now.kinds }
    requires counted { a ≡ actives_of model.now.kinds model.now.n }
    requires good { let m = model.now in Good m.n m.parents m.kinds }
    requires judged { let m = model.now in verdict_of c m.n m.parents m.kinds (inputs_of inputs.now) (length ws.old) (length out.old) ≡ fine }
    requires within { Within (is_matrix c) (plan_by (floats c) model.now.n a) from }
    ensures { (result, ws.new, out.new) ≡ ran (work_of c model.now (inputs_of inputs.now)) budget from ws.old out.old }
{
    let plan = plan::planned(c.floats(), model.n, a);
    match c {
        Calculation::Matrix(mode) => {
            let rotation = mode.rotation();
            let fitted = MatrixFitted {
                plan,
                rotation,
                model,
                numbers,
            };
            let task = MatrixTask {
                fitted,
                q: inputs.q,
            };
            from.answer(matrix::run(&task, ws, out, from, budget))
        }
        Calculation::Forward(mode) => {
            let rotation = mode.rotation();
            let velocity = root::root_velocity(rotation, mode.base());
            let arm = Fitted {
                plan,
                model,
                numbers,
            };
            let task = Task {
                arm,
                rotation,
                velocity,
                inputs: *inputs,
            };
            from.answer(forward::run(&task, ws, out, from, budget))
        }
    }
}

// All checks to 22, the workspace +0.0, and position 0.
pub fn start(c: Calculation, model: &Model, inputs: &Inputs, ws: &mut [f64], out: &[f64]) -> Answer
    ensures { (result, ws.new, out.now) ≡ start_of (work_of c model.now (inputs_of inputs.now)) ws.old out.now }
{
    let matrix = c.is_matrix();
    let floating = c.floats();
    let numbers = topology::active_numbers(&model.kinds);
    match judged(c, model, &numbers, inputs, ws.len(), out.len()) {
        Err(refusal) => Position::shut(matrix, floating).refused(refusal),
        Ok(()) => {
            let a = topology::number_at(&model.kinds, &numbers, model.n);
            slots::clear(ws);
            Position::fresh(matrix, floating, model.n, a).begun()
        }
    }
}

// At most `budget` visits from a position.
pub fn portion<'a>(
    position: Position,
    c: Calculation,
    model: &'a Model,
    inputs: &'a Inputs<'a>,
    ws: &mut [f64],
    out: &mut [f64],
    budget: usize,
) -> Answer
    ensures { (result, ws.new, out.new) ≡ portion_of (work_of c model.now (inputs_of inputs.now)) budget position ws.old out.old }
{
    let numbers = topology::active_numbers(&model.kinds);
    match judged_at(position, c, model, &numbers, inputs, ws.len(), out.len()) {
        Err(refusal) => position.refused(refusal),
        Ok(()) => {
            let a = topology::number_at(&model.kinds, &numbers, model.n);
            ran(c, a, model, &numbers, inputs, ws, out, position, budget)
        }
    }
}

// The undivided call.
#[tactic(auto, using(crate::proofs::Works::counted))]
pub fn whole<'a>(
    c: Calculation,
    model: &'a Model,
    inputs: &'a Inputs<'a>,
    ws: &mut [f64],
    out: &mut [f64],
) -> Answer
    ensures { (result, ws.new, out.new) ≡ whole_of (work_of c model.now (inputs_of inputs.now)) ws.old out.old }
{
    let matrix = c.is_matrix();
    let floating = c.floats();
    let numbers = topology::active_numbers(&model.kinds);
    match judged(c, model, &numbers, inputs, ws.len(), out.len()) {
        Err(refusal) => Position::shut(matrix, floating).refused(refusal),
        Ok(()) => {
            let a = topology::number_at(&model.kinds, &numbers, model.n);
            let from = Position::fresh(matrix, floating, model.n, a);
            let all = position::visits(matrix, model.n, a);
            slots::clear(ws);
            ran(c, a, model, &numbers, inputs, ws, out, from, all)
        }
    }
}
