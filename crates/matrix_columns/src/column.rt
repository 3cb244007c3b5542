// The column of an active joint: the walk, and the base's rows.
ghost use Rattle.std.specs.Prelude.{◌≡◌, ◌≤◌, ◌<◌, length};
ghost use Rattle.arm.specs.Model.{kind_of};
ghost use Rattle.composites.specs.Plan.{Room};
ghost use Rattle.matrix_columns.specs.Walk.{walk_of, column_visit, active_column, Reached};

use crate::fitted::Fitted;
use crate::walk;
use arm::{model, topology};
use composites::{composite, plan};
use spatial::wrench::Wrench;

// How many joints further a leg of the walk goes.
const LEG: usize = 8;

// A leg of the walk, from a wrench at joint j.
fn leg(
    fitted: &Fitted,
    ws: &mut [f64],
    end: &mut [f64; 6],
    j: usize,
    column: usize,
    w: Wrench,
) -> usize
    requires { Room fitted.now.plan (length ws.old) × (j < fitted.now.plan.n) × (column < fitted.now.plan.side) }
    ensures { let m = fitted.now.model.now in (result ≤ j) × Reached fitted.now.plan m.parents m.kinds m.axes column j (w, ws.old) result end.new ws.new }
{
    let p = fitted.plan;
    let m = fitted.model;
    let Wrench { torque, force } = w;
    walk::walk(
        p.n,
        p.lead,
        p.side,
        &m.parents,
        &m.kinds,
        &m.axes,
        fitted.numbers,
        ws,
        end,
        LEG,
        j,
        column,
        torque.x,
        torque.y,
        torque.z,
        force.x,
        force.y,
        force.z,
    )
}

// The walk from a wrench at joint j, and the wrench at the root, where that floats. In legs: of many calls within each other a processor foretells the
// last returns alone, and in one leg a matrix of 32 joints takes a tenth longer.
fn walked(fitted: &Fitted, ws: &mut [f64], j: usize, column: usize, w: Wrench) -> Wrench
    requires { Room fitted.now.plan (length ws.old) × (j < fitted.now.plan.n) × (column < fitted.now.plan.side) }
    ensures { let m = fitted.now.model.now in let walked = walk_of fitted.now.plan m.parents m.kinds m.axes column j (w, ws.old) in (ws.new ≡ walked.1) × ((fitted.now.plan.lead ≡ 0 → ⊥) → result ≡ walked.0) }
{
    let mut end = w.to_vector();
    let mut link = j + 1;
    while link != 0 {
        let v = Wrench::from_vector(&end);
        link = leg(fitted, ws, &mut end, link - 1, column, v);
    }
    Wrench::from_vector(&end)
}

// The column of active joint j: the walk, its rotor, and the base's rows where it floats.
fn column_visit(fitted: &Fitted, ws: &mut [f64], j: usize)
    requires { Room fitted.now.plan (length ws.old) × (j < fitted.now.plan.n) × (kind_of fitted.now.model.now.kinds j ≡ 2 → ⊥) }
    ensures { let m = fitted.now.model.now in ws.new ≡ column_visit fitted.now.plan fitted.now.rotation m.parents m.kinds m.axes m.rotors j ws.old }
{
    let p = fitted.plan;
    let m = fitted.model;
    let column = plan::row_of(p, &m.parents, &m.kinds, fitted.numbers, j);
    let motion = model::motion_at(&m.kinds, &m.axes, j);
    let c = composite::composite_at(ws, j * plan::JOINT + plan::COMPOSITE);
    let force = composite::force(motion, c);
    let w = walked(fitted, ws, j, column, force);
    plan::add_rotor(p, ws, column, m.rotors[j]);
    if p.lead != 0 {
        walk::base_rows(p, fitted.rotation, ws, column, w);
    }
}

// The column of active number k.
#[tactic(auto, unfolding(crate::specs::Walk::column_found))]
pub fn active_column(fitted: &Fitted, ws: &mut [f64], k: usize)
    requires { Room fitted.now.plan (length ws.old) × (k ≤ fitted.now.plan.n) }
    ensures { ws.new ≡ active_column fitted.now.plan fitted.now.rotation fitted.now.model.now k ws.old }
{
    if let Some(j) = topology::active_joint(&fitted.model.kinds, fitted.numbers, fitted.plan.n, k) {
        column_visit(fitted, ws, j);
    }
}
