// The walk of one column: from a joint to its parent until the root is reached.
ghost use Rattle.std.specs.Prelude.{◌≡◌, ◌+◌, ◌≤◌, ◌<◌, length};
ghost use Rattle.spatial.specs.Operators.{wrench_to_parent};
ghost use Rattle.spatial.specs.Wrench.{rotated_of, vector_of};
ghost use Rattle.slots.specs.Slots.{frame_at};
ghost use Rattle.arm.specs.Joint.{kind_number};
ghost use Rattle.arm.specs.Model.{kind_of};
ghost use Rattle.arm.specs.Topology.{actives_of};
ghost use Rattle.calls.specs.Plan.{Fit};
ghost use Rattle.composites.specs.Plan.{frame_place, Room, put_pair, put_six};
ghost use Rattle.matrix_columns.specs.Walk.{put_entry, put_here, plan_with, wrench_with, Reached};

use arm::joint::Motion;
use arm::model;
use calls::plan::Plan;
use composites::{composite, plan};
use numbers::quaternion::Quaternion;
use numbers::vec3::Vec3;
use spatial::operators;
use spatial::wrench::Wrench;

// Joint j's entry in a column, and its mirror; nothing for a fixed joint.
#[tactic(auto, unfolding(crate::specs::Walk::put_entry))]
fn put_entry<'a>(
    p: Plan,
    motion: Motion,
    parents: &'a [u8; 32],
    kinds: &'a [u8; 32],
    numbers: &'a [u8; 33],
    ws: &mut [f64],
    j: usize,
    column: usize,
    entry: f64,
)
    requires { Fit p parents.now kinds.now numbers.now × Room p (length ws.old) × (j < p.n) × (column < p.side) × (kind_number motion ≡ kind_of kinds.now j) }
    ensures { ws.new ≡ put_entry p motion (p.lead + actives_of kinds.now j) column entry ws.old }
{
    match motion {
        Motion::Turn(_) | Motion::Slide(_) => {
            let row = plan::row_of(p, parents, kinds, numbers, j);
            plan::put_pair(p, ws, row, column, entry);
        }
        Motion::Fixed => {}
    }
}

// Joint j's entry from the wrench that has come to it.
fn put_here<'a>(
    p: Plan,
    parents: &'a [u8; 32],
    kinds: &'a [u8; 32],
    axes: &'a [f64; 96],
    numbers: &'a [u8; 33],
    ws: &mut [f64],
    j: usize,
    w: Wrench,
    column: usize,
)
    requires { Fit p parents.now kinds.now numbers.now × Room p (length ws.old) × (j < p.n) × (column < p.side) }
    ensures { ws.new ≡ put_here p kinds.now axes.now column j w ws.old }
{
    let motion = model::motion_at(kinds, axes, j);
    let e = composite::entry(motion, w);
    put_entry(p, motion, parents, kinds, numbers, ws, j, column, e);
}

// A wrench carried from joint j to its parent.
fn carried(ws: &[f64], j: usize, w: Wrench) -> Wrench
    requires { (j < 32) × (frame_place j + 7 ≤ length ws.now) }
    ensures { result ≡ wrench_to_parent (frame_at ws.now (frame_place j)) w }
{
    let f = slots::frame_at(ws, j * plan::JOINT);
    operators::wrench_to_parent(f, w)
}

// The base's rows of a column, from the wrench at the root.
pub fn base_rows(p: Plan, r: Quaternion, ws: &mut [f64], column: usize, w: Wrench)
    requires { Room p (length ws.old) × (6 ≤ p.side) × (column < p.side) }
    ensures { ws.new ≡ put_six p column (rotated_of w r) ws.old }
{
    let world = w.rotated(r);
    plan::put_six(p, ws, column, world);
}

fn wrench(tx: f64, ty: f64, tz: f64, fx: f64, fy: f64, fz: f64) -> Wrench
    ensures { result ≡ wrench_with tx ty tz fx fy fz }
{
    let torque = Vec3 {
        x: tx,
        y: ty,
        z: tz,
    };
    let force = Vec3 {
        x: fx,
        y: fy,
        z: fz,
    };
    Wrench { torque, force }
}

// From joint j to its parent until the root is reached, or `left` joints further; the link that it has come to, with the wrench there in `end`, which a fixed
// root throws away. Plan and wrench come as numbers, which stay in registers: a struct is handed over through memory, which costs 40 % at 32 joints.
pub fn walk<'a>(
    n: usize,
    lead: usize,
    side: usize,
    parents: &'a [u8; 32],
    kinds: &'a [u8; 32],
    axes: &'a [f64; 96],
    numbers: &'a [u8; 33],
    ws: &mut [f64],
    end: &mut [f64; 6],
    left: usize,
    j: usize,
    column: usize,
    tx: f64,
    ty: f64,
    tz: f64,
    fx: f64,
    fy: f64,
    fz: f64,
) -> usize
    requires { Fit (plan_with n lead side) parents.now kinds.now numbers.now × Room (plan_with n lead side) (length ws.old) × (j < n) × (column < side) }
    ensures { (result ≤ j) × Reached (plan_with n lead side) parents.now kinds.now axes.now column j (wrench_with tx ty tz fx fy fz, ws.old) result end.new ws.new }
{
    let p = Plan { n, lead, side };
    let w = wrench(tx, ty, tz, fx, fy, fz);
    put_here(p, parents, kinds, axes, numbers, ws, j, w, column);
    let parent = model::parent_at(n, parents, j);
    if parent + lead == 0 {
        return 0;
    }
    let up = carried(ws, j, w);
    if parent == 0 {
        *end = up.to_vector();
        return 0;
    }
    if left == 0 {
        *end = up.to_vector();
        return parent;
    }
    let t = up.torque;
    let f = up.force;
    walk(
        n,
        lead,
        side,
        parents,
        kinds,
        axes,
        numbers,
        ws,
        end,
        left - 1,
        parent - 1,
        column,
        t.x,
        t.y,
        t.z,
        f.x,
        f.y,
        f.z,
    )
}
