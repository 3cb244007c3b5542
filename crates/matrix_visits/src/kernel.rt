// The visits: frames rising, composites falling, active columns rising, the root.
ghost use Rattle.std.specs.Prelude.{◌≡◌, ◌+◌, ◌≤◌, ◌<◌, length};
ghost use Rattle.slots.specs.Slots.{put_wrench};
ghost use Rattle.arm.specs.Model.{Tree, parent_of};
ghost use Rattle.arm.specs.Topology.{actives_of};
ghost use Rattle.composites.specs.Plan.{composite_place, root_place, Room, place_of};
ghost use Rattle.matrix_visits.specs.Kernel.{begun_of, frame_visit, add_into, composite_visit, world_axis, base_load, base_loads_to, root_columns, tested, root_visit, joint_visit, visit_of, into_place};

use crate::task::Task;
use arm::model;
use arm::model::Link;
use calls::plan::Plan;
use calls::position::Outcome;
use composites::{composite, plan};
use matrix_columns::column;
use numbers::quaternion::Quaternion;
use numbers::vec3::Vec3;
use refusals::Refusal;
use spatial::wrench::Wrench;

// What the Rust sets before its loops: the matrix is +0.0, and a floating root has its own link's numbers.
#[tactic(auto, unfolding(crate::specs::Kernel::begun_of))]
fn begin(p: Plan, links: &[f64; 330], ws: &mut [f64], at: usize)
    requires { Room p (length ws.old) }
    ensures { ws.new ≡ begun_of p links.now at ws.old }
{
    if at != 0 {
        return;
    }
    slots::zero_part(ws, p.n * plan::JOINT + plan::ROOT, p.side * p.side);
    if p.lead != 0 {
        composite::put_composite(ws, p.n * plan::JOINT, model::link_at(links, 0));
    }
}

// Joint j's frame, and its own link as the start of its composite.
#[tactic(auto, unfolding(crate::specs::Kernel::frame_visit))]
fn frame_visit(task: &Task, ws: &mut [f64], j: usize)
    requires { Room task.now.fitted.plan (length ws.old) × (j < task.now.fitted.plan.n) }
    ensures { let m = task.now.fitted.model.now in ws.new ≡ frame_visit m.parents m.kinds m.origins m.axes m.links task.now.q.now j ws.old }
{
    let arm = task.arm();
    slots::put_frame(ws, j * plan::JOINT, arm.frame_at(j));
    composite::put_composite(ws, j * plan::JOINT + plan::COMPOSITE, arm.link_at(j + 1));
}

// Joint j's composite is added to the one at a place.
#[tactic(auto, unfolding(crate::specs::Kernel::add_into))]
fn add_into(ws: &mut [f64], at: usize, j: usize)
    requires { (j < 32) × (composite_place j + 13 ≤ length ws.old) × (at + 13 ≤ length ws.old) }
    ensures { ws.new ≡ add_into at j ws.old }
{
    let f = slots::frame_at(ws, j * plan::JOINT);
    let c = composite::composite_at(ws, j * plan::JOINT + plan::COMPOSITE);
    let moved = composite::to_parent(c, f);
    let old = composite::composite_at(ws, at);
    let sum = composite::joined(old, moved);
    composite::put_composite(ws, at, sum);
}

// The place of the parent's composite, or of the root's.
#[tactic(auto, unfolding(crate::specs::Kernel::into_place))]
fn into_place(n: usize, parent: usize) -> usize
    requires { (n ≤ 32) × (parent ≤ n) }
    ensures { (result ≡ into_place n parent) × (result ≤ root_place n) }
{
    if parent == 0 {
        return n * plan::JOINT;
    }
    (parent - 1) * plan::JOINT + plan::COMPOSITE
}

// Into the parent's composite, or the root's where it floats.
#[tactic(auto, unfolding(crate::specs::Kernel::composite_visit, crate::specs::Kernel::into_place))]
fn composite_visit(p: Plan, parents: &[u8; 32], ws: &mut [f64], j: usize)
    requires { Tree p.n parents.now × Room p (length ws.old) × (p.lead ≤ 6) × (j < p.n) }
    ensures { ws.new ≡ composite_visit p (parent_of parents.now j) j ws.old }
{
    let parent = model::parent_at(p.n, parents, j);
    if parent + p.lead != 0 {
        add_into(ws, into_place(p.n, parent), j);
    }
}

#[tactic(auto, unfolding(crate::specs::Kernel::world_axis))]
fn world_axis(k: usize) -> Vec3
    ensures { result ≡ world_axis k }
{
    let (x, y, z) = match k {
        0 => (1.0, 0.0, 0.0),
        1 => (0.0, 1.0, 0.0),
        _ => (0.0, 0.0, 1.0),
    };
    Vec3 { x, y, z }
}

// What moves the whole arm along base direction k, in the world.
#[tactic(auto, unfolding(crate::specs::Kernel::base_load))]
pub fn base_load(r: Quaternion, root: Link, k: usize) -> Wrench
    ensures { result ≡ base_load r root k }
{
    let axis = r.inverse().rotate(world_axis(k % 3));
    if k < 3 {
        return composite::turn_force(axis, root).rotated(r);
    }
    composite::slide_force(axis, root).rotated(r)
}

fn base_column(p: Plan, r: Quaternion, root: Link, ws: &mut [f64], k: usize)
    requires { Room p (length ws.old) × (6 ≤ p.side) × (k < 6) }
    ensures { ws.new ≡ put_wrench ws.old (place_of p 0 k) (base_load r root k) }
{
    plan::write_wrench_to_column(p, ws, k, base_load(r, root, k));
}

#[tactic(auto, unfolding(crate::specs::Kernel::base_loads_to))]
fn base_columns(p: Plan, r: Quaternion, root: Link, ws: &mut [f64])
    requires { Room p (length ws.old) × (6 ≤ p.side) }
    ensures { ws.new ≡ base_loads_to p r root 6 ws.old }
{
    for k in 0..6 {
        base_column(p, r, root, ws, k);
    }
}

// The base's own six columns, where it floats.
#[tactic(auto, unfolding(crate::specs::Kernel::root_columns))]
fn root_columns(p: Plan, r: Quaternion, ws: &mut [f64])
    requires { Room p (length ws.old) × ((p.lead ≡ 0 → ⊥) → 6 ≤ p.side) }
    ensures { ws.new ≡ root_columns p r ws.old }
{
    if p.lead != 0 {
        let root = composite::composite_at(ws, p.n * plan::JOINT);
        base_columns(p, r, root, ws);
    }
}

// Every entry is tested.
#[tactic(auto, unfolding(crate::specs::Kernel::tested))]
fn test(p: Plan, ws: &[f64]) -> Outcome
    requires { Room p (length ws.now) }
    ensures { result ≡ tested p ws.now }
{
    if slots::finite_part(ws, p.n * plan::JOINT + plan::ROOT, p.side * p.side) {
        return Outcome::Accepted;
    }
    Outcome::Refused(Refusal::plain(37))
}

#[tactic(auto, unfolding(crate::specs::Kernel::root_visit))]
fn root_visit(p: Plan, r: Quaternion, ws: &mut [f64]) -> Outcome
    requires { Room p (length ws.old) × ((p.lead ≡ 0 → ⊥) → 6 ≤ p.side) }
    ensures { (result, ws.new) ≡ root_visit p r ws.old }
{
    root_columns(p, r, ws);
    test(p, ws)
}

// A visit below the root's, after what the first brings.
#[tactic(auto, using(arm::proofs::topology::Counts::bounds), unfolding(crate::specs::Kernel::joint_visit))]
fn joint_visit(task: &Task, ws: &mut [f64], at: usize)
    requires { let p = task.now.fitted.plan in Room p (length ws.old) × (at < p.n + p.n + actives_of task.now.fitted.model.now.kinds p.n) }
    ensures { ws.new ≡ joint_visit task.now.fitted.plan task.now.fitted.rotation task.now.fitted.model.now task.now.q.now at ws.old }
{
    let fitted = &task.fitted;
    let n = fitted.plan.n;
    if at < n {
        frame_visit(task, ws, at);
    } else if at < n + n {
        composite_visit(fitted.plan, &fitted.model.parents, ws, n + n - 1 - at);
    } else {
        column::active_column(fitted, ws, at - (n + n));
    }
}

// Visit `at`.
#[tactic(auto, unfolding(crate::specs::Kernel::visit_of))]
pub fn visit(task: &Task, ws: &mut [f64], at: usize) -> Outcome
    requires { Room task.now.fitted.plan (length ws.old) }
    ensures { (result, ws.new) ≡ visit_of task.now.fitted.plan task.now.fitted.rotation task.now.fitted.model.now task.now.q.now at ws.old }
{
    let p = task.fitted.plan;
    begin(p, &task.fitted.model.links, ws, at);
    if at < p.n + p.n + (p.side - p.lead) {
        joint_visit(task, ws, at);
        return Outcome::Open;
    }
    root_visit(p, task.fitted.rotation, ws)
}
