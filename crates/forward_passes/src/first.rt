// The joints rising, first pass.
ghost use Rattle.std.specs.Prelude.{◌≡◌, ◌+◌, ◌-◌, ◌≤◌, ◌<◌, length};
ghost use Rattle.arm.specs.Topology.{actives_of};
ghost use Rattle.forward_slots.specs.Layout.{frame_place, Room};
ghost use Rattle.forward_passes.specs.First.{parent_twist, put_first, first_at, first_visit};

use crate::fitted::Fitted;
use arm::{model, topology};
use articulated::first;
use articulated::first::First;
use forward_slots::layout;
use spatial::twist::Twist;

// The twist of a parent link: the root's, or the one at an offset of the parent's joint.
#[tactic(auto, unfolding(crate::specs::First::parent_twist))]
pub fn parent_twist(ws: &[f64], parent: usize, root: Twist, offset: usize) -> Twist
    requires { (parent ≤ 32) × (frame_place parent ≤ length ws.now) × (offset + 6 ≤ frame_place 1) }
    ensures { result ≡ parent_twist ws.now parent root (frame_place (parent - 1) + offset) }
{
    if parent == 0 {
        return root;
    }
    slots::twist_at(ws, (parent - 1) * layout::JOINT + offset)
}

#[tactic(auto, unfolding(crate::specs::First::put_first))]
fn put_first(ws: &mut [f64], j: usize, f: First)
    requires { (j < 32) × (frame_place (j + 1) ≤ length ws.old) }
    ensures { ws.new ≡ put_first ws.old j f }
{
    slots::put_frame(ws, j * layout::JOINT, f.frame);
    slots::put_twist(ws, j * layout::JOINT + layout::VELOCITY, f.velocity);
    slots::put_twist(ws, j * layout::JOINT + layout::BIAS, f.bias);
    slots::put_wrench(ws, j * layout::JOINT + layout::FORCE, f.force);
}

// What joint j works out, of a link with this inertia.
#[tactic(auto, unfolding(crate::specs::First::first_at))]
fn first_at(
    arm: &Fitted,
    velocity: Twist,
    q: &[f64],
    qd: &[f64],
    inertia: &[f64; 36],
    ws: &[f64],
    j: usize,
) -> First
    requires { Room arm.now.plan (length ws.now) × (j < arm.now.plan.n) × (length q.now ≡ actives_of arm.now.model.now.kinds arm.now.plan.n) × (length qd.now ≡ actives_of arm.now.model.now.kinds arm.now.plan.n) }
    ensures { let m = arm.now.model.now in result ≡ first_at velocity m.parents m.kinds m.origins m.axes q.now qd.now inertia.now j ws.now }
{
    let n = arm.plan.n;
    let m = arm.model;
    let joint = model::joint_at(n, &m.parents, &m.kinds, &m.origins, &m.axes, j);
    let frame = topology::frame_at(
        n,
        &m.parents,
        &m.kinds,
        &m.origins,
        &m.axes,
        arm.numbers,
        q,
        j,
    );
    let speed = topology::value_of(joint.motion, &m.kinds, arm.numbers, qd, n, j);
    let carried = parent_twist(ws, joint.parent, velocity, layout::VELOCITY);
    let load = slots::wrench_at(ws, j * layout::JOINT + layout::LOAD);
    first::first_pass(frame, joint.motion, speed, carried, inertia, load)
}

// Joint j's numbers of the first pass, and its own link's inertia.
#[tactic(auto, unfolding(crate::specs::First::first_visit))]
pub fn first_visit(arm: &Fitted, velocity: Twist, q: &[f64], qd: &[f64], ws: &mut [f64], j: usize)
    requires { Room arm.now.plan (length ws.old) × (j < arm.now.plan.n) × (length q.now ≡ actives_of arm.now.model.now.kinds arm.now.plan.n) × (length qd.now ≡ actives_of arm.now.model.now.kinds arm.now.plan.n) }
    ensures { let m = arm.now.model.now in ws.new ≡ first_visit velocity m.parents m.kinds m.origins m.axes m.links q.now qd.now j ws.old }
{
    let link = model::link_at(&arm.model.links, j + 1);
    let inertia = first::body_inertia(link);
    let f = first_at(arm, velocity, q, qd, &inertia, ws, j);
    put_first(ws, j, f);
    slots::put_mat6(ws, j * layout::JOINT + layout::INERTIA, &inertia);
}
