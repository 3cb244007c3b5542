// What a joint's link hands on is added to its parent's, or to the root's.
ghost use Rattle.std.specs.Prelude.{◌≡◌, ◌+◌, ◌≤◌, ◌<◌, length};
ghost use Rattle.forward_slots.specs.Layout.{frame_place};
ghost use Rattle.forward_slots.specs.Body.{add_body, add_moved};

use crate::layout;
use spatial::operators;
use spatial::wrench::Wrench;

// An inertia and a force are added to those at a place: the force stands behind the inertia.
#[tactic(auto, unfolding(crate::specs::Body::add_body))]
fn add_body(ws: &mut [f64], at: usize, moved: &[f64; 36], w: Wrench)
    requires { at + 42 ≤ length ws.old }
    ensures { ws.new ≡ add_body at moved.now w ws.old }
{
    let old = slots::mat6_at(ws, at);
    let force = slots::wrench_at(ws, at + 36);
    let sum = mat6::plus(&old, moved);
    let total = force.plus(w);
    slots::put_mat6(ws, at, &sum);
    slots::put_wrench(ws, at + 36, total);
}

// Those of joint j's link, moved to its parent.
#[tactic(auto, unfolding(crate::specs::Body::add_moved))]
pub fn add_moved(ws: &mut [f64], inertia: &[f64; 36], force: Wrench, at: usize, j: usize)
    requires { (j < 32) × (frame_place (j + 1) ≤ length ws.old) × (at + 42 ≤ length ws.old) }
    ensures { ws.new ≡ add_moved inertia.now force at j ws.old }
{
    let frame = slots::frame_at(ws, j * layout::JOINT);
    let moved = inertia::transform_inertia_to_parent(frame, inertia);
    let w = operators::wrench_to_parent(frame, force);
    add_body(ws, at, &moved, w);
}
