// A joint's articulated inertia without what its own motion takes up, as an active joint hands it on.
ghost use Rattle.std.specs.Prelude.{◌≡◌, ◌+◌, ◌≤◌, ◌<◌, length};
ghost use Rattle.forward_slots.specs.Layout.{frame_place};
ghost use Rattle.forward_slots.specs.Reduced.{reduced_at, add_reduced};

use crate::{body, layout, term, whole};
use articulated::second;

#[tactic(auto, unfolding(crate::specs::Reduced::reduced_at))]
pub fn inertia_at(ws: &[f64], j: usize) -> [f64; 36]
    requires { (j < 32) × (frame_place (j + 1) ≤ length ws.now) }
    ensures { result ≡ reduced_at j ws.now }
{
    let inertia = whole::inertia_at(ws, j);
    let t = term::term_at(ws, j * layout::JOINT + layout::TERM);
    inertia::reduce(&inertia, t.u, t.d)
}

// What active joint j hands on is added to the inertia and the force at a place.
#[tactic(auto, unfolding(crate::specs::Reduced::add_reduced))]
pub fn add_into(ws: &mut [f64], at: usize, j: usize)
    requires { (j < 32) × (frame_place (j + 1) ≤ length ws.old) × (at + 42 ≤ length ws.old) }
    ensures { ws.new ≡ add_reduced at j ws.old }
{
    let inertia = inertia_at(ws, j);
    let force = slots::wrench_at(ws, j * layout::JOINT + layout::FORCE);
    let bias = slots::twist_at(ws, j * layout::JOINT + layout::BIAS);
    let t = term::term_at(ws, j * layout::JOINT + layout::TERM);
    let carried = second::reduced_force(&inertia, force, bias, t);
    body::add_moved(ws, &inertia, carried, at, j);
}
