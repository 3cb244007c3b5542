// A joint's articulated inertia whole, as U is taken from it and as a fixed joint hands it on.
ghost use Rattle.std.specs.Prelude.{◌≡◌, ◌+◌, ◌≤◌, ◌<◌, length};
ghost use Rattle.slots.specs.Slots.{mat6_at};
ghost use Rattle.forward_slots.specs.Layout.{frame_place, inertia_place};
ghost use Rattle.forward_slots.specs.Whole.{add_whole};

use crate::{body, layout};
use articulated::second;

pub fn inertia_at(ws: &[f64], j: usize) -> [f64; 36]
    requires { (j < 32) × (frame_place (j + 1) ≤ length ws.now) }
    ensures { result ≡ mat6_at ws.now (inertia_place j) }
{
    slots::mat6_at(ws, j * layout::JOINT + layout::INERTIA)
}

// What fixed joint j hands on is added to the inertia and the force at a place.
#[tactic(auto, unfolding(crate::specs::Whole::add_whole))]
pub fn add_into(ws: &mut [f64], at: usize, j: usize)
    requires { (j < 32) × (frame_place (j + 1) ≤ length ws.old) × (at + 42 ≤ length ws.old) }
    ensures { ws.new ≡ add_whole at j ws.old }
{
    let inertia = inertia_at(ws, j);
    let force = slots::wrench_at(ws, j * layout::JOINT + layout::FORCE);
    let bias = slots::twist_at(ws, j * layout::JOINT + layout::BIAS);
    let carried = second::carried_force(&inertia, force, bias);
    body::add_moved(ws, &inertia, carried, at, j);
}
