// The joints falling, second pass: an active joint's terms, and what goes into its parent.
ghost use Rattle.std.specs.Prelude.{◌≡◌, ◌+◌, ◌≤◌, ◌<◌, length};
ghost use Rattle.arm.specs.Model.{parent_of};
ghost use Rattle.forward_slots.specs.Layout.{frame_place, Room};
ghost use Rattle.forward_passes.specs.Second.{add_into, propagated, second_visit};

use crate::fitted::Fitted;
use arm::joint::Motion;
use forward_slots::{eliminate, layout, reduced, whole};
use refusals::Refusal;

// What joint j hands on is added to the inertia and the force at a place.
#[tactic(auto, unfolding(crate::specs::Second::add_into))]
fn add_into(motion: Motion, ws: &mut [f64], at: usize, j: usize)
    requires { (j < 32) × (frame_place (j + 1) ≤ length ws.old) × (at + 42 ≤ length ws.old) }
    ensures { ws.new ≡ add_into motion at j ws.old }
{
    match motion {
        Motion::Turn(_) | Motion::Slide(_) => reduced::add_into(ws, at, j),
        Motion::Fixed => whole::add_into(ws, at, j),
    }
}

// Into the parent's, or the root's where it floats.
#[tactic(auto, unfolding(crate::specs::Second::propagated))]
fn propagate(arm: &Fitted, motion: Motion, ws: &mut [f64], j: usize)
    requires { Room arm.now.plan (length ws.old) × (j < arm.now.plan.n) }
    ensures { ws.new ≡ propagated arm.now.plan motion (parent_of arm.now.model.now.parents j) j ws.old }
{
    let parent = arm.parent_at(j);
    if parent != 0 {
        add_into(
            motion,
            ws,
            (parent - 1) * layout::JOINT + layout::INERTIA,
            j,
        );
    } else if arm.plan.lead != 0 {
        add_into(motion, ws, arm.plan.n * layout::JOINT, j);
    }
}

#[tactic(auto, unfolding(crate::specs::Second::second_visit, forward_slots::specs::Eliminate::unless_refused))]
pub fn second_visit(arm: &Fitted, forces: &[f64], ws: &mut [f64], j: usize) -> Result<(), Refusal>
    requires { Room arm.now.plan (length ws.old) × (j < arm.now.plan.n) × (length forces.now ≡ arm.now.plan.side) }
    ensures { let m = arm.now.model.now in (result, ws.new) ≡ second_visit arm.now.plan m.parents m.kinds m.axes m.rotors forces.now j ws.old }
{
    let motion = arm.motion_at(j);
    let rotor = arm.model.rotors[j];
    eliminate::eliminate(arm.plan, motion, rotor, arm.number_at(j), forces, ws, j)?;
    propagate(arm, motion, ws, j);
    Ok(())
}
