// An active joint's terms are worked out, tested and kept.
ghost use Rattle.std.specs.Prelude.{◌≡◌, ◌+◌, ◌≤◌, ◌<◌, length};
ghost use Rattle.arm.specs.Joint.{kind_number};
ghost use Rattle.forward_slots.specs.Layout.{frame_place, Room};
ghost use Rattle.forward_slots.specs.Eliminate.{new_term, kept_term, eliminated};

use crate::{layout, term, whole};
use arm::joint::Motion;
use articulated::second;
use articulated::second::Term;
use calls::plan::Plan;
use refusals::Refusal;

// Active joint j's terms, with the force at a place. U comes from the whole inertia, what the joint's own motion takes up included.
#[tactic(auto, unfolding(crate::specs::Eliminate::new_term))]
fn new_term(motion: Motion, rotor: f64, forces: &[f64], ws: &[f64], j: usize, place: usize) -> Term
    requires { (j < 32) × (frame_place (j + 1) ≤ length ws.now) × (place < length forces.now) }
    ensures { result ≡ new_term motion rotor forces.now j place ws.now }
{
    let articulated = whole::inertia_at(ws, j);
    let force = slots::wrench_at(ws, j * layout::JOINT + layout::FORCE);
    let own = slots::number_at(forces, place);
    second::joint_term(motion, rotor, &articulated, force, own)
}

// They are tested, then kept.
#[tactic(auto, unfolding(crate::specs::Eliminate::kept_term, crate::specs::Eliminate::unless_refused))]
fn keep_term(
    p: Plan,
    motion: Motion,
    rotor: f64,
    number: usize,
    forces: &[f64],
    ws: &mut [f64],
    j: usize,
) -> Result<(), Refusal>
    requires { Room p (length ws.old) × (j < p.n) × (p.lead + number < length forces.now) }
    ensures { (result, ws.new) ≡ kept_term (new_term motion rotor forces.now j (p.lead + number) ws.old) number j ws.old }
{
    let t = new_term(motion, rotor, forces, ws, j, p.lead + number);
    second::judged_term(t.d, number)?;
    term::put_term(ws, j * layout::JOINT + layout::TERM, t);
    Ok(())
}

// Those of a joint with an active number; a fixed one has none.
#[tactic(auto, unfolding(crate::specs::Eliminate::eliminated))]
pub fn eliminate(
    p: Plan,
    motion: Motion,
    rotor: f64,
    number: usize,
    forces: &[f64],
    ws: &mut [f64],
    j: usize,
) -> Result<(), Refusal>
    requires { Room p (length ws.old) × (j < p.n) × ((kind_number motion ≡ 2 → ⊥) → p.lead + number < length forces.now) }
    ensures { (result, ws.new) ≡ eliminated p motion rotor number forces.now j ws.old }
{
    match motion {
        Motion::Turn(_) | Motion::Slide(_) => keep_term(p, motion, rotor, number, forces, ws, j),
        Motion::Fixed => Ok(()),
    }
}
