// Second pass: an active joint's terms and their tests, and the force that goes to the parent.
ghost use Rattle.std.specs.Prelude.{◌≡◌};
ghost use Rattle.articulated.specs.Second.{term_of, judged_term, carried_force, reduced_force};

use arm::joint;
use arm::joint::Motion;
use numbers::double;
use refusals::Refusal;
use spatial::operators;
use spatial::twist::Twist;
use spatial::wrench::Wrench;

// U, D and the joint bias.
#[derive(Clone, Copy)]
pub struct Term {
    pub u: Wrench,
    pub d: f64,
    pub bias: f64,
}

#[tactic(auto, unfolding(crate::specs::Second::term_of))]
pub fn joint_term(motion: Motion, rotor: f64, inertia: &[f64; 36], force: Wrench, own: f64) -> Term
    ensures { result ≡ term_of motion rotor inertia.now force own }
{
    let subspace = inertia::joint_motion_subspace(motion);
    let u = inertia::inertia_apply_joint(inertia, motion);
    let d = joint::with_rotor(rotor, operators::motion_force_dot(subspace, u));
    let bias = own - operators::motion_force_dot(subspace, force);
    Term { u, d, bias }
}

// 30 and 31, naming the active number.
#[tactic(auto, unfolding(crate::specs::Second::judged_term))]
pub fn judged_term(d: f64, number: usize) -> Result<(), Refusal>
    ensures { result ≡ judged_term d number }
{
    if !double::is_finite(d) {
        return Err(Refusal::at(30, number));
    }
    if d <= 0.0 {
        return Err(Refusal::at(31, number));
    }
    Ok(())
}

// The force that an inertia hands on, with its velocity bias.
#[tactic(auto, unfolding(crate::specs::Second::carried_force))]
pub fn carried_force(inertia: &[f64; 36], force: Wrench, bias: Twist) -> Wrench
    ensures { result ≡ carried_force inertia.now force bias }
{
    force.plus(inertia::inertia_apply(inertia, bias))
}

// The same of an active joint, whose inertia is reduced already.
#[tactic(auto, unfolding(crate::specs::Second::reduced_force))]
pub fn reduced_force(reduced: &[f64; 36], force: Wrench, bias: Twist, t: Term) -> Wrench
    ensures { result ≡ reduced_force reduced.now force bias t }
{
    let share = t.bias / t.d;
    carried_force(reduced, force, bias).plus(t.u.scale(share))
}
