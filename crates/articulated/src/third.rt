// Third pass: a link's acceleration and its joint's.
ghost use Rattle.std.specs.Prelude.{◌≡◌};
ghost use Rattle.articulated.specs.Third.{carried_acceleration, joint_acceleration, moved_by};

use crate::second::Term;
use arm::joint::Motion;
use spatial::frame::Frame;
use spatial::operators;
use spatial::twist::Twist;

// Before the joint's own acceleration.
#[tactic(auto, unfolding(crate::specs::Third::carried_acceleration))]
pub fn carried_acceleration(frame: Frame, parent: Twist, bias: Twist) -> Twist
    ensures { result ≡ carried_acceleration frame parent bias }
{
    operators::motion_to_child(frame, parent).plus(bias)
}

#[tactic(auto, unfolding(crate::specs::Third::joint_acceleration))]
pub fn joint_acceleration(a: Twist, t: Term) -> f64
    ensures { result ≡ joint_acceleration a t }
{
    (t.bias - operators::motion_force_dot(a, t.u)) / t.d
}

// With it.
#[tactic(auto, unfolding(crate::specs::Third::moved_by))]
pub fn moved_by(motion: Motion, a: Twist, x: f64) -> Twist
    ensures { result ≡ moved_by motion a x }
{
    a.plus(inertia::joint_motion_subspace(motion).scale(x))
}
