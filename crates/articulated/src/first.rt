// First pass: a joint's frame, velocity, velocity bias and bias force.
ghost use Rattle.std.specs.Prelude.{◌≡◌};
ghost use Rattle.articulated.specs.First.{body_inertia, bias_force, first_of};

use arm::joint::Motion;
use arm::model::Link;
use spatial::frame::Frame;
use spatial::operators;
use spatial::twist::Twist;
use spatial::wrench::Wrench;

#[derive(Clone, Copy)]
pub struct First {
    pub frame: Frame,
    pub velocity: Twist,
    pub bias: Twist,
    pub force: Wrench,
}

#[tactic(auto, unfolding(crate::specs::First::body_inertia))]
pub fn body_inertia(link: Link) -> [f64; 36]
    ensures { result ≡ body_inertia link }
{
    inertia::rigid_body_inertia(link.mass, link.moment, link.inertia)
}

// The force that a body's own motion asks for, and its load.
#[tactic(auto, unfolding(crate::specs::First::bias_force))]
pub fn bias_force(inertia: &[f64; 36], velocity: Twist, load: Wrench) -> Wrench
    ensures { result ≡ bias_force inertia.now velocity load }
{
    let momentum = inertia::inertia_apply(inertia, velocity);
    operators::force_cross(velocity, momentum).plus(load)
}

// A joint with this frame, at speed qd, whose parent link moves with `parent`.
#[tactic(auto, unfolding(crate::specs::First::first_of))]
pub fn first_pass(
    frame: Frame,
    motion: Motion,
    qd: f64,
    parent: Twist,
    inertia: &[f64; 36],
    load: Wrench,
) -> First
    ensures { result ≡ first_of frame motion qd parent inertia.now load }
{
    let joint_velocity = inertia::joint_motion_subspace(motion).scale(qd);
    let velocity = operators::motion_to_child(frame, parent).plus(joint_velocity);
    let bias = operators::motion_cross(velocity, joint_velocity);
    let force = bias_force(inertia, velocity, load);
    First {
        frame,
        velocity,
        bias,
        force,
    }
}
