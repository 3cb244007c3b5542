// A joint: its motion, the rule of its origin's rotation, its frame (`joint.rs`), and its rotor.
ghost use Rattle.std.specs.Prelude.{◌≡◌};
ghost use Rattle.half_turn.specs.HalfTurn.{half_turn_of};
ghost use Rattle.arm.specs.Joint.{not_unit, turned_of, frame_of, with_rotor};

use numbers::double;
use numbers::quaternion::Quaternion;
use numbers::vec3::Vec3;
use spatial::frame::Frame;

#[derive(Clone, Copy)]
pub enum Motion {
    Turn(Vec3),
    Slide(Vec3),
    Fixed,
}

#[derive(Clone, Copy)]
pub struct Joint {
    pub parent: usize,
    pub motion: Motion,
    pub origin: Frame,
}

// Whether the square of a rotation's length differs from 1 by more than 2^-40.
#[tactic(auto, unfolding(crate::specs::Joint::not_unit))]
pub fn not_unit(q: Quaternion) -> bool
    ensures { result ≡ not_unit q }
{
    let s = q.w * q.w + q.u.x * q.u.x + q.u.y * q.u.y + q.u.z * q.u.z;
    0.0000000000009094947017729282379150390625 < double::abs(s - 1.0)
}

// A turn by q; out of range, which a call refuses beforehand, the origin.
#[tactic(auto, unfolding(crate::specs::Joint::turned_of))]
fn turned(origin: Frame, axis: Vec3, q: f64) -> Frame
    ensures { result ≡ turned_of origin axis (half_turn_of q) }
{
    match half_turn::half_turn(q) {
        Some(v) => origin.turn(axis, v),
        None => origin,
    }
}

// The joint's frame in its parent link, at the value q.
#[tactic(auto, unfolding(crate::specs::Joint::frame_of))]
pub fn frame(origin: Frame, motion: Motion, q: f64) -> Frame
    ensures { result ≡ frame_of origin motion q }
{
    match motion {
        Motion::Turn(axis) => turned(origin, axis, q),
        Motion::Slide(axis) => origin.slide(axis, q),
        Motion::Fixed => origin,
    }
}

// The rotor added to a dot product. A zero is not: +0.0 would make -0.0 another number.
#[tactic(auto, unfolding(crate::specs::Joint::with_rotor))]
pub fn with_rotor(rotor: f64, x: f64) -> f64
    ensures { result ≡ with_rotor rotor x }
{
    if rotor != 0.0 {
        return x + rotor;
    }
    x
}
