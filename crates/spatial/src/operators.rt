// The spatial operators: twists and wrenches from link to link, and products of them.
ghost use Rattle.std.specs.Prelude.{◌≡◌};
ghost use Rattle.spatial.specs.Operators.{wrench_to_parent, motion_to_child, motion_cross, force_cross, motion_force_dot};

use crate::frame::Frame;
use crate::twist::Twist;
use crate::wrench::Wrench;

#[tactic(auto, unfolding(crate::specs::Operators::wrench_to_parent))]
pub fn wrench_to_parent(f: Frame, w: Wrench) -> Wrench
    ensures { result ≡ wrench_to_parent f w }
{
    let force = f.rotation.rotate(w.force);
    let torque = f.rotation.rotate(w.torque).plus(f.translation.cross(force));
    Wrench { torque, force }
}

#[tactic(auto, unfolding(crate::specs::Operators::motion_to_child))]
pub fn motion_to_child(f: Frame, v: Twist) -> Twist
    ensures { result ≡ motion_to_child f v }
{
    let inverse = f.rotation.inverse();
    let angular = inverse.rotate(v.angular);
    let linear = inverse.rotate(v.linear.plus(v.angular.cross(f.translation)));
    Twist { angular, linear }
}

#[tactic(auto, unfolding(crate::specs::Operators::motion_cross))]
pub fn motion_cross(a: Twist, b: Twist) -> Twist
    ensures { result ≡ motion_cross a b }
{
    let angular = a.angular.cross(b.angular);
    let linear = a.linear.cross(b.angular).plus(a.angular.cross(b.linear));
    Twist { angular, linear }
}

#[tactic(auto, unfolding(crate::specs::Operators::force_cross))]
pub fn force_cross(v: Twist, w: Wrench) -> Wrench
    ensures { result ≡ force_cross v w }
{
    let torque = v.angular.cross(w.torque).plus(v.linear.cross(w.force));
    let force = v.angular.cross(w.force);
    Wrench { torque, force }
}

#[tactic(auto, unfolding(crate::specs::Operators::motion_force_dot))]
pub fn motion_force_dot(v: Twist, w: Wrench) -> f64
    ensures { result ≡ motion_force_dot v w }
{
    v.angular.dot(w.torque) + v.linear.dot(w.force)
}
