// The composite of a joint: mass, first moment and inertia of all that it carries, about its link's origin.
ghost use Rattle.std.specs.Prelude.{◌≡◌, ◌+◌, ◌≤◌, length};
ghost use Rattle.composites.specs.Composite.{composite_at, put_composite, shifted_of, to_parent_of, joined_of, force_of, entry_of};

use arm::joint::Motion;
use arm::model::Link;
use numbers::mat3;
use numbers::mat3::Mat3;
use numbers::vec3::Vec3;
use spatial::frame::Frame;
use spatial::wrench::Wrench;

#[tactic(auto, unfolding(crate::specs::Composite::composite_at))]
pub fn composite_at(s: &[f64], at: usize) -> Link
    requires { at + 13 ≤ length s.now }
    ensures { result ≡ composite_at s.now at }
{
    Link {
        mass: slots::number_at(s, at),
        moment: slots::vec3_at(s, at + 1),
        inertia: slots::mat3_at(s, at + 4),
    }
}

#[tactic(auto, unfolding(crate::specs::Composite::put_composite))]
pub fn put_composite(s: &mut [f64], at: usize, c: Link)
    requires { at + 13 ≤ length s.old }
    ensures { s.new ≡ put_composite s.old at c }
{
    slots::put_number(s, at, c.mass);
    slots::put_vec3(s, at + 1, c.moment);
    slots::put_mat3(s, at + 4, c.inertia);
}

// A turned inertia about an origin that is t away: i + (m t·t + 2 t·h) 1 - (m t) tᵀ - t hᵀ - h tᵀ.
#[tactic(auto, unfolding(crate::specs::Composite::shifted_of))]
fn shifted(i: Mat3, mass: f64, t: Vec3, h: Vec3) -> Mat3
    ensures { result ≡ shifted_of i mass t h }
{
    let tt = t.dot(t);
    let th = t.dot(h);
    let s = mat3::identity_by(mass * tt + 2.0 * th);
    let a = mat3::outer(t.scale(mass), t);
    let b = mat3::outer(t, h);
    let c = mat3::outer(h, t);
    i.plus(s).minus(a).minus(b).minus(c)
}

// A composite about its parent link's origin.
#[tactic(auto, unfolding(crate::specs::Composite::to_parent_of, numbers::specs::Mat3::turned_of))]
pub fn to_parent(c: Link, f: Frame) -> Link
    ensures { result ≡ to_parent_of c f }
{
    let rotation = f.rotation.matrix();
    let t = f.translation;
    let mass = c.mass;
    let h = rotation.apply(c.moment);
    let turned = rotation.times(c.inertia).times(rotation.transpose());
    Link {
        mass,
        moment: t.scale(mass).plus(h),
        inertia: shifted(turned, mass, t, h),
    }
}

#[tactic(auto, unfolding(crate::specs::Composite::joined_of))]
pub fn joined(a: Link, b: Link) -> Link
    ensures { result ≡ joined_of a b }
{
    Link {
        mass: a.mass + b.mass,
        moment: a.moment.plus(b.moment),
        inertia: a.inertia.plus(b.inertia),
    }
}

// The wrench that a composite answers a turn about an axis with, and a slide along it.
#[tactic(auto, unfolding(crate::specs::Composite::force_of))]
pub fn turn_force(axis: Vec3, c: Link) -> Wrench
    ensures { result ≡ force_of (Motion.Turn axis) c }
{
    Wrench {
        torque: c.inertia.apply(axis),
        force: axis.cross(c.moment),
    }
}

#[tactic(auto, unfolding(crate::specs::Composite::force_of))]
pub fn slide_force(axis: Vec3, c: Link) -> Wrench
    ensures { result ≡ force_of (Motion.Slide axis) c }
{
    Wrench {
        torque: c.moment.cross(axis),
        force: axis.scale(c.mass),
    }
}

#[tactic(auto, unfolding(crate::specs::Composite::force_of))]
pub fn force(motion: Motion, c: Link) -> Wrench
    ensures { result ≡ force_of motion c }
{
    match motion {
        Motion::Turn(axis) => turn_force(axis, c),
        Motion::Slide(axis) => slide_force(axis, c),
        Motion::Fixed => Wrench::zeros(),
    }
}

// What a wrench gives along a motion.
#[tactic(auto, unfolding(crate::specs::Composite::entry_of))]
pub fn entry(motion: Motion, w: Wrench) -> f64
    ensures { result ≡ entry_of motion w }
{
    match motion {
        Motion::Turn(axis) => axis.dot(w.torque),
        Motion::Slide(axis) => axis.dot(w.force),
        Motion::Fixed => 0.0,
    }
}
