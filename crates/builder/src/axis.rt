// The axis rule (`joint.rs`).
ghost use Rattle.std.specs.Prelude.{◌≡◌};
ghost use Rattle.builder.specs.Axis.{scaled_axis, unit_axis, kept_axis};

use numbers::double;
use numbers::vec3::Vec3;

// The axis rule for s times v, where v's largest component is 1 in size: v · v has a root then.
#[tactic(auto, unfolding(crate::specs::Axis::scaled_axis, crate::specs::Axis::normed_axis))]
fn scaled_axis(s: f64, v: Vec3) -> Option<Vec3>
    ensures { result ≡ scaled_axis s v }
{
    let norm = square_root::sqrt(v.dot(v))?;
    if s <= 0.000000000001 / norm {
        return None;
    }
    Some(v.over(norm))
}

// What the axis rule keeps, unless it refuses. Divided by the largest component before the norm is taken: the squares of a finite axis can be too large.
#[tactic(auto, unfolding(crate::specs::Axis::unit_axis))]
pub fn unit_axis(axis: Vec3) -> Option<Vec3>
    ensures { result ≡ unit_axis axis }
{
    let components = [axis.x, axis.y, axis.z];
    let s = double::amax(&components);
    if double::all_finite(&components) && s != 0.0 {
        return scaled_axis(s, axis.over(s));
    }
    None
}

// The axis that a joint of this kind keeps: a fixed joint's is never looked at.
#[tactic(auto, unfolding(crate::specs::Axis::kept_axis))]
pub fn kept_axis(kind: u64, axis: Vec3) -> Option<Vec3>
    ensures { result ≡ kept_axis kind axis }
{
    if kind == 2 {
        return Some(Vec3 {
            x: 1.0,
            y: 0.0,
            z: 0.0,
        });
    }
    unit_axis(axis)
}
