// A model's numbers, and its joints and links read from them. Its lists are lent: a model by value is copied at each call.
ghost use Rattle.std.specs.Prelude.{false, ◌≡◌, ◌*◌, ◌≤◌, ◌<◌};
ghost use Rattle.slots.specs.Slots.{vec3_at};
ghost use Rattle.arm.specs.Joint.{MotionIs};
ghost use Rattle.arm.specs.Model.{empty_model, Tree, Good, parent_of, kind_of, motion_of, joint_of, link_of, wild_joint, wild_of};

use crate::joint::{Joint, Motion};
use numbers::mat3::Mat3;
use numbers::vec3::Vec3;

// Room for 32 joints and 33 links; what lies past joint n is zero.
// Seven origin numbers a joint (w, x, y, z, translation), three of its axis, one rotor; ten numbers a link (mass, first moment, xx, xy, xz, yy, yz, zz).
#[derive(Clone, Copy)]
pub struct Model {
    pub n: usize,
    pub parents: [u8; 32],
    pub kinds: [u8; 32],
    pub origins: [f64; 224],
    pub axes: [f64; 96],
    pub links: [f64; 330],
    pub rotors: [f64; 32],
}

#[derive(Clone, Copy)]
pub struct Link {
    pub mass: f64,
    pub moment: Vec3,
    pub inertia: Mat3,
}

#[tactic(auto, unfolding(crate::specs::Model::empty_model))]
pub fn empty() -> Model
    ensures { result ≡ empty_model }
{
    Model {
        n: 0,
        parents: [0; 32],
        kinds: [0; 32],
        origins: [0.0; 224],
        axes: [0.0; 96],
        links: [0.0; 330],
        rotors: [0.0; 32],
    }
}

pub fn parent_at(n: usize, parents: &[u8; 32], j: usize) -> usize
    requires { Tree n parents.now × (j < n) }
    ensures { (result ≡ parent_of parents.now j) × (result ≤ j) }
{
    usize::from(parents[j])
}

#[tactic(auto, unfolding(crate::specs::Model::motion_of, crate::specs::Joint::motion_by))]
pub fn motion_at<'a>(kinds: &'a [u8; 32], axes: &'a [f64; 96], j: usize) -> Motion
    requires { j < 32 }
    ensures { result ≡ motion_of kinds.now axes.now j }
{
    let axis = slots::vec3_at(axes, j * 3);
    match kinds[j] {
        0 => Motion::Turn(axis),
        1 => Motion::Slide(axis),
        _ => Motion::Fixed,
    }
}

pub fn joint_at<'a>(
    n: usize,
    parents: &'a [u8; 32],
    kinds: &'a [u8; 32],
    origins: &'a [f64; 224],
    axes: &'a [f64; 96],
    j: usize,
) -> Joint
    requires { Good n parents.now kinds.now × (j < n) }
    ensures { (result ≡ joint_of parents.now kinds.now origins.now axes.now j) × (result.parent ≤ j) × MotionIs (kind_of kinds.now j) (vec3_at axes.now (j * 3)) result.motion }
{
    Joint {
        parent: parent_at(n, parents, j),
        motion: motion_at(kinds, axes, j),
        origin: slots::frame_at(origins, j * 7),
    }
}

#[tactic(auto, unfolding(crate::specs::Model::link_of))]
pub fn link_at(links: &[f64; 330], l: usize) -> Link
    requires { l < 33 }
    ensures { result ≡ link_of links.now l }
{
    let at = l * 10;
    let a = slots::vec3_at(links, at + 4);
    let b = slots::vec3_at(links, at + 7);
    Link {
        mass: links[at],
        moment: slots::vec3_at(links, at + 1),
        inertia: Mat3 {
            r0: a,
            r1: Vec3 {
                x: a.y,
                y: b.x,
                z: b.y,
            },
            r2: Vec3 {
                x: a.z,
                y: b.y,
                z: b.z,
            },
        },
    }
}

#[tactic(auto, unfolding(crate::specs::Model::wild_joint))]
fn wild_joint<'a>(parents: &'a [u8; 32], kinds: &'a [u8; 32], j: usize) -> bool
    requires { j < 32 }
    ensures { result ≡ wild_joint parents.now kinds.now j }
{
    j < usize::from(parents[j]) || 2 < kinds[j]
}

// Refusal 9's test: whether a lent model has cause 1, 3 or 4.
pub fn wild<'a>(n: usize, parents: &'a [u8; 32], kinds: &'a [u8; 32]) -> bool
    ensures { (result ≡ wild_of n parents.now kinds.now) × (result ≡ false → Good n parents.now kinds.now) }
{
    32 < n || (0..n).any(|j| wild_joint(parents, kinds, j))
}
