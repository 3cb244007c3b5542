// The tree's numbers (`topology.rs`): link 0 is the root, joint j leads to link j + 1; the joints that are not fixed have active numbers, in joint order.
ghost use Rattle.std.specs.Prelude.{◌≡◌, ◌≤◌, ◌<◌, get_or, length};
ghost use Rattle.std.specs.Float.{nan};
ghost use Rattle.arm.specs.Joint.{kind_number};
ghost use Rattle.arm.specs.Model.{Good, kind_of};
ghost use Rattle.arm.specs.Topology.{joint_frame, actives_of, active_numbers, value_of, holds_of, active_joint};

use crate::joint::Motion;
use crate::{joint, model};
use spatial::frame::Frame;

// How many joints below each joint number are active: worked out once for a call.
#[tactic(auto, using(crate::proofs::topology::Counts::bounds))]
pub fn active_numbers(kinds: &[u8; 32]) -> [u8; 33]
    ensures { result ≡ active_numbers kinds.now }
{
    let mut numbers: [u8; 33] = [0; 33];
    let mut a: u8 = 0;
    for j in 0..32 {
        numbers[j] = a;
        if kinds[j] != 2 {
            a += 1;
        }
    }
    numbers[32] = a;
    numbers
}

pub fn number_at<'a>(kinds: &'a [u8; 32], numbers: &'a [u8; 33], j: usize) -> usize
    requires { (numbers.now ≡ active_numbers kinds.now) × (j ≤ 32) }
    ensures { result ≡ actives_of kinds.now j }
{
    usize::from(numbers[j])
}

// An active joint's own number of q.
#[tactic(auto, using(crate::proofs::topology::Counts::bounds))]
fn own_value<'a>(
    kinds: &'a [u8; 32],
    numbers: &'a [u8; 33],
    q: &'a [f64],
    n: usize,
    j: usize,
) -> f64
    requires { (numbers.now ≡ active_numbers kinds.now) × (n ≤ 32) × (j < n) × (length q.now ≡ actives_of kinds.now n) × (kind_of kinds.now j ≡ 2 → ⊥) }
    ensures { result ≡ get_or q.now (actives_of kinds.now j) nan }
{
    q[number_at(kinds, numbers, j)]
}

// Joint j's own number of q, or +0.0 for a fixed joint: for the checks, which are lent no axes.
#[tactic(auto, unfolding(crate::specs::Topology::value_of))]
pub fn value_at<'a>(
    kinds: &'a [u8; 32],
    numbers: &'a [u8; 33],
    q: &'a [f64],
    n: usize,
    j: usize,
) -> f64
    requires { (numbers.now ≡ active_numbers kinds.now) × (n ≤ 32) × (j < n) × (length q.now ≡ actives_of kinds.now n) }
    ensures { result ≡ value_of kinds.now q.now j }
{
    if kinds[j] == 2 {
        return 0.0;
    }
    own_value(kinds, numbers, q, n, j)
}

// The same for a visit, which has the joint's motion.
#[tactic(auto, unfolding(crate::specs::Topology::value_of))]
pub fn value_of<'a>(
    motion: Motion,
    kinds: &'a [u8; 32],
    numbers: &'a [u8; 33],
    q: &'a [f64],
    n: usize,
    j: usize,
) -> f64
    requires { (numbers.now ≡ active_numbers kinds.now) × (n ≤ 32) × (j < n) × (length q.now ≡ actives_of kinds.now n) × (kind_number motion ≡ kind_of kinds.now j) }
    ensures { result ≡ value_of kinds.now q.now j }
{
    match motion {
        Motion::Turn(_) | Motion::Slide(_) => own_value(kinds, numbers, q, n, j),
        Motion::Fixed => 0.0,
    }
}

// Joint j's frame in its parent link: for both calculations here, so that one call draws the joint's own functions in.
pub fn frame_at<'a>(
    n: usize,
    parents: &'a [u8; 32],
    kinds: &'a [u8; 32],
    origins: &'a [f64; 224],
    axes: &'a [f64; 96],
    numbers: &'a [u8; 33],
    q: &'a [f64],
    j: usize,
) -> Frame
    requires { Good n parents.now kinds.now × (numbers.now ≡ active_numbers kinds.now) × (j < n) × (length q.now ≡ actives_of kinds.now n) }
    ensures { result ≡ joint_frame parents.now kinds.now origins.now axes.now q.now j }
{
    let joint = model::joint_at(n, parents, kinds, origins, axes, j);
    let value = value_of(joint.motion, kinds, numbers, q, n, j);
    joint::frame(joint.origin, joint.motion, value)
}

// Joint j is active and has active number k.
#[tactic(auto, unfolding(crate::specs::Topology::holds_of))]
fn holds_at<'a>(kinds: &'a [u8; 32], numbers: &'a [u8; 33], j: usize, k: usize) -> bool
    requires { (numbers.now ≡ active_numbers kinds.now) × (j < 32) }
    ensures { result ≡ holds_of kinds.now k j }
{
    kinds[j] != 2 && number_at(kinds, numbers, j) == k
}

// The joint of active number k. An active number is at most its joint's own, so the search begins at k.
pub fn active_joint<'a>(
    kinds: &'a [u8; 32],
    numbers: &'a [u8; 33],
    n: usize,
    k: usize,
) -> Option<usize>
    requires { (numbers.now ≡ active_numbers kinds.now) × (n ≤ 32) × (k ≤ n) }
    ensures { result ≡ active_joint kinds.now n k }
{
    (k..n).find(|i| holds_at(kinds, numbers, *i, k))
}
