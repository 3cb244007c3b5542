// Which entries of a stored mass matrix keep their bits, where some links, frames, axes and rotors are not what they were.
#![tactic(auto)]

pub mod changes;
pub mod joints;
pub mod marks;
pub mod touched;

ghost use Rattle.std.specs.Prelude.{◌≡◌, ◌*◌, ◌≤◌};
ghost use Rattle.arm.specs.Topology.{active_numbers};
ghost use Rattle.calls.specs.Plan.{plan_of};
ghost use Rattle.standing.specs.Standing.{marks_room, stands_verdict, stands_call};

use crate::changes::Changes;
use crate::joints::Joints;
use arm::{model, topology};
use calls::plan;
use refusals::Refusal;

// How many entries the matrix has.
#[tactic(auto, using(arm::proofs::topology::Counts::bounds))]
fn entries(floating: bool, joints: &Joints, numbers: &[u8; 33]) -> usize
    requires { (numbers.now ≡ active_numbers joints.now.kinds.now) × (joints.now.n ≤ 32) }
    ensures { let side = (plan_of floating joints.now.n joints.now.kinds.now).side in (result ≡ side * side) × (result ≤ 1444) }
{
    let a = topology::number_at(joints.kinds, numbers, joints.n);
    let side = plan::planned(floating, joints.n, a).side;
    side * side
}

// How many marks a call takes: one for each entry, none of a model with cause 9.
#[tactic(auto, unfolding(crate::specs::Standing::marks_room))]
pub fn marks_room(floating: bool, joints: &Joints) -> usize
    ensures { let t = joints.now in (result ≡ marks_room floating t.n t.parents.now t.kinds.now) × (result ≤ 1444) }
{
    if model::wild(joints.n, joints.parents, joints.kinds) {
        return 0;
    }
    let numbers = topology::active_numbers(joints.kinds);
    entries(floating, joints, &numbers)
}

// 9, and 17 for the marks.
#[tactic(auto, unfolding(crate::specs::Standing::stands_verdict, refusals::specs::Refusals::plain_of, refusals::specs::Refusals::or_else))]
fn judged(floating: bool, joints: &Joints, numbers: &[u8; 33], room: usize) -> Result<(), Refusal>
    requires { numbers.now ≡ active_numbers joints.now.kinds.now }
    ensures { let t = joints.now in result ≡ stands_verdict floating t.n t.parents.now t.kinds.now room }
{
    if model::wild(joints.n, joints.parents, joints.kinds) {
        return Err(Refusal::plain(9));
    }
    refusals::plain(17, room != entries(floating, joints, numbers))
}

// Marks the entries that stand; a refusal leaves the marks.
pub fn stands(
    floating: bool,
    joints: &Joints,
    changes: &Changes,
    marks: &mut [bool],
) -> Result<(), Refusal>
    ensures { let t = joints.now in (result, marks.new) ≡ stands_call floating t.n t.parents.now t.kinds.now changes.now marks.old }
{
    let numbers = topology::active_numbers(joints.kinds);
    judged(floating, joints, &numbers, marks.len())?;
    let a = topology::number_at(joints.kinds, &numbers, joints.n);
    let p = plan::planned(floating, joints.n, a);
    let composites = touched::composites(joints, changes);
    marks::put_marks(p, joints, &numbers, changes, &composites, marks);
    Ok(())
}
