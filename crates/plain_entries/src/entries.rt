// One entry by itself: the wrench that answers a joint's motion goes up until the other joint is met, or to the root.
ghost use Rattle.std.specs.Prelude.{◌≡◌, suc, ◌<◌};
ghost use Rattle.numbers.specs.Double.{0·0};
ghost use Rattle.plain_entries.specs.Arm.{arm_of};
ghost use Rattle.plain_entries.specs.Entries.{answer_of, along, entry_between, to_root, root_answer};

use crate::gather;
use arm::joint;
use arm::posed::Posed;
use composites::composite;
use spatial::operators;
use spatial::wrench::Wrench;

// From joint j up until joint i is met; +0.0 where the root comes first.
fn up_to(arm: &Posed, j: usize, i: usize, w: Wrench) -> f64
    requires { (j < arm.now.model.now.n) × (i < arm.now.model.now.n) }
    ensures { result ≡ along (arm_of arm.now.model.now arm.now.q.now) 0·0 (suc j) j i w }
{
    if j == i {
        return composite::entry(arm.motion_at(i), w);
    }
    let parent = arm.parent_at(j);
    if parent == 0 {
        return 0.0;
    }
    let up = operators::wrench_to_parent(arm.frame_at(j), w);
    up_to(arm, parent - 1, i, up)
}

// From joint j up to the root.
fn to_root(arm: &Posed, j: usize, w: Wrench) -> Wrench
    requires { j < arm.now.model.now.n }
    ensures { result ≡ to_root (arm_of arm.now.model.now arm.now.q.now) (suc j) j w }
{
    let up = operators::wrench_to_parent(arm.frame_at(j), w);
    let parent = arm.parent_at(j);
    if parent == 0 {
        return up;
    }
    to_root(arm, parent - 1, up)
}

// The wrench that answers joint j's motion.
fn answer(arm: &Posed, j: usize) -> Wrench
    requires { j < arm.now.model.now.n }
    ensures { result ≡ answer_of (arm_of arm.now.model.now arm.now.q.now) j }
{
    let c = gather::composite_of(arm, j + 1);
    composite::force(arm.motion_at(j), c)
}

// The same at the root.
pub fn root_answer(arm: &Posed, j: usize) -> Wrench
    requires { j < arm.now.model.now.n }
    ensures { result ≡ root_answer (arm_of arm.now.model.now arm.now.q.now) j }
{
    to_root(arm, j, answer(arm, j))
}

// The entry between joint j and joint i.
#[tactic(auto, using(crate::proofs::Ups::own, crate::proofs::Ups::not_own))]
pub fn between(arm: &Posed, j: usize, i: usize) -> f64
    requires { (j < arm.now.model.now.n) × (i < arm.now.model.now.n) }
    ensures { result ≡ entry_between (arm_of arm.now.model.now arm.now.q.now) j i }
{
    let x = up_to(arm, j, i, answer(arm, j));
    if i == j {
        return joint::with_rotor(arm.model.rotors[j], x);
    }
    x
}
