// What is touched by something that is not what it was: a joint's frame, a link's composite, the entry between two joints.
ghost use Rattle.std.specs.Prelude.{◌≡◌, ◌&&◌, ◌||◌, suc, ◌≤◌, ◌<◌, length};
ghost use Rattle.numbers.specs.Table.{tab};
ghost use Rattle.arm.specs.Model.{parent_of, Tree};
ghost use Rattle.standing.specs.Tree.{carries};
ghost use Rattle.standing.specs.Standing.{another, some, reframed, composite_touched, own_touched, stands_up, stands_by};

use crate::changes::Changes;
use crate::joints::Joints;
use arm::model;

// Joint x's frame.
#[tactic(auto, unfolding(crate::specs::Standing::reframed))]
fn reframed_at(joints: &Joints, changes: &Changes, x: usize) -> bool
    requires { x < 32 }
    ensures { result ≡ reframed joints.now.kinds.now changes.now.frames changes.now.axes x }
{
    changes.frames[x] || (joints.kinds[x] != 2 && changes.axes[x])
}

// Flags every link that carries link x: x itself, and on to the root.
fn flag_up(joints: &Joints, x: usize, flags: &mut [bool; 33])
    requires { Tree joints.now.n joints.now.parents.now × (x ≤ joints.now.n) × (length flags.old ≡ 33) }
    ensures { flags.new ≡ tab (λ l. another flags.old l || carries (parent_of joints.now.parents.now) l x) 33 }
{
    let mut l = x;
    while l != 0 {
        flags[l] = true;
        l = model::parent_at(joints.n, joints.parents, l - 1);
    }
    flags[0] = true;
}

// Flags the links that carry a link that is another.
fn flag_links(joints: &Joints, changes: &Changes, flags: &mut [bool; 33])
    requires { Tree joints.now.n joints.now.parents.now × (length flags.old ≡ 33) }
    ensures { flags.new ≡ tab (λ l. another flags.old l || some (λ x. carries (parent_of joints.now.parents.now) l x && another changes.now.links x) (suc joints.now.n)) 33 }
{
    for x in 0..=joints.n {
        if changes.links[x] {
            flag_up(joints, x, flags);
        }
    }
}

// Flags the links that carry one on which a joint stands whose frame is another.
fn flag_frames(joints: &Joints, changes: &Changes, flags: &mut [bool; 33])
    requires { Tree joints.now.n joints.now.parents.now × (length flags.old ≡ 33) }
    ensures { let t = joints.now in flags.new ≡ tab (λ l. another flags.old l || some (λ x. carries (parent_of t.parents.now) l (parent_of t.parents.now x) && reframed t.kinds.now changes.now.frames changes.now.axes x) t.n) 33 }
{
    for x in 0..joints.n {
        if reframed_at(joints, changes, x) {
            flag_up(joints, model::parent_at(joints.n, joints.parents, x), flags);
        }
    }
}

// The composite of each link.
pub fn composites(joints: &Joints, changes: &Changes) -> [bool; 33]
    requires { Tree joints.now.n joints.now.parents.now }
    ensures { let t = joints.now in let c = changes.now in result ≡ tab (composite_touched t.n t.parents.now t.kinds.now c.links c.frames c.axes) 33 }
{
    let mut flags = [false; 33];
    flag_links(joints, changes, &mut flags);
    flag_frames(joints, changes, &mut flags);
    flags
}

// Both axes, and for i equal to j its rotor.
#[tactic(auto, unfolding(crate::specs::Standing::own_touched))]
fn own(changes: &Changes, j: usize, i: usize) -> bool
    requires { (j < 32) × (i < 32) }
    ensures { result ≡ own_touched changes.now.axes changes.now.rotors j i }
{
    changes.axes[j] || changes.axes[i] || (j == i && changes.rotors[j])
}

// Goes up from joint j until joint i is met: whether their entry stands. `touched` says whether anything but a frame between them is.
fn stands_up(joints: &Joints, changes: &Changes, touched: bool, j: usize, i: usize) -> bool
    requires { Tree joints.now.n joints.now.parents.now × (j < joints.now.n) }
    ensures { let t = joints.now in result ≡ stands_up t.n t.parents.now t.kinds.now changes.now.frames changes.now.axes touched j i }
{
    let mut known = touched;
    let mut at = j;
    while at != i {
        known |= reframed_at(joints, changes, at);
        let up = model::parent_at(joints.n, joints.parents, at);
        if up == 0 {
            return true; // i does not carry j
        }
        at = up - 1;
    }
    !known
}

// Whether the entry between joints j and i stands.
#[tactic(auto, unfolding(crate::specs::Standing::stands_by))]
pub fn stands_between(
    joints: &Joints,
    changes: &Changes,
    composites: &[bool; 33],
    j: usize,
    i: usize,
) -> bool
    requires { Tree joints.now.n joints.now.parents.now × (j < joints.now.n) × (i < joints.now.n) }
    ensures { let t = joints.now in let c = changes.now in result ≡ stands_by t.n t.parents.now t.kinds.now composites.now c.frames c.axes c.rotors j i }
{
    let touched = composites[j + 1] || own(changes, j, i);
    stands_up(joints, changes, touched, j, i)
}
