// The composite of a link: its own link, then its children from the highest number to the lowest, each worked out afresh.
ghost use Rattle.std.specs.Prelude.{◌≡◌, ◌≤◌};
ghost use Rattle.plain_entries.specs.Arm.{arm_of};
ghost use Rattle.plain_entries.specs.Gather.{gathered_of, composite_of};

use arm::model::Link;
use arm::posed::Posed;
use composites::composite;

// Link l and its children among the i highest joints.
fn gathered(arm: &Posed, i: usize, l: usize) -> Link
    requires { (i ≤ arm.now.model.now.n) × (l ≤ arm.now.model.now.n) }
    ensures { result ≡ gathered_of (arm_of arm.now.model.now arm.now.q.now) i l }
{
    if i == 0 {
        return arm.link_at(l);
    }
    let n = arm.model.n;
    let c = gathered(arm, i - 1, l);
    let j = n - i;
    if arm.parent_at(j) != l {
        return c;
    }
    let whole = gathered(arm, n, j + 1);
    let moved = composite::to_parent(whole, arm.frame_at(j));
    composite::joined(c, moved)
}

// Link l and all its children.
pub fn composite_of(arm: &Posed, l: usize) -> Link
    requires { l ≤ arm.now.model.now.n }
    ensures { result ≡ composite_of (arm_of arm.now.model.now arm.now.q.now) l }
{
    gathered(arm, arm.model.n, l)
}
