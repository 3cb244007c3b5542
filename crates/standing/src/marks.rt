// A mark for each entry of the matrix, column by column: the first rows and columns are a floating base's.
ghost use Rattle.std.specs.Prelude.{◌≡◌, ◌*◌, ◌≤◌, ◌<◌, length};
ghost use Rattle.arm.specs.Model.{Good};
ghost use Rattle.arm.specs.Topology.{actives_of, active_numbers};
ghost use Rattle.calls.specs.Plan.{Fit};
ghost use Rattle.standing.specs.Standing.{joint_mark, mark_at, marks_of, stands_by};

use crate::changes::Changes;
use crate::joints::Joints;
use crate::touched;
use calls::plan::Plan;
use plain_matrix::matrix;

// The entry of two active numbers: the higher one is the column's.
#[tactic(auto, unfolding(crate::specs::Standing::joint_mark))]
fn joint_mark(
    joints: &Joints,
    numbers: &[u8; 33],
    changes: &Changes,
    composites: &[bool; 33],
    row: usize,
    column: usize,
) -> bool
    requires { let t = joints.now in Good t.n t.parents.now t.kinds.now × (numbers.now ≡ active_numbers t.kinds.now) × (row < actives_of t.kinds.now t.n) × (column < actives_of t.kinds.now t.n) }
    ensures { let t = joints.now in let c = changes.now in result ≡ joint_mark t.n t.kinds.now (stands_by t.n t.parents.now t.kinds.now composites.now c.frames c.axes c.rotors) row column }
{
    let i = matrix::joint_with(joints.kinds, numbers, joints.n, row);
    let j = matrix::joint_with(joints.kinds, numbers, joints.n, column);
    if column < row {
        return touched::stands_between(joints, changes, composites, i, j);
    }
    touched::stands_between(joints, changes, composites, j, i)
}

// Any entry; n is the plan's.
#[tactic(auto, unfolding(crate::specs::Standing::mark_at))]
fn mark_at(
    p: Plan,
    joints: &Joints,
    numbers: &[u8; 33],
    changes: &Changes,
    composites: &[bool; 33],
    row: usize,
    column: usize,
) -> bool
    requires { let t = joints.now in Fit p t.parents.now t.kinds.now numbers.now × (row < p.side) × (column < p.side) }
    ensures { let t = joints.now in let c = changes.now in result ≡ mark_at p t.kinds.now (stands_by p.n t.parents.now t.kinds.now composites.now c.frames c.axes c.rotors) row column }
{
    if row < p.lead || column < p.lead {
        return false;
    }
    let planned = Joints { n: p.n, ..*joints };
    joint_mark(
        &planned,
        numbers,
        changes,
        composites,
        row - p.lead,
        column - p.lead,
    )
}

// Every mark is written.
pub fn put_marks(
    p: Plan,
    joints: &Joints,
    numbers: &[u8; 33],
    changes: &Changes,
    composites: &[bool; 33],
    marks: &mut [bool],
)
    requires { let t = joints.now in Fit p t.parents.now t.kinds.now numbers.now × (length marks.old ≡ p.side * p.side) }
    ensures { let t = joints.now in let c = changes.now in marks.new ≡ marks_of p t.kinds.now (stands_by p.n t.parents.now t.kinds.now composites.now c.frames c.axes c.rotors) }
{
    for (t, mark) in marks.iter_mut().enumerate() {
        *mark = mark_at(
            p,
            joints,
            numbers,
            changes,
            composites,
            t % p.side,
            t / p.side,
        );
    }
}
