// Any entry of the matrix by itself, and all of them: the first rows and columns are a floating base's.
ghost use Rattle.std.specs.Prelude.{◌≡◌, ◌+◌, ◌*◌, ◌≤◌, ◌<◌, length};
ghost use Rattle.numbers.specs.Double.{all_finite};
ghost use Rattle.arm.specs.Topology.{actives_of, active_numbers};
ghost use Rattle.plain_entries.specs.Arm.{arm_of};
ghost use Rattle.plain_matrix.specs.PlainMatrix.{joint_with, joint_entry, base_entry, corner_entry, entry_at, plain_number, plain_entries};

use arm::posed::Posed;
use arm::topology;
use calls::plan::Plan;
use matrix_visits::kernel;
use numbers::double;
use numbers::quaternion::Quaternion;
use plain_entries::{entries, gather};

// The joint of active number k.
#[tactic(auto, using(crate::proofs::Roots::joint_found, arm::proofs::topology::Counts::bounds), unfolding(crate::specs::PlainMatrix::joint_with))]
pub fn joint_with<'a>(kinds: &'a [u8; 32], numbers: &'a [u8; 33], n: usize, k: usize) -> usize
    requires { (numbers.now ≡ active_numbers kinds.now) × (n ≤ 32) × (k < actives_of kinds.now n) }
    ensures { (result ≡ joint_with kinds.now n k) × (result < n) }
{
    topology::active_joint(kinds, numbers, n, k).unwrap_or(0)
}

// The entry of two active numbers: the higher one is the column's.
#[tactic(auto, unfolding(crate::specs::PlainMatrix::joint_entry))]
fn joint_entry(arm: &Posed, row: usize, column: usize) -> f64
    requires { let a = actives_of arm.now.model.now.kinds arm.now.model.now.n in (row < a) × (column < a) }
    ensures { result ≡ joint_entry (arm_of arm.now.model.now arm.now.q.now) arm.now.model.now.kinds row column }
{
    let i = joint_with(&arm.model.kinds, arm.numbers, arm.model.n, row);
    let j = joint_with(&arm.model.kinds, arm.numbers, arm.model.n, column);
    if column < row {
        return entries::between(arm, i, j);
    }
    entries::between(arm, j, i)
}

// Between the base's direction k and active number c.
#[tactic(auto, unfolding(crate::specs::PlainMatrix::base_entry, plain_entries::specs::Entries::number_of))]
fn base_entry(arm: &Posed, r: Quaternion, k: usize, c: usize) -> f64
    requires { (k < 6) × (c < actives_of arm.now.model.now.kinds arm.now.model.now.n) }
    ensures { result ≡ base_entry (arm_of arm.now.model.now arm.now.q.now) r arm.now.model.now.kinds k c }
{
    let j = joint_with(&arm.model.kinds, arm.numbers, arm.model.n, c);
    let v = entries::root_answer(arm, j).rotated(r).to_vector();
    v[k]
}

// Between two directions of the base.
#[tactic(auto, unfolding(crate::specs::PlainMatrix::corner_entry, plain_entries::specs::Entries::number_of))]
fn corner_entry(arm: &Posed, r: Quaternion, row: usize, column: usize) -> f64
    requires { row < 6 }
    ensures { result ≡ corner_entry (arm_of arm.now.model.now arm.now.q.now) r row column }
{
    let root = gather::composite_of(arm, 0);
    let v = kernel::base_load(r, root, column).to_vector();
    v[row]
}

// Any entry.
#[tactic(auto, unfolding(crate::specs::PlainMatrix::entry_at))]
fn entry_at(arm: &Posed, lead: usize, r: Quaternion, row: usize, column: usize) -> f64
    requires { let side = lead + actives_of arm.now.model.now.kinds arm.now.model.now.n in (lead ≤ 6) × (row < side) × (column < side) }
    ensures { result ≡ entry_at (arm_of arm.now.model.now arm.now.q.now) lead r arm.now.model.now.kinds row column }
{
    if row < lead {
        if column < lead {
            return corner_entry(arm, r, row, column);
        }
        return base_entry(arm, r, row, column - lead);
    }
    if column < lead {
        return base_entry(arm, r, column, row - lead);
    }
    joint_entry(arm, row - lead, column - lead)
}

// Number t of the matrix, column by column.
fn number(p: Plan, r: Quaternion, arm: &Posed, t: usize) -> f64
    requires { let m = arm.now.model.now in (p.lead ≤ 6) × (p.side ≡ p.lead + actives_of m.kinds m.n) × (t < p.side * p.side) }
    ensures { let m = arm.now.model.now in result ≡ plain_number (arm_of m arm.now.q.now) p r m.kinds t }
{
    entry_at(arm, p.lead, r, t % p.side, t / p.side)
}

// Whether every entry is finite.
pub fn entries_finite(p: Plan, r: Quaternion, arm: &Posed) -> bool
    requires { let m = arm.now.model.now in (p.lead ≤ 6) × (p.side ≡ p.lead + actives_of m.kinds m.n) × (p.side ≤ 38) }
    ensures { let m = arm.now.model.now in result ≡ all_finite (plain_entries (arm_of m arm.now.q.now) p r m.kinds) }
{
    (0..p.side * p.side).all(|t| double::is_finite(number(p, r, arm, t)))
}

// Every entry is written.
pub fn put_entries(p: Plan, r: Quaternion, arm: &Posed, out: &mut [f64])
    requires { let m = arm.now.model.now in (p.lead ≤ 6) × (p.side ≡ p.lead + actives_of m.kinds m.n) × (length out.old ≡ p.side * p.side) }
    ensures { let m = arm.now.model.now in out.new ≡ plain_entries (arm_of m arm.now.q.now) p r m.kinds }
{
    for (t, entry) in out.iter_mut().enumerate() {
        *entry = number(p, r, arm, t);
    }
}
