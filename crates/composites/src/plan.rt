// The workspace's places, and the entries of the matrix in it.
ghost use Rattle.std.specs.Prelude.{◌≡◌, ◌+◌, ◌≤◌, ◌<◌, length};
ghost use Rattle.arm.specs.Model.{kind_of};
ghost use Rattle.slots.specs.Slots.{put_wrench};
ghost use Rattle.arm.specs.Topology.{actives_of};
ghost use Rattle.calls.specs.Plan.{Fit};
ghost use Rattle.composites.specs.Plan.{Room, room_of, place_of, put_pair, put_six, add_rotor};

use arm::{joint, topology};
use calls::plan::Plan;
use spatial::wrench::Wrench;

// A joint's numbers: its frame, then its composite.
pub const JOINT: usize = 32;

// A frame's, so where the composite stands among them.
pub const COMPOSITE: usize = 7;

// The root's, behind the joints; the matrix stands behind them.
pub const ROOT: usize = 64;

// The place of a row and a column: column by column, behind the root's numbers.
#[tactic(auto, using(crate::proofs::plan::Squares::squares))]
fn place(p: Plan, row: usize, column: usize) -> usize
    requires { (p.n ≤ 32) × (p.side ≤ 38) × (row < p.side) × (column < p.side) }
    ensures { (result ≡ place_of p row column) × (result < room_of p) }
{
    p.n * JOINT + ROOT + column * p.side + row
}

// The matrix row of an active joint.
#[tactic(auto, using(arm::proofs::topology::Counts::bounds))]
pub fn row_of<'a>(
    p: Plan,
    parents: &'a [u8; 32],
    kinds: &'a [u8; 32],
    numbers: &'a [u8; 33],
    j: usize,
) -> usize
    requires { Fit p parents.now kinds.now numbers.now × (j < p.n) × (kind_of kinds.now j ≡ 2 → ⊥) }
    ensures { (result ≡ p.lead + actives_of kinds.now j) × (result < p.side) }
{
    p.lead + topology::number_at(kinds, numbers, j)
}

// An entry and its mirror.
#[tactic(auto, unfolding(crate::specs::Plan::put_pair))]
pub fn put_pair(p: Plan, ws: &mut [f64], row: usize, column: usize, entry: f64)
    requires { Room p (length ws.old) × (row < p.side) × (column < p.side) }
    ensures { ws.new ≡ put_pair p row column entry ws.old }
{
    let here = place(p, row, column);
    let mirror = place(p, column, row);
    slots::put_number(ws, here, entry);
    slots::put_number(ws, mirror, entry);
}

// The base's six rows of a column, and their mirrors.
#[tactic(auto, unfolding(crate::specs::Plan::put_six))]
pub fn put_six(p: Plan, ws: &mut [f64], column: usize, w: Wrench)
    requires { Room p (length ws.old) × (6 ≤ p.side) × (column < p.side) }
    ensures { ws.new ≡ put_six p column w ws.old }
{
    put_pair(p, ws, 0, column, w.torque.x);
    put_pair(p, ws, 1, column, w.torque.y);
    put_pair(p, ws, 2, column, w.torque.z);
    put_pair(p, ws, 3, column, w.force.x);
    put_pair(p, ws, 4, column, w.force.y);
    put_pair(p, ws, 5, column, w.force.z);
}

// A wrench down the first six rows of a column (`write_wrench_to_column`).
#[tactic(auto, using(crate::proofs::plan::Squares::squares))]
pub fn write_wrench_to_column(p: Plan, ws: &mut [f64], column: usize, w: Wrench)
    requires { Room p (length ws.old) × (6 ≤ p.side) × (column < p.side) }
    ensures { ws.new ≡ put_wrench ws.old (place_of p 0 column) w }
{
    let at = place(p, 0, column);
    slots::put_wrench(ws, at, w);
}

// The rotor of a row's joint, on its diagonal entry alone.
#[tactic(auto, unfolding(crate::specs::Plan::add_rotor))]
pub fn add_rotor(p: Plan, ws: &mut [f64], row: usize, rotor: f64)
    requires { Room p (length ws.old) × (row < p.side) }
    ensures { ws.new ≡ add_rotor p row rotor ws.old }
{
    let at = place(p, row, row);
    let entry = slots::number_at(ws, at);
    slots::put_number(ws, at, joint::with_rotor(rotor, entry));
}
