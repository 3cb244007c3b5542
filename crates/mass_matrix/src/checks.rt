// The checks of a call to 22, in the order of the table.
ghost use Rattle.std.specs.Prelude.{◌≡◌, ◌≤◌, length};
ghost use Rattle.arm.specs.Topology.{actives_of, active_numbers};
ghost use Rattle.mass_matrix.specs.Checks.{rest_verdict, tame_verdict, inputs_verdict};
ghost use Rattle.mass_matrix.specs.MassMatrix.{floats, rotation_of};

use crate::mass_matrix::Mode;
use arm::model::Model;
use arm::{model, topology};
use calls::{checks, plan};
use composites::plan as places;
use refusals::Refusal;

// 13, 17 and 22.
#[tactic(auto, unfolding(crate::specs::Checks::rest_verdict, refusals::specs::Refusals::plain_of, refusals::specs::Refusals::or_else))]
fn judged_rest<'a>(
    mode: Mode,
    model: &'a Model,
    numbers: &'a [u8; 33],
    side: usize,
    q: &'a [f64],
    out: usize,
) -> Result<(), Refusal>
    requires { let m = model.now in (numbers.now ≡ active_numbers m.kinds) × (m.n ≤ 32) × (side ≤ 38) × (length q.now ≡ actives_of m.kinds m.n) }
    ensures { result ≡ rest_verdict model.now.n side (floats mode) (rotation_of mode) model.now.kinds q.now out }
{
    checks::check_turns(&model.kinds, numbers, model.n, q)?;
    checks::check_length(17, out, side * side)?;
    refusals::plain(22, mode.floats() && checks::bad_rotation(mode.rotation()))
}

// 11 and 12 before them.
#[tactic(auto, using(calls::proofs::Passed::counted), unfolding(crate::specs::Checks::tame_verdict, refusals::specs::Refusals::or_else))]
pub fn judged_tame<'a>(
    mode: Mode,
    model: &'a Model,
    numbers: &'a [u8; 33],
    a: usize,
    side: usize,
    q: &'a [f64],
    out: usize,
) -> Result<(), Refusal>
    requires { let m = model.now in (numbers.now ≡ active_numbers m.kinds) × (m.n ≤ 32) × (side ≤ 38) × (a ≡ actives_of m.kinds m.n) }
    ensures { result ≡ tame_verdict model.now.n side (floats mode) (rotation_of mode) model.now.kinds q.now out }
{
    checks::check_values(11, 12, &model.kinds, numbers, model.n, a, q)?;
    judged_rest(mode, model, numbers, side, q, out)
}

// The checks to 22.
#[tactic(auto, using(arm::proofs::topology::Counts::bounds), unfolding(crate::specs::Checks::inputs_verdict, refusals::specs::Refusals::plain_of, refusals::specs::Refusals::or_else))]
pub fn judged<'a>(
    mode: Mode,
    model: &'a Model,
    numbers: &'a [u8; 33],
    q: &'a [f64],
    ws: usize,
    out: usize,
) -> Result<(), Refusal>
    requires { numbers.now ≡ active_numbers model.now.kinds }
    ensures { let m = model.now in result ≡ inputs_verdict (floats mode) (rotation_of mode) m.n m.parents m.kinds q.now ws out }
{
    let n = model.n;
    if model::wild(n, &model.parents, &model.kinds) {
        return Err(Refusal::plain(9));
    }
    let a = topology::number_at(&model.kinds, numbers, n);
    let side = plan::planned(mode.floats(), n, a).side;
    if ws < n * places::JOINT + places::ROOT + side * side {
        return Err(Refusal::plain(10));
    }
    judged_tame(mode, model, numbers, a, side, q, out)
}
