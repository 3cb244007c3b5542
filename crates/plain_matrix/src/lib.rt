// The plain engine's call, which a second reader can follow on paper: the checks, then every entry is tested, then every entry is written.
#![tactic(auto)]

pub mod matrix;

ghost use Rattle.std.specs.Prelude.{◌≡◌};
ghost use Rattle.arm.specs.Topology.{active_numbers};
ghost use Rattle.mass_matrix.specs.MassMatrix.{floats, rotation_of};
ghost use Rattle.plain_matrix.specs.PlainMatrix.{plain_verdict, plain_call};

use arm::model::Model;
use arm::posed::Posed;
use arm::{model, topology};
use calls::plan;
use calls::position::Outcome;
use mass_matrix::checks;
use mass_matrix::mass_matrix::Mode;
use refusals::Refusal;

// The checks of the matrix but for 10.
#[tactic(auto, using(arm::proofs::topology::Counts::bounds), unfolding(crate::specs::PlainMatrix::plain_verdict, refusals::specs::Refusals::plain_of, refusals::specs::Refusals::or_else))]
fn judged<'a>(
    mode: Mode,
    model: &'a Model,
    numbers: &'a [u8; 33],
    q: &'a [f64],
    out: usize,
) -> Result<(), Refusal>
    requires { numbers.now ≡ active_numbers model.now.kinds }
    ensures { let m = model.now in result ≡ plain_verdict (floats mode) (rotation_of mode) m.n m.parents m.kinds q.now out }
{
    if model::wild(model.n, &model.parents, &model.kinds) {
        return Err(Refusal::plain(9));
    }
    let a = topology::number_at(&model.kinds, numbers, model.n);
    let side = plan::planned(mode.floats(), model.n, a).side;
    checks::judged_tame(mode, model, numbers, a, side, q, out)
}

// The mass matrix, with no workspace. 10 has no cause; a refusal leaves the output.
pub fn plain_matrix<'a>(mode: Mode, model: &'a Model, q: &'a [f64], out: &mut [f64]) -> Outcome
    ensures { (result, out.new) ≡ plain_call mode model.now q.now out.old }
{
    let numbers = topology::active_numbers(&model.kinds);
    match judged(mode, model, &numbers, q, out.len()) {
        Err(refusal) => Outcome::Refused(refusal),
        Ok(()) => {
            let a = topology::number_at(&model.kinds, &numbers, model.n);
            let p = plan::planned(mode.floats(), model.n, a);
            let r = mode.rotation();
            let arm = Posed {
                model,
                numbers: &numbers,
                q,
            };
            let finite = matrix::entries_finite(p, r, &arm);
            if finite {
                matrix::put_entries(p, r, &arm, out);
                return Outcome::Accepted;
            }
            Outcome::Refused(Refusal::plain(37))
        }
    }
}
