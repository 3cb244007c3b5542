// A model with the plan that fits it.
ghost use Rattle.std.specs.Prelude.{◌≡◌};
ghost use Rattle.calls.specs.Plan.{Fit};

use arm::model::Model;
use calls::plan::Plan;
use numbers::quaternion::Quaternion;

// A model that passed refusal 9's test, its active numbers, its plan, and the base's rotation, which counts where the root floats.
#[derive(Clone, Copy)]
pub struct Fitted<'a> {
    pub plan: Plan,
    pub rotation: Quaternion,
    pub model: &'a Model,
    pub numbers: &'a [u8; 33],
    ghost fit: { Fit plan model.now.parents model.now.kinds numbers.now },
    ghost joints: { model.now.n ≡ plan.n },
}
