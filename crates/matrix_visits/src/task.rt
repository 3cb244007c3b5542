// What the visits are lent.
ghost use Rattle.std.specs.Prelude.{◌≡◌, length};
ghost use Rattle.arm.specs.Topology.{actives_of};

use arm::posed::Posed;
use matrix_columns::fitted::Fitted;

// A fitted model, and as many numbers of q as it has active joints.
#[derive(Clone, Copy)]
pub struct Task<'a> {
    pub fitted: Fitted<'a>,
    pub q: &'a [f64],
    ghost counted: { length q.now ≡ actives_of fitted.model.now.kinds fitted.plan.n },
}

impl<'a> Task<'a> {
    // The model at these numbers.
    pub fn arm(&self) -> Posed<'a>
        ensures { (result.model.now ≡ self.now.fitted.model.now) × (result.q.now ≡ self.now.q.now) }
    {
        Posed {
            model: self.fitted.model,
            numbers: self.fitted.numbers,
            q: self.q,
        }
    }
}
