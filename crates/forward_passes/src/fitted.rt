// A model and the sizes of one calculation of it.
ghost use Rattle.std.specs.Prelude.{◌≡◌, ◌+◌, ◌≤◌, ◌<◌};
ghost use Rattle.arm.specs.Joint.{kind_number};
ghost use Rattle.arm.specs.Model.{parent_of, motion_of};
ghost use Rattle.arm.specs.Topology.{actives_of};
ghost use Rattle.calls.specs.Plan.{Fit};

use arm::joint::Motion;
use arm::model::Model;
use arm::{model, topology};
use calls::plan::Plan;

// A lent model with its active numbers, and a plan that fits it.
#[derive(Clone, Copy)]
pub struct Fitted<'a> {
    pub plan: Plan,
    pub model: &'a Model,
    pub numbers: &'a [u8; 33],
    ghost sized: { plan.n ≡ model.now.n },
    ghost fit: { Fit plan model.now.parents model.now.kinds numbers.now },
}

impl<'a> Fitted<'a> {
    // The link that joint j stands on.
    pub fn parent_at(&self, j: usize) -> usize
        requires { j < self.now.plan.n }
        ensures { (result ≡ parent_of self.now.model.now.parents j) × (result ≤ j) }
    {
        model::parent_at(self.plan.n, &self.model.parents, j)
    }

    pub fn motion_at(&self, j: usize) -> Motion
        requires { j < self.now.plan.n }
        ensures { result ≡ motion_of self.now.model.now.kinds self.now.model.now.axes j }
    {
        model::motion_at(&self.model.kinds, &self.model.axes, j)
    }

    // How many joints below joint j are active: its own number, if it is.
    pub fn number_at(&self, j: usize) -> usize
        requires { j < self.now.plan.n }
        ensures { let m = self.now.model.now in (result ≡ actives_of m.kinds j) × ((kind_number (motion_of m.kinds m.axes j) ≡ 2 → ⊥) → self.now.plan.lead + result < self.now.plan.side) }
    {
        topology::number_at(&self.model.kinds, self.numbers, j)
    }
}
