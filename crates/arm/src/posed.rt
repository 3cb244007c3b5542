// A model at the numbers q, as the plain engine and the visits read it.
ghost use Rattle.std.specs.Prelude.{◌≡◌, ◌≤◌, ◌<◌, length};
ghost use Rattle.arm.specs.Model.{Good, parent_of, motion_of, link_of};
ghost use Rattle.arm.specs.Topology.{joint_frame, actives_of, active_numbers};

use crate::joint::Motion;
use crate::model::{Link, Model};
use crate::{model, topology};
use spatial::frame::Frame;

// A model that passed refusal 9's test, its active numbers, and as many numbers of q as it has active joints.
#[derive(Clone, Copy)]
pub struct Posed<'a> {
    pub model: &'a Model,
    pub numbers: &'a [u8; 33],
    pub q: &'a [f64],
    ghost good: { Good model.now.n model.now.parents model.now.kinds },
    ghost numbered: { numbers.now ≡ active_numbers model.now.kinds },
    ghost counted: { length q.now ≡ actives_of model.now.kinds model.now.n },
}

impl<'a> Posed<'a> {
    // The link that joint j stands on.
    pub fn parent_at(&self, j: usize) -> usize
        requires { j < self.now.model.now.n }
        ensures { (result ≡ parent_of self.now.model.now.parents j) × (result ≤ j) }
    {
        model::parent_at(self.model.n, &self.model.parents, j)
    }

    pub fn motion_at(&self, j: usize) -> Motion
        requires { j < self.now.model.now.n }
        ensures { result ≡ motion_of self.now.model.now.kinds self.now.model.now.axes j }
    {
        model::motion_at(&self.model.kinds, &self.model.axes, j)
    }

    pub fn link_at(&self, l: usize) -> Link
        requires { l ≤ self.now.model.now.n }
        ensures { result ≡ link_of self.now.model.now.links l }
    {
        model::link_at(&self.model.links, l)
    }

    // Joint j's frame in its parent link.
    pub fn frame_at(&self, j: usize) -> Frame
        requires { j < self.now.model.now.n }
        ensures { result ≡ joint_frame self.now.model.now.parents self.now.model.now.kinds self.now.model.now.origins self.now.model.now.axes self.now.q.now j }
    {
        let m = self.model;
        topology::frame_at(
            m.n,
            &m.parents,
            &m.kinds,
            &m.origins,
            &m.axes,
            self.numbers,
            self.q,
            j,
        )
    }
}
