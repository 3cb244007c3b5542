// A wrench: torque first.
ghost use Rattle.std.specs.Prelude.{◌≡◌};
ghost use Rattle.spatial.specs.Wrench.{zeros_of, plus_of, minus_of, scale_of, rotated_of, vector_of, of_vector, finite_of};

use numbers::double;
use numbers::quaternion::Quaternion;
use numbers::vec3::Vec3;

#[derive(Clone, Copy)]
pub struct Wrench {
    pub torque: Vec3,
    pub force: Vec3,
}

impl Wrench {
    #[tactic(auto, unfolding(crate::specs::Wrench::zeros_of))]
    pub fn zeros() -> Wrench
        ensures { result ≡ zeros_of }
    {
        let zero = Vec3 {
            x: 0.0,
            y: 0.0,
            z: 0.0,
        };
        Wrench {
            torque: zero,
            force: zero,
        }
    }

    #[tactic(auto, unfolding(crate::specs::Wrench::plus_of))]
    pub fn plus(self, b: Wrench) -> Wrench
        ensures { result ≡ plus_of self b }
    {
        let torque = self.torque.plus(b.torque);
        let force = self.force.plus(b.force);
        Wrench { torque, force }
    }

    #[tactic(auto, unfolding(crate::specs::Wrench::minus_of))]
    pub fn minus(self, b: Wrench) -> Wrench
        ensures { result ≡ minus_of self b }
    {
        let torque = self.torque.minus(b.torque);
        let force = self.force.minus(b.force);
        Wrench { torque, force }
    }

    #[tactic(auto, unfolding(crate::specs::Wrench::scale_of))]
    pub fn scale(self, k: f64) -> Wrench
        ensures { result ≡ scale_of self k }
    {
        let torque = self.torque.scale(k);
        let force = self.force.scale(k);
        Wrench { torque, force }
    }

    #[tactic(auto, unfolding(crate::specs::Wrench::rotated_of))]
    pub fn rotated(self, q: Quaternion) -> Wrench
        ensures { result ≡ rotated_of self q }
    {
        let torque = q.rotate(self.torque);
        let force = q.rotate(self.force);
        Wrench { torque, force }
    }

    pub fn to_vector(self) -> [f64; 6]
        ensures { result ≡ vector_of self }
    {
        [
            self.torque.x,
            self.torque.y,
            self.torque.z,
            self.force.x,
            self.force.y,
            self.force.z,
        ]
    }

    pub fn from_vector(v: &[f64; 6]) -> Wrench
        ensures { result ≡ of_vector v.now }
    {
        let torque = Vec3 {
            x: v[0],
            y: v[1],
            z: v[2],
        };
        let force = Vec3 {
            x: v[3],
            y: v[4],
            z: v[5],
        };
        Wrench { torque, force }
    }

    pub fn is_finite(self) -> bool
        ensures { result ≡ finite_of self }
    {
        let v = self.to_vector();
        double::all_finite(&v)
    }
}
