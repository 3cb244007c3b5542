// A twist: angular first.
ghost use Rattle.std.specs.Prelude.{◌≡◌};
ghost use Rattle.spatial.specs.Twist.{zeros_of, plus_of, scale_of, rotated_of, vector_of, of_vector, finite_of};

use numbers::double;
use numbers::quaternion::Quaternion;
use numbers::vec3::Vec3;

#[derive(Clone, Copy)]
pub struct Twist {
    pub angular: Vec3,
    pub linear: Vec3,
}

impl Twist {
    #[tactic(auto, unfolding(crate::specs::Twist::zeros_of))]
    pub fn zeros() -> Twist
        ensures { result ≡ zeros_of }
    {
        let zero = Vec3 {
            x: 0.0,
            y: 0.0,
            z: 0.0,
        };
        Twist {
            angular: zero,
            linear: zero,
        }
    }

    #[tactic(auto, unfolding(crate::specs::Twist::plus_of))]
    pub fn plus(self, b: Twist) -> Twist
        ensures { result ≡ plus_of self b }
    {
        let angular = self.angular.plus(b.angular);
        let linear = self.linear.plus(b.linear);
        Twist { angular, linear }
    }

    #[tactic(auto, unfolding(crate::specs::Twist::scale_of))]
    pub fn scale(self, k: f64) -> Twist
        ensures { result ≡ scale_of self k }
    {
        let angular = self.angular.scale(k);
        let linear = self.linear.scale(k);
        Twist { angular, linear }
    }

    #[tactic(auto, unfolding(crate::specs::Twist::rotated_of))]
    pub fn rotated(self, q: Quaternion) -> Twist
        ensures { result ≡ rotated_of self q }
    {
        let angular = q.rotate(self.angular);
        let linear = q.rotate(self.linear);
        Twist { angular, linear }
    }

    pub fn to_vector(self) -> [f64; 6]
        ensures { result ≡ vector_of self }
    {
        [
            self.angular.x,
            self.angular.y,
            self.angular.z,
            self.linear.x,
            self.linear.y,
            self.linear.z,
        ]
    }

    pub fn from_vector(v: &[f64; 6]) -> Twist
        ensures { result ≡ of_vector v.now }
    {
        let angular = Vec3 {
            x: v[0],
            y: v[1],
            z: v[2],
        };
        let linear = Vec3 {
            x: v[3],
            y: v[4],
            z: v[5],
        };
        Twist { angular, linear }
    }

    pub fn is_finite(self) -> bool
        ensures { result ≡ finite_of self }
    {
        let v = self.to_vector();
        double::all_finite(&v)
    }
}
