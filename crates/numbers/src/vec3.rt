// Vectors of three.
ghost use Rattle.std.specs.Prelude.{◌≡◌};
ghost use Rattle.numbers.specs.Vec3.{plus_of, minus_of, neg_of, scale_of, over_of, dot_of, cross_of};

#[derive(Clone, Copy)]
pub struct Vec3 {
    pub x: f64,
    pub y: f64,
    pub z: f64,
}

impl Vec3 {
    #[tactic(auto, unfolding(crate::specs::Vec3::plus_of))]
    pub fn plus(self, b: Vec3) -> Vec3
        ensures { result ≡ plus_of self b }
    {
        Vec3 {
            x: self.x + b.x,
            y: self.y + b.y,
            z: self.z + b.z,
        }
    }

    #[tactic(auto, unfolding(crate::specs::Vec3::minus_of))]
    pub fn minus(self, b: Vec3) -> Vec3
        ensures { result ≡ minus_of self b }
    {
        Vec3 {
            x: self.x - b.x,
            y: self.y - b.y,
            z: self.z - b.z,
        }
    }

    #[tactic(auto, unfolding(crate::specs::Vec3::neg_of))]
    pub fn negated(self) -> Vec3
        ensures { result ≡ neg_of self }
    {
        Vec3 {
            x: -self.x,
            y: -self.y,
            z: -self.z,
        }
    }

    #[tactic(auto, unfolding(crate::specs::Vec3::scale_of))]
    pub fn scale(self, k: f64) -> Vec3
        ensures { result ≡ scale_of self k }
    {
        Vec3 {
            x: self.x * k,
            y: self.y * k,
            z: self.z * k,
        }
    }

    #[tactic(auto, unfolding(crate::specs::Vec3::over_of))]
    pub fn over(self, k: f64) -> Vec3
        ensures { result ≡ over_of self k }
    {
        Vec3 {
            x: self.x / k,
            y: self.y / k,
            z: self.z / k,
        }
    }

    #[tactic(auto, unfolding(crate::specs::Vec3::dot_of))]
    pub fn dot(self, b: Vec3) -> f64
        ensures { result ≡ dot_of self b }
    {
        self.x * b.x + self.y * b.y + self.z * b.z
    }

    #[tactic(auto, unfolding(crate::specs::Vec3::cross_of))]
    pub fn cross(self, b: Vec3) -> Vec3
        ensures { result ≡ cross_of self b }
    {
        Vec3 {
            x: self.y * b.z - self.z * b.y,
            y: self.z * b.x - self.x * b.z,
            z: self.x * b.y - self.y * b.x,
        }
    }
}
