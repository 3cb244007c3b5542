// 3×3 matrices, by rows.
ghost use Rattle.std.specs.Prelude.{◌≡◌};
ghost use Rattle.numbers.specs.Mat3.{plus_of, minus_of, neg_of, transpose_of, apply_of, times_of, outer_of, identity_by, cross_matrix_of};

use crate::vec3::Vec3;

#[derive(Clone, Copy)]
pub struct Mat3 {
    pub r0: Vec3,
    pub r1: Vec3,
    pub r2: Vec3,
}

impl Mat3 {
    #[tactic(auto, unfolding(crate::specs::Mat3::plus_of))]
    pub fn plus(self, b: Mat3) -> Mat3
        ensures { result ≡ plus_of self b }
    {
        Mat3 {
            r0: Vec3 {
                x: self.r0.x + b.r0.x,
                y: self.r0.y + b.r0.y,
                z: self.r0.z + b.r0.z,
            },
            r1: Vec3 {
                x: self.r1.x + b.r1.x,
                y: self.r1.y + b.r1.y,
                z: self.r1.z + b.r1.z,
            },
            r2: Vec3 {
                x: self.r2.x + b.r2.x,
                y: self.r2.y + b.r2.y,
                z: self.r2.z + b.r2.z,
            },
        }
    }

    #[tactic(auto, unfolding(crate::specs::Mat3::minus_of))]
    pub fn minus(self, b: Mat3) -> Mat3
        ensures { result ≡ minus_of self b }
    {
        Mat3 {
            r0: Vec3 {
                x: self.r0.x - b.r0.x,
                y: self.r0.y - b.r0.y,
                z: self.r0.z - b.r0.z,
            },
            r1: Vec3 {
                x: self.r1.x - b.r1.x,
                y: self.r1.y - b.r1.y,
                z: self.r1.z - b.r1.z,
            },
            r2: Vec3 {
                x: self.r2.x - b.r2.x,
                y: self.r2.y - b.r2.y,
                z: self.r2.z - b.r2.z,
            },
        }
    }

    #[tactic(auto, unfolding(crate::specs::Mat3::neg_of))]
    pub fn negated(self) -> Mat3
        ensures { result ≡ neg_of self }
    {
        Mat3 {
            r0: Vec3 {
                x: -self.r0.x,
                y: -self.r0.y,
                z: -self.r0.z,
            },
            r1: Vec3 {
                x: -self.r1.x,
                y: -self.r1.y,
                z: -self.r1.z,
            },
            r2: Vec3 {
                x: -self.r2.x,
                y: -self.r2.y,
                z: -self.r2.z,
            },
        }
    }

    #[tactic(auto, unfolding(crate::specs::Mat3::transpose_of))]
    pub fn transpose(self) -> Mat3
        ensures { result ≡ transpose_of self }
    {
        Mat3 {
            r0: Vec3 {
                x: self.r0.x,
                y: self.r1.x,
                z: self.r2.x,
            },
            r1: Vec3 {
                x: self.r0.y,
                y: self.r1.y,
                z: self.r2.y,
            },
            r2: Vec3 {
                x: self.r0.z,
                y: self.r1.z,
                z: self.r2.z,
            },
        }
    }

    #[tactic(auto, unfolding(crate::specs::Mat3::apply_of))]
    pub fn apply(self, v: Vec3) -> Vec3
        ensures { result ≡ apply_of self v }
    {
        Vec3 {
            x: self.r0.x * v.x + self.r0.y * v.y + self.r0.z * v.z,
            y: self.r1.x * v.x + self.r1.y * v.y + self.r1.z * v.z,
            z: self.r2.x * v.x + self.r2.y * v.y + self.r2.z * v.z,
        }
    }

    #[tactic(auto, unfolding(crate::specs::Mat3::times_of))]
    pub fn times(self, b: Mat3) -> Mat3
        ensures { result ≡ times_of self b }
    {
        Mat3 {
            r0: Vec3 {
                x: self.r0.x * b.r0.x + self.r0.y * b.r1.x + self.r0.z * b.r2.x,
                y: self.r0.x * b.r0.y + self.r0.y * b.r1.y + self.r0.z * b.r2.y,
                z: self.r0.x * b.r0.z + self.r0.y * b.r1.z + self.r0.z * b.r2.z,
            },
            r1: Vec3 {
                x: self.r1.x * b.r0.x + self.r1.y * b.r1.x + self.r1.z * b.r2.x,
                y: self.r1.x * b.r0.y + self.r1.y * b.r1.y + self.r1.z * b.r2.y,
                z: self.r1.x * b.r0.z + self.r1.y * b.r1.z + self.r1.z * b.r2.z,
            },
            r2: Vec3 {
                x: self.r2.x * b.r0.x + self.r2.y * b.r1.x + self.r2.z * b.r2.x,
                y: self.r2.x * b.r0.y + self.r2.y * b.r1.y + self.r2.z * b.r2.y,
                z: self.r2.x * b.r0.z + self.r2.y * b.r1.z + self.r2.z * b.r2.z,
            },
        }
    }
}

// a bᵀ.
#[tactic(auto, unfolding(crate::specs::Mat3::outer_of))]
pub fn outer(a: Vec3, b: Vec3) -> Mat3
    ensures { result ≡ outer_of a b }
{
    Mat3 {
        r0: Vec3 {
            x: a.x * b.x,
            y: a.x * b.y,
            z: a.x * b.z,
        },
        r1: Vec3 {
            x: a.y * b.x,
            y: a.y * b.y,
            z: a.y * b.z,
        },
        r2: Vec3 {
            x: a.z * b.x,
            y: a.z * b.y,
            z: a.z * b.z,
        },
    }
}

// s times the identity. Off the diagonal s * 0.0 is -0.0 or NaN where s is below zero or not finite.
#[tactic(auto, unfolding(crate::specs::Mat3::identity_by))]
pub fn identity_by(s: f64) -> Mat3
    ensures { result ≡ identity_by s }
{
    let on = s * 1.0;
    let off = s * 0.0;
    Mat3 {
        r0: Vec3 {
            x: on,
            y: off,
            z: off,
        },
        r1: Vec3 {
            x: off,
            y: on,
            z: off,
        },
        r2: Vec3 {
            x: off,
            y: off,
            z: on,
        },
    }
}

#[tactic(auto, unfolding(crate::specs::Mat3::cross_matrix_of))]
pub fn cross_matrix(v: Vec3) -> Mat3
    ensures { result ≡ cross_matrix_of v }
{
    Mat3 {
        r0: Vec3 {
            x: 0.0,
            y: -v.z,
            z: v.y,
        },
        r1: Vec3 {
            x: v.z,
            y: 0.0,
            z: -v.x,
        },
        r2: Vec3 {
            x: -v.y,
            y: v.x,
            z: 0.0,
        },
    }
}
