// Quaternions (w, u), of length 1 where they stand for a rotation.
ghost use Rattle.std.specs.Prelude.{◌≡◌};
ghost use Rattle.numbers.specs.Quaternion.{product_of, inverse_of, rotate_of, matrix_of};

use crate::mat3::Mat3;
use crate::vec3::Vec3;

#[derive(Clone, Copy)]
pub struct Quaternion {
    pub w: f64,
    pub u: Vec3,
}

impl Quaternion {
    #[tactic(auto, unfolding(crate::specs::Quaternion::product_of))]
    pub fn times(self, b: Quaternion) -> Quaternion
        ensures { result ≡ product_of self b }
    {
        Quaternion {
            w: self.w * b.w - self.u.x * b.u.x - self.u.y * b.u.y - self.u.z * b.u.z,
            u: Vec3 {
                x: self.w * b.u.x + self.u.x * b.w + self.u.y * b.u.z - self.u.z * b.u.y,
                y: self.w * b.u.y - self.u.x * b.u.z + self.u.y * b.w + self.u.z * b.u.x,
                z: self.w * b.u.z + self.u.x * b.u.y - self.u.y * b.u.x + self.u.z * b.w,
            },
        }
    }

    #[tactic(auto, unfolding(crate::specs::Quaternion::inverse_of))]
    pub fn inverse(self) -> Quaternion
        ensures { result ≡ inverse_of self }
    {
        let w = self.w;
        let u = self.u.negated();
        Quaternion { w, u }
    }

    #[tactic(auto, unfolding(crate::specs::Quaternion::rotate_of))]
    pub fn rotate(self, v: Vec3) -> Vec3
        ensures { result ≡ rotate_of self v }
    {
        let t = self.u.cross(v).scale(2.0);
        t.scale(self.w).plus(self.u.cross(t)).plus(v)
    }

    // The rotation matrix: squares single, mixed products doubled after multiplying.
    #[tactic(auto, unfolding(crate::specs::Quaternion::matrix_of))]
    pub fn matrix(self) -> Mat3
        ensures { result ≡ matrix_of self }
    {
        let ww = self.w * self.w;
        let xx = self.u.x * self.u.x;
        let yy = self.u.y * self.u.y;
        let zz = self.u.z * self.u.z;
        let xy = self.u.x * self.u.y * 2.0;
        let wz = self.w * self.u.z * 2.0;
        let wy = self.w * self.u.y * 2.0;
        let xz = self.u.x * self.u.z * 2.0;
        let yz = self.u.y * self.u.z * 2.0;
        let wx = self.w * self.u.x * 2.0;
        Mat3 {
            r0: Vec3 {
                x: ww + xx - yy - zz,
                y: xy - wz,
                z: wy + xz,
            },
            r1: Vec3 {
                x: wz + xy,
                y: ww - xx + yy - zz,
                z: yz - wx,
            },
            r2: Vec3 {
                x: xz - wy,
                y: wx + yz,
                z: ww - xx - yy + zz,
            },
        }
    }
}
