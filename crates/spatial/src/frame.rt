// A frame: a rotation, then a translation.
ghost use Rattle.std.specs.Prelude.{◌≡◌};
ghost use Rattle.spatial.specs.Frame.{product_of, turn_of, slide_of};

use half_turn::SinCos;
use numbers::quaternion::Quaternion;
use numbers::vec3::Vec3;

#[derive(Clone, Copy)]
pub struct Frame {
    pub rotation: Quaternion,
    pub translation: Vec3,
}

impl Frame {
    #[tactic(auto, unfolding(crate::specs::Frame::product_of))]
    pub fn times(self, b: Frame) -> Frame
        ensures { result ≡ product_of self b }
    {
        let translation = self.translation.plus(self.rotation.rotate(b.translation));
        let rotation = self.rotation.times(b.rotation);
        Frame {
            rotation,
            translation,
        }
    }

    // Turned about an axis, by the sine and cosine of half the angle.
    #[tactic(auto, unfolding(crate::specs::Frame::turn_of))]
    pub fn turn(self, axis: Vec3, v: SinCos) -> Frame
        ensures { result ≡ turn_of self axis v }
    {
        let w = v.cos;
        let u = axis.scale(v.sin);
        let zero = Vec3 {
            x: 0.0,
            y: 0.0,
            z: 0.0,
        };
        self.times(Frame {
            rotation: Quaternion { w, u },
            translation: zero,
        })
    }

    // Moved along an axis by q.
    #[tactic(auto, unfolding(crate::specs::Frame::slide_of))]
    pub fn slide(self, axis: Vec3, q: f64) -> Frame
        ensures { result ≡ slide_of self axis q }
    {
        let rotation = self.rotation;
        let translation = self.translation.plus(rotation.rotate(axis.scale(q)));
        Frame {
            rotation,
            translation,
        }
    }
}
