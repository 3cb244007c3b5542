// The root of a mass matrix.
ghost use Rattle.std.specs.Prelude.{◌≡◌};
ghost use Rattle.mass_matrix.specs.MassMatrix.{floats, rotation_of};

use numbers::quaternion::Quaternion;
use numbers::vec3::Vec3;

// The root mode, with the rotation of a floating root.
#[derive(Clone, Copy)]
pub enum Mode {
    Fixed,
    Floating(Quaternion),
}

impl Mode {
    pub fn floats(self) -> bool
        ensures { result ≡ floats self }
    {
        matches!(self, Mode::Floating(_))
    }

    pub fn rotation(self) -> Quaternion
        ensures { result ≡ rotation_of self }
    {
        match self {
            Mode::Fixed => Quaternion {
                w: 1.0,
                u: Vec3 {
                    x: 0.0,
                    y: 0.0,
                    z: 0.0,
                },
            },
            Mode::Floating(r) => r,
        }
    }
}
