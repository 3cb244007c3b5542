// The root of forward dynamics.
ghost use Rattle.std.specs.Prelude.{◌≡◌};
ghost use Rattle.forward_dynamics.specs.ForwardDynamics.{floats, rotation_of, base_velocity};

use numbers::quaternion::Quaternion;
use spatial::twist::Twist;

// The root mode, with the root's rotation and a floating base's velocity in the world.
#[derive(Clone, Copy)]
pub enum Mode {
    Fixed(Quaternion),
    Floating(Quaternion, Twist),
}

impl Mode {
    pub fn floats(self) -> bool
        ensures { result ≡ floats self }
    {
        matches!(self, Mode::Floating(..))
    }

    pub fn rotation(self) -> Quaternion
        ensures { result ≡ rotation_of self }
    {
        match self {
            Mode::Fixed(rotation) | Mode::Floating(rotation, _) => rotation,
        }
    }

    pub fn base(self) -> Twist
        ensures { result ≡ base_velocity self }
    {
        match self {
            Mode::Fixed(_) => Twist::zeros(),
            Mode::Floating(_, base) => base,
        }
    }
}
