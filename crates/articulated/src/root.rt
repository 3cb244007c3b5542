// The root: its velocity, gravity there, and a floating base's acceleration.
ghost use Rattle.std.specs.Prelude.{◌≡◌};
ghost use Rattle.articulated.specs.Root.{root_velocity, gravity_local, fixed_acceleration, right_side, world_acceleration, judged_base, base_of};

use base_solve::Unsolved;
use numbers::quaternion::Quaternion;
use numbers::vec3::Vec3;
use refusals::Refusal;
use spatial::twist::Twist;
use spatial::wrench::Wrench;

// A floating base's acceleration at the root, and the physical one in the world.
#[derive(Clone, Copy)]
pub struct Base {
    pub acceleration: Twist,
    pub world: Twist,
}

// The base's velocity in the world, at the root.
#[tactic(auto, unfolding(crate::specs::Root::root_velocity))]
pub fn root_velocity(rotation: Quaternion, velocity: Twist) -> Twist
    ensures { result ≡ root_velocity rotation velocity }
{
    velocity.rotated(rotation.inverse())
}

#[tactic(auto, unfolding(crate::specs::Root::gravity_local))]
fn gravity_local(rotation: Quaternion) -> Vec3
    ensures { result ≡ gravity_local rotation }
{
    rotation.inverse().rotate(Vec3 {
        x: 0.0,
        y: 0.0,
        z: 9.80665,
    })
}

// A fixed root is accelerated against gravity.
#[tactic(auto, unfolding(crate::specs::Root::fixed_acceleration, spatial::specs::Twist::zeros_of))]
pub fn fixed_acceleration(rotation: Quaternion) -> Twist
    ensures { result ≡ fixed_acceleration rotation }
{
    Twist {
        linear: gravity_local(rotation),
        ..Twist::zeros()
    }
}

// The base's force, given in the world, less the bias.
#[tactic(auto, unfolding(crate::specs::Root::right_side))]
fn right_side(rotation: Quaternion, force: Wrench, bias: Wrench) -> Wrench
    ensures { result ≡ right_side rotation force bias }
{
    force.rotated(rotation.inverse()).minus(bias)
}

#[tactic(auto, unfolding(crate::specs::Root::world_acceleration))]
fn world_acceleration(rotation: Quaternion, velocity: Twist, a: Twist) -> Twist
    ensures { result ≡ world_acceleration rotation velocity a }
{
    let spin = velocity.angular.cross(velocity.linear);
    let physical = Twist {
        angular: a.angular,
        linear: a.linear.minus(gravity_local(rotation)).plus(spin),
    };
    physical.rotated(rotation)
}

// 35.
#[tactic(auto, unfolding(crate::specs::Root::judged_base, crate::specs::Root::refused_base))]
fn judged_base(rotation: Quaternion, velocity: Twist, a: Twist) -> Result<Base, Refusal>
    ensures { result ≡ judged_base rotation velocity a }
{
    let world = world_acceleration(rotation, velocity, a);
    if world.is_finite() {
        return Ok(Base {
            acceleration: a,
            world,
        });
    }
    Err(Refusal::plain(35))
}

// The floating base's solve: 32 to 35.
#[tactic(auto, unfolding(crate::specs::Root::base_of, crate::specs::Root::solved_base, crate::specs::Root::refused_base))]
pub fn solve_base(
    rotation: Quaternion,
    velocity: Twist,
    inertia: &[f64; 36],
    bias: Wrench,
    force: Wrench,
) -> Result<Base, Refusal>
    ensures { result ≡ base_of rotation velocity inertia.now bias force }
{
    let side = right_side(rotation, force, bias);
    let symmetric = inertia::average(inertia);
    match base_solve::solve_base_inertia(&symmetric, side) {
        Ok(a) => judged_base(rotation, velocity, a),
        Err(Unsolved::Singular) => Err(Refusal::plain(32)),
        Err(Unsolved::IllConditioned) => Err(Refusal::plain(33)),
        Err(Unsolved::Numerical) => Err(Refusal::plain(34)),
    }
}
