// What a calculation of forward dynamics works on.
ghost use Rattle.std.specs.Prelude.{◌≡◌, ◌*◌, length};
ghost use Rattle.arm.specs.Topology.{actives_of};

use forward_passes::fitted::Fitted;
use numbers::quaternion::Quaternion;
use spatial::twist::Twist;

// What is given beside a model and a root: positions, speeds, forces; the links with a load, and six numbers for each load.
#[derive(Clone, Copy)]
pub struct Inputs<'a> {
    pub q: &'a [f64],
    pub qd: &'a [f64],
    pub forces: &'a [f64],
    pub loaded: &'a [u64],
    pub loads: &'a [f64],
}

// A calculation that has passed its checks: an arm with its plan, the root's rotation and velocity there, and as many inputs as it asks for.
#[derive(Clone, Copy)]
pub struct Task<'a> {
    pub arm: Fitted<'a>,
    pub rotation: Quaternion,
    pub velocity: Twist,
    pub inputs: Inputs<'a>,
    ghost values: { length inputs.q.now ≡ actives_of arm.model.now.kinds arm.plan.n },
    ghost speeds: { length inputs.qd.now ≡ actives_of arm.model.now.kinds arm.plan.n },
    ghost given: { length inputs.forces.now ≡ arm.plan.side },
    ghost sixes: { length inputs.loads.now ≡ 6 * length inputs.loaded.now },
}
