// The checks of a call to 22, in the order of the table.
ghost use Rattle.std.specs.Prelude.{◌≡◌, ℕ, Bool, ◌+◌, ◌*◌, ◌≤◌, ◌<◌, eqb, length};
ghost use Rattle.arm.specs.Topology.{actives_of, active_numbers};
ghost use Rattle.refusals.specs.Refusals.{lowest};
ghost use Rattle.forward_dynamics.specs.Checks.{wild_number, wild_load, least_to, motion_verdict, forces_verdict, loads_verdict, root_verdict, inputs_verdict};
ghost use Rattle.forward_visits.specs.Inputs.{inputs_of};

use arm::model::Model;
use arm::{model, topology};
use calls::{checks, plan};
use forward_slots::layout;
use forward_visits::task::Inputs;
use numbers::double;
use numbers::quaternion::Quaternion;
use refusals::Refusal;
use spatial::twist::Twist;

// The lowest place of a number that is not finite.
fn lowest_wild(s: &[f64]) -> Option<usize>
    ensures { result ≡ lowest (wild_number s.now) (length s.now) }
{
    s.iter().position(|x| !double::is_finite(*x))
}

// The lowest link number that is listed with a cause.
fn least_bad<F: Fn(usize) -> bool>(loaded: &[u64], bad: F) -> Option<usize>
    requires { (k : ℕ) → k < length loaded.now → F.pre bad k }
    ensures { (cause : ℕ → Bool) → ((k : ℕ) (b : Bool) → F.post bad k b → b ≡ cause k) → result ≡ least_to cause loaded.now (length loaded.now) }
{
    (0..loaded.len())
        .filter_map(|k| bad(k).then_some(loaded[k] as usize))
        .min()
}

#[tactic(auto, unfolding(crate::specs::Checks::wild_load))]
fn wild_load(loads: &[f64], k: usize) -> bool
    requires { k * 6 + 6 ≤ length loads.now }
    ensures { result ≡ wild_load loads.now k }
{
    !slots::wrench_at(loads, k * 6).is_finite()
}

// 13, 14 and 15.
#[tactic(auto, unfolding(crate::specs::Checks::motion_verdict, refusals::specs::Refusals::or_else))]
fn judged_motion(
    m: &Model,
    numbers: &[u8; 33],
    a: usize,
    q: &[f64],
    qd: &[f64],
) -> Result<(), Refusal>
    requires { (numbers.now ≡ active_numbers m.now.kinds) × (m.now.n ≤ 32) × (a ≡ actives_of m.now.kinds m.now.n) × (length q.now ≡ actives_of m.now.kinds m.now.n) }
    ensures { result ≡ motion_verdict m.now.n m.now.kinds q.now qd.now }
{
    checks::check_turns(&m.kinds, numbers, m.n, q)?;
    checks::check_values(14, 15, &m.kinds, numbers, m.n, a, qd)
}

// 16, 17 and 18.
#[tactic(auto, unfolding(crate::specs::Checks::forces_verdict, refusals::specs::Refusals::plain_of, refusals::specs::Refusals::or_else))]
fn judged_forces(side: usize, forces: &[f64], out: usize) -> Result<(), Refusal>
    ensures { result ≡ forces_verdict side forces.now out }
{
    checks::check_length(16, forces.len(), side)?;
    checks::check_length(17, out, side)?;
    refusals::named(18, lowest_wild(forces))
}

// Six times as many: no product that could be too large.
fn six_each(loads: usize, loaded: usize) -> bool
    ensures { result ≡ eqb loads (6 * loaded) }
{
    loads % 6 == 0 && loads / 6 == loaded
}

// 19; 20, the lowest link listed that is above n; 21, the lowest with a load that is not finite, whatever the sum of its loads would be.
#[tactic(auto, unfolding(crate::specs::Checks::loads_verdict, refusals::specs::Refusals::plain_of, refusals::specs::Refusals::or_else))]
fn judged_loads(n: usize, loaded: &[u64], loads: &[f64]) -> Result<(), Refusal>
    ensures { result ≡ loads_verdict n loaded.now loads.now }
{
    if !six_each(loads.len(), loaded.len()) {
        return Err(Refusal::plain(19));
    }
    refusals::named(20, least_bad(loaded, |k| n < loaded[k] as usize))?;
    refusals::named(21, least_bad(loaded, |k| wild_load(loads, k)))
}

// 22.
#[tactic(auto, unfolding(crate::specs::Checks::root_verdict))]
fn judged_root(rotation: Quaternion, base: Twist) -> Result<(), Refusal>
    ensures { result ≡ root_verdict rotation base }
{
    refusals::plain(22, checks::bad_rotation(rotation) || !base.is_finite())
}

// 9 to 22.
#[tactic(auto, using(calls::proofs::Passed::counted, arm::proofs::topology::Counts::bounds), unfolding(crate::specs::Checks::inputs_verdict, crate::specs::Checks::rest_verdict, refusals::specs::Refusals::plain_of, refusals::specs::Refusals::or_else))]
pub fn judged(
    floating: bool,
    rotation: Quaternion,
    base: Twist,
    m: &Model,
    numbers: &[u8; 33],
    inputs: &Inputs,
    ws: usize,
    out: usize,
) -> Result<(), Refusal>
    requires { numbers.now ≡ active_numbers m.now.kinds }
    ensures { result ≡ inputs_verdict floating rotation base m.now.n m.now.parents m.now.kinds (inputs_of inputs.now) ws out }
{
    let n = m.n;
    if model::wild(n, &m.parents, &m.kinds) {
        return Err(Refusal::plain(9));
    }
    if ws < n * layout::ROOM_JOINT + layout::ROOM_ROOT {
        return Err(Refusal::plain(10));
    }
    let a = topology::number_at(&m.kinds, numbers, n);
    checks::check_values(11, 12, &m.kinds, numbers, n, a, inputs.q)?;
    judged_motion(m, numbers, a, inputs.q, inputs.qd)?;
    judged_forces(plan::planned(floating, n, a).side, inputs.forces, out)?;
    judged_loads(n, inputs.loaded, inputs.loads)?;
    judged_root(rotation, base)
}
