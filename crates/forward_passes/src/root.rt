// The root: what is set before the passes, and its own visit between the second and the third.
ghost use Rattle.std.specs.Prelude.{◌≡◌, ◌*◌, ◌≤◌, length};
ghost use Rattle.forward_slots.specs.Layout.{room_of, Room};
ghost use Rattle.forward_passes.specs.Root.{put_root, begun_of, base_at, floating_root, root_visit};

use arm::model;
use arm::model::Model;
use articulated::root::Base;
use articulated::{first, root};
use calls::plan::Plan;
use forward_slots::{layout, loads};
use numbers::quaternion::Quaternion;
use refusals::Refusal;
use spatial::twist::Twist;
use spatial::wrench::Wrench;

// The root's own inertia and bias force.
#[tactic(auto, unfolding(crate::specs::Root::put_root))]
fn put_root(m: &Model, velocity: Twist, load: Wrench, ws: &mut [f64])
    requires { (m.now.n ≤ 32) × (room_of m.now.n ≤ length ws.old) }
    ensures { ws.new ≡ put_root m.now.n velocity m.now.links load ws.old }
{
    let link = model::link_at(&m.links, 0);
    let inertia = first::body_inertia(link);
    let force = first::bias_force(&inertia, velocity, load);
    slots::put_mat6(ws, m.n * layout::JOINT, &inertia);
    slots::put_wrench(ws, m.n * layout::JOINT + layout::ROOT_FORCE, force);
}

// What the Rust sets before its loops comes with the first visit.
#[tactic(auto, unfolding(crate::specs::Root::begun_of))]
pub fn begin(m: &Model, velocity: Twist, loaded: &[u64], loads: &[f64], ws: &mut [f64], at: usize)
    requires { (length loads.now ≡ 6 * length loaded.now) × (m.now.n ≤ 32) × (room_of m.now.n ≤ length ws.old) }
    ensures { ws.new ≡ begun_of m.now.n velocity m.now.links loaded.now loads.now at ws.old }
{
    if at != 0 {
        return;
    }
    let load = loads::prepare_indexed_loads(m.n, loaded, loads, ws);
    put_root(m, velocity, load, ws);
}

// A floating base, from the root's inertia and bias force.
#[tactic(auto, unfolding(crate::specs::Root::base_at))]
fn base_at(
    n: usize,
    rotation: Quaternion,
    velocity: Twist,
    forces: &[f64],
    ws: &[f64],
) -> Result<Base, Refusal>
    requires { (n ≤ 32) × (room_of n ≤ length ws.now) × (6 ≤ length forces.now) }
    ensures { result ≡ base_at n rotation velocity forces.now ws.now }
{
    let inertia = slots::mat6_at(ws, n * layout::JOINT);
    let bias = slots::wrench_at(ws, n * layout::JOINT + layout::ROOT_FORCE);
    let force = slots::wrench_at(forces, 0);
    root::solve_base(rotation, velocity, &inertia, bias, force)
}

// The base's six results wait for the joints' like them.
#[tactic(auto, unfolding(crate::specs::Root::floating_root, crate::specs::Root::kept_base))]
fn floating_root(
    n: usize,
    rotation: Quaternion,
    velocity: Twist,
    forces: &[f64],
    ws: &mut [f64],
) -> Result<(), Refusal>
    requires { (n ≤ 32) × (room_of n ≤ length ws.old) × (6 ≤ length forces.now) }
    ensures { (result, ws.new) ≡ floating_root n rotation velocity forces.now ws.old }
{
    let base = base_at(n, rotation, velocity, forces, ws)?;
    slots::put_twist(ws, n * layout::JOINT + layout::RESULTS, base.world);
    slots::put_twist(
        ws,
        n * layout::JOINT + layout::ROOT_ACCELERATION,
        base.acceleration,
    );
    Ok(())
}

#[tactic(auto, unfolding(crate::specs::Root::root_visit))]
pub fn root_visit(
    p: Plan,
    rotation: Quaternion,
    velocity: Twist,
    forces: &[f64],
    ws: &mut [f64],
) -> Result<(), Refusal>
    requires { Room p (length ws.old) × (length forces.now ≡ p.side) × ((p.lead ≡ 0 → ⊥) → 6 ≤ p.side) }
    ensures { (result, ws.new) ≡ root_visit p rotation velocity forces.now ws.old }
{
    let n = p.n;
    slots::zero_part(ws, n * layout::JOINT + layout::RESULTS, p.side);
    if p.lead == 0 {
        let acceleration = root::fixed_acceleration(rotation);
        slots::put_twist(
            ws,
            n * layout::JOINT + layout::ROOT_ACCELERATION,
            acceleration,
        );
        return Ok(());
    }
    floating_root(n, rotation, velocity, forces, ws)
}
