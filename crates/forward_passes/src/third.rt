// The joints rising, third pass: accelerations.
ghost use Rattle.std.specs.Prelude.{◌≡◌, ◌+◌, ◌≤◌, ◌<◌, length};
ghost use Rattle.forward_slots.specs.Layout.{room_of, Room};
ghost use Rattle.forward_passes.specs.Third.{carried_at, solved_joint, third_visit};

use crate::first;
use crate::fitted::Fitted;
use arm::joint::Motion;
use articulated::third;
use calls::plan::Plan;
use forward_slots::{layout, term};
use numbers::double;
use refusals::Refusal;
use spatial::twist::Twist;

// Joint j's link before the joint's own acceleration.
#[tactic(auto, unfolding(crate::specs::Third::carried_at))]
fn carried_at(arm: &Fitted, ws: &[f64], j: usize) -> Twist
    requires { (room_of arm.now.plan.n ≤ length ws.now) × (j < arm.now.plan.n) }
    ensures { result ≡ carried_at arm.now.plan.n arm.now.model.now.parents j ws.now }
{
    let n = arm.plan.n;
    let parent = arm.parent_at(j);
    let root = slots::twist_at(ws, n * layout::JOINT + layout::ROOT_ACCELERATION);
    let carried = first::parent_twist(ws, parent, root, layout::ACCELERATION);
    let frame = slots::frame_at(ws, j * layout::JOINT);
    let bias = slots::twist_at(ws, j * layout::JOINT + layout::BIAS);
    third::carried_acceleration(frame, carried, bias)
}

// An active joint's acceleration, tested, and its link's with it.
#[tactic(auto, unfolding(crate::specs::Third::solved_joint, crate::specs::Third::kept_joint))]
fn solve_joint(
    p: Plan,
    motion: Motion,
    number: usize,
    a: Twist,
    ws: &mut [f64],
    j: usize,
) -> Result<(), Refusal>
    requires { Room p (length ws.old) × (j < p.n) × (p.lead + number < p.side) }
    ensures { (result, ws.new) ≡ solved_joint p motion number a j ws.old }
{
    let t = term::term_at(ws, j * layout::JOINT + layout::TERM);
    let x = third::joint_acceleration(a, t);
    if !double::is_finite(x) {
        return Err(Refusal::at(36, number));
    }
    let moved = third::moved_by(motion, a, x);
    slots::put_twist(ws, j * layout::JOINT + layout::ACCELERATION, moved);
    slots::put_number(
        ws,
        p.n * layout::JOINT + layout::RESULTS + p.lead + number,
        x,
    );
    Ok(())
}

#[tactic(auto, unfolding(crate::specs::Third::third_visit))]
pub fn third_visit(arm: &Fitted, ws: &mut [f64], j: usize) -> Result<(), Refusal>
    requires { Room arm.now.plan (length ws.old) × (j < arm.now.plan.n) }
    ensures { let m = arm.now.model.now in (result, ws.new) ≡ third_visit arm.now.plan m.parents m.kinds m.axes j ws.old }
{
    let a = carried_at(arm, ws, j);
    let motion = arm.motion_at(j);
    match motion {
        Motion::Turn(_) | Motion::Slide(_) => {
            solve_joint(arm.plan, motion, arm.number_at(j), a, ws, j)
        }
        Motion::Fixed => {
            slots::put_twist(ws, j * layout::JOINT + layout::ACCELERATION, a);
            Ok(())
        }
    }
}
