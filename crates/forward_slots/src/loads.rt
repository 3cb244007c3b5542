// Loads: link numbers, and six wrench numbers for each.
ghost use Rattle.std.specs.Prelude.{◌≡◌, [], ◌+◌, ◌*◌, ◌≤◌, ◌<◌, length};
ghost use Rattle.forward_slots.specs.Layout.{frame_place, room_of};
ghost use Rattle.forward_slots.specs.Loads.{load_of, loads_to, more_of, add_on, add_load};

use crate::layout;
use spatial::wrench::Wrench;

// Every joint's link load is zero.
#[tactic(auto, unfolding(crate::specs::Loads::loads_to, crate::specs::Loads::listed_to, crate::specs::Loads::sum_of))]
fn clear_loads(n: usize, ws: &mut [f64])
    requires { (n ≤ 32) × (room_of n ≤ length ws.old) }
    ensures { ws.new ≡ loads_to [] [] n ws.old }
{
    for j in 0..n {
        slots::put_wrench(ws, j * layout::JOINT + layout::LOAD, Wrench::zeros());
    }
}

// A sum and one load more; a first load is taken as it stands.
fn more(any: bool, sum: Wrench, w: Wrench) -> Wrench
    ensures { result ≡ more_of any sum w }
{
    if any { sum.plus(w) } else { w }
}

// One load more on joint j's link.
#[tactic(auto, unfolding(crate::specs::Loads::add_on))]
fn add_on(any: bool, w: Wrench, ws: &mut [f64], j: usize)
    requires { (j < 32) × (frame_place (j + 1) ≤ length ws.old) }
    ensures { ws.new ≡ add_on any w ws.old j }
{
    let at = j * layout::JOINT + layout::LOAD;
    let sum = slots::wrench_at(ws, at);
    slots::put_wrench(ws, at, more(any, sum, w));
}

// One load more on a link. The root's sum goes by value, the others stand in the workspace.
#[tactic(auto, unfolding(crate::specs::Loads::add_load))]
fn add_load(any: bool, w: Wrench, root: Wrench, ws: &mut [f64], link: usize) -> Wrench
    requires { (link ≤ 32) × (frame_place link ≤ length ws.old) }
    ensures { (result, ws.new) ≡ add_load any w root ws.old link }
{
    if link == 0 {
        return more(any, root, w);
    }
    add_on(any, w, ws, link - 1);
    root
}

// The links' loads, in one pass over the list: the joints' go to their places in the workspace, the root's is the answer.
pub fn prepare_indexed_loads(n: usize, loaded: &[u64], loads: &[f64], ws: &mut [f64]) -> Wrench
    requires { (length loads.now ≡ 6 * length loaded.now) × (n ≤ 32) × (room_of n ≤ length ws.old) }
    ensures { (result ≡ load_of loaded.now loads.now 0) × (ws.new ≡ loads_to loaded.now loads.now n ws.old) }
{
    clear_loads(n, ws);
    let mut root = Wrench::zeros();
    // Which links have a load so far: "none yet" is not a sum of zero.
    let mut any = [false; 33];
    for (k, link) in loaded.iter().enumerate() {
        if *link <= n as u64 {
            let l = *link as usize;
            let w = slots::wrench_at(loads, k * 6);
            root = add_load(any[l], w, root, ws, l);
            any[l] = true;
        }
    }
    root
}
