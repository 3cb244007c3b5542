// Passes over a list of 2,048 loads, on the links of 32 joints, one after another.
use crate::runs::{next, number};
use forward_slots::layout;
use forward_slots::loads::prepare_indexed_loads;
use std::array;

const COUNT: usize = 2048;

const NUMBERS: usize = 12288;

// 32 joints' workspace.
const ROOM: usize = 3136;

// Links of no order.
fn links() -> [u64; COUNT] {
    let mut at = 0;
    array::from_fn(|_| {
        at = next(at);
        at % 33
    })
}

// Another number differs with each call. What is told is of the root's load and of a joint's.
fn pass(loaded: &[u64; COUNT], loads: &mut [f64; NUMBERS], ws: &mut [f64; ROOM], at: u64) -> f64 {
    loads[at as usize % NUMBERS] = number(at);
    let root = prepare_indexed_loads(32, loaded, loads, ws);
    root.force.z + ws[at as usize % 32 * layout::JOINT + layout::LOAD]
}

pub fn run(count: u64) -> f64 {
    let loaded = links();
    let mut loads = [1.0; NUMBERS];
    let mut ws = [0.0; ROOM];
    let mut at = 0;
    let mut sum = 1.0;
    for _ in 0..count {
        at = next(at);
        sum += pass(&loaded, &mut loads, &mut ws, at);
    }
    sum
}
