// The requests that reach the number routines: `root X` and `half_turn Q`.
ghost use Rattle.std.specs.Prelude.{◌≡◌, ◌++◌, ◌+◌, ◌≤◌, length, take};
ghost use Rattle.words.specs.Read.{AllReadBy};
ghost use Rattle.replies.specs.Replies.{room, text_of};
ghost use Rattle.routine_requests.specs.Routines.{only_double, root_line, root_request, half_turn_line, half_turn_request};

use half_turn::SinCos;
use replies::error;
use std::num::f64_from_bits_with_nan;
use words::read::Words;
use words::write::{Word, put};

// One double, and no word behind it.
#[tactic(auto, unfolding(crate::specs::Routines::only_double, words::specs::Read::end))]
fn only_double(mut words: Words) -> Option<f64>
    ensures { AllReadBy only_double words.entry result }
{
    let pattern = words.next_number()?;
    if !words.at_end() {
        return None;
    }
    Some(f64_from_bits_with_nan(pattern))
}

fn put_root(out: &mut [u8], at: usize, root: Option<f64>) -> usize
    requires { at + room ≤ length out.old }
    ensures { (at ≤ result) × (result ≤ at + room) × (take result out.new ≡ take at out.old ++ root_line root) }
{
    match root {
        Some(y) => {
            let a = put(out, at, b"root ");
            let b = y.put(out, a);
            put(out, b, b"\n")
        }
        None => put(out, at, b"no root\n"),
    }
}

#[tactic(auto, unfolding(crate::specs::Routines::root_request))]
pub fn root(words: Words, out: &mut [u8], at: usize) -> usize
    requires { at + room ≤ length out.old }
    ensures { (at ≤ result) × (result ≤ at + room) × (take result out.new ≡ take at out.old ++ text_of (root_request words.entry)) }
{
    match only_double(words) {
        Some(x) => put_root(out, at, square_root::sqrt(x)),
        None => error(out, at),
    }
}

fn put_half_turn(out: &mut [u8], at: usize, turned: Option<SinCos>) -> usize
    requires { at + room ≤ length out.old }
    ensures { (at ≤ result) × (result ≤ at + room) × (take result out.new ≡ take at out.old ++ half_turn_line turned) }
{
    match turned {
        Some(v) => {
            let a = put(out, at, b"half_turn ");
            let b = v.sin.put(out, a);
            let c = put(out, b, b" ");
            let d = v.cos.put(out, c);
            put(out, d, b"\n")
        }
        None => put(out, at, b"out of range\n"),
    }
}

#[tactic(auto, unfolding(crate::specs::Routines::half_turn_request))]
pub fn half_turn(words: Words, out: &mut [u8], at: usize) -> usize
    requires { at + room ≤ length out.old }
    ensures { (at ≤ result) × (result ≤ at + room) × (take result out.new ≡ take at out.old ++ text_of (half_turn_request words.entry)) }
{
    match only_double(words) {
        Some(q) => put_half_turn(out, at, half_turn::half_turn(q)),
        None => error(out, at),
    }
}
