// What every request shares: what it answers, how long an answer can be, a refusal's text, and the answer to a line that is no request.
#![tactic(auto)]

ghost use Rattle.std.specs.Prelude.{◌≡◌, ◌++◌, ◌+◌, ◌≤◌, length, take};
ghost use Rattle.replies.specs.Replies.{room, error_text, place_text, refused_text};

use arm::model::Model;
use refusals::Refusal;
use words::write::{Word, put, put_decimal};

// `room` in the contracts.
pub const ROOM: usize = 131072;

// Where the answer ends, and the model that is current from then on.
#[derive(Clone, Copy)]
pub struct Reply {
    pub end: usize,
    pub model: Model,
}

pub fn error(out: &mut [u8], at: usize) -> usize
    requires { at + room ≤ length out.old }
    ensures { (at ≤ result) × (result ≤ at + room) × (take result out.new ≡ take at out.old ++ error_text) }
{
    put(out, at, b"error\n")
}

fn put_place(out: &mut [u8], at: usize, place: Option<usize>) -> usize
    requires { at + 16 ≤ length out.old }
    ensures { (at ≤ result) × (result ≤ at + 16) × (take result out.new ≡ take at out.old ++ place_text place) }
{
    match place {
        Some(i) => (i as u64).put(out, at),
        None => put(out, at, b"-"),
    }
}

pub fn put_refused(out: &mut [u8], at: usize, r: Refusal) -> usize
    requires { at + 45 ≤ length out.old }
    ensures { (at ≤ result) × (result ≤ at + 45) × (take result out.new ≡ take at out.old ++ refused_text r) }
{
    let a = put(out, at, b"refused ");
    let b = put_decimal(out, a, u64::from(r.number));
    let c = put(out, b, b" ");
    put_place(out, c, r.place)
}
