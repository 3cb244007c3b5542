// The answer of a calculation, `WORD NO PLACE | COUNTS | WORKSPACE | OUTPUT`, and of the plain matrix, `WORD NO PLACE | OUTPUT`.
ghost use Rattle.std.specs.Prelude.{◌≡◌, ◌++◌, ◌+◌, ◌≤◌, length, take};
ghost use Rattle.replies.specs.Replies.{room};
ghost use Rattle.writings.specs.Write.{outcome_text, all_are, workspace_text, front_text, back_text, made_text, plain_text};

use calls::position::Outcome;
use replies::put_refused;
use words::write::{put, put_list};

fn put_outcome(text: &mut [u8], at: usize, o: Outcome) -> usize
    requires { at + 45 ≤ length text.old }
    ensures { (at ≤ result) × (result ≤ at + 45) × (take result text.new ≡ take at text.old ++ outcome_text o) }
{
    match o {
        Outcome::Open => put(text, at, b"open - -"),
        Outcome::Accepted => put(text, at, b"accepted - -"),
        Outcome::Refused(r) => put_refused(text, at, r),
    }
}

// Whether every number has this pattern, which is no NaN's.
fn all_are(s: &[f64], bits: u64) -> bool
    ensures { result ≡ all_are bits s.now }
{
    s.iter().all(|x| !x.is_nan() && x.to_bits() == bits)
}

#[tactic(auto, unfolding(crate::specs::Write::workspace_text))]
fn put_workspace(text: &mut [u8], at: usize, ws: &[f64]) -> usize
    requires { at + 7 ≤ length text.old }
    ensures { (at ≤ result) × (result ≤ at + 7) × (take result text.new ≡ take at text.old ++ workspace_text ws.now) }
{
    if all_are(ws, 0) {
        return put(text, at, b"zero");
    }
    if all_are(ws, 0x3ff0_0000_0000_0000) {
        return put(text, at, b"kept");
    }
    put(text, at, b"numbers")
}

// WORD NO PLACE | COUNTS |
fn put_front(text: &mut [u8], at: usize, o: Outcome, counts: &[u64]) -> usize
    requires { (at + 69715 ≤ length text.old) × (length counts.now ≤ 4096) }
    ensures { (at ≤ result) × (result ≤ at + 69715) × (take result text.new ≡ take at text.old ++ front_text o counts.now) }
{
    let a = put_outcome(text, at, o);
    let b = put(text, a, b" | ");
    let c = put_list(text, b, counts);
    put(text, c, b" | ")
}

// WORKSPACE | OUTPUT
fn put_back(text: &mut [u8], at: usize, ws: &[f64], out: &[f64]) -> usize
    requires { (at + 34843 ≤ length text.old) × (length out.now ≤ 2048) }
    ensures { (at ≤ result) × (result ≤ at + 34843) × (take result text.new ≡ take at text.old ++ back_text ws.now out.now) }
{
    let a = put_workspace(text, at, ws);
    let b = put(text, a, b" | ");
    let c = put_list(text, b, out);
    put(text, c, b"\n")
}

pub fn put_made(
    text: &mut [u8],
    at: usize,
    o: Outcome,
    counts: &[u64],
    ws: &[f64],
    out: &[f64],
) -> usize
    requires { (at + room ≤ length text.old) × (length counts.now ≤ 4096) × (length out.now ≤ 2048) }
    ensures { (at ≤ result) × (result ≤ at + room) × (take result text.new ≡ take at text.old ++ made_text o counts.now ws.now out.now) }
{
    let a = put_front(text, at, o, counts);
    put_back(text, a, ws, out)
}

// WORD NO PLACE | OUTPUT
pub fn put_plain(text: &mut [u8], at: usize, o: Outcome, out: &[f64]) -> usize
    requires { (at + room ≤ length text.old) × (length out.now ≤ 2048) }
    ensures { (at ≤ result) × (result ≤ at + room) × (take result text.new ≡ take at text.old ++ plain_text o out.now) }
{
    let a = put_outcome(text, at, o);
    let b = put(text, a, b" | ");
    let c = put_list(text, b, out);
    put(text, c, b"\n")
}
