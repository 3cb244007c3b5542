// The requests `plain_matrix` and `plain_floating_matrix`.
ghost use Rattle.std.specs.Prelude.{◌≡◌, ◌++◌, ◌+◌, ◌≤◌, length, take, option_map, IfSome};
ghost use Rattle.words.specs.Read.{AllReadBy};
ghost use Rattle.replies.specs.Replies.{room, text_of};
ghost use Rattle.readings.specs.Lent.{ones};
ghost use Rattle.plain_matrix.specs.PlainMatrix.{plain_call};
ghost use Rattle.plain_requests.specs.Request.{plain_line, plain, plain_request};

use arm::model::Model;
use mass_matrix::mass_matrix::Mode;
use plain_matrix::plain_matrix;
use readings::buffer::Buffer;
use readings::lent::{fill, output_buffer};
use readings::read::next_mode;
use replies::error;
use words::read::Words;
use writings::write::put_plain;

// What is made on an output of so many numbers, as text.
fn answer(m: &Model, mode: Mode, q: &[f64], size: usize, text: &mut [u8], at: usize) -> usize
    requires { (size ≤ 2048) × (at + room ≤ length text.old) }
    ensures { (at ≤ result) × (result ≤ at + room) × (take result text.new ≡ take at text.old ++ plain_line (plain_call mode m.now q.now (ones size))) }
{
    let out = &mut output_buffer()[..size];
    fill(out);
    let outcome = plain_matrix(mode, m, q, out);
    put_plain(text, at, outcome, out)
}

// R where the root floats, Q and OUT, and no word behind them.
#[tactic(auto, unfolding(crate::specs::Request::plain, words::specs::Read::end))]
fn next_plain(mut words: Words, floating: bool, q: &mut Buffer<f64>) -> Option<(Mode, usize)>
    ensures read { AllReadBy (plain floating) words.entry (option_map (λ p. (p.0, q.new, p.1)) result) }
    ensures few { IfSome result (λ p. p.1 ≤ 2048) }
{
    let mode = next_mode(&mut words, floating)?;
    q.read(&mut words)?;
    let out = words.next_number()?;
    if !words.at_end() || 2048 < out {
        return None;
    }
    Some((mode, out as usize))
}

#[tactic(auto, unfolding(crate::specs::Request::plain_request))]
pub fn plain(m: Model, floating: bool, words: Words, text: &mut [u8], at: usize) -> usize
    requires { at + room ≤ length text.old }
    ensures { (at ≤ result) × (result ≤ at + room) × (take result text.new ≡ take at text.old ++ text_of (plain_request m floating words.entry)) }
{
    let mut q = Buffer::new();
    match next_plain(words, floating, &mut q) {
        Some((mode, out)) => answer(&m, mode, q.items(), out, text, at),
        None => error(text, at),
    }
}
