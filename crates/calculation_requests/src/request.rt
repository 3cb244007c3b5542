// The requests of the four calculations, once, many times, or from a position.
ghost use Rattle.std.specs.Prelude.{◌≡◌, ◌++◌, ◌+◌, ◌≤◌, length, take, option_map, IfSome};
ghost use Rattle.words.specs.Read.{ReadBy, AllReadBy};
ghost use Rattle.replies.specs.Replies.{room, text_of};
ghost use Rattle.readings.specs.Lent.{ones};
ghost use Rattle.readings.specs.Read.{inputs_of};
ghost use Rattle.dynamics.specs.Calculation.{work_of};
ghost use Rattle.calculations.specs.Make.{made_of};
ghost use Rattle.calculation_requests.specs.Request.{made_line, idle_by, task, task_by, times, from, calculate_request, repeat_request, resume_request};

use arm::model::Model;
use calculations::make::{How, make};
use dynamics::calculation::Calculation;
use forward_visits::task::Inputs;
use readings::buffer::Buffer;
use readings::lent::{fill, output_buffer};
use readings::read::{
    Buffers, Kind, Lent, last_lent, next_calculation, next_inputs, next_kind, next_position,
};
use replies::error;
use words::list::{double_buffer, number_buffer};
use words::read::Words;
use writings::write::put_made;

// What is made on a workspace and an output of so many numbers, as text.
fn answer(
    m: &Model,
    how: How,
    c: Calculation,
    inputs: &Buffers,
    budgets: &[u64],
    sizes: Lent,
    text: &mut [u8],
    at: usize,
) -> usize
    requires { (length budgets.now ≤ 4096) × (sizes.ws ≤ 4096) × (sizes.out ≤ 2048) × (at + room ≤ length text.old) }
    ensures { (at ≤ result) × (result ≤ at + room) × (take result text.new ≡ take at text.old ++ made_line (made_of how (work_of c m.now (inputs_of inputs.now)) budgets.now (ones sizes.ws) (ones sizes.out))) }
{
    let counts = &mut number_buffer();
    let ws = &mut double_buffer()[..sizes.ws];
    let out = &mut output_buffer()[..sizes.out];
    fill(ws);
    fill(out);
    let inputs = Inputs {
        q: inputs.q.items(),
        qd: inputs.qd.items(),
        forces: inputs.forces.items(),
        loaded: inputs.loaded.items(),
        loads: inputs.loads.items(),
    };
    let last = make(how, c, m, &inputs, budgets, counts, ws, out);
    let outcome = last.answer.outcome;
    let counts = &counts[..last.counts];
    put_made(text, at, outcome, counts, ws, out)
}

// A position is handed in, and no portion is asked.
fn idle(how: How, budgets: &[u64]) -> bool
    ensures { result ≡ idle_by how (length budgets.now) }
{
    matches!(how, How::From(_)) && budgets.is_empty()
}

// The root's numbers, the inputs, what is lent, and the budgets.
#[tactic(auto, unfolding(crate::specs::Request::task))]
fn next_task(
    mut words: Words,
    how: How,
    k: Kind,
    inputs: &mut Buffers,
    budgets: &mut Buffer<u64>,
) -> Option<(Calculation, Lent)>
    ensures read { AllReadBy (task how k) words.entry (option_map (λ t. task_by t (inputs_of inputs.new) budgets.new) result) }
    ensures few { IfSome result (λ t. (t.1.ws ≤ 4096) × (t.1.out ≤ 2048)) }
{
    let c = next_calculation(&mut words, k)?;
    next_inputs(&mut words, c, inputs)?;
    let sizes = last_lent(words, budgets)?;
    if idle(how, budgets.items()) {
        return None;
    }
    Some((c, sizes))
}

#[tactic(auto, unfolding(crate::specs::Request::calculate_request))]
pub fn calculate(m: Model, how: How, k: Kind, words: Words, text: &mut [u8], at: usize) -> usize
    requires { at + room ≤ length text.old }
    ensures { (at ≤ result) × (result ≤ at + room) × (take result text.new ≡ take at text.old ++ text_of (calculate_request m how k words.entry)) }
{
    let mut inputs = Buffers::new();
    let mut budgets = Buffer::new();
    match next_task(words, how, k, &mut inputs, &mut budgets) {
        Some((c, sizes)) => answer(&m, how, c, &inputs, budgets.items(), sizes, text, at),
        None => error(text, at),
    }
}

// COUNT REQUEST.
#[tactic(auto, unfolding(crate::specs::Request::times))]
fn next_times(words: &mut Words) -> Option<(How, Kind)>
    ensures { ReadBy times words.old result words.new }
{
    let mut left = words.copy();
    let count = left.next_number()?;
    let k = next_kind(&mut left)?;
    if count == 0 || 1000000 < count {
        return None;
    }
    *words = left;
    Some((How::Times(count), k))
}

// `repeat COUNT REQUEST`.
#[tactic(auto, unfolding(crate::specs::Request::repeat_request))]
pub fn repeat(m: Model, mut words: Words, text: &mut [u8], at: usize) -> usize
    requires { at + room ≤ length text.old }
    ensures { (at ≤ result) × (result ≤ at + room) × (take result text.new ≡ take at text.old ++ text_of (repeat_request m words.entry)) }
{
    match next_times(&mut words) {
        Some((how, k)) => calculate(m, how, k, words, text, at),
        None => error(text, at),
    }
}

// CALCULATION ROOT N A VISITS CLOSED REQUEST.
#[tactic(auto, unfolding(crate::specs::Request::from))]
fn next_from(words: &mut Words) -> Option<(How, Kind)>
    ensures { ReadBy from words.old result words.new }
{
    let mut left = words.copy();
    let position = next_position(&mut left)?;
    let k = next_kind(&mut left)?;
    *words = left;
    Some((How::From(position), k))
}

// `resume CALCULATION ROOT N A VISITS CLOSED REQUEST`.
#[tactic(auto, unfolding(crate::specs::Request::resume_request))]
pub fn resume(m: Model, mut words: Words, text: &mut [u8], at: usize) -> usize
    requires { at + room ≤ length text.old }
    ensures { (at ≤ result) × (result ≤ at + room) × (take result text.new ≡ take at text.old ++ text_of (resume_request m words.entry)) }
{
    match next_from(&mut words) {
        Some((how, k)) => calculate(m, how, k, words, text, at),
        None => error(text, at),
    }
}
