// A calculation made on lent buffers: whole or in portions, once, many times, or from a position that is handed in.
ghost use Rattle.std.specs.Prelude.{◌≡◌, ◌≤◌, length};
ghost use Rattle.calls.specs.Position.{start_of};
ghost use Rattle.forward_visits.specs.Inputs.{inputs_of};
ghost use Rattle.dynamics.specs.Calculation.{work_of};
ghost use Rattle.calculations.specs.Make.{in_portions, begun_in, once_of, times_of, made_of, made_by};

use arm::model::Model;
use calls::position::{Answer, Position};
use dynamics;
use dynamics::calculation::Calculation;
use forward_visits::task::Inputs;

// So many times on the same buffers, or the portions alone, from this position.
#[derive(Clone, Copy)]
pub enum How {
    Times(u64),
    From(Position),
}

// How many counts there are, and the answer of the last call.
#[derive(Clone, Copy)]
pub struct Last {
    pub counts: usize,
    pub answer: Answer,
}

// A portion for each budget.
#[tactic(auto, using(crate::proofs::make::Laws::portion_on, crate::proofs::make::Laws::portions_end))]
fn portions<'a>(
    from: Answer,
    c: Calculation,
    model: &'a Model,
    inputs: &'a Inputs<'a>,
    budgets: &'a [u64],
    counts: &mut [u64],
    ws: &mut [f64],
    out: &mut [f64],
) -> Last
    requires few { length budgets.now ≤ 4096 }
    requires room { length counts.old ≡ 4096 }
    ensures made { made_by result counts.new ws.new out.new ≡ in_portions (work_of c model.now (inputs_of inputs.now)) budgets.now (from, ws.old, out.old) }
    ensures within { result.counts ≤ length counts.new }
{
    let mut answer = from;
    for (k, budget) in budgets.iter().enumerate() {
        let budget = *budget as usize;
        answer = dynamics::portion(answer.position, c, model, inputs, ws, out, budget);
        counts[k] = answer.visits as u64;
    }
    Last {
        counts: budgets.len(),
        answer,
    }
}

// A start, and where that is not refused a portion for each budget.
fn divided<'a>(
    c: Calculation,
    model: &'a Model,
    inputs: &'a Inputs<'a>,
    budgets: &'a [u64],
    counts: &mut [u64],
    ws: &mut [f64],
    out: &mut [f64],
) -> Last
    requires few { length budgets.now ≤ 4096 }
    requires room { length counts.old ≡ 4096 }
    ensures made { let w = work_of c model.now (inputs_of inputs.now) in made_by result counts.new ws.new out.new ≡ begun_in w budgets.now (start_of w ws.old out.old) }
    ensures within { result.counts ≤ length counts.new }
{
    let begun = dynamics::start(c, model, inputs, ws, out);
    if begun.position.closed {
        return Last {
            counts: 0,
            answer: begun,
        };
    }
    portions(begun, c, model, inputs, budgets, counts, ws, out)
}

// Where no budget is given, the undivided call; else a start and its portions.
#[tactic(auto, using(crate::proofs::make::Laws::once_whole, crate::proofs::make::Laws::once_begun, crate::proofs::make::Laws::first_count))]
fn once<'a>(
    c: Calculation,
    model: &'a Model,
    inputs: &'a Inputs<'a>,
    budgets: &'a [u64],
    counts: &mut [u64],
    ws: &mut [f64],
    out: &mut [f64],
) -> Last
    requires few { length budgets.now ≤ 4096 }
    requires room { length counts.old ≡ 4096 }
    ensures made { made_by result counts.new ws.new out.new ≡ once_of (work_of c model.now (inputs_of inputs.now)) budgets.now ws.old out.old }
    ensures within { result.counts ≤ length counts.new }
{
    if budgets.is_empty() {
        let answer = dynamics::whole(c, model, inputs, ws, out);
        counts[0] = answer.visits as u64;
        return Last { counts: 1, answer };
    }
    divided(c, model, inputs, budgets, counts, ws, out)
}

#[tactic(auto, using(crate::proofs::make::Laws::again_on, crate::proofs::make::Laws::again_end), unfolding(crate::specs::Make::times_of))]
fn times<'a>(
    count: u64,
    c: Calculation,
    model: &'a Model,
    inputs: &'a Inputs<'a>,
    budgets: &'a [u64],
    counts: &mut [u64],
    ws: &mut [f64],
    out: &mut [f64],
) -> Last
    requires few { length budgets.now ≤ 4096 }
    requires room { length counts.old ≡ 4096 }
    ensures made { made_by result counts.new ws.new out.new ≡ times_of (work_of c model.now (inputs_of inputs.now)) budgets.now count ws.old out.old }
    ensures within { result.counts ≤ length counts.new }
{
    let mut last = once(c, model, inputs, budgets, counts, ws, out);
    for _ in 1..count {
        last = once(c, model, inputs, budgets, counts, ws, out);
    }
    last
}

pub fn make<'a>(
    how: How,
    c: Calculation,
    model: &'a Model,
    inputs: &'a Inputs<'a>,
    budgets: &'a [u64],
    counts: &mut [u64],
    ws: &mut [f64],
    out: &mut [f64],
) -> Last
    requires few { length budgets.now ≤ 4096 }
    requires room { length counts.old ≡ 4096 }
    ensures made { made_by result counts.new ws.new out.new ≡ made_of how (work_of c model.now (inputs_of inputs.now)) budgets.now ws.old out.old }
    ensures within { result.counts ≤ length counts.new }
    ensures kept { length counts.new ≡ length counts.old }
{
    match how {
        How::Times(count) => times(count, c, model, inputs, budgets, counts, ws, out),
        How::From(position) => {
            let from = position.begun();
            portions(from, c, model, inputs, budgets, counts, ws, out)
        }
    }
}
