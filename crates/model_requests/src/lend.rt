// The request `lend`: the lists as a model's own.
ghost use Rattle.std.specs.Prelude.{◌≡◌, ◌+◌, ◌≤◌, length, take};
ghost use Rattle.replies.specs.Replies.{room, reply_of, behind};
ghost use Rattle.words.specs.Read.{ReadBy};
ghost use Rattle.model_requests.specs.Lend.{lent, lend_request};

use arm::model::Model;
use model_lists::lent::lent_model;
use model_lists::read::read_numbers;
use replies::{Reply, error};
use words::list::{double_buffer, number_buffer};
use words::read::Words;
use words::write::put;

// The model that the lists make, if they make one.
#[tactic(auto, unfolding(crate::specs::Lend::lent))]
fn lent(words: &mut Words) -> Option<Model>
    ensures { ReadBy lent words.old result words.new }
{
    let mut parents = number_buffer();
    let mut kinds = number_buffer();
    let mut origins = double_buffer();
    let mut axes = double_buffer();
    let mut links = double_buffer();
    let mut rotors = double_buffer();
    let mut left = words.copy();
    let sizes = read_numbers(
        &mut left,
        &mut parents,
        &mut kinds,
        &mut origins,
        &mut axes,
        &mut links,
        &mut rotors,
    )?;
    let model = lent_model(sizes, &parents, &kinds, &origins, &axes, &links, &rotors)?;
    *words = left;
    Some(model)
}

#[tactic(auto, unfolding(crate::specs::Lend::lend_request))]
pub fn lend(m: Model, mut words: Words, out: &mut [u8], at: usize) -> Reply
    requires { at + room ≤ length out.old }
    ensures { (at ≤ result.end) × (result.end ≤ at + room) × ((take result.end out.new, result.model) ≡ behind (take at out.old) (reply_of m (lend_request words.entry))) }
{
    match lent(&mut words) {
        Some(model) => Reply {
            end: put(out, at, b"lent\n"),
            model,
        },
        None => Reply {
            end: error(out, at),
            model: m,
        },
    }
}
