// The request `model`: what the builder makes of the lists.
ghost use Rattle.std.specs.Prelude.{◌++◌, ◌≡◌, ◌+◌, ◌≤◌, length, take};
ghost use Rattle.words.specs.Read.{ReadBy};
ghost use Rattle.replies.specs.Replies.{room, reply_of, behind};
ghost use Rattle.model_requests.specs.Model.{built, built_line, model_request};

use arm::model::Model;
use builder::build::{Built, build};
use model_lists::read::read_numbers;
use refusals::Refusal;
use replies::{Reply, error, put_refused};
use words::list::{double_buffer, number_buffer};
use words::read::Words;
use words::write::put;

// What the builder makes of the lists that are handed in.
#[tactic(auto, unfolding(crate::specs::Model::built))]
fn built(words: &mut Words) -> Option<Built>
    ensures { ReadBy built words.old result words.new }
{
    let mut parents = number_buffer();
    let mut kinds = number_buffer();
    let mut origins = double_buffer();
    let mut axes = double_buffer();
    let mut links = double_buffer();
    let mut rotors = double_buffer();
    let sizes = read_numbers(
        words,
        &mut parents,
        &mut kinds,
        &mut origins,
        &mut axes,
        &mut links,
        &mut rotors,
    )?;
    Some(build(
        sizes.n,
        &parents[..sizes.parents],
        &kinds[..sizes.kinds],
        &origins[..sizes.origins],
        &axes[..sizes.axes],
        &links[..sizes.links],
        &rotors[..sizes.rotors],
    ))
}

fn put_built(out: &mut [u8], at: usize, v: Result<(), Refusal>) -> usize
    requires { at + room ≤ length out.old }
    ensures { (at ≤ result) × (result ≤ at + room) × (take result out.new ≡ take at out.old ++ built_line v) }
{
    match v {
        Ok(()) => put(out, at, b"model\n"),
        Err(refusal) => {
            let a = put_refused(out, at, refusal);
            put(out, a, b"\n")
        }
    }
}

#[tactic(auto, unfolding(crate::specs::Model::model_request))]
pub fn model(m: Model, mut words: Words, out: &mut [u8], at: usize) -> Reply
    requires { at + room ≤ length out.old }
    ensures { (at ≤ result.end) × (result.end ≤ at + room) × ((take result.end out.new, result.model) ≡ behind (take at out.old) (reply_of m (model_request words.entry))) }
{
    match built(&mut words) {
        Some(built) => Reply {
            end: put_built(out, at, built.verdict),
            model: built.model,
        },
        None => Reply {
            end: error(out, at),
            model: m,
        },
    }
}
