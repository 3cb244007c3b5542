// One line's answer.
ghost use Rattle.std.specs.Prelude.{◌≡◌, ◌+◌, ◌≤◌, length, take};
ghost use Rattle.words.specs.Read.{words_of};
ghost use Rattle.replies.specs.Replies.{room, reply_of, behind};
ghost use Rattle.requests.specs.Answer.{name_of, request_of, answer_of};

use arm::model::Model;
use calculation_requests::request::{calculate, repeat, resume};
use calculations::make::How;
use model_requests::lend::lend;
use model_requests::model::model;
use plain_requests::request::plain;
use readings::read::{Kind, kind_of};
use replies::{Reply, error};
use routine_requests::routines::{half_turn, root};
use standing_requests::request::standing;
use words::read::Words;
use writings::column::column;

// The request that a word names.
#[derive(Clone, Copy)]
pub enum Name {
    Model,
    Lend,
    Calculation(Kind),
    // Whether the root floats.
    Plain(bool),
    Stands,
    Column,
    Root,
    Repeat,
    Resume,
    HalfTurn,
}

#[tactic(auto, unfolding(crate::specs::Answer::name_of))]
fn name_of(w: &[u8]) -> Option<Name>
    ensures { result ≡ name_of w.now }
{
    if w == b"model".as_slice() {
        return Some(Name::Model);
    }
    if w == b"lend".as_slice() {
        return Some(Name::Lend);
    }
    if w == b"column".as_slice() {
        return Some(Name::Column);
    }
    if w == b"root".as_slice() {
        return Some(Name::Root);
    }
    if w == b"repeat".as_slice() {
        return Some(Name::Repeat);
    }
    if w == b"resume".as_slice() {
        return Some(Name::Resume);
    }
    if w == b"half_turn".as_slice() {
        return Some(Name::HalfTurn);
    }
    if w == b"plain_matrix".as_slice() {
        return Some(Name::Plain(false));
    }
    if w == b"plain_floating_matrix".as_slice() {
        return Some(Name::Plain(true));
    }
    if w == b"stands".as_slice() {
        return Some(Name::Stands);
    }
    Some(Name::Calculation(kind_of(w)?))
}

// The answer to the request that the first word names. In one function: a model is copied where it is handed on.
#[tactic(auto, unfolding(crate::specs::Answer::request_of))]
fn request(m: Model, line: &[u8], out: &mut [u8], at: usize) -> Reply
    requires { at + room ≤ length out.old }
    ensures { (at ≤ result.end) × (result.end ≤ at + room) × ((take result.end out.new, result.model) ≡ behind (take at out.old) (reply_of m (request_of m (words_of line.now)))) }
{
    let mut words = Words::new(line);
    let Some(name) = words.next_word().and_then(name_of) else {
        return Reply {
            end: error(out, at),
            model: m,
        };
    };
    match name {
        Name::Model => model(m, words, out, at),
        Name::Lend => lend(m, words, out, at),
        Name::Calculation(k) => Reply {
            end: calculate(m, How::Times(1), k, words, out, at),
            model: m,
        },
        Name::Plain(floating) => Reply {
            end: plain(m, floating, words, out, at),
            model: m,
        },
        Name::Stands => Reply {
            end: standing(m, words, out, at),
            model: m,
        },
        Name::Column => Reply {
            end: column(words, out, at),
            model: m,
        },
        Name::Repeat => Reply {
            end: repeat(m, words, out, at),
            model: m,
        },
        Name::Resume => Reply {
            end: resume(m, words, out, at),
            model: m,
        },
        Name::Root => Reply {
            end: root(words, out, at),
            model: m,
        },
        Name::HalfTurn => Reply {
            end: half_turn(words, out, at),
            model: m,
        },
    }
}

// Puts the answer to a line, its newline not counted, into `out` from `at` on, and says where it ends and which model is current then.
#[tactic(auto, unfolding(crate::specs::Answer::answer_of))]
pub fn answer(m: Model, line: &[u8], out: &mut [u8], at: usize) -> Reply
    requires { at + room ≤ length out.old }
    ensures { (at ≤ result.end) × (result.end ≤ at + room) × ((take result.end out.new, result.model) ≡ behind (take at out.old) (answer_of m line.now)) }
{
    if let None | Some(b'#') = line.first() {
        return Reply { end: at, model: m };
    }
    request(m, line, out, at)
}
