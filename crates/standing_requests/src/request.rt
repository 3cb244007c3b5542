// The request `stands ROOT LINKS FRAMES AXES ROTORS`.
ghost use Rattle.std.specs.Prelude.{◌≡◌, false, ◌++◌, ◌+◌, ◌≤◌, length, take, option_map, ltb};
ghost use Rattle.numbers.specs.Table.{tab};
ghost use Rattle.words.specs.Read.{ReadBy};
ghost use Rattle.replies.specs.Replies.{room, text_of};
ghost use Rattle.standing_requests.specs.Request.{listed, all_below, named, stands_text, stands_line, told, stands_request};

use arm::model::Model;
use readings::read::next_flag;
use refusals::Refusal;
use replies::{error, put_refused};
use standing::changes::Changes;
use standing::joints::Joints;
use standing::{marks_room, stands};
use words::list::number_buffer;
use words::read::Words;
use words::write::{put, put_list};

// Below n + more, which may be no number of 64 bits.
fn is_below(x: u64, n: u64, more: u64) -> bool
    ensures { result ≡ ltb x (n + more) }
{
    x < n || x - n < more
}

fn all_below(l: &[u64], n: u64, more: u64) -> bool
    ensures { result ≡ all_below (n + more) l.now }
{
    l.iter().all(|x| is_below(*x, n, more))
}

// Flags what is listed, among flags that are all false.
fn flag_listed(l: &[u64], flags: &mut [bool])
    requires { flags.old ≡ tab (λ t. false) (length flags.old) }
    ensures { flags.new ≡ tab (listed l.now) (length flags.old) }
{
    for x in l {
        if *x < flags.len() as u64 {
            flags[*x as usize] = true;
        }
    }
}

// A list of numbers below n + more.
#[tactic(auto, unfolding(crate::specs::Request::named))]
fn next_named(words: &mut Words, n: u64, more: u64, flags: &mut [bool]) -> Option<()>
    requires { flags.old ≡ tab (λ t. false) (length flags.old) }
    ensures { ReadBy (named (n + more) (length flags.old)) words.old (option_map (λ _. flags.new) result) words.new }
{
    let mut list = number_buffer();
    let mut left = words.copy();
    let size = left.list(&mut list)?;
    let listed = &list[..size];
    if !all_below(listed, n, more) {
        return None;
    }
    flag_listed(listed, flags);
    *words = left;
    Some(())
}

fn put_stands(text: &mut [u8], at: usize, v: Result<(), Refusal>, marks: &[bool]) -> usize
    requires { (length marks.now ≤ 1444) × (at + room ≤ length text.old) }
    ensures { (at ≤ result) × (result ≤ at + room) × (take result text.new ≡ take at text.old ++ stands_text v marks.now) }
{
    match v {
        Err(refusal) => {
            let a = put_refused(text, at, refusal);
            put(text, a, b"\n")
        }
        Ok(()) => {
            let a = put(text, at, b"stands ");
            let b = put_list(text, a, marks);
            put(text, b, b"\n")
        }
    }
}

// Room for any marks.
fn mark_buffer() -> [bool; 1444]
    ensures { result ≡ tab (λ t. false) 1444 }
{
    [false; 1444]
}

fn answer(m: &Model, floating: bool, changes: &Changes, text: &mut [u8], at: usize) -> usize
    requires { at + room ≤ length text.old }
    ensures { (at ≤ result) × (result ≤ at + room) × (take result text.new ≡ take at text.old ++ stands_line m.now floating changes.now) }
{
    let joints = Joints {
        n: m.n,
        parents: &m.parents,
        kinds: &m.kinds,
    };
    let mut marks = mark_buffer();
    let count = marks_room(floating, &joints);
    let v = stands(floating, &joints, changes, &mut marks[..count]);
    put_stands(text, at, v, &marks[..count])
}

// ROOT LINKS FRAMES AXES ROTORS.
#[tactic(auto, unfolding(crate::specs::Request::told, words::specs::Read::end))]
fn next_told(n: u64, words: &mut Words) -> Option<(bool, Changes)>
    ensures { ReadBy (told n) words.old result words.new }
{
    let mut left = words.copy();
    let floating = next_flag(&mut left)?;
    let mut links = [false; 33];
    let mut frames = [false; 32];
    let mut axes = [false; 32];
    let mut rotors = [false; 32];
    next_named(&mut left, n, 1, &mut links)?;
    next_named(&mut left, n, 0, &mut frames)?;
    next_named(&mut left, n, 0, &mut axes)?;
    next_named(&mut left, n, 0, &mut rotors)?;
    if !left.at_end() {
        return None;
    }
    *words = left;
    let changes = Changes {
        links,
        frames,
        axes,
        rotors,
    };
    Some((floating, changes))
}

#[tactic(auto, unfolding(crate::specs::Request::stands_request))]
pub fn standing(m: Model, mut words: Words, text: &mut [u8], at: usize) -> usize
    requires { at + room ≤ length text.old }
    ensures { (at ≤ result) × (result ≤ at + room) × (take result text.new ≡ take at text.old ++ text_of (stands_request m words.entry)) }
{
    match next_told(m.n as u64, &mut words) {
        Some((floating, changes)) => answer(&m, floating, &changes, text, at),
        None => error(text, at),
    }
}
