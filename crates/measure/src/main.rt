// For bench/run: a line `root COUNT`, `chain COUNT`, `axis COUNT`, `turn COUNT`, `wide COUNT` or `loads COUNT` makes so many calls, and the answer is what they come to;
// to another word, or where the count is none, it is `error`.
#![tactic(auto)]

ghost use Rattle.std.specs.Prelude.{◌≤◌, length};

mod loads;
mod runs;

use runs::Routine;
use std::io::Read;
use words::line::gather;
use words::read::Words;
use words::write::{Word, put};

// What the calls come to, where there is such a routine.
fn total(name: &[u8], count: u64) -> Option<f64> {
    let routine = match name {
        b"root" => Routine::Root,
        b"chain" => Routine::Chain,
        b"axis" => Routine::Axis,
        b"turn" => Routine::Turn,
        b"wide" => Routine::Wide,
        b"loads" => return Some(loads::run(count)),
        _ => return None,
    };
    Some(runs::run(routine, count))
}

fn asked(line: &[u8]) -> Option<f64> {
    let mut words = Words::new(line);
    let name = words.next_word()?;
    total(name, words.next_number()?)
}

fn put_sum(out: &mut [u8], sum: Option<f64>) -> usize
    requires { 65536 ≤ length out.old }
    ensures { result ≤ 65536 }
{
    match sum {
        Some(sum) => {
            let end = sum.put(out, 0);
            put(out, end, b"\n")
        }
        None => put(out, 0, b"error\n"),
    }
}

fn main(rt: HostRuntime) {
    let mut block = io::large_buffer();
    let mut line = io::large_buffer();
    let n = rt.stdin().read(&mut block).unwrap_or(0);
    let p = gather(&block[..n], 0, &mut line, 0, false);
    let sum = asked(&line[..p.len]);
    let end = put_sum(&mut line, sum);
    io::write_all(1, &line[..end]);
}
