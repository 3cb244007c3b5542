// Reads requests from standard input, one to a line, and writes an answer for each.
#![tactic(auto)]

ghost use Rattle.std.specs.Prelude.{◌≡◌, ◌≤◌, ◌<◌, length, take, IfSome};
ghost use Rattle.desk.specs.Block.{end_of};
ghost use Rattle.desk.specs.Turns.{Within, Begun, Filled, Turned, state_of, unread, ahead};

mod block;

use arm::model;
use arm::model::Model;
use block::{Stand, answers, end_line};
use std::io::{Read, Stdin};

// What is kept from turn to turn: block[next..end] has not been looked at yet, the length of the line so far, whether it has grown too long, the current
// model, how many bytes of `out` the turn has put out, whether the input has ended, and whether to go on.
#[derive(Clone, Copy)]
struct Kept {
    next: usize,
    end: usize,
    len: usize,
    over: bool,
    model: Model,
    put: usize,
    ended: bool,
    live: bool,
}

// How many bytes were put out, and whether they were written.
#[derive(Clone, Copy)]
struct Put {
    count: usize,
    live: bool,
}

// Twice ROOM: an answer is put behind at most ROOM bytes of others.
fn out_buffer() -> [u8; 262144]
    ensures { 262144 ≡ length result }
{
    [0; 262144]
}

fn write(s: &[u8]) -> Put
    ensures { result.count ≡ length s.now }
{
    let live = io::write_all(1, s);
    if !live {
        io::write_all(2, b"desk: the answers cannot be written\n");
    }
    Put {
        count: s.len(),
        live,
    }
}

fn write_front(s: &[u8], n: usize) -> Put
    requires { n ≤ length s.now }
    ensures { result.count ≡ n }
{
    write(&s[..n])
}

// Before the first turn.
fn begin() -> Kept
    ensures { Begun result }
{
    let model = model::empty();
    Kept {
        next: 0,
        end: 0,
        len: 0,
        over: false,
        model,
        put: 0,
        ended: false,
        live: true,
    }
}

// A signal may interrupt a read. So each that fails, for whatever reason, is tried again a few times: what does not pass is met again at once.
fn read(input: &mut Stdin, block: &mut [u8; 65536]) -> Option<usize>
    ensures { IfSome result (λ n. n ≤ length block.new) }
{
    for _ in 0..9 {
        if let Ok(n) = input.read(block) {
            return Some(n);
        }
    }
    io::write_all(2, b"desk: the input cannot be read\n");
    None
}

// A new block, where nothing is left of the last one; it ends at 0 where it cannot be read or the input has ended.
fn fill(input: &mut Stdin, block: &mut [u8; 65536], k: Kept) -> Kept
    requires { Within k }
    ensures { Filled k block.old result block.new }
{
    if k.next < k.end {
        return k;
    }
    let got = read(input, block);
    Kept {
        next: 0,
        end: got.unwrap_or(0),
        ended: got == Some(0),
        ..k
    }
}

// Answers what is left of the block, as far as `out` has room, and writes the answers: at the end of each block, and before that where they grow too long.
fn serve(block: &[u8], line: &mut [u8; 65536], out: &mut [u8; 262144], k: Kept) -> Kept
    requires { (Within k) × (k.next < k.end) × (k.end ≤ length block.now) }
    ensures { (result.end ≡ k.end) × Turned k line.old (unread k block.now) result block.now line.new out.new }
{
    let model = k.model;
    let end = k.end;
    let s = Stand {
        next: k.next,
        len: k.len,
        over: k.over,
        wait: 0,
        model,
    };
    let r = answers(&block[..end], s, line, out);
    let w = write_front(out, r.wait);
    let model = r.model;
    Kept {
        next: r.next,
        end,
        len: r.len,
        over: r.over,
        model,
        put: w.count,
        ended: false,
        live: w.live,
    }
}

// At most one block and one write. There is no byte to answer once the input has ended.
fn turn(
    input: &mut Stdin,
    block: &mut [u8; 65536],
    line: &mut [u8; 65536],
    out: &mut [u8; 262144],
    k: Kept,
) -> Kept
    requires { Within k }
    ensures { Turned k line.old (ahead k block.old result block.new) result block.new line.new out.new }
{
    let f = fill(input, block, k);
    if f.next < f.end {
        return serve(block, line, out, f);
    }
    Kept {
        put: 0,
        live: false,
        ..f
    }
}

// The input has ended: a last line without a newline is answered like any other. Answers how many bytes it has put out.
fn last(line: &[u8; 65536], out: &mut [u8; 262144], k: Kept) -> usize
    requires { k.len < 65536 }
    ensures { take result out.new ≡ (end_of (state_of k line.now)).0 }
{
    let r = end_line(k.model, line, k.len, k.over, out, 0);
    let w = write_front(out, r.end);
    w.count
}

// A proved loop has to end, and nothing says that the input does: there are as many turns as no run uses up.
// Each turn but the last takes at least a byte. A line that a failed read cut short is not answered, nor one behind answers that could not be written.
fn main(rt: HostRuntime) {
    let mut input = rt.stdin();
    let mut block = io::large_buffer();
    let mut line = io::large_buffer();
    let mut out = out_buffer();
    let mut k = begin();
    'turns: for _ in 0..u64::MAX {
        if !k.live {
            break;
        }
        k = turn(&mut input, &mut block, &mut line, &mut out, k);
    }
    if k.ended {
        last(&line, &mut out, k);
    }
}
