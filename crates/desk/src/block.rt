// The answers to the lines of a block of input.
ghost use Rattle.std.specs.Prelude.{◌≡◌, ◌+◌, ◌≤◌, ◌<◌, length, take};
ghost use Rattle.replies.specs.Replies.{room, behind};
ghost use Rattle.desk.specs.Block.{end_of, Moved};

use arm::model::Model;
use replies::{ROOM, Reply, error};
use requests::answer::answer;
use words::line::gather;

// Where reading stands in the block, the length of the line so far, whether it has grown too long, where the answers end, and the current model.
#[derive(Clone, Copy)]
pub struct Stand {
    pub next: usize,
    pub len: usize,
    pub over: bool,
    pub wait: usize,
    pub model: Model,
}

// The answer to a line that has ended.
pub fn end_line(
    m: Model,
    line: &[u8],
    len: usize,
    over: bool,
    out: &mut [u8; 262144],
    at: usize,
) -> Reply
    requires { (len ≤ length line.now) × (at ≤ room) }
    ensures { (result.end ≤ at + room) × ((take result.end out.new, result.model) ≡ behind (take at out.old) (end_of (m, (take len line.now, over)))) }
{
    if over {
        let end = error(out, at);
        return Reply { end, model: m };
    }
    answer(m, &line[..len], out, at)
}

// The line's bytes up to its newline, and its answer; or up to the block's end.
fn step(block: &[u8], s: Stand, line: &mut [u8; 65536], out: &mut [u8; 262144]) -> Stand
    requires { (s.next < length block.now) × (s.len < 65536) × (s.wait ≤ room) }
    ensures bounds { (s.next < result.next) × (result.next ≤ length block.now) × (result.len < 65536) × (result.wait ≤ 262144) }
    ensures moved { Moved block.now s line.old out.old result line.new out.new }
{
    let wait = s.wait;
    let model = s.model;
    let p = gather(block, s.next, line, s.len, s.over);
    let next = p.next;
    if next < block.len() {
        let r = end_line(model, line, p.len, p.over, out, wait);
        let model = r.model;
        return Stand {
            next: next + 1,
            len: 0,
            over: false,
            wait: r.end,
            model,
        };
    }
    Stand {
        next,
        len: p.len,
        over: p.over,
        wait,
        model,
    }
}

// The block's bytes, as far as `out` has room for one more answer.
pub fn answers(block: &[u8], s: Stand, line: &mut [u8; 65536], out: &mut [u8; 262144]) -> Stand
    requires { (s.next < length block.now) × (s.len < 65536) × (s.wait ≤ room) }
    ensures bounds { (s.next < result.next) × (result.next ≤ length block.now) × (result.len < 65536) × (result.wait ≤ 262144) }
    ensures moved { Moved block.now s line.old out.old result line.new out.new }
{
    let mut r = step(block, s, line, out);
    while r.next < block.len() && r.wait <= ROOM {
        r = step(block, r, line, out);
    }
    r
}
