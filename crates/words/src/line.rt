// One line out of blocks of input: at most 65,535 bytes of it are kept.
ghost use Rattle.std.specs.Prelude.{◌≡◌, ◌+◌, ◌≤◌, ◌<◌, length, take, drop};
ghost use Rattle.words.specs.Line.{line_of, before_of};

// A part of a block, gathered: where it ends, the line's length so far and whether the line has grown too long.
#[derive(Clone, Copy)]
pub struct Part {
    pub next: usize,
    pub len: usize,
    pub over: bool,
}

fn before_newline(bytes: &[u8]) -> usize
    ensures { (result ≤ length bytes.now) × (result ≡ before_of bytes.now) }
{
    bytes
        .iter()
        .position(|b| *b == b'\n')
        .unwrap_or(bytes.len())
}

// The bytes of the block from i up to a newline or the block's end go to the line, as far as it has room.
pub fn gather(block: &[u8], i: usize, line: &mut [u8], len: usize, over: bool) -> Part
    requires { (i ≤ length block.now) × (len < 65536) × (65536 ≤ length line.old) }
    ensures { (i ≤ result.next) × (result.next ≤ length block.now) × (result.len < 65536) × (result.next ≡ i + before_of (drop i block.now)) × ((take result.len line.new, result.over) ≡ line_of (take len line.old, over) (drop i block.now)) }
{
    let rest = &block[i..];
    let count = before_newline(rest);
    let kept = count.min(65535 - len);
    let end = len + kept;
    line[len..end].copy_from_slice(&rest[..kept]);
    Part {
        next: i + count,
        len: end,
        over: over || kept < count,
    }
}
