// What the calls are lent of an arm.

// A tree and the kinds of its joints: how many joints, each one's parent link, each one's kind.
#[derive(Clone, Copy)]
pub struct Joints<'a> {
    pub n: usize,
    pub parents: &'a [u8; 32],
    pub kinds: &'a [u8; 32],
}
