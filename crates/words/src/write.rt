// Writers of answers. Each puts its text into `out` from `at` on, and answers where the text ends.
ghost use Rattle.std.specs.Prelude.{◌≡◌, ◌++◌, ◌+◌, ◌*◌, ◌≤◌, ℕ, List, length, take};
ghost use Rattle.words.specs.Write.{width_text, hex_text, mark_text, decimal_text, double_text, list_text};

pub fn put(out: &mut [u8], at: usize, text: &[u8]) -> usize
    requires { at + length text.now ≤ length out.old }
    ensures { (result ≡ at + length text.now) × (take result out.new ≡ take at out.old ++ text.now) }
{
    let end = at + text.len();
    out[at..end].copy_from_slice(text);
    end
}

// A number in as few digits as hold it, and no fewer than width.
#[tactic(auto, using(crate::proofs::write::Round::width_is))]
fn put_hex(out: &mut [u8], at: usize, n: u64, width: usize) -> usize
    requires { (at + 16 ≤ length out.old) × (1 ≤ width) × (width ≤ 16) }
    ensures { (at ≤ result) × (result ≤ at + 16) × (take result out.new ≡ take at out.old ++ width_text width n) }
{
    let mut text = [0u8; 16];
    let k = io::hex(n, width, &mut text);
    put(out, at, &text[..k])
}

#[tactic(auto, using(crate::proofs::write::Round::decimal_is))]
pub fn put_decimal(out: &mut [u8], at: usize, n: u64) -> usize
    requires { at + 20 ≤ length out.old }
    ensures { (at ≤ result) × (result ≤ at + 20) × (take result out.new ≡ take at out.old ++ decimal_text n) }
{
    let mut text = [0u8; 20];
    let k = io::decimal(n, &mut text);
    put(out, at, &text[..k])
}

// A value that is written as one word.
pub trait Word: Copy {
    ghost text: { Self → List ℕ };

    fn put(self, out: &mut [u8], at: usize) -> usize
        requires { at + 16 ≤ length out.old }
        ensures { (at ≤ result) × (result ≤ at + 16) × (take result out.new ≡ take at out.old ++ text self) };
}

impl Word for u64 {
    ghost text = { hex_text };

    fn put(self, out: &mut [u8], at: usize) -> usize {
        put_hex(out, at, self, 1)
    }
}

impl Word for f64 {
    ghost text = { double_text };

    #[tactic(auto, unfolding(crate::specs::Write::double_text))]
    fn put(self, out: &mut [u8], at: usize) -> usize {
        if self.is_nan() {
            return put(out, at, b"nan");
        }
        put_hex(out, at, self.to_bits(), 16)
    }
}

// 1 for true.
impl Word for bool {
    ghost text = { mark_text };

    fn put(self, out: &mut [u8], at: usize) -> usize {
        put_hex(out, at, u64::from(self), 1)
    }
}

#[tactic(auto, using(crate::proofs::write::Laws::items_start, crate::proofs::write::Laws::items_more))]
pub fn put_list<T: Word>(out: &mut [u8], at: usize, l: &[T]) -> usize
    requires { at + 17 * length l.now + 16 ≤ length out.old }
    ensures { (at ≤ result) × (result ≤ at + 17 * length l.now + 16) × (take result out.new ≡ take at out.old ++ list_text T.text l.now) }
{
    let mut a = (l.len() as u64).put(out, at);
    for x in l {
        let b = put(out, a, b" ");
        a = x.put(out, b);
    }
    a
}
