// The request `column SIDE COLUMN MATRIX`.
ghost use Rattle.std.specs.Prelude.{◌≡◌, ◌++◌, ◌+◌, ◌≤◌, length, take};
ghost use Rattle.replies.specs.Replies.{room, text_of};
ghost use Rattle.writings.specs.Column.{column_line, column_request};

use mass_matrix::column;
use replies::error;
use words::list::double_buffer;
use words::read::Words;
use words::write::{put, put_list};

fn put_column(out: &mut [u8], at: usize, part: &[f64]) -> usize
    requires { (at + room ≤ length out.old) × (length part.now ≤ 4096) }
    ensures { (at ≤ result) × (result ≤ at + room) × (take result out.new ≡ take at out.old ++ column_line part.now) }
{
    let a = put(out, at, b"column ");
    let b = put_list(out, a, part);
    put(out, b, b"\n")
}

#[tactic(auto, unfolding(crate::specs::Column::column_request, words::specs::Read::end))]
pub fn column(mut words: Words, out: &mut [u8], at: usize) -> usize
    requires { at + room ≤ length out.old }
    ensures { (at ≤ result) × (result ≤ at + room) × (take result out.new ≡ take at out.old ++ text_of (column_request words.entry)) }
{
    let mut matrix = double_buffer();
    let Some(side) = words.next_number() else {
        return error(out, at);
    };
    let Some(column) = words.next_number() else {
        return error(out, at);
    };
    let Some(n) = words.list(&mut matrix) else {
        return error(out, at);
    };
    if !words.at_end() {
        return error(out, at);
    }
    let part = column::column(side as usize, column as usize, &matrix[..n]);
    put_column(out, at, part)
}
