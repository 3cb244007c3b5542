// The column reader.
ghost use Rattle.std.specs.Prelude.{◌≡◌};
ghost use Rattle.mass_matrix.specs.Column.{bad_column, column_of};

// 25.
#[tactic(auto, unfolding(crate::specs::Column::bad_column))]
fn bad_column(side: usize, column: usize, count: usize) -> bool
    ensures { result ≡ bad_column side column count }
{
    side == 0 || 38 < side || count != side * side || side <= column
}

// Column `column` of a lent matrix with `side` rows: a part of it, and the empty part where 25 refuses.
#[tactic(auto, using(crate::proofs::column::Part::inside), unfolding(crate::specs::Column::column_of))]
pub fn column(side: usize, column: usize, matrix: &[f64]) -> &[f64]
    ensures { result.now ≡ column_of side column matrix.now }
{
    if bad_column(side, column, matrix.len()) {
        return &matrix[0..0];
    }
    let from = column * side;
    &matrix[from..from + side]
}
