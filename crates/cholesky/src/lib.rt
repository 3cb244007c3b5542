// The lower factor of a 6×6 matrix, written over it, and solving by it.
#![tactic(auto)]

ghost use Rattle.std.specs.Prelude.{◌≡◌, ◌-◌, ◌≤◌, ◌<◌};
ghost use Rattle.cholesky.specs.Cholesky.{less_of, below_to, factor_column, cholesky_of, forward_row, forward_to, back_row, back_to, solve_of};

// Entry (i, j) less the products of rows i and j before column n.
#[tactic(auto, unfolding(crate::specs::Cholesky::less_of, numbers::specs::Sum::less_to))]
fn less(l: &[f64; 36], i: usize, j: usize, n: usize) -> f64
    requires { (i < 6) × (j < 6) × (n ≤ 6) }
    ensures { result ≡ less_of l.now i j n }
{
    let mut x = l[i * 6 + j];
    for k in 0..n {
        x -= l[i * 6 + k] * l[j * 6 + k];
    }
    x
}

// The entries of column j below the pivot, whose root is r.
#[tactic(auto, unfolding(crate::specs::Cholesky::below_to))]
fn below(l: &mut [f64; 36], j: usize, r: f64)
    requires { j < 6 }
    ensures { l.new ≡ below_to l.old j r (5 - j) }
{
    for i in j + 1..6 {
        l[i * 6 + j] = less(l, i, j, j) / r;
    }
}

// Column j: false where its pivot is not above zero.
#[tactic(auto, unfolding(crate::specs::Cholesky::factor_column))]
fn column(l: &mut [f64; 36], j: usize) -> bool
    requires { j < 6 }
    ensures { (result, l.new) ≡ factor_column l.old j }
{
    let p = less(l, j, j, j);
    if 0.0 < p {
        if let Some(r) = square_root::sqrt(p) {
            l[j * 6 + j] = r;
            below(l, j, r);
            return true;
        }
    }
    false
}

// The lower factor of l in the place of its lower half; false at the first pivot that is not above zero.
#[tactic(auto, unfolding(crate::specs::Cholesky::cholesky_to))]
pub fn cholesky(l: &mut [f64; 36]) -> bool
    ensures { (result, l.new) ≡ cholesky_of l.old }
{
    for j in 0..6 {
        if !column(l, j) {
            return false;
        }
    }
    true
}

#[tactic(auto, unfolding(numbers::specs::Sum::less_to))]
fn forward_row(l: &[f64; 36], b: &[f64; 6], i: usize) -> f64
    requires { i < 6 }
    ensures { result ≡ forward_row l.now b.now i }
{
    let mut x = b[i];
    for k in 0..i {
        x -= l[i * 6 + k] * b[k];
    }
    x / l[i * 6 + i]
}

#[tactic(auto, unfolding(crate::specs::Cholesky::forward_to))]
pub fn forward(l: &[f64; 36], b: [f64; 6]) -> [f64; 6]
    ensures { result ≡ forward_to l.now b 6 }
{
    let mut c = b;
    for i in 0..6 {
        c[i] = forward_row(l, &c, i);
    }
    c
}

#[tactic(auto, unfolding(numbers::specs::Sum::less_to))]
fn back_row(l: &[f64; 36], b: &[f64; 6], i: usize) -> f64
    requires { i < 6 }
    ensures { result ≡ back_row l.now b.now i }
{
    let mut x = b[i];
    for k in i + 1..6 {
        x -= l[k * 6 + i] * b[k];
    }
    x / l[i * 6 + i]
}

#[tactic(auto, unfolding(crate::specs::Cholesky::back_to))]
pub fn back(l: &[f64; 36], b: [f64; 6]) -> [f64; 6]
    ensures { result ≡ back_to l.now b 6 }
{
    let mut c = b;
    for i in (0..6).rev() {
        c[i] = back_row(l, &c, i);
    }
    c
}

// l lᵀ x = b, for a lower factor l.
#[tactic(auto, unfolding(crate::specs::Cholesky::solve_of))]
pub fn solve(l: &[f64; 36], b: [f64; 6]) -> [f64; 6]
    ensures { result ≡ solve_of l.now b }
{
    let y = forward(l, b);
    back(l, y)
}
