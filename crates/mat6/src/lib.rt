// 6×6 matrices, row by row in 36 numbers: entry (i, j) stands at i * 6 + j. A vector is six numbers.
#![tactic(auto)]

ghost use Rattle.std.specs.Prelude.{◌≡◌, ◌<◌};
ghost use Rattle.mat6.specs.Mat6.{plus_of, row_of, apply_of};

pub fn plus(a: &[f64; 36], b: &[f64; 36]) -> [f64; 36]
    ensures { result ≡ plus_of a.now b.now }
{
    std::array::from_fn(|t| a[t] + b[t])
}

// Row i of m v.
#[tactic(auto, unfolding(crate::specs::Mat6::row_of))]
fn row(m: &[f64; 36], v: &[f64; 6], i: usize) -> f64
    requires { i < 6 }
    ensures { result ≡ row_of m.now v.now i }
{
    let at = i * 6;
    m[at] * v[0]
        + m[at + 1] * v[1]
        + m[at + 2] * v[2]
        + m[at + 3] * v[3]
        + m[at + 4] * v[4]
        + m[at + 5] * v[5]
}

pub fn apply(m: &[f64; 36], v: &[f64; 6]) -> [f64; 6]
    ensures { result ≡ apply_of m.now v.now }
{
    std::array::from_fn(|i| row(m, v, i))
}
