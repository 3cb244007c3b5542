// The solve of a floating base: B = D⁻¹ A D⁻¹, B y = D⁻¹ b, x = D⁻¹ y, with document 01's tests in their order.
#![tactic(auto)]

ghost use Rattle.std.specs.Prelude.{◌≡◌, ◌<◌};
ghost use Rattle.square_root.specs.SquareRoot.{root_of};
ghost use Rattle.spatial.specs.Wrench.{vector_of};
ghost use Rattle.base_solve.specs.BaseSolve.{told, root_or, above_to, scale_of, scaled_of, divided_of, over_of, difference_of, column_sum, norm_to, size_of, basis, inverse_to, residual_of, near_of, checked_of, solution_of, conditioned_of, factored_of, base_solve};

use numbers::double;
use spatial::twist::Twist;
use spatial::wrench::Wrench;
use std::array;

// Why a base is not solved.
#[derive(Clone, Copy, Debug, PartialEq, Eq)]
pub enum Unsolved {
    Singular,
    IllConditioned,
    Numerical,
}

// 2^-45: a residual may be so much of its denominator.
const RESIDUAL_BOUND: f64 = 2.8421709430404007434844970703125e-14;

// 2^-26: up to here a reciprocal condition is ill.
const CONDITION_BOUND: f64 = 1.490116119384765625e-8;

// The root; NaN where there is none, which a diagonal above zero does not meet.
fn sqrt(x: f64) -> f64
    ensures { result ≡ root_or (root_of x) }
{
    square_root::sqrt(x).unwrap_or(f64::NAN)
}

// No number of the diagonal is 0 or below.
fn diagonal_above(a: &[f64; 36]) -> bool
    ensures { result ≡ above_to a.now 6 }
{
    (0..6).all(|k| !(a[k * 6 + k] <= 0.0))
}

// The roots of the diagonal.
fn scale(a: &[f64; 36]) -> [f64; 6]
    ensures { result ≡ scale_of a.now }
{
    array::from_fn(|t| sqrt(a[t * 6 + t]))
}

// Row by row: `array::from_fn` would divide the index for each number, which is slower.
fn scaled(a: &[f64; 36], s: &[f64; 6]) -> [f64; 36]
    ensures { result ≡ scaled_of a.now s.now }
{
    let mut m = [0.0; 36];
    for i in 0..6 {
        for j in 0..6 {
            let t = i * 6 + j;
            m[t] = a[t] / s[i] / s[j];
        }
    }
    m
}

fn divided(b: &[f64; 6], s: &[f64; 6]) -> [f64; 6]
    ensures { result ≡ divided_of b.now s.now }
{
    array::from_fn(|t| b[t] / s[t])
}

fn over(b: &[f64; 6], g: f64) -> [f64; 6]
    ensures { result ≡ over_of b.now g }
{
    array::from_fn(|t| b[t] / g)
}

fn difference(a: &[f64; 6], b: &[f64; 6]) -> [f64; 6]
    ensures { result ≡ difference_of a.now b.now }
{
    array::from_fn(|t| a[t] - b[t])
}

// The sum of the sizes of column j.
#[tactic(auto, unfolding(crate::specs::BaseSolve::column_sum, numbers::specs::Sum::sum_to))]
fn column_sum(a: &[f64; 36], j: usize) -> f64
    requires { j < 6 }
    ensures { result ≡ column_sum a.now j }
{
    let mut s = double::abs(a[j]);
    for k in 1..6 {
        s += double::abs(a[k * 6 + j]);
    }
    s
}

// The largest of the columns' sums.
#[tactic(auto, unfolding(crate::specs::BaseSolve::norm_to))]
fn norm(a: &[f64; 36]) -> f64
    ensures { result ≡ norm_to a.now 6 }
{
    let mut x = 0.0;
    for k in 0..6 {
        x = double::max(x, column_sum(a, k));
    }
    x
}

// The sum of the sizes.
#[tactic(auto, unfolding(crate::specs::BaseSolve::size_of, numbers::specs::Sum::sum_to))]
fn size(v: &[f64; 6]) -> f64
    ensures { result ≡ size_of v.now }
{
    let mut s = double::abs(v[0]);
    for k in 1..6 {
        s += double::abs(v[k]);
    }
    s
}

#[tactic(auto, unfolding(crate::specs::BaseSolve::basis))]
fn basis_vector(j: usize) -> [f64; 6]
    requires { j < 6 }
    ensures { result ≡ basis j }
{
    let mut v = [0.0; 6];
    v[j] = 1.0;
    v
}

// The largest sum of a column of the inverse, whose columns are looked at one by one; none where one is not finite.
#[tactic(auto, unfolding(crate::specs::BaseSolve::inverse_to, crate::specs::BaseSolve::next_norm))]
fn inverse_norm(l: &[f64; 36]) -> Option<f64>
    ensures { result ≡ inverse_to l.now 6 }
{
    let mut top = 0.0;
    for j in 0..6 {
        let x = cholesky::solve(l, basis_vector(j));
        if !double::all_finite(&x) {
            return None;
        }
        top = double::max(top, size(&x));
    }
    Some(top)
}

#[tactic(auto, unfolding(crate::specs::BaseSolve::residual_of))]
fn residual(a: &[f64; 36], y: &[f64; 6], b: &[f64; 6]) -> [f64; 6]
    ensures { result ≡ residual_of a.now y.now b.now }
{
    difference(&mat6::apply(a, y), b)
}

// Whether the residual is finite and at most 2^-45 of the denominator.
#[tactic(auto, unfolding(crate::specs::BaseSolve::near_of))]
fn near(a: &[f64; 36], y: &[f64; 6], b: &[f64; 6], norm: f64) -> bool
    ensures { result ≡ near_of a.now y.now b.now norm }
{
    let r = residual(a, y, b);
    let denominator = norm * double::amax(y) + double::amax(b);
    let large = RESIDUAL_BOUND * denominator < double::amax(&r);
    double::all_finite(&r) && !large
}

// y and b are divided by their magnitude first, so that the test itself does not overflow.
#[tactic(auto, unfolding(crate::specs::BaseSolve::checked_of))]
fn checked(a: &[f64; 36], y: &[f64; 6], b: &[f64; 6], norm: f64) -> bool
    ensures { result ≡ checked_of a.now y.now b.now norm }
{
    let magnitude = double::max(double::amax(y), double::amax(b));
    if 0.0 < magnitude {
        return near(a, &over(y, magnitude), &over(b, magnitude), norm);
    }
    true
}

// The solution and its two tests.
#[tactic(auto, unfolding(crate::specs::BaseSolve::solution_of))]
fn solution(
    a: &[f64; 36],
    l: &[f64; 36],
    b: [f64; 6],
    s: &[f64; 6],
    norm: f64,
) -> Result<Twist, Unsolved>
    ensures { told result ≡ solution_of a.now l.now b s.now norm }
{
    let y = cholesky::solve(l, b);
    let x = divided(&y, s);
    if double::all_finite(&y) && double::all_finite(&x) && checked(a, &y, &b, norm) {
        return Ok(Twist::from_vector(&x));
    }
    Err(Unsolved::Numerical)
}

// The tests of the condition, then the solution.
#[tactic(auto, unfolding(crate::specs::BaseSolve::conditioned_of))]
fn conditioned(a: &[f64; 36], l: &[f64; 36], b: [f64; 6], s: &[f64; 6]) -> Result<Twist, Unsolved>
    ensures { told result ≡ conditioned_of a.now l.now b s.now }
{
    let n = norm(a);
    let top = inverse_norm(l).ok_or(Unsolved::IllConditioned)?;
    if (1.0 / n) / top <= CONDITION_BOUND {
        return Err(Unsolved::IllConditioned);
    }
    solution(a, l, b, s, n)
}

// The scaled numbers are tested and factored, then the rest.
#[tactic(auto, unfolding(crate::specs::BaseSolve::factored_of))]
fn factored(a: &[f64; 36], b: [f64; 6], s: &[f64; 6]) -> Result<Twist, Unsolved>
    ensures { told result ≡ factored_of a.now b s.now }
{
    if !(double::all_finite(a) && double::all_finite(&b)) {
        return Err(Unsolved::Numerical);
    }
    let mut l = *a;
    if !cholesky::cholesky(&mut l) {
        return Err(Unsolved::Singular);
    }
    conditioned(a, &l, b, s)
}

#[tactic(auto, unfolding(crate::specs::BaseSolve::base_solve))]
pub fn solve_base_inertia(inertia: &[f64; 36], rhs: Wrench) -> Result<Twist, Unsolved>
    ensures { told result ≡ base_solve inertia.now (vector_of rhs) }
{
    let b = rhs.to_vector();
    if !(double::all_finite(inertia) && double::all_finite(&b)) {
        return Err(Unsolved::Numerical);
    }
    if !diagonal_above(inertia) {
        return Err(Unsolved::Singular);
    }
    let s = scale(inertia);
    factored(&scaled(inertia, &s), divided(&b, &s), &s)
}
