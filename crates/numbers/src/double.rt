// Doubles one by one, their patterns, and slices of them.
ghost use Rattle.std.specs.Prelude.{◌≡◌, ◌&&◌};
ghost use Rattle.std.specs.Float.{binary64};
ghost use Rattle.std.specs.Float.Ieee.{of_bits, to_bits};
ghost use Rattle.numbers.specs.Double.{finite, abs_of, max_of, all_finite, amax_of};

use std::num::{f64_from_bits_with_nan, f64_to_bits_with_nan};

pub fn both(a: bool, b: bool) -> bool
    ensures { result ≡ (a && b) }
{
    a && b
}

#[tactic(auto, using(crate::proofs::double::Signs::finite_is))]
pub fn is_finite(x: f64) -> bool
    ensures { result ≡ finite x }
{
    x.is_finite()
}

#[tactic(auto, using(crate::proofs::double::Signs::abs_is))]
pub fn abs(x: f64) -> f64
    ensures { result ≡ abs_of x }
{
    x.abs()
}

// The larger. A NaN on the left stays, unlike under `f64::max`.
#[tactic(auto, unfolding(crate::specs::Double::max_of))]
pub fn max(a: f64, b: f64) -> f64
    ensures { result ≡ max_of a b }
{
    if a < b { b } else { a }
}

// The double of a pattern. Every pattern above infinity's, the sign aside, is NaN.
pub fn double_of(bits: u64) -> f64
    ensures { result ≡ of_bits binary64 bits }
{
    f64_from_bits_with_nan(bits)
}

// The pattern of a double. A NaN has one here.
pub fn bits_of(x: f64) -> u64
    ensures { result ≡ to_bits binary64 x }
{
    f64_to_bits_with_nan(x)
}

pub fn all_finite(v: &[f64]) -> bool
    ensures { result ≡ all_finite v.now }
{
    v.iter().all(|x| is_finite(*x))
}

// The largest of the sizes, and of 0.
pub fn amax(v: &[f64]) -> f64
    ensures { result ≡ amax_of v.now }
{
    v.iter().fold(0.0, |most, x| max(most, abs(*x)))
}
