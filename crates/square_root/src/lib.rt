// The square root. Floats guess its digits; whole numbers alone decide them.
#![tactic(auto)]

ghost use Rattle.std.specs.Prelude.{◌≡◌, ◌+◌, ◌*◌, ◌^◌, ◌≤◌, ◌<◌};
ghost use Rattle.square_root.specs.SquareRoot.{RootIs, root_of, pattern_of, sig_of, exp_of, NextPart};
ghost use Rattle.square_root.specs.Guess.{Remainder, rounded_root};

mod guess;

use guess::Square;

// What is worked out so far: the root's digits, and what is left over.
#[derive(Clone, Copy)]
struct Part {
    root: u64,
    rem: u64,
}

// One more digit of the root, for two more of the number.
fn step(p: Part, d: u64) -> Part
    requires { (p.rem ≤ 2 * p.root) × (p.root < 9007199254740992) × (d < 4) }
    ensures { NextPart p.root p.rem d result.root result.rem }
{
    let rem = p.rem * 4 + d;
    let t = p.root * 4 + 1;
    if t <= rem {
        return Part {
            root: p.root * 2 + 1,
            rem: rem - t,
        };
    }
    Part {
        root: p.root * 2,
        rem,
    }
}

// The first 54 binary digits of the root of w * 2^44, cut.
fn digits(w: u64) -> u64
    ensures { (result * result ≤ w * 17592186044416) × (w * 17592186044416 < (result + 1) * (result + 1)) }
{
    let mut left = w;
    let mut p = Part { root: 0, rem: 0 };
    for _ in 0..54u64 {
        p = step(p, left / 4611686018427387904);
        left = left % 4611686018427387904 * 4;
    }
    p.root
}

// What a remainder has in addition, 2^55, so that it is above zero where a guess is too high.
const SPARE: u64 = 36028797018963968;

// The root of w * 2^42, rounded to 53 digits, from the 54 of `digits`. A tie cannot happen, so adding one before halving is the nearest.
fn digit_by_digit(w: u64) -> u64
    ensures { result ≡ rounded_root w }
{
    (digits(w) + 1) / 2
}

// The same root: m where the remainder shows that it is m, else digit by digit.
fn settled(w: u64, m: u64, rem: u64) -> u64
    requires { (Remainder w m rem) × (m ≤ 9007199254740992) }
    ensures { result ≡ rounded_root w }
{
    if SPARE - m < rem && rem <= SPARE + m {
        return m;
    }
    digit_by_digit(w)
}

// The same root, where m is too high. The square of m - 1 has 2 * (m - 1) + 1 less.
fn lower(w: u64, m: u64, rem: u64) -> u64
    requires { (Remainder w m rem) × (0 < m) × (m ≤ 9007199254740992) × (rem < 36028797018963968) }
    ensures { result ≡ rounded_root w }
{
    let less = m - 1;
    settled(w, less, rem + 2 * less + 1)
}

// The same root, where m is too low. The square of m + 1 has 2 * m + 1 more.
fn higher(w: u64, m: u64, rem: u64) -> u64
    requires { (Remainder w m rem) × (m < 9007199254740992) × (36028797018963968 < rem) }
    ensures { result ≡ rounded_root w }
{
    settled(w, m + 1, rem - (2 * m + 1))
}

// The same root from a guess m, which may be one too low or too high; from any other it is found digit by digit.
// w * 2^42 + 2^55 is a * 2^52 + b, and m * m is top * 2^52 + low with low below 2 * 2^52: so a has to be 2 above top.
// Most guesses are right, and a processor that foretells the tests goes on with m while the remainder is still being worked out.
fn rounded(w: u64, m: u64) -> u64
    requires { (4503599627370496 ≤ m) × (m < 9007199254740992) }
    ensures { result ≡ rounded_root w }
{
    let Square { top, low } = guess::squared(m);
    let a = w / 1024 + 8;
    let b = w % 1024 * 4398046511104;
    if a < top + 2 || top + 15 < a {
        return digit_by_digit(w);
    }
    let rem = (a - top) * 4503599627370496 + b - low;
    if rem <= SPARE - m {
        return lower(w, m, rem);
    }
    if SPARE + m < rem {
        return higher(w, m, rem);
    }
    settled(w, m, rem)
}

fn significand(b: u64) -> u64
    ensures { result ≡ sig_of b }
{
    if b < 4503599627370496 {
        return b;
    }
    4503599627370496 + b % 4503599627370496
}

fn exponent(b: u64) -> u64
    ensures { result ≡ exp_of b }
{
    if b < 4503599627370496 {
        return 0;
    }
    b / 4503599627370496 - 1
}

// The bit pattern of the root of the double whose pattern is b, which is finite and above zero.
// A carry of the rounding runs into the exponent by itself.
fn pattern(b: u64) -> u64
    requires { (0 < b) × (b < 9218868437227405312) }
    ensures { result ≡ pattern_of (sig_of b * 2 ^ (exp_of b + 1074)) }
{
    let c = significand(b);
    let k = exponent(b);
    let z = u64::from(c.leading_zeros());
    let s = z - (z + k) % 2;
    let h = (k + 1074 - s) / 2 - 22;
    (h + 1) * 4503599627370496 + rounded(c << s, guess::estimate(b))
}

// The double nearest the root of x. NaN and what is below zero have none.
pub fn sqrt(x: f64) -> Option<f64>
    ensures { (result ≡ root_of x) × RootIs x result }
{
    if x.is_nan() || x < 0.0 {
        return None;
    }
    let b = x.to_bits();
    if x == 0.0 || b == 9218868437227405312 {
        return Some(x);
    }
    Some(f64::from_bits(pattern(b)))
}
