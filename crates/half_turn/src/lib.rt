// Sine and cosine of half an angle.
#![tactic(auto)]

ghost use Rattle.std.specs.Prelude.{◌≡◌, ◌<◌, T, length};
ghost use Rattle.half_turn.specs.HalfTurn.{small, turns_of, horner_of, series_of, placed_of, reduced_of, within, in_range, half_turn_of, HalfTurnIs};

// A whole number as a double, and modulo 4.
#[derive(Clone, Copy)]
pub struct Turns {
    pub whole: f64,
    pub quarter: u64,
}

#[derive(Clone, Copy)]
pub struct SinCos {
    pub sin: f64,
    pub cos: f64,
}

// -1/3!, 1/5!, .., 1/17! and -1/2!, 1/4!, .., 1/16!, each rounded once.
const SIN: [f64; 8] = [
    -0.16666666666666666,
    0.008333333333333333,
    -0.0001984126984126984,
    0.0000027557319223985893,
    -0.000000025052108385441720,
    0.00000000016059043836821613,
    -0.00000000000076471637318198164,
    0.0000000000000028114572543455206,
];

const COS: [f64; 8] = [
    -0.5,
    0.041666666666666664,
    -0.001388888888888889,
    0.0000248015873015873,
    -0.00000027557319223985888,
    0.0000000020876756987868100,
    -0.000000000011470745597729725,
    0.000000000000047794773323873853,
];

// 2/π, and π/2 in two parts: P1 is short, so that n * P1 is exact.
const K: f64 = 0.63661977236758138243;

const P1: f64 = 1.57079632673412561417;

const P2: f64 = 0.0000000000607710050650619224;

// P2 in two parts: the first is short too, so that with many turns the product of it is exact as well.
const P2_SHORT: f64 = 0.00000000006077100506303966;

const P3: f64 = 0.0000000000000000000020222662487959506;

// Up to the first in size an angle is reduced in two steps, up to the second in three; beyond it there is no answer.
const TWO_STEP_LIMIT: f64 = 1024.0;

const TURN_LIMIT: f64 = 1048576.0;

// The whole number nearest x. Adding 1.5 * 2^52 leaves no digit behind the point, and rounds as asked.
fn nearest(x: f64) -> Turns
    requires { T (small x) }
    ensures { result ≡ turns_of x }
{
    let y = x + 6755399441055744.0;
    let b = y.to_bits();
    Turns {
        whole: y - 6755399441055744.0,
        quarter: b % 4,
    }
}

// c[0] + z * (c[1] + z * (c[2] + ..)); of no coefficients, NaN.
fn horner(c: &[f64], z: f64) -> f64
    ensures { result ≡ horner_of c.now z }
{
    c.iter()
        .rev()
        .copied()
        .reduce(|p, x| x + z * p)
        .unwrap_or(f64::NAN)
}

fn series(r: f64) -> SinCos
    ensures { result ≡ series_of r }
{
    let z = r * r;
    SinCos {
        sin: r + (r * z) * horner(&SIN, z),
        cos: 1.0 + z * horner(&COS, z),
    }
}

#[tactic(auto, unfolding(crate::specs::HalfTurn::placed_of))]
fn placed(v: SinCos, n: u64) -> SinCos
    ensures { result ≡ placed_of v n }
{
    match n {
        0 => v,
        1 => SinCos {
            sin: v.cos,
            cos: -v.sin,
        },
        2 => SinCos {
            sin: -v.sin,
            cos: -v.cos,
        },
        _ => SinCos {
            sin: -v.cos,
            cos: v.sin,
        },
    }
}

// Whether q is a number, and not beyond b in size.
fn within(b: f64, q: f64) -> bool
    ensures { result ≡ within b q }
{
    q <= b && -b <= q
}

// h less n quarter turns; q is 2 * h.
fn reduced(q: f64, h: f64, n: f64) -> f64
    ensures { result ≡ reduced_of q h n }
{
    let less = h - n * P1;
    if within(TWO_STEP_LIMIT, q) {
        return less - n * P2;
    }
    (less - n * P2_SHORT) - n * P3
}

// Whether q is a number, and not beyond the limit of a turn in size.
pub fn in_range(q: f64) -> bool
    ensures { result ≡ in_range q }
{
    within(TURN_LIMIT, q)
}

// Sine and cosine of q * 0.5. Out of range there is no answer.
pub fn half_turn(q: f64) -> Option<SinCos>
    ensures { (result ≡ half_turn_of q) × HalfTurnIs q result }
{
    if in_range(q) {
        let h = q * 0.5;
        let t = nearest(h * K);
        return Some(placed(series(reduced(q, h, t.whole)), t.quarter));
    }
    None
}
