// Calls of one routine, one after another, on numbers that vary: a processor that has learned one call's branches has not learned the next one's.
ghost use Rattle.std.specs.Prelude.{◌≡◌};
ghost use Rattle.measure.specs.Runs.{next_of, number_of, root_or, unit_or, half_or, call_of, calls_of};

use builder::axis;
use numbers::vec3::Vec3;

#[derive(Clone, Copy)]
pub enum Routine {
    // Roots that do not wait for each other.
    Root,
    // Each root waits for the last one.
    Chain,
    // The axis rule.
    Axis,
    // Half turns of up to 1024, and of up to the limit.
    Turn,
    Wide,
}

// Where the numbers stand, and what the answers come to.
#[derive(Clone, Copy)]
struct Stand {
    at: u64,
    sum: f64,
}

// 2^53 / 1.618.. on, so that all 53 digits vary.
pub fn next(at: u64) -> u64
    ensures { result ≡ next_of at }
{
    (at % 9007199254740992 + 5566755282872655) % 9007199254740992
}

// From 1 to below 4: a root's digits for both kinds of exponent.
#[tactic(auto, using(std::proofs::lemmas::Float::not_nan_f64_bits))]
pub fn number(at: u64) -> f64
    ensures { result ≡ number_of at }
{
    f64::from_bits(at % 9007199254740992 + 4607182418800017408)
}

#[tactic(auto, unfolding(crate::specs::Runs::root_or))]
fn root(x: f64) -> f64
    ensures { result ≡ root_or x }
{
    square_root::sqrt(x).unwrap_or(0.0)
}

#[tactic(auto, unfolding(crate::specs::Runs::unit_or))]
fn unit(x: f64, y: f64, z: f64) -> f64
    ensures { result ≡ unit_or x y z }
{
    axis::unit_axis(Vec3 { x, y, z }).map_or(0.0, |v| v.x)
}

#[tactic(auto, unfolding(crate::specs::Runs::half_or))]
fn half(q: f64) -> f64
    ensures { result ≡ half_or q }
{
    half_turn::half_turn(q).map_or(0.0, |v| v.sin)
}

#[tactic(auto, unfolding(crate::specs::Runs::call_of))]
fn call(routine: Routine, s: Stand) -> Stand
    ensures { result ≡ call_of routine s }
{
    let at = next(s.at);
    let x = number(at);
    match routine {
        Routine::Root => Stand {
            at,
            sum: s.sum + root(x),
        },
        Routine::Chain => Stand {
            at,
            sum: root(x * s.sum),
        },
        Routine::Turn => Stand {
            at,
            sum: s.sum + half(x * 256.0),
        },
        Routine::Wide => Stand {
            at,
            sum: s.sum + half(x * 262144.0),
        },
        Routine::Axis => {
            let y = next(at);
            let z = next(y);
            Stand {
                at: z,
                sum: s.sum + unit(x, number(y), number(z)),
            }
        }
    }
}

#[tactic(auto, unfolding(crate::specs::Runs::calls_of))]
pub fn run(routine: Routine, count: u64) -> f64
    ensures { result ≡ (calls_of routine count).sum }
{
    let mut s = Stand { at: 0, sum: 1.0 };
    for _ in 0..count {
        s = call(routine, s);
    }
    s.sum
}
