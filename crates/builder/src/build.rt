// The builder: the lists that pass the checks, in the model's slots.
ghost use Rattle.std.specs.Prelude.{◌≡◌, ℕ, ◌*◌, ◌≤◌, ◌<◌, length, get_or};
ghost use Rattle.builder.specs.Build.{Listed, byte_slots, double_slots, axis_slot, axis_slots, rotor_slots, model_of, built_of};

use crate::checks;
use arm::model;
use arm::model::Model;
use numbers::vec3::Vec3;
use refusals::Refusal;
use std::array;

#[derive(Clone, Copy)]
pub struct Built {
    pub verdict: Result<(), Refusal>,
    pub model: Model,
}

// Parents or kinds.
fn byte_slots(n: usize, s: &[u64]) -> [u8; 32]
    requires { (n ≤ length s.now) × ((j : ℕ) → j < n → get_or s.now j 0 < 256) }
    ensures { result ≡ byte_slots n s.now }
{
    array::from_fn(|j| if j < n { s[j] as u8 } else { 0 })
}

// Origins or links.
fn double_slots<const N: usize>(s: &[f64]) -> [f64; N]
    ensures { result ≡ double_slots s.now N }
{
    array::from_fn(|t| if t < s.len() { s[t] } else { 0.0 })
}

#[tactic(auto, unfolding(crate::specs::Build::axis_slot))]
fn axis_slot<'a>(n: usize, kinds: &'a [u64], axes: &'a [f64], j: usize) -> Vec3
    requires { (n ≤ length kinds.now) × (n * 3 ≤ length axes.now) }
    ensures { result ≡ axis_slot n kinds.now axes.now j }
{
    let zero = Vec3 {
        x: 0.0,
        y: 0.0,
        z: 0.0,
    };
    if n <= j {
        return zero;
    }
    checks::axis_at(kinds, axes, j).unwrap_or(zero)
}

fn axis_slots<'a>(n: usize, kinds: &'a [u64], axes: &'a [f64]) -> [f64; 96]
    requires { (n ≤ length kinds.now) × (n * 3 ≤ length axes.now) }
    ensures { result ≡ axis_slots n kinds.now axes.now }
{
    let mut slots = [0.0; 96];
    for j in 0..32 {
        slots::put_vec3(&mut slots, j * 3, axis_slot(n, kinds, axes, j));
    }
    slots
}

// A fixed joint's is never looked at.
fn rotor_slots<'a>(n: usize, kinds: &'a [u64], rotors: &'a [f64]) -> [f64; 32]
    requires { (n ≤ length kinds.now) × (n ≤ length rotors.now) }
    ensures { result ≡ rotor_slots n kinds.now rotors.now }
{
    array::from_fn(|j| {
        if j < n && kinds[j] != 2 {
            rotors[j]
        } else {
            0.0
        }
    })
}

#[tactic(auto, unfolding(crate::specs::Build::model_of))]
fn filled<'a>(
    n: usize,
    parents: &'a [u64],
    kinds: &'a [u64],
    origins: &'a [f64],
    axes: &'a [f64],
    links: &'a [f64],
    rotors: &'a [f64],
) -> Model
    requires { Listed n parents.now kinds.now (length axes.now) (length rotors.now) }
    ensures { result ≡ model_of n parents.now kinds.now origins.now axes.now links.now rotors.now }
{
    Model {
        n,
        parents: byte_slots(n, parents),
        kinds: byte_slots(n, kinds),
        origins: double_slots(origins),
        axes: axis_slots(n, kinds, axes),
        links: double_slots(links),
        rotors: rotor_slots(n, kinds, rotors),
    }
}

// The model of n joints and n + 1 links, or the empty model with the refusal.
#[tactic(auto, unfolding(crate::specs::Build::built_of))]
pub fn build<'a>(
    n: usize,
    parents: &'a [u64],
    kinds: &'a [u64],
    origins: &'a [f64],
    axes: &'a [f64],
    links: &'a [f64],
    rotors: &'a [f64],
) -> Built
    ensures { result ≡ built_of n parents.now kinds.now origins.now axes.now links.now rotors.now }
{
    let verdict = checks::judged(n, parents, kinds, origins, axes, links, rotors);
    let model = match verdict {
        Ok(()) => filled(n, parents, kinds, origins, axes, links, rotors),
        Err(_) => model::empty(),
    };
    Built { verdict, model }
}
