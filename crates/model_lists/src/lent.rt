// The lists as a model's own.
ghost use Rattle.std.specs.Prelude.{◌≡◌, ◌≤◌, length, take};
ghost use Rattle.model_lists.specs.Read.{numbers_by, SizesIn};
ghost use Rattle.model_lists.specs.Lent.{bytes_by, full_by, lent_by};

use crate::read::Sizes;
use arm::model::Model;
use std::array;

// The first 32 numbers as bytes, if they are below 256.
fn narrow(s: &[u64]) -> Option<[u8; 32]>
    requires { 32 ≤ length s.now }
    ensures { result ≡ bytes_by (take 32 s.now) }
{
    let mut bytes = [0; 32];
    for k in 0..32 {
        if 255 < s[k] {
            return None;
        }
        bytes[k] = s[k] as u8;
    }
    Some(bytes)
}

// Whether the lists are as long as a model's own.
#[tactic(auto, unfolding(crate::specs::Lent::full_by))]
fn full(k: Sizes) -> bool
    ensures { result ≡ full_by k.parents k.kinds k.origins k.axes k.links k.rotors }
{
    k.parents == 32
        && k.kinds == 32
        && k.origins == 224
        && k.axes == 96
        && k.links == 330
        && k.rotors == 32
}

// The first N doubles.
fn front<const N: usize>(s: &[f64]) -> [f64; N]
    requires { N ≤ length s.now }
    ensures { result ≡ take N s.now }
{
    array::from_fn(|k| s[k])
}

// A lent model, if the lists make one.
pub fn lent_model<'a>(
    k: Sizes,
    parents: &'a [u64; 4096],
    kinds: &'a [u64; 4096],
    origins: &'a [f64; 4096],
    axes: &'a [f64; 4096],
    links: &'a [f64; 4096],
    rotors: &'a [f64; 4096],
) -> Option<Model>
    requires { SizesIn k parents.now kinds.now origins.now axes.now links.now rotors.now }
    ensures { result ≡ lent_by (numbers_by k parents.now kinds.now origins.now axes.now links.now rotors.now) }
{
    if !full(k) {
        return None;
    }
    Some(Model {
        n: k.n,
        parents: narrow(parents)?,
        kinds: narrow(kinds)?,
        origins: front(origins),
        axes: front(axes),
        links: front(links),
        rotors: front(rotors),
    })
}
