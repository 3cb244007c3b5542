// The builder's checks: refusals 1 to 8 and 26.
ghost use Rattle.std.specs.Prelude.{◌≡◌, ◌+◌, ◌*◌, ◌≤◌, ◌<◌, length};
ghost use Rattle.refusals.specs.Refusals.{lowest};
ghost use Rattle.arm.specs.Model.{bad_parent, bad_kind};
ghost use Rattle.builder.specs.Checks.{Sized, sized_by, axis_of, bad_axis, bad_row, bad_numbers, bad_rotation, bad_mass, bad_rotor, lists_verdict, verdict_of};

use crate::axis;
use arm::joint;
use numbers::double;
use numbers::vec3::Vec3;
use refusals::Refusal;

// Whether the six lists are as long as n joints and n + 1 links want them.
#[tactic(auto, unfolding(crate::specs::Checks::sized_by))]
fn sized(
    n: usize,
    parents: usize,
    kinds: usize,
    origins: usize,
    axes: usize,
    links: usize,
    rotors: usize,
) -> bool
    requires { n ≤ 32 }
    ensures { result ≡ sized_by n parents kinds origins axes links rotors }
{
    parents == n
        && kinds == n
        && origins == n * 7
        && axes == n * 3
        && links == (n + 1) * 10
        && rotors == n
}

fn bad_parent(n: usize, parents: &[u64]) -> Option<usize>
    requires { n ≤ length parents.now }
    ensures { result ≡ lowest (bad_parent parents.now) n }
{
    (0..n).find(|&j| (j as u64) < parents[j])
}

fn bad_kind(n: usize, kinds: &[u64]) -> Option<usize>
    requires { n ≤ length kinds.now }
    ensures { result ≡ lowest (bad_kind kinds.now) n }
{
    (0..n).find(|&j| 2 < kinds[j])
}

// The axis that joint j keeps.
#[tactic(auto, unfolding(crate::specs::Checks::axis_of))]
pub fn axis_at<'a>(kinds: &'a [u64], axes: &'a [f64], j: usize) -> Option<Vec3>
    requires { (j < length kinds.now) × (j * 3 + 3 ≤ length axes.now) }
    ensures { result ≡ axis_of kinds.now axes.now j }
{
    axis::kept_axis(kinds[j], slots::vec3_at(axes, j * 3))
}

fn bad_axis<'a>(n: usize, kinds: &'a [u64], axes: &'a [f64]) -> Option<usize>
    requires { (n ≤ length kinds.now) × (n * 3 ≤ length axes.now) }
    ensures { result ≡ lowest (bad_axis kinds.now axes.now) n }
{
    (0..n).find(|&j| axis_at(kinds, axes, j).is_none())
}

// Row i of so many numbers has one not finite.
#[tactic(auto, unfolding(crate::specs::Checks::bad_row))]
fn wild_row(size: usize, s: &[f64], i: usize) -> bool
    requires { (i + 1) * size ≤ length s.now }
    ensures { result ≡ bad_row size s.now i }
{
    !slots::finite_part(s, i * size, size)
}

// The lowest of n such rows.
fn bad_row(n: usize, size: usize, s: &[f64]) -> Option<usize>
    requires { n * size ≤ length s.now }
    ensures { result ≡ lowest (bad_row size s.now) n }
{
    (0..n).find(|&i| wild_row(size, s, i))
}

// The lowest joint whose origin or, where it is active, rotor has a number not finite.
fn bad_numbers<'a>(
    n: usize,
    kinds: &'a [u64],
    origins: &'a [f64],
    rotors: &'a [f64],
) -> Option<usize>
    requires { (n ≤ length kinds.now) × (n * 7 ≤ length origins.now) × (n ≤ length rotors.now) }
    ensures { result ≡ lowest (bad_numbers kinds.now origins.now rotors.now) n }
{
    (0..n).find(|&j| {
        wild_row(7, origins, j) || (kinds[j] != 2 && !double::is_finite(rotors[j]))
    })
}

fn bad_rotation(n: usize, origins: &[f64]) -> Option<usize>
    requires { n * 7 ≤ length origins.now }
    ensures { result ≡ lowest (bad_rotation origins.now) n }
{
    (0..n).find(|&j| joint::not_unit(slots::frame_at(origins, j * 7).rotation))
}

// The lowest of n links whose mass is below zero, which neither zero is.
fn bad_mass(n: usize, links: &[f64]) -> Option<usize>
    requires { n * 10 ≤ length links.now }
    ensures { result ≡ lowest (bad_mass links.now) n }
{
    (0..n).find(|&l| links[l * 10] < 0.0)
}

// The lowest active joint whose rotor is below zero, which neither zero is.
fn bad_rotor<'a>(n: usize, kinds: &'a [u64], rotors: &'a [f64]) -> Option<usize>
    requires { (n ≤ length kinds.now) × (n ≤ length rotors.now) }
    ensures { result ≡ lowest (bad_rotor kinds.now rotors.now) n }
{
    (0..n).find(|&j| kinds[j] != 2 && rotors[j] < 0.0)
}

// Refusals 3 to 8 and 26.
#[tactic(auto, unfolding(crate::specs::Checks::lists_verdict, refusals::specs::Refusals::or_else))]
fn judged_lists<'a>(
    n: usize,
    parents: &'a [u64],
    kinds: &'a [u64],
    origins: &'a [f64],
    axes: &'a [f64],
    links: &'a [f64],
    rotors: &'a [f64],
) -> Result<(), Refusal>
    requires { Sized n (length parents.now) (length kinds.now) (length origins.now) (length axes.now) (length links.now) (length rotors.now) }
    ensures { result ≡ lists_verdict n parents.now kinds.now origins.now axes.now links.now rotors.now }
{
    refusals::named(3, bad_parent(n, parents))?;
    refusals::named(4, bad_kind(n, kinds))?;
    refusals::named(5, bad_axis(n, kinds, axes))?;
    refusals::named(6, bad_numbers(n, kinds, origins, rotors))?;
    refusals::named(6, bad_row(n + 1, 10, links))?;
    refusals::named(7, bad_rotation(n, origins))?;
    refusals::named(8, bad_mass(n + 1, links))?;
    refusals::named(26, bad_rotor(n, kinds, rotors))
}

// The smallest refusal number that applies.
#[tactic(auto, unfolding(crate::specs::Checks::verdict_of, refusals::specs::Refusals::plain_of, refusals::specs::Refusals::or_else))]
pub fn judged<'a>(
    n: usize,
    parents: &'a [u64],
    kinds: &'a [u64],
    origins: &'a [f64],
    axes: &'a [f64],
    links: &'a [f64],
    rotors: &'a [f64],
) -> Result<(), Refusal>
    ensures { result ≡ verdict_of n parents.now kinds.now origins.now axes.now links.now rotors.now }
{
    refusals::plain(1, 32 < n)?;
    let sized = sized(
        n,
        parents.len(),
        kinds.len(),
        origins.len(),
        axes.len(),
        links.len(),
        rotors.len(),
    );
    refusals::plain(2, !sized)?;
    judged_lists(n, parents, kinds, origins, axes, links, rotors)
}
