// The checks of a call that both calculations make.
ghost use Rattle.std.specs.Prelude.{not, ◌≡◌, ◌≤◌, ◌<◌, eqb, length};
ghost use Rattle.arm.specs.Topology.{actives_of, active_numbers};
ghost use Rattle.refusals.specs.Refusals.{lowest, named_of, plain_of};
ghost use Rattle.calls.specs.Checks.{bad_value, far_turn, values_verdict, turns_verdict, bad_rotation};

use arm::{joint, topology};
use numbers::double;
use numbers::quaternion::Quaternion;
use refusals::Refusal;

// A length that is not the one asked for.
pub fn check_length(number: u8, given: usize, wanted: usize) -> Result<(), Refusal>
    ensures { result ≡ plain_of number (not (eqb given wanted)) }
{
    refusals::plain(number, given != wanted)
}

#[tactic(auto, unfolding(crate::specs::Checks::bad_value))]
fn bad_value<'a>(
    kinds: &'a [u8; 32],
    numbers: &'a [u8; 33],
    q: &'a [f64],
    n: usize,
    j: usize,
) -> bool
    requires { (numbers.now ≡ active_numbers kinds.now) × (n ≤ 32) × (j < n) × (length q.now ≡ actives_of kinds.now n) }
    ensures { result ≡ bad_value kinds.now q.now j }
{
    !double::is_finite(topology::value_at(kinds, numbers, q, n, j))
}

// The lowest joint whose value is not finite.
fn lowest_bad_value<'a>(
    kinds: &'a [u8; 32],
    numbers: &'a [u8; 33],
    q: &'a [f64],
    n: usize,
) -> Option<usize>
    requires { (numbers.now ≡ active_numbers kinds.now) × (n ≤ 32) × (length q.now ≡ actives_of kinds.now n) }
    ensures { result ≡ lowest (bad_value kinds.now q.now) n }
{
    (0..n).find(|j| bad_value(kinds, numbers, q, n, *j))
}

// 11 and 12 of the values, 14 and 15 of the speeds: not as many as there are active joints, or one not finite.
#[tactic(auto, unfolding(crate::specs::Checks::values_verdict, refusals::specs::Refusals::plain_of, refusals::specs::Refusals::or_else))]
pub fn check_values<'a>(
    miscounted: u8,
    nonfinite: u8,
    kinds: &'a [u8; 32],
    numbers: &'a [u8; 33],
    n: usize,
    a: usize,
    q: &'a [f64],
) -> Result<(), Refusal>
    requires { (numbers.now ≡ active_numbers kinds.now) × (n ≤ 32) × (a ≡ actives_of kinds.now n) }
    ensures { result ≡ values_verdict miscounted nonfinite kinds.now n q.now }
{
    check_length(miscounted, q.len(), a)?;
    refusals::named(nonfinite, lowest_bad_value(kinds, numbers, q, n))
}

#[tactic(auto, unfolding(crate::specs::Checks::far_turn))]
fn far_turn<'a>(
    kinds: &'a [u8; 32],
    numbers: &'a [u8; 33],
    q: &'a [f64],
    n: usize,
    j: usize,
) -> bool
    requires { (numbers.now ≡ active_numbers kinds.now) × (n ≤ 32) × (j < n) × (length q.now ≡ actives_of kinds.now n) }
    ensures { result ≡ far_turn kinds.now q.now j }
{
    kinds[j] == 0 && !half_turn::in_range(topology::value_at(kinds, numbers, q, n, j))
}

// 13: the lowest turn whose value is beyond the limit.
pub fn check_turns<'a>(
    kinds: &'a [u8; 32],
    numbers: &'a [u8; 33],
    n: usize,
    q: &'a [f64],
) -> Result<(), Refusal>
    requires { (numbers.now ≡ active_numbers kinds.now) × (n ≤ 32) × (length q.now ≡ actives_of kinds.now n) }
    ensures { result ≡ turns_verdict kinds.now n q.now }
{
    refusals::named(13, (0..n).find(|j| far_turn(kinds, numbers, q, n, *j)))
}

// Whether a root rotation is not finite, or not of length 1 as in 7.
#[tactic(auto, unfolding(crate::specs::Checks::bad_rotation))]
pub fn bad_rotation(r: Quaternion) -> bool
    ensures { result ≡ bad_rotation r }
{
    !double::all_finite(&[r.w, r.u.x, r.u.y, r.u.z]) || joint::not_unit(r)
}
