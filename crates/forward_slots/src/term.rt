// An active joint's terms in the workspace: U, D and the joint bias.
ghost use Rattle.std.specs.Prelude.{◌≡◌, ◌+◌, ◌≤◌, length};
ghost use Rattle.forward_slots.specs.Term.{term_at, put_term};

use articulated::second::Term;

#[tactic(auto, unfolding(crate::specs::Term::term_at))]
pub fn term_at(s: &[f64], at: usize) -> Term
    requires { at + 8 ≤ length s.now }
    ensures { result ≡ term_at s.now at }
{
    Term {
        u: slots::wrench_at(s, at),
        d: slots::number_at(s, at + 6),
        bias: slots::number_at(s, at + 7),
    }
}

#[tactic(auto, unfolding(crate::specs::Term::put_term))]
pub fn put_term(s: &mut [f64], at: usize, t: Term)
    requires { at + 8 ≤ length s.old }
    ensures { s.new ≡ put_term s.old at t }
{
    slots::put_wrench(s, at, t.u);
    slots::put_number(s, at + 6, t.d);
    slots::put_number(s, at + 7, t.bias);
}
