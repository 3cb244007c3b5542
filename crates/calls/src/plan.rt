// The sizes of one calculation.
ghost use Rattle.std.specs.Prelude.{◌≡◌, ◌≤◌};
ghost use Rattle.calls.specs.Plan.{plan_by};

// n joints; the base's six numbers lead where the root floats, else none; `side` is G, with the active joints behind them.
#[derive(Clone, Copy)]
pub struct Plan {
    pub n: usize,
    pub lead: usize,
    pub side: usize,
}

#[tactic(auto, unfolding(crate::specs::Plan::plan_by))]
pub fn planned(floating: bool, n: usize, a: usize) -> Plan
    requires { a ≤ 32 }
    ensures { (result ≡ plan_by floating n a) × (result.side ≤ 38) }
{
    let lead = if floating { 6 } else { 0 };
    Plan {
        n,
        lead,
        side: lead + a,
    }
}
