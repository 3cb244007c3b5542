// Where a calculation stands, and how it goes on and closes.
ghost use Rattle.std.specs.Prelude.{◌≡◌, ◌+◌, ◌≤◌, ◌<◌, length};
ghost use Rattle.calls.specs.Position.{visits_of, fresh_at, shut_at, position_verdict, ended, advanced_by, closing, answer_by, begun_at, refused_at};

use refusals::Refusal;

#[derive(Clone, Copy)]
pub enum Outcome {
    Open,
    Accepted,
    Refused(Refusal),
}

// A calculation (the matrix, else forward dynamics) on a root (floating, else fixed) of n joints, of which a are active;
// how many visits are made, and whether there is none left.
#[derive(Clone, Copy)]
pub struct Position {
    pub matrix: bool,
    pub floating: bool,
    pub n: usize,
    pub a: usize,
    pub visits: usize,
    pub closed: bool,
}

// A position, and what has become of the calculation there.
#[derive(Clone, Copy)]
pub struct Progress {
    pub position: Position,
    pub outcome: Outcome,
}

// What a call answers: the position to go on from, the outcome, and how many visits were made.
#[derive(Clone, Copy)]
pub struct Answer {
    pub position: Position,
    pub outcome: Outcome,
    pub visits: usize,
}

// The whole count of visits.
#[tactic(auto, unfolding(crate::specs::Position::visits_of))]
pub fn visits(matrix: bool, n: usize, a: usize) -> usize
    requires { (n ≤ 32) × (a ≤ 32) }
    ensures { result ≡ visits_of matrix n a }
{
    if matrix {
        return n + n + a + 1;
    }
    n + n + n + 1
}

#[tactic(auto, unfolding(crate::specs::Position::ended))]
fn has_ended(o: Outcome) -> bool
    ensures { result ≡ ended o }
{
    !matches!(o, Outcome::Open)
}

impl Position {
    // The first position of a calculation.
    pub fn fresh(matrix: bool, floating: bool, n: usize, a: usize) -> Position
        ensures { result ≡ fresh_at matrix floating n a }
    {
        Position {
            matrix,
            floating,
            n,
            a,
            visits: 0,
            closed: false,
        }
    }

    // What a refused start gives.
    pub fn shut(matrix: bool, floating: bool) -> Position
        ensures { result ≡ shut_at matrix floating }
    {
        Position {
            matrix,
            floating,
            n: 0,
            a: 0,
            visits: 0,
            closed: true,
        }
    }

    // 23 and 24, for a call of this calculation on this root and model.
    #[tactic(auto, unfolding(crate::specs::Position::position_verdict, refusals::specs::Refusals::plain_of, refusals::specs::Refusals::or_else))]
    pub fn judged(self, matrix: bool, floating: bool, n: usize, a: usize) -> Result<(), Refusal>
        requires { (n ≤ 32) × (a ≤ 32) }
        ensures { result ≡ position_verdict matrix floating n a self }
    {
        let other_calculation = self.matrix != matrix || self.floating != floating;
        let other_model = self.n != n || self.a != a;
        refusals::plain(23, other_calculation || other_model)?;
        refusals::plain(23, !self.closed && visits(matrix, n, a) <= self.visits)?;
        refusals::plain(24, self.closed)
    }

    // After one visit more, which had this outcome.
    #[tactic(auto, unfolding(crate::specs::Position::advanced_by))]
    pub fn advanced(self, o: Outcome) -> Progress
        requires { self.visits < 1000 }
        ensures { result ≡ advanced_by self o }
    {
        Progress {
            position: Position {
                visits: self.visits + 1,
                closed: has_ended(o),
                ..self
            },
            outcome: o,
        }
    }

    // How far a call has come that began here.
    #[tactic(auto, unfolding(crate::specs::Position::answer_by))]
    pub fn answer(self, s: Progress) -> Answer
        requires { self.visits ≤ s.position.visits }
        ensures { result ≡ answer_by self s }
    {
        Answer {
            position: s.position,
            outcome: s.outcome,
            visits: s.position.visits - self.visits,
        }
    }

    // The answer of a start.
    #[tactic(auto, unfolding(crate::specs::Position::begun_at))]
    pub fn begun(self) -> Answer
        ensures { result ≡ begun_at self }
    {
        Answer {
            position: self,
            outcome: Outcome::Open,
            visits: 0,
        }
    }

    // A refusal that made no visit.
    #[tactic(auto, unfolding(crate::specs::Position::refused_at))]
    pub fn refused(self, refusal: Refusal) -> Answer
        ensures { result ≡ refused_at self refusal }
    {
        Answer {
            position: self,
            outcome: Outcome::Refused(refusal),
            visits: 0,
        }
    }
}

// The buffers after a visit: acceptance writes the whole output from the workspace, where the results wait at `at`;
// it and a refusal clear the workspace.
#[tactic(auto, unfolding(crate::specs::Position::closing))]
pub fn close(o: Outcome, ws: &mut [f64], out: &mut [f64], at: usize)
    requires { at + length out.old ≤ length ws.old }
    ensures { (ws.new, out.new) ≡ closing at o ws.old out.old }
{
    match o {
        Outcome::Open => {}
        Outcome::Accepted => {
            slots::copy_from(out, ws, at);
            slots::clear(ws);
        }
        Outcome::Refused(_) => slots::clear(ws),
    }
}
