// What a calculation's request hands in, read off the words of a line.
ghost use Rattle.std.specs.Prelude.{◌≡◌, ◌≤◌, option_map, IfSome};
ghost use Rattle.words.specs.Read.{ReadBy, AllReadBy};
ghost use Rattle.readings.specs.Read.{kind_named, kind, rotation, velocity, mode, calculation, rest, inputs, no_inputs, inputs_of, lengths, lengths_by, flag, position};

use crate::buffer::Buffer;
use calls::position::Position;
use dynamics::calculation::Calculation;
use forward_dynamics::forward_dynamics as forward;
use mass_matrix::mass_matrix as matrix;
use numbers::quaternion::Quaternion;
use spatial::twist::Twist;
use words::read::Words;

// The four requests that make a calculation.
#[derive(Clone, Copy)]
pub enum Kind {
    Matrix,
    FloatingMatrix,
    Forward,
    FloatingForward,
}

// The lists of a calculation's inputs.
#[derive(Drop)]
pub struct Buffers {
    pub q: Buffer<f64>,
    pub qd: Buffer<f64>,
    pub forces: Buffer<f64>,
    pub loaded: Buffer<u64>,
    pub loads: Buffer<f64>,
}

// The lengths that are lent.
#[derive(Clone, Copy)]
pub struct Lent {
    pub ws: usize,
    pub out: usize,
}

#[tactic(auto, unfolding(crate::specs::Read::kind_named))]
pub fn kind_of(w: &[u8]) -> Option<Kind>
    ensures { result ≡ kind_named w.now }
{
    if w == b"matrix".as_slice() {
        Some(Kind::Matrix)
    } else if w == b"floating_matrix".as_slice() {
        Some(Kind::FloatingMatrix)
    } else if w == b"forward".as_slice() {
        Some(Kind::Forward)
    } else if w == b"floating_forward".as_slice() {
        Some(Kind::FloatingForward)
    } else {
        None
    }
}

// 0 or 1.
#[tactic(auto, unfolding(crate::specs::Read::flag))]
pub fn next_flag(words: &mut Words) -> Option<bool>
    ensures { ReadBy flag words.old result words.new }
{
    let mut left = words.copy();
    let flag = match left.next_number()? {
        0 => false,
        1 => true,
        _ => return None,
    };
    *words = left;
    Some(flag)
}

// CALCULATION ROOT N A VISITS CLOSED.
#[tactic(auto, unfolding(crate::specs::Read::position))]
pub fn next_position(words: &mut Words) -> Option<Position>
    ensures { ReadBy position words.old result words.new }
{
    let mut left = words.copy();
    let position = Position {
        matrix: next_flag(&mut left)?,
        floating: next_flag(&mut left)?,
        n: left.next_number()? as usize,
        a: left.next_number()? as usize,
        visits: left.next_number()? as usize,
        closed: next_flag(&mut left)?,
    };
    *words = left;
    Some(position)
}

#[tactic(auto, unfolding(crate::specs::Read::kind))]
pub fn next_kind(words: &mut Words) -> Option<Kind>
    ensures { ReadBy kind words.old result words.new }
{
    let mut left = words.copy();
    let kind = kind_of(left.next_word()?)?;
    *words = left;
    Some(kind)
}

// R: w x y z.
#[tactic(auto, unfolding(crate::specs::Read::rotation))]
fn next_rotation(words: &mut Words) -> Option<Quaternion>
    ensures { ReadBy rotation words.old result words.new }
{
    let mut numbers = [0.0; 4];
    words.fill(&mut numbers)?;
    let w = numbers[0];
    let u = slots::vec3_at(&numbers, 1);
    Some(Quaternion { w, u })
}

// V: angular, then linear.
#[tactic(auto, unfolding(crate::specs::Read::velocity))]
fn next_velocity(words: &mut Words) -> Option<Twist>
    ensures { ReadBy velocity words.old result words.new }
{
    let mut numbers = [0.0; 6];
    words.fill(&mut numbers)?;
    Some(slots::twist_at(&numbers, 0))
}

// R, where the root floats.
#[tactic(auto, unfolding(crate::specs::Read::mode))]
pub fn next_mode(words: &mut Words, floating: bool) -> Option<matrix::Mode>
    ensures { ReadBy (mode floating) words.old result words.new }
{
    if floating {
        return Some(matrix::Mode::Floating(next_rotation(words)?));
    }
    Some(matrix::Mode::Fixed)
}

// R and V, as far as the kind has them.
#[tactic(auto, unfolding(crate::specs::Read::calculation))]
pub fn next_calculation(words: &mut Words, k: Kind) -> Option<Calculation>
    ensures { ReadBy (calculation k) words.old result words.new }
{
    Some(match k {
        Kind::Matrix => Calculation::Matrix(next_mode(words, false)?),
        Kind::FloatingMatrix => Calculation::Matrix(next_mode(words, true)?),
        Kind::Forward => Calculation::Forward(forward::Mode::Fixed(next_rotation(words)?)),
        Kind::FloatingForward => {
            let mut left = words.copy();
            let r = next_rotation(&mut left)?;
            let v = next_velocity(&mut left)?;
            *words = left;
            Calculation::Forward(forward::Mode::Floating(r, v))
        }
    })
}

impl Buffers {
    pub fn new() -> Buffers
        ensures { inputs_of result ≡ no_inputs }
    {
        Buffers {
            q: Buffer::new(),
            qd: Buffer::new(),
            forces: Buffer::new(),
            loaded: Buffer::new(),
            loads: Buffer::new(),
        }
    }
}

// QD F LINKS LOADS, behind Q.
#[tactic(auto, unfolding(crate::specs::Read::rest))]
fn next_rest(words: &mut Words, b: &mut Buffers) -> Option<()>
    ensures { ReadBy (rest b.old.q) words.old (option_map (λ _. inputs_of b.new) result) words.new }
{
    let mut left = words.copy();
    b.qd.read(&mut left)?;
    b.forces.read(&mut left)?;
    b.loaded.read(&mut left)?;
    b.loads.read(&mut left)?;
    *words = left;
    Some(())
}

// Q, or Q QD F LINKS LOADS.
#[tactic(auto, unfolding(crate::specs::Read::inputs))]
pub fn next_inputs(words: &mut Words, c: Calculation, b: &mut Buffers) -> Option<()>
    ensures { ReadBy (inputs c) words.old (option_map (λ _. inputs_of b.new) result) words.new }
{
    let mut left = words.copy();
    b.q.read(&mut left)?;
    match c {
        Calculation::Matrix(_) => {
            b.qd.clear();
            b.forces.clear();
            b.loaded.clear();
            b.loads.clear();
        }
        Calculation::Forward(_) => next_rest(&mut left, b)?,
    }
    *words = left;
    Some(())
}

// WS OUT PORTIONS, and no word behind them.
#[tactic(auto, unfolding(crate::specs::Read::lengths, words::specs::Read::end))]
pub fn last_lent(mut words: Words, budgets: &mut Buffer<u64>) -> Option<Lent>
    ensures read { AllReadBy lengths words.entry (option_map (λ l. lengths_by l budgets.new) result) }
    ensures few { IfSome result (λ l. (l.ws ≤ 4096) × (l.out ≤ 2048)) }
{
    let ws = words.next_number()?;
    let out = words.next_number()?;
    budgets.read(&mut words)?;
    if !words.at_end() || 4096 < ws || 2048 < out {
        return None;
    }
    Some(Lent {
        ws: ws as usize,
        out: out as usize,
    })
}
