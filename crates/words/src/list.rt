// Lists of numbers and of doubles, read into a lent slice: a length, then that many words.
ghost use Rattle.std.specs.Prelude.{◌≡◌, ◌≤◌, ℕ, length, option_map, IfSome};
ghost use Rattle.std.specs.Float.{binary64};
ghost use Rattle.std.specs.Float.Ieee.{of_bits};
ghost use Rattle.words.specs.Read.{ReadBy};
ghost use Rattle.words.specs.List.{items, size, list, ListBy};

use crate::read::Words;
use std::num::f64_from_bits_with_nan;

// What a list holds: each item is read as a number.
pub trait Item: Copy {
    ghost item: { ℕ → Self };

    fn of(number: u64) -> Self
        ensures { result ≡ item number };
}

impl Item for u64 {
    ghost item = { λ v. v };

    fn of(number: u64) -> u64 {
        number
    }
}

// A double by its pattern.
impl Item for f64 {
    ghost item = { of_bits binary64 };

    fn of(number: u64) -> f64 {
        f64_from_bits_with_nan(number)
    }
}

// Room for any list.
pub fn number_buffer() -> [u64; 4096]
    ensures { 4096 ≡ length result }
{
    [0; 4096]
}

pub fn double_buffer() -> [f64; 4096]
    ensures { 4096 ≡ length result }
{
    [0.0; 4096]
}

impl<'a> Words<'a> {
    // As many items as there is room for.
    #[tactic(auto, using(crate::proofs::list::Laws::fill_start))]
    pub fn fill<T: Item>(&mut self, into: &mut [T]) -> Option<()>
        ensures { ReadBy (items T.item (length into.old)) self.old (option_map (λ _. into.new) result) self.new }
    {
        let mut words = self.copy();
        for k in 0..into.len() {
            into[k] = T::of(words.next_number()?);
        }
        *self = words;
        Some(())
    }

    #[tactic(auto, unfolding(crate::specs::List::size))]
    fn size(&mut self) -> Option<usize>
        ensures { ReadBy size self.old result self.new × IfSome result (λ n. n ≤ 4096) }
    {
        let mut words = self.copy();
        let n = words.next_number()?;
        if 4096 < n {
            return None;
        }
        *self = words;
        Some(n as usize)
    }

    // A list, and how many items it has.
    #[tactic(auto, unfolding(crate::specs::List::list))]
    pub fn list<T: Item>(&mut self, into: &mut [T]) -> Option<usize>
        requires { 4096 ≤ length into.old }
        ensures { ListBy (list T.item) self.old into.new result self.new }
    {
        let mut words = self.copy();
        let n = words.size()?;
        words.fill(&mut into[..n])?;
        *self = words;
        Some(n)
    }
}
