// The words of a line, one after another, and words as numbers.
ghost use Rattle.std.specs.Prelude.{◌≡◌, option_copied, List, ℕ};
ghost use Rattle.words.specs.Read.{words_of, no_word, digit_of, number_of, word, number, ReadBy};

use std::marker::Model;

// The words that are not read yet of a line.
#[derive(Clone, Drop)]
pub struct Words<'a> {
    rest: &'a [u8],
}

impl<'a> Model for Words<'a> {
    ghost Value = { List (List ℕ) };

    ghost view = { λ w. words_of w.rest.now };
}

impl<'a> Words<'a> {
    pub fn new(line: &'a [u8]) -> Words<'a>
        ensures { result ≡ words_of line.now }
    {
        Words { rest: line }
    }

    // The same words once more, to read on in.
    pub fn copy(&self) -> Words<'a>
        ensures { result ≡ self.now }
    {
        Words { rest: self.rest }
    }

    pub fn next_word(&mut self) -> Option<&'a [u8]>
        ensures { ReadBy word self.old (option_copied result) self.new }
    {
        let start = self.rest.iter().position(|b| *b != b' ')?;
        let (_, front) = self.rest.split_at(start);
        let stop = front.iter().position(|b| *b == b' ').unwrap_or(front.len());
        let (word, rest) = front.split_at(stop);
        self.rest = rest;
        Some(word)
    }

    #[tactic(auto, unfolding(crate::specs::Read::number))]
    pub fn next_number(&mut self) -> Option<u64>
        ensures { ReadBy number self.old result self.new }
    {
        let mut words = self.copy();
        let number = number_of(words.next_word()?)?;
        *self = words;
        Some(number)
    }

    // Whether nothing but spaces is left.
    pub fn at_end(&self) -> bool
        ensures { result ≡ no_word self.now }
    {
        self.rest.iter().all(|b| *b == b' ')
    }
}

#[tactic(auto, unfolding(crate::specs::Read::digit_of))]
fn digit(b: u8) -> Option<u64>
    ensures { result ≡ digit_of b }
{
    match b {
        b'0'..=b'9' => Some(u64::from(b - b'0')),
        b'a'..=b'f' => Some(u64::from(b - b'a') + 10),
        _ => None,
    }
}

#[tactic(auto, unfolding(crate::specs::Read::number_of))]
pub fn number_of(w: &[u8]) -> Option<u64>
    ensures { result ≡ number_of w.now }
{
    if w.is_empty() || 16 < w.len() {
        return None;
    }
    let mut v = 0;
    for b in w {
        v = v * 16 + digit(*b)?;
    }
    Some(v)
}
