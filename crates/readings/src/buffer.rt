// Room for any list, and the list that was read into it: a contract sees that list.
ghost use Rattle.std.specs.Prelude.{◌≡◌, ◌≤◌, [], length, option_map};
ghost use Rattle.words.specs.Read.{ReadBy};
ghost use Rattle.words.specs.List.{list};

use std::marker::Model;
use words::list::Item;
use words::read::Words;

#[derive(Drop)]
pub struct Buffer<T> {
    room: [T; 4096],
    count: usize,
}

impl<T> Model for Buffer<T> {
    ghost use Rattle.std.specs.Prelude.{List, take, ◌≤◌};

    ghost Value = { List T };

    ghost view = { λ b. take b.count b.room };

    ghost invariant = { λ b. b.count ≤ 4096 };
}

impl<T: Item + Default> Buffer<T> {
    pub fn new() -> Buffer<T>
        ensures { result ≡ [] }
    {
        Buffer {
            room: [T::default(); 4096],
            count: 0,
        }
    }

    pub fn items(&self) -> &[T]
        ensures value { result.now ≡ self.now }
        ensures few { length self.now ≤ 4096 }
    {
        &self.room[..self.count]
    }

    pub fn clear(&mut self)
        ensures { self.new ≡ [] }
    {
        self.count = 0;
    }

    // The next list of the words.
    pub fn read(&mut self, words: &mut Words) -> Option<()>
        ensures { ReadBy (list T.item) words.old (option_map (λ _. self.new) result) words.new }
    {
        self.count = words.list(&mut self.room)?;
        Some(())
    }
}
