// What the requests `model` and `lend` hand in.
ghost use Rattle.std.specs.Prelude.{◌≡◌, ◌≤◌, length};
ghost use Rattle.words.specs.Read.{ReadBy};
ghost use Rattle.model_lists.specs.Read.{handed, handed_read, HandedIn};

use words::read::Words;

// The joint count, and how many items each list has.
#[derive(Clone, Copy)]
pub struct Sizes {
    pub n: usize,
    pub parents: usize,
    pub kinds: usize,
    pub origins: usize,
    pub axes: usize,
    pub links: usize,
    pub rotors: usize,
}

// N PARENTS KINDS ORIGINS AXES LINKS ROTORS, and no word behind them.
#[tactic(auto, unfolding(crate::specs::Read::handed, words::specs::Read::end))]
pub fn read_numbers(
    words: &mut Words,
    parents: &mut [u64; 4096],
    kinds: &mut [u64; 4096],
    origins: &mut [f64; 4096],
    axes: &mut [f64; 4096],
    links: &mut [f64; 4096],
    rotors: &mut [f64; 4096],
) -> Option<Sizes>
    ensures { ReadBy handed words.old (handed_read result parents.new kinds.new origins.new axes.new links.new rotors.new) words.new × HandedIn result parents.new kinds.new origins.new axes.new links.new rotors.new }
{
    let mut left = words.copy();
    let sizes = Sizes {
        n: left.next_number()? as usize,
        parents: left.list(parents)?,
        kinds: left.list(kinds)?,
        origins: left.list(origins)?,
        axes: left.list(axes)?,
        links: left.list(links)?,
        rotors: left.list(rotors)?,
    };
    if !left.at_end() {
        return None;
    }
    *words = left;
    Some(sizes)
}
