//! Numbers that entries are marked with.
ghost use Rattle.std.specs.Prelude.{◌≡◌, replicate, None};
ghost use Rattle.contract_file.specs.Marks.{mark, Marked};

use crate::files::PLACES;

/// A number for each entry that is marked with one.
#[derive(Clone, Copy)]
pub(crate) struct Marks {
    marks: [Option<u8>; PLACES],
}

impl Marks {
    /// No entry is marked.
    pub(crate) fn none() -> Marks
        ensures { result.marks ≡ replicate 257 None }
    {
        Marks {
            marks: [None; PLACES],
        }
    }

    /// What an entry is marked with.
    pub(crate) fn of(&self, entry: u16) -> Option<u8>
        ensures { result ≡ mark self.now.marks entry }
    {
        self.marks.get(usize::from(entry)).copied().flatten()
    }

    /// Marks an entry with a number, or with what is chosen of its mark and the number.
    pub(crate) fn add<F: FnOnce(u8, u8) -> u8>(&mut self, entry: u16, number: u8, choose: F)
        requires { F.IsAlwaysCallable choose }
        ensures { Marked (F.post choose) self.old.marks entry number self.new.marks }
    {
        // Kept as a bound and an index: of what is written through an array's `get_mut`, a proof knows nothing.
        let place = usize::from(entry);
        if place < PLACES {
            self.marks[place] = Some(self.marks[place].map_or(number, |has| choose(has, number)));
        }
    }
}
