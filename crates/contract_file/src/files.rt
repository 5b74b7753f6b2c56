//! The contract file as it is held.
ghost use Rattle.std.specs.Prelude.{◌≡◌};
ghost use Rattle.entries.specs.Parts.{at};

use entries::Entry;

/// The most entries that a file has.
pub const MOST_ENTRIES: u16 = 256;

/// The most templates that a file has; they are numbered from 1.
pub const MOST_TEMPLATES: usize = 16;

/// A place for each entry at its number, from 1 on; place 0 is no entry's, and lost.
pub const PLACES: usize = 257;

/// What a contract file holds. Each entry stands at its number; the places past the last are lost.
// Kept as a full table: each entry stands at its own number and all other places read as lost; `templates` is a pointer, 0 for none.
#[derive(Clone, Copy)]
pub struct File {
    pub kind: u8,
    pub count: u16,
    pub templates: u16,
    pub contract: u16,
    pub entries: [Entry; PLACES],
}

impl File {
    ghost use Rattle.contract_file.specs.Fresh.{fresh};
    ghost use Rattle.contract_file.specs.Sound.{Sound};

    /// A file of kind 1 with one entry, lost.
    pub fn new() -> File
        ensures value { result ≡ fresh }
        ensures sound { Sound result }
    {
        File {
            kind: 1,
            count: 1,
            templates: 0,
            contract: 1,
            entries: [Entry::Lost; PLACES],
        }
    }

    /// The entry of a number, lost past the last.
    pub fn at(&self, number: u16) -> Entry
        ensures { result ≡ at self.now.entries number }
    {
        self.entries
            .get(usize::from(number))
            .copied()
            .unwrap_or(Entry::Lost)
    }
}
