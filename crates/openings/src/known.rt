//! A file with what each of its entries opens to.
ghost use Rattle.std.specs.Prelude.{◌≡◌};
ghost use Rattle.contract_file.specs.Sound.{Sound};
ghost use Rattle.openings.specs.Rounds.{of};
ghost use Rattle.openings.specs.Shapes.{Known, openings_of};

use crate::rounds::openings;
use crate::shapes::{Shape, shape_at};
use contract_file::{File, PLACES, ReadFile};

/// A read file with what each of its entries opens to, at its number: known once for each, whatever the row and the day.
// Kept as a table beside the file's: a pointer finds an entry and what it opens to by the same number.
#[derive(Drop)]
pub struct Openings {
    pub read: ReadFile,
    pub shapes: [Shape; PLACES],
    ghost known: { ∥ Known read.file shapes ∥₁ },
}

impl Openings {
    /// Finds out what each entry opens to.
    pub fn of(read: ReadFile) -> Openings
        ensures same { result.read.file ≡ read.file }
        ensures value { result.shapes ≡ openings_of read.file }
    {
        let shapes = openings(&read);
        Openings { read, shapes }
    }

    /// The read file.
    pub fn read(&self) -> &ReadFile
        ensures { result.now.file ≡ self.now.read.file }
    {
        &self.read
    }

    /// The file.
    pub fn file(&self) -> &File
        ensures same { result.now ≡ self.now.read.file }
        ensures sound { ∥ Sound result.now ∥₁ }
    {
        self.read.file()
    }

    /// The read file, for which what it opens to is spent.
    pub fn into_read(self) -> ReadFile
        ensures { result ≡ self.read }
    {
        let Openings { read, .. } = self;
        read
    }

    /// What each entry opens to, at its number.
    pub fn shapes(&self) -> &[Shape; PLACES]
        ensures same { result.now ≡ self.now.shapes }
        ensures known { Known self.now.read.file result.now }
    {
        &self.shapes
    }

    /// What the entry of a number opens to, lost where there is none.
    pub fn at(&self, number: u16) -> Shape
        ensures same { result ≡ of self.now.shapes number }
    {
        shape_at(&self.shapes, usize::from(number))
    }
}
