//! A checked file, and the term that is left of its contract.
ghost use Rattle.held.specs.Whole.{SomeWhole};

use crate::foreseen::Foreseen;
use terms::Table;

/// A checked file that was opened, with the term that the records so far have left: made by `open` alone, and changed
/// by `take` alone.
#[derive(Drop)]
pub struct Held {
    pub(crate) foreseen: Foreseen,
    pub(crate) table: Table,
    ghost whole: { ∥ SomeWhole foreseen.prospect.openings.read.file table.items ∥₁ },
}
