//! What is looked ahead by.
ghost use Rattle.outlook.specs.Outlooks.{Foretold};

use horizon::Horizon;
use openings::Openings;

/// What each entry of a file opens to, and when each entry's clause can end: both are lent.
#[derive(Clone, Copy)]
pub(crate) struct Ahead<'a> {
    pub(crate) openings: &'a Openings,
    pub(crate) horizon: &'a Horizon,
    ghost foretold: { ∥ Foretold openings.now.read.file horizon.now ∥₁ },
}
