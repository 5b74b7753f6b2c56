//! The answer where a term does not fit into a table.
ghost use Rattle.std.specs.Prelude.{◌≡◌};

/// Question 17 was answered no: has the term at most 256 nodes?
#[derive(Clone, Copy, Debug, PartialEq, Eq)]
pub struct TooLarge;

impl TooLarge {
    /// The number of the question.
    // Kept as a number: docs/questions.md gives each question its own.
    pub fn number(&self) -> u8
        ensures { result ≡ 17 }
    {
        17
    }
}
