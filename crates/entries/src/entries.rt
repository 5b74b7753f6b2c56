//! What an entry of a contract file is.
use days::Window;
use kinds::{Test, Value};

/// An entry. A pointer is the number of another entry, and 0 is none.
/// The clauses are `Lost` to `Call`; the others belong to a template, a step or a call.
// Kept with 0 for no pointer, as docs/file-format.md has it: place 0 of a file reads as lost.
#[derive(Clone, Copy, Debug, PartialEq, Eq)]
pub enum Entry {
    /// No list of records performs it.
    Lost,
    /// The empty list performs it.
    Done,
    /// One record within a window, and then the tail.
    Step {
        window: Window,
        tail: u16,
        /// The first condition of a chain, or 0.
        conditions: u16,
    },
    /// One of two sides.
    Choice {
        left: u16,
        right: u16,
    },
    /// Both sides, their records in any mixture.
    Both {
        left: u16,
        right: u16,
    },
    /// The left side, and behind it the right one.
    Then {
        left: u16,
        right: u16,
    },
    /// A template's body, with slots filled by arguments.
    Call {
        template: u8,
        /// The first argument of a chain, or 0.
        arguments: u16,
    },
    /// A body that calls can name by its number, and the next template or 0.
    Template {
        number: u8,
        body: u16,
        next: u16,
    },
    /// What a step asks of one field, 1 to 4, and the next condition or 0.
    Condition {
        field: u8,
        test: Test,
        next: u16,
    },
    /// What a call fills one slot with, and the next argument or 0.
    Argument {
        slot: u8,
        value: Value,
        next: u16,
    },
}
