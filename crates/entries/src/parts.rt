//! The parts of an entry that the questions ask about.
ghost use Rattle.std.specs.Prelude.{◌≡◌};
ghost use Rattle.entries.specs.Parts.{sort_of, next_template, sides, pointers};

use crate::entries::Entry;

/// What a pointer may ask of the entry that it leads to.
#[derive(Clone, Copy, Debug, PartialEq, Eq)]
pub enum Sort {
    Clause,
    Template,
    Condition,
    Argument,
}

impl Entry {
    /// Which sort of pointer may lead here.
    pub fn sort(&self) -> Sort
        ensures { result ≡ sort_of self.now }
    {
        match *self {
            Entry::Template { .. } => Sort::Template,
            Entry::Condition { .. } => Sort::Condition,
            Entry::Argument { .. } => Sort::Argument,
            _ => Sort::Clause,
        }
    }

    /// The next of a template, and 0 of anything else.
    // Kept with 0 for none, as docs/file-format.md has a pointer.
    pub fn next_template(&self) -> u16
        ensures { result ≡ next_template self.now }
    {
        match *self {
            Entry::Template { next, .. } => next,
            _ => 0,
        }
    }

    /// The sides of a choice, a both or a then; 0 is none.
    // Kept with 0 for none, as docs/file-format.md has a pointer.
    pub fn sides(&self) -> (u16, u16)
        ensures { result ≡ sides self.now }
    {
        match *self {
            Entry::Choice { left, right }
            | Entry::Both { left, right }
            | Entry::Then { left, right } => (left, right),
            _ => (0, 0),
        }
    }

    /// All pointers of an entry; 0 is none.
    // Kept with 0 for none, as docs/file-format.md has a pointer.
    pub fn pointers(&self) -> (u16, u16)
        ensures { result ≡ pointers self.now }
    {
        match *self {
            Entry::Lost | Entry::Done => (0, 0),
            Entry::Step {
                tail,
                conditions,
                ..
            } => (tail, conditions),
            Entry::Choice { left, right }
            | Entry::Both { left, right }
            | Entry::Then { left, right } => (left, right),
            Entry::Call { arguments, .. } => (arguments, 0),
            Entry::Template { body, next, .. } => (body, next),
            Entry::Condition { next, .. } => (next, 0),
            Entry::Argument { next, .. } => (next, 0),
        }
    }
}
