//! What can be told of the ends of a term at a clock, from what is told of its parts.
ghost use Rattle.std.specs.Prelude.{◌≡◌};
ghost use Rattle.entries.specs.Parts.{at};
ghost use Rattle.outlook.specs.Outlooks.{lost_outlook, done_outlook, leaf_end, leaf_outlook, choice_outlook, both_outlook, follow_outlook, end_of};

use crate::ahead::Ahead;
use days::{earlier, later};
use entries::Entry;
use horizon::Horizon;

/// The ends of a term at a clock.
// Kept as two facts: a term that may end as it stands can also end later, so `ends` is no flag of `next`.
#[derive(Clone, Copy, Debug, PartialEq, Eq)]
pub struct Outlook {
    /// The term may end as it stands.
    pub ends: bool,
    /// The earliest end with at least one more record, on or after the clock.
    pub next: Option<u32>,
}

impl Outlook {
    /// The earliest end: the clock itself, if the term may end as it stands.
    pub fn end(self, clock: u32) -> Option<u32>
        ensures { result ≡ end_of self clock }
    {
        if self.ends { Some(clock) } else { self.next }
    }

    pub(crate) fn lost() -> Outlook
        ensures { result ≡ lost_outlook }
    {
        Outlook {
            ends: false,
            next: None,
        }
    }

    pub(crate) fn done() -> Outlook
        ensures { result ≡ done_outlook }
    {
        Outlook {
            ends: true,
            next: None,
        }
    }

    /// A leaf waits for a record that meets its step.
    pub(crate) fn leaf(ahead: &Ahead, step: u16, base: u32, clock: u32) -> Outlook
        ensures { result ≡ leaf_outlook ahead.now.openings.now.read.file ahead.now.horizon.now step base clock }
    {
        Outlook {
            ends: false,
            next: leaf_end(ahead, step, base, clock),
        }
    }

    pub(crate) fn choice(left: Outlook, right: Outlook) -> Outlook
        ensures { result ≡ choice_outlook left right }
    {
        Outlook {
            ends: left.ends || right.ends,
            next: earlier(left.next, right.next),
        }
    }

    /// One side takes a record at least, and the other may have ended: whichever of the two comes first.
    pub(crate) fn both(left: Outlook, right: Outlook, clock: u32) -> Outlook
        ensures { result ≡ both_outlook left right clock }
    {
        let by_left = later(left.next, right.end(clock));
        let by_right = later(left.end(clock), right.next);
        Outlook {
            ends: left.ends && right.ends,
            next: earlier(by_left, by_right),
        }
    }

    /// The clause begins on the day on which the term before it ends.
    pub(crate) fn follow(term: Outlook, horizon: &Horizon, clause: u16) -> Outlook
        ensures { result ≡ follow_outlook horizon.now term clause }
    {
        Outlook {
            ends: false,
            next: term.next.and_then(|day| horizon.end(clause, day)),
        }
    }
}

/// The earliest end of a step that is met on the first day of its window that the clock leaves, and of its tail from that day.
fn leaf_end(ahead: &Ahead, step: u16, base: u32, clock: u32) -> Option<u32>
    ensures { result ≡ leaf_end ahead.now.horizon.now base clock (at ahead.now.openings.now.read.file.entries step) }
{
    match ahead.openings.file().at(step) {
        Entry::Step { window, tail, .. } => {
            let day = window.reach(base, clock)?;
            ahead.horizon.end(tail, day)
        }
        _ => None,
    }
}
