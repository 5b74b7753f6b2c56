//! Looking ahead over a table of nodes: one look at each node.
ghost use Rattle.std.specs.Prelude.{◌≡◌, ◌≤◌};
ghost use Rattle.language.specs.Terms.{Term};
ghost use Rattle.language.specs.Ends.{durations, end_day};
ghost use Rattle.openings.specs.Clauses.{templates_of};
ghost use Rattle.terms.specs.Tables.{Holds, places};
ghost use Rattle.outlook.specs.Outlooks.{Foretold, outlook_of, Seen};

use crate::ahead::Ahead;
use crate::outlooks::Outlook;
use horizon::{Horizon, Prospect};
use openings::Openings;
use terms::{Node, Table};

/// The outlook of the term that begins at a place, and the place behind it. Past the end nothing stands.
fn look(ahead: &Ahead, nodes: &[Node], clock: u32, at: usize) -> (Outlook, usize)
    ensures behind { at ≤ result.1 }
    ensures seen { Seen ahead.now.openings.now.read.file nodes.now clock at result.0 result.1 }
{
    let Some(node) = nodes.get(at) else {
        return (Outlook::lost(), at);
    };
    match *node {
        Node::Lost => (Outlook::lost(), at + 1),
        Node::Done => (Outlook::done(), at + 1),
        Node::Leaf { step, base, .. } => (Outlook::leaf(ahead, step, base, clock), at + 1),
        Node::Choice => {
            let (left, middle) = look(ahead, nodes, clock, at + 1);
            let (right, end) = look(ahead, nodes, clock, middle);
            (Outlook::choice(left, right), end)
        }
        Node::Both => {
            let (left, middle) = look(ahead, nodes, clock, at + 1);
            let (right, end) = look(ahead, nodes, clock, middle);
            (Outlook::both(left, right, clock), end)
        }
        Node::Follow { clause, .. } => {
            let (term, end) = look(ahead, nodes, clock, at + 1);
            (Outlook::follow(term, ahead.horizon, clause), end)
        }
    }
}

/// The outlook of a table's term at a clock: whether it may end as it stands, and when it can end with more records.
/// The term may reach into the unused places.
pub fn look_ahead(openings: &Openings, horizon: &Horizon, table: &Table, clock: u32) -> Outlook
    requires foretold { Foretold openings.now.read.file horizon.now }
    ensures { (t : Term) → Holds openings.now.read.file (places table.now) 0 t → result ≡ outlook_of openings.now.read.file t clock }
{
    look(&Ahead { openings, horizon }, table.places(), clock, 0).0
}

/// The earliest day on which a table's term can end, with no record before the clock.
pub fn end_day(openings: &Openings, horizon: &Horizon, table: &Table, clock: u32) -> Option<u32>
    requires foretold { Foretold openings.now.read.file horizon.now }
    ensures { (t : Term) → Holds openings.now.read.file (places table.now) 0 t → result ≡ end_day (durations (templates_of openings.now.read.file)) t clock }
{
    look_ahead(openings, horizon, table, clock).end(clock)
}

/// The outlook of a table's term at a clock, by a prospect, which knows that its ends are foretold.
pub fn look_from(prospect: &Prospect, table: &Table, clock: u32) -> Outlook
    ensures { (t : Term) → Holds prospect.now.openings.read.file table.now.items 0 t → result ≡ outlook_of prospect.now.openings.read.file t clock }
{
    look_ahead(&prospect.openings, &prospect.horizon, table, clock)
}

/// The earliest day on which a table's term can end, with no record before the clock, by a prospect.
pub fn end_from(prospect: &Prospect, table: &Table, clock: u32) -> Option<u32>
    ensures { (t : Term) → Holds prospect.now.openings.read.file table.now.items 0 t → result ≡ end_day (durations (templates_of prospect.now.openings.read.file)) t clock }
{
    look_from(prospect, table, clock).end(clock)
}
