//! A term under a record's marks.
ghost use Rattle.std.specs.Prelude.{◌≡◌, ◌≤◌, length};

use crate::marks::Mark;
use openings::Openings;
use terms::Node;

/// The nodes of a term with the marks of a record at their places, the record's day, and what the entries open to.
// Kept with the marks beside the nodes: docs/DECISIONS.md asks for plain nodes, of which a slice can be copied.
#[derive(Clone, Copy)]
pub(crate) struct Marked<'a> {
    pub(crate) openings: &'a Openings,
    pub(crate) nodes: &'a [Node],
    pub(crate) marks: &'a [Mark],
    pub(crate) day: u32,
    ghost few: { length nodes.now ≤ 256 },
}
