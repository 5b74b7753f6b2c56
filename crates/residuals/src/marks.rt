//! What a record makes of the leaves of a term.
ghost use Rattle.std.specs.Prelude.{◌≡◌, ◌≤◌, map, take, length};
ghost use Rattle.residuals.specs.Marks.{mark_of};

use crate::conditions::conditions_from;
use contract_file::File;
use entries::Entry;
use kinds::{Kind, Row};
use openings::MOST_NODES;
use terms::Node;

/// A clause, named by its entry, and the row that it opens from.
#[derive(Clone, Copy)]
pub(crate) struct Next {
    pub(crate) clause: u16,
    pub(crate) row: Row,
}

/// What a leaf goes on with, if the record meets it within its window: its step's tail, from the row that results.
pub(crate) type Mark = Option<Next>;

/// The mark of a node. Only a leaf can be met.
fn mark_of<K: Kind>(kind: &K, file: &File, r: &K::Record, node: &Node) -> Mark
    ensures { result ≡ mark_of K.Kind.meaning file.now r.now node.now }
{
    let Node::Leaf { step, row, base } = *node else {
        return None;
    };
    let entry = file.at(step);
    let Entry::Step {
        window,
        tail,
        conditions,
    } = entry
    else {
        return None;
    };
    let conditions = conditions_from(file, conditions);
    let mut after = row;
    if window.holds(base, kind.day(r)) && kind.meets(&conditions, &mut after, r) {
        Some(Next {
            clause: tail,
            row: after,
        })
    } else {
        None
    }
}

/// Holds a record against the nodes of a term, left to right: a mark for each at its place.
pub(crate) fn marks_of<K: Kind>(
    kind: &K,
    file: &File,
    r: &K::Record,
    nodes: &[Node],
) -> [Mark; MOST_NODES]
    requires { length nodes.now ≤ 256 }
    ensures { take (length nodes.now) result ≡ map (mark_of K.Kind.meaning file.now r.now) nodes.now }
{
    let mut marks = [None; MOST_NODES];
    // Kept by index: docs/DECISIONS.md has this loop as asked for.
    for (at, node) in nodes.iter().enumerate() {
        marks[at] = mark_of(kind, file, r, node);
    }
    marks
}
