//! What is due of one leaf, and its three numbers in a list.
ghost use Rattle.std.specs.Prelude.{◌≡◌};
ghost use Rattle.due.specs.Items.{due_item, is_leaf, node_due};

use contract_file::File;
use entries::Entry;
use terms::Node;

/// How many numbers an item has in a list.
pub(crate) const ITEM: usize = 3;

/// A leaf's item: its step's entry, with the first and the last day of its window.
// Kept as a triple: docs/DECISIONS.md has this form as asked for.
pub(crate) type Item = (u16, u64, u64);

/// The item of a leaf, by its step and its base day.
// Kept with days 0 for an entry that is no step, which no leaf of a term names: the triple is answered for every number.
fn due_item(file: &File, step: u16, base: u32) -> Item
    ensures { result ≡ due_item file.now step base }
{
    let entry = file.at(step);
    match entry {
        Entry::Step { window, .. } => (step, window.first_day(base), window.last_day(base)),
        _ => (step, 0, 0),
    }
}

/// Is a node a leaf?
pub(crate) fn is_leaf(node: &Node) -> bool
    ensures { result ≡ is_leaf node.now }
{
    matches!(node, Node::Leaf { .. })
}

/// The item of a node: only a leaf has one.
pub(crate) fn due_of(file: &File, node: &Node) -> Option<Item>
    ensures { result ≡ node_due file.now node.now }
{
    match *node {
        Node::Leaf { step, base, .. } => Some(due_item(file, step, base)),
        _ => None,
    }
}
