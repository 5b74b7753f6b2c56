//! The due list: an item for each leaf of a term, left to right, in a list that is lent.
ghost use Rattle.std.specs.Prelude.{◌≡◌, ◌*◌, ◌≤◌, length, count_by};
ghost use Rattle.std.specs.List.{filter_map, flat_map};
ghost use Rattle.language.specs.Terms.{Term, nodes};
ghost use Rattle.terms.specs.Tables.{Holds};
ghost use Rattle.due.specs.Items.{is_leaf, node_due, numbers, over};
ghost use Rattle.due.specs.Lists.{Listed};

use crate::items::{ITEM, due_of, is_leaf};
use contract_file::File;
use openings::Openings;
use terms::{Node, Table};

/// Question 18 was answered no: has the lent list three places for each leaf?
// Kept as a type of its own with the number of docs/questions.md: a call that can fail in one way says so.
#[derive(Clone, Copy, Debug, PartialEq, Eq)]
pub struct ShortList;

impl ShortList {
    /// The number of the question.
    pub fn number(&self) -> u8
        ensures { result ≡ 18 }
    {
        18
    }
}

/// How many nodes are leaves.
fn leaf_count(nodes: &[Node]) -> usize
    ensures { result ≡ count_by is_leaf nodes.now }
{
    // Kept as a loop: by `filter` and `count` a list that is too short took twice as long to refuse.
    let mut count = 0;
    for node in nodes {
        if is_leaf(node) {
            count += 1;
        }
    }
    count
}

/// Writes the items of the leaves into the front of a list, one behind the other.
fn write_dues(file: &File, nodes: &[Node], list: &mut [u64])
    requires { 3 * length (filter_map (node_due file.now) nodes.now) ≤ length list.old }
    ensures { list.new ≡ over (flat_map numbers (filter_map (node_due file.now) nodes.now)) list.old }
{
    let dues = nodes.iter().filter_map(|node| due_of(file, node));
    // Kept by place: of what is written through `chunks_exact_mut`, a proof knows nothing.
    for (leaf, (step, first, last)) in dues.enumerate() {
        let place = ITEM * leaf;
        let item = &mut list[place..place + ITEM];
        item[0] = u64::from(step);
        item[1] = first;
        item[2] = last;
    }
}

/// Writes what is due into a lent list and answers how many leaves there are.
// Kept as a lent list with a count: docs/calls.md has the call so.
/// Where the list is too short, it stays as it was.
pub fn due_list(openings: &Openings, table: &Table, list: &mut [u64]) -> Result<usize, ShortList>
    ensures { (t : Term) → Holds openings.now.read.file table.now.items 0 t → length table.now.items ≡ nodes t → Listed t list.old list.new result }
{
    let nodes = table.as_slice();
    let leaves = leaf_count(nodes);
    if list.len() / ITEM < leaves {
        return Err(ShortList);
    }
    write_dues(openings.file(), nodes, list);
    Ok(leaves)
}
