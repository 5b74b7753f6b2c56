//! A term in a table of nodes, in preorder: a node before its parts, the left part first.
ghost use Rattle.std.specs.Prelude.{◌≡◌, ◌+◌, ◌<◌, ◌≤◌, [], ◌∷◌, ◌++◌, drop, length, take};
ghost use Rattle.language.specs.Terms.{Term, nodes};
ghost use Rattle.contract_file.specs.declared.files.File.{File};
ghost use Rattle.terms.specs.Tables.{all_lost, places, Ends, Holds};

use kinds::Row;
use openings::MOST_NODES;
use std::marker::Model;

/// One node of a term. Steps and clauses are named by their entries.
#[derive(Clone, Copy, Debug, Default, PartialEq, Eq)]
pub enum Node {
    #[default]
    Lost,
    Done,
    Leaf { step: u16, row: Row, base: u32 },
    Choice,
    Both,
    Follow { clause: u16, row: Row },
}

/// Where the term ends that stands at a place. Past the end nothing stands.
fn end_of(nodes: &[Node], at: usize) -> usize
    ensures behind { at ≤ result }
    ensures within { at ≤ length nodes.now → result ≤ length nodes.now }
    ensures ends { Ends nodes.now at result }
{
    let Some(node) = nodes.get(at) else {
        return at;
    };
    match node {
        Node::Lost | Node::Done | Node::Leaf { .. } => at + 1,
        Node::Choice | Node::Both => {
            let middle = end_of(nodes, at + 1);
            end_of(nodes, middle)
        }
        Node::Follow { .. } => end_of(nodes, at + 1),
    }
}

/// A term's nodes: the first `len` places are in use.
// Kept as nodes in the value itself, with no boxes: the running contract never allocates.
#[derive(Clone, Copy)]
pub struct Table {
    nodes: [Node; MOST_NODES],
    len: usize,
}

impl Model for Table {
    ghost use Rattle.std.specs.Prelude.{◌≡◌, ◌≤◌, ◌++◌, length, take, drop};
    ghost use Rattle.std.proofs.Common.{sym, subst, take-append-drop, length-take-le};
    ghost use Rattle.terms.specs.Tables.{Table as Nodes};

    ghost Value = { Nodes };

    ghost view = { λ t. record { items = take t.len t.nodes; spare = drop t.len t.nodes } };

    ghost invariant = { λ t. (t.len ≤ 256) × (length t.nodes ≡ 256) };

    ghost inverse = { λ t. record { nodes = t.items ++ t.spare; len = length t.items } };

    ghost inverse_ok = { λ t h i. record {
      nodes = take-append-drop t.len t.nodes i;
      len = length-take-le t.len t.nodes (subst (λ n. t.len ≤ n) (sym h.1) h.0) i;
    } };
}

impl Table {
    /// No nodes yet: every place is lost.
    #[tactic(auto, unfolding(crate::specs::Tables::all_lost))]
    pub fn new() -> Table
        ensures items { result.items ≡ [] }
        ensures spare { result.spare ≡ all_lost }
    {
        Table {
            nodes: [Node::Lost; MOST_NODES],
            len: 0,
        }
    }

    /// A table of these places: the first `len` are in use, or all if `len` is more than there are.
    pub fn of(nodes: [Node; MOST_NODES], len: usize) -> Table
        ensures items { result.items ≡ take len nodes }
        ensures spare { result.spare ≡ drop len nodes }
    {
        Table {
            nodes,
            len: len.min(MOST_NODES),
        }
    }

    /// How many nodes there are.
    pub fn len(&self) -> usize
        ensures value { result ≡ length self.now.items }
        ensures fits { result ≤ 256 }
    {
        self.as_slice().len()
    }

    /// The nodes.
    pub fn as_slice(&self) -> &[Node]
        ensures value { result.now ≡ self.now.items }
        ensures fits { length result.now ≤ 256 }
    {
        &self.nodes[..self.len]
    }

    /// All places, the unused ones too.
    pub fn places(&self) -> &[Node]
        ensures value { result.now ≡ places self.now }
        ensures long { length result.now ≡ 256 }
    {
        self.nodes.as_slice()
    }

    /// The nodes of the term that stands at the first place: it may reach into the unused places.
    pub fn term(&self) -> &[Node]
        ensures value { (f : File) (t : Term) → Holds f (places self.now) 0 t → result.now ≡ take (nodes t) (places self.now) }
        ensures fits { length result.now ≤ 256 }
    {
        &self.nodes[..end_of(&self.nodes, 0)]
    }

    /// How many more nodes there is room for.
    pub fn remaining_capacity(&self) -> usize
        ensures { result + length self.now.items ≡ 256 }
    {
        MOST_NODES - self.len
    }

    /// One more node in the first unused place, if there is room: those behind it stay, and a full table stays as it was.
    pub fn push(&mut self, node: Node)
        ensures items { length self.old.items < 256 → self.new.items ≡ self.old.items ++ node ∷ [] }
        ensures len { length self.old.items < 256 → length self.new.items ≡ length self.old.items + 1 }
        ensures spare { length self.old.items < 256 → self.new.spare ≡ drop 1 self.old.spare }
        ensures full { 256 ≤ length self.old.items → self.new ≡ self.old }
        ensures places { length (places self.old) ≡ 256 }
    {
        if self.len < MOST_NODES {
            self.nodes[self.len] = node;
            self.len += 1;
        }
    }

    /// More nodes, if there is room for all of them: otherwise the table stays as it was.
    pub fn extend_from_slice(&mut self, more: &[Node])
        ensures items { length self.old.items + length more.now ≤ 256 → self.new.items ≡ self.old.items ++ more.now }
        ensures full { 256 < length self.old.items + length more.now → self.new ≡ self.old }
    {
        if more.len() <= self.remaining_capacity() {
            let end = self.len + more.len();
            self.nodes[self.len..end].copy_from_slice(more);
            self.len = end;
        }
    }

    /// No nodes any more.
    pub fn clear(&mut self)
        ensures { self.new.items ≡ [] }
    {
        self.len = 0;
    }
}
