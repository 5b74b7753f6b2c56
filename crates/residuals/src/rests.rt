//! What is written for what a record leaves of a term, by the weights of its parts.
ghost use Rattle.std.specs.Prelude.{◌≡◌, slice_index_or};
ghost use Rattle.terms.specs.declared.nodes.Node.TheVariants.{Lost as LostNode};
ghost use Rattle.residuals.specs.Marked.{nodes_of};
ghost use Rattle.residuals.specs.Rests.{side_shape, leaf_rest, choice_rest, both_rest, follow_rest, rest_by};

use crate::marks::{Mark, Next};
use crate::weighed::Weighed;
use openings::{Followed, Shape, Tidied};
use terms::Node;

/// A side of a both.
#[derive(Clone, Copy)]
pub(crate) enum Side {
    /// The record went to it: what is left of the term at that place.
    Taken(usize),
    /// The term at that place, as it stands.
    Kept(usize),
}

/// What is written. Nothing that tidies away is named.
#[derive(Clone, Copy)]
pub(crate) enum Rest {
    Lost,
    /// A clause, opened on the record's day.
    Open(Next),
    /// What is left of the term at that place.
    Only(usize),
    /// What is left of the one, or what is left of the other.
    Choice(usize, usize),
    Both(Side, Side),
    /// A both whose left or whose right side took the record.
    Either(usize, usize),
    /// What is left of the part, and then the clause.
    Follow(Next),
    /// The same, or the clause at once.
    Skip(Next),
}

/// A leaf that is met goes on; otherwise it is lost.
fn leaf_rest(mark: Mark) -> Rest
    ensures { result ≡ leaf_rest mark }
{
    match mark {
        Some(next) => Rest::Open(next),
        None => Rest::Lost,
    }
}

impl Weighed<'_> {
    /// What a side comes to.
    pub(crate) fn side(&self, side: Side) -> Shape
        ensures { result ≡ side_shape self.now.weights.now side }
    {
        match side {
            Side::Taken(place) => self.weight(place).left,
            Side::Kept(place) => self.weight(place).held,
        }
    }

    fn choice_rest(&self, left: usize, right: usize) -> Rest
        ensures { result ≡ choice_rest self.now.weights.now left right }
    {
        match Tidied::of_choice(self.weight(left).left, self.weight(right).left) {
            Tidied::Left => Rest::Only(left),
            Tidied::Right => Rest::Only(right),
            Tidied::Whole => Rest::Choice(left, right),
        }
    }

    /// The record goes to either side, unless that leaves a lost both.
    fn both_rest(&self, left: usize, right: usize) -> Rest
        ensures { result ≡ both_rest self.now.weights.now left right }
    {
        let l = self.weight(left);
        let r = self.weight(right);
        match Tidied::of_choice(
            Shape::both_of(l.left, r.held),
            Shape::both_of(l.held, r.left),
        ) {
            Tidied::Left => Rest::Both(Side::Taken(left), Side::Kept(right)),
            Tidied::Right => Rest::Both(Side::Kept(left), Side::Taken(right)),
            Tidied::Whole => Rest::Either(left, right),
        }
    }

    fn follow_rest(&self, part: Shape, next: Next) -> Rest
        ensures { result ≡ follow_rest self.now.marked part next }
    {
        match Followed::of(part, self.marked.openings.at(next.clause)) {
            None => Rest::Lost,
            Some(Followed::Clause) => Rest::Open(next),
            Some(Followed::Follow) => Rest::Follow(next),
            Some(Followed::Skip) => Rest::Skip(next),
        }
    }

    /// What is written for the term at a place, lost past the end.
    pub(crate) fn rest_at(&self, at: usize) -> Rest
        ensures { result ≡ rest_by self.now.marked self.now.weights.now at (slice_index_or (nodes_of self.now.marked) at LostNode) }
    {
        let Some(node) = self.marked.nodes.get(at) else {
            return Rest::Lost;
        };
        let left = at + 1;
        let part = self.weight(left);
        let right = left + usize::from(part.held.size());
        match *node {
            Node::Lost | Node::Done => Rest::Lost,
            Node::Leaf { .. } => leaf_rest(self.marked.mark(at)),
            Node::Choice => self.choice_rest(left, right),
            Node::Both => self.both_rest(left, right),
            Node::Follow { clause, row } => self.follow_rest(part.left, Next { clause, row }),
        }
    }
}
