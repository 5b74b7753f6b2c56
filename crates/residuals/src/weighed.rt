//! Weighing a marked term, part by part.
ghost use Rattle.std.specs.Prelude.{◌≡◌, ◌<◌, ◌≤◌};
ghost use Rattle.residuals.specs.Marked.{shape_if, mark_at};
ghost use Rattle.residuals.specs.Weights.{Weighs, weight_in};

use crate::marked::Marked;
use crate::marks::Mark;
use crate::weights::Weight;
use openings::{MOST_NODES, Shape};
use terms::Node;

impl Marked<'_> {
    /// The mark at a place, none past the end.
    pub(crate) fn mark(&self, at: usize) -> Mark
        ensures { result ≡ mark_at self.now at }
    {
        *self.marks.get(at)?
    }

    /// What a leaf of that mark comes to after the record.
    fn shape_of(&self, mark: Mark) -> Shape
        ensures { result ≡ shape_if self.now mark }
    {
        match mark {
            Some(next) => self.openings.at(next.clause),
            None => Shape::Lost,
        }
    }

    /// Weighs the term that stands at a place, with all its parts, and answers its weight and where it ends. Past the
    /// end nothing stands.
    pub(crate) fn weigh(&self, at: usize, weights: &mut [Weight; MOST_NODES]) -> (Weight, usize)
        ensures behind { at ≤ result.1 }
        ensures weighed { Weighs self.now at result.1 result.0 weights.old weights.new }
    {
        let Some(node) = self.nodes.get(at) else {
            return (Weight::unmet(Shape::Lost), at);
        };
        let (weight, end) = match *node {
            Node::Lost => (Weight::unmet(Shape::Lost), at + 1),
            Node::Done => (Weight::unmet(Shape::Done), at + 1),
            Node::Leaf { .. } => (Weight::leaf(self.shape_of(self.mark(at))), at + 1),
            Node::Choice => {
                let (left, middle) = self.weigh(at + 1, weights);
                let (right, end) = self.weigh(middle, weights);
                (Weight::choice(left, right), end)
            }
            Node::Both => {
                let (left, middle) = self.weigh(at + 1, weights);
                let (right, end) = self.weigh(middle, weights);
                (Weight::both(left, right), end)
            }
            Node::Follow { clause, .. } => {
                let (term, end) = self.weigh(at + 1, weights);
                (Weight::follow(term, self.openings.at(clause)), end)
            }
        };
        weights[at] = weight;
        (weight, end)
    }
}

/// A marked term with the weights of the terms at its places.
// Kept with the weights beside the nodes: docs/DECISIONS.md asks for plain nodes, of which a slice can be copied.
#[derive(Clone, Copy)]
pub(crate) struct Weighed<'a> {
    pub(crate) marked: Marked<'a>,
    pub(crate) weights: &'a [Weight],
}

impl Weighed<'_> {
    /// The weight of the term at a place, and that of lost past the end.
    pub(crate) fn weight(&self, place: usize) -> Weight
        ensures { result ≡ weight_in self.now.weights.now place }
    {
        self.weights
            .get(place)
            .copied()
            .unwrap_or(Weight::unmet(Shape::Lost))
    }
}
