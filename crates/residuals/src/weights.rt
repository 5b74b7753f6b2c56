//! What a term and what is left of it come to.
ghost use Rattle.std.specs.Prelude.{◌≡◌};
ghost use Rattle.residuals.specs.Weights.{unmet_weight, leaf_weight, choice_weight, both_weight, follow_weight};

use openings::Shape;

/// What a term comes to, and what is left of it after the record.
#[derive(Clone, Copy)]
pub(crate) struct Weight {
    pub(crate) held: Shape,
    pub(crate) left: Shape,
}

impl Weight {
    /// A term that no record can meet.
    pub(crate) fn unmet(held: Shape) -> Weight
        ensures { result ≡ unmet_weight held }
    {
        Weight {
            held,
            left: Shape::Lost,
        }
    }

    pub(crate) fn leaf(left: Shape) -> Weight
        ensures { result ≡ leaf_weight left }
    {
        Weight {
            held: Shape::leaf(),
            left,
        }
    }

    pub(crate) fn choice(l: Weight, r: Weight) -> Weight
        ensures { result ≡ choice_weight l r }
    {
        Weight {
            held: Shape::choice_node(l.held, r.held),
            left: Shape::choice_of(l.left, r.left),
        }
    }

    /// The record goes to one of the two sides, and the other stays as it is.
    pub(crate) fn both(l: Weight, r: Weight) -> Weight
        ensures { result ≡ both_weight l r }
    {
        Weight {
            held: Shape::both_node(l.held, r.held),
            left: Shape::choice_of(
                Shape::both_of(l.left, r.held),
                Shape::both_of(l.held, r.left),
            ),
        }
    }

    /// A term followed by a clause that opens to `o`.
    pub(crate) fn follow(t: Weight, o: Shape) -> Weight
        ensures { result ≡ follow_weight t o }
    {
        Weight {
            held: Shape::follow_node(t.held),
            left: Shape::then_of(t.left, o),
        }
    }
}
