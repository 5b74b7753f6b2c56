//! Writing what a record leaves of a term: tidied, in preorder.
ghost use Rattle.std.specs.Prelude.{◌<◌};
ghost use Rattle.openings.specs.Shapes.{both_shape};
ghost use Rattle.residuals.specs.Weights.{weight_in};
ghost use Rattle.residuals.specs.Rests.{Ready, HasRoom, place, side_shape, Builds, BuildsSide, BuildsBoth};

use crate::marked::Marked;
use crate::rests::{Rest, Side};
use crate::weighed::Weighed;
use openings::Tidied;
use terms::{Node, Table, open_clause};

impl Weighed<'_> {
    // Kept in three contracts that the place is ready and that there is room: each asks it of another place and another size.
    /// Writes what is left of the term at a place.
    #[cycle(build_build_both_build_side)]
    pub(crate) fn build(&self, at: usize, out: &mut Table)
        requires ready { Ready self.now at }
        requires room { HasRoom out.old.items (weight_in self.now.weights.now at).left }
        ensures { Builds self.now at out.old.items out.new.items }
    {
        let Marked { openings, day, .. } = self.marked;
        match self.rest_at(at) {
            Rest::Lost => out.push(Node::Lost),
            Rest::Open(next) => open_clause(openings, next.clause, &next.row, day, out),
            Rest::Only(part) => self.build(part, out),
            Rest::Choice(left, right) => {
                out.push(Node::Choice);
                self.build(left, out);
                self.build(right, out);
            }
            Rest::Both(left, right) => self.build_both(left, right, out),
            Rest::Either(left, right) => {
                out.push(Node::Choice);
                self.build_both(Side::Taken(left), Side::Kept(right), out);
                self.build_both(Side::Kept(left), Side::Taken(right), out);
            }
            Rest::Follow(next) => {
                let row = next.row;
                out.push(Node::Follow {
                    clause: next.clause,
                    row,
                });
                self.build(at + 1, out);
            }
            Rest::Skip(next) => {
                let row = next.row;
                out.push(Node::Choice);
                out.push(Node::Follow {
                    clause: next.clause,
                    row,
                });
                self.build(at + 1, out);
                open_clause(openings, next.clause, &row, day, out);
            }
        }
    }

    /// Writes a both of two sides.
    #[cycle(build_build_both_build_side)]
    fn build_both(&self, left: Side, right: Side, out: &mut Table)
        requires in_order { place left < place right }
        requires ready { Ready self.now (place left) }
        requires beside { Ready self.now (place right) }
        requires room { HasRoom out.old.items (both_shape (side_shape self.now.weights.now left) (side_shape self.now.weights.now right)) }
        ensures { BuildsBoth self.now left right out.old.items out.new.items }
    {
        match Tidied::of_both(self.side(left), self.side(right)) {
            None => out.push(Node::Lost),
            Some(Tidied::Left) => self.build_side(left, out),
            Some(Tidied::Right) => self.build_side(right, out),
            Some(Tidied::Whole) => {
                out.push(Node::Both);
                self.build_side(left, out);
                self.build_side(right, out);
            }
        }
    }

    /// Writes one side of a both.
    #[cycle(build_build_both_build_side)]
    fn build_side(&self, side: Side, out: &mut Table)
        requires ready { Ready self.now (place side) }
        requires room { HasRoom out.old.items (side_shape self.now.weights.now side) }
        ensures { BuildsSide self.now side out.old.items out.new.items }
    {
        match side {
            Side::Taken(at) => self.build(at, out),
            Side::Kept(at) => {
                let end = at + usize::from(self.weight(at).held.size());
                out.extend_from_slice(&self.marked.nodes[at..end]);
            }
        }
    }
}
