//! Holding a record against a term.
ghost use Rattle.std.specs.Prelude.{◌≡◌, OnErr};
ghost use Rattle.language.specs.Terms.{Term};
ghost use Rattle.language.specs.Residuals.{residual};
ghost use Rattle.openings.specs.Clauses.{templates_of};
ghost use Rattle.terms.specs.Tables.{Holds, SomeTerm, places};
ghost use Rattle.terms.specs.Results.{Replaced};

use crate::marked::Marked;
use crate::marks::marks_of;
use crate::weighed::Weighed;
use crate::weights::Weight;
use kinds::Kind;
use openings::{MOST_NODES, Openings, Shape};
use terms::{Table, TooLarge};

/// Makes the table what a record leaves of its term, if that has at most 256 nodes; else leaves it.
/// Only the marks ask the kind: the rest goes by them. The term may reach into the unused places, and no node behind it is asked.
pub fn hold<K: Kind>(
    kind: &K,
    openings: &Openings,
    r: &K::Record,
    table: &mut Table,
) -> Result<(), TooLarge>
    requires tree { SomeTerm openings.now.read.file (places table.old) 0 }
    ensures replaced { (t : Term) → Holds openings.now.read.file (places table.old) 0 t → Replaced openings.now.read.file (residual K.Kind.meaning (templates_of openings.now.read.file) t r.now) table.old.items table.new.items result }
    ensures refused { OnErr result (table.new ≡ table.old) }
{
    let nodes = table.term();
    let marks = marks_of(kind, openings.file(), r, nodes);
    let marked = Marked {
        openings,
        nodes,
        marks: &marks[..nodes.len()],
        day: kind.day(r),
    };
    let mut weights = [Weight::unmet(Shape::Lost); MOST_NODES];
    let (whole, _) = marked.weigh(0, &mut weights);
    if usize::from(whole.left.size()) > MOST_NODES {
        return Err(TooLarge);
    }
    let weighed = Weighed {
        marked,
        weights: &weights,
    };
    let mut next = Table::new();
    weighed.build(0, &mut next);
    *table = next;
    Ok(())
}
