//! Opening a clause: its term, tidied, written behind a table's nodes.
ghost use Rattle.std.specs.Prelude.{◌≡◌, ◌+◌, ◌<◌, ◌≤◌, length, OnErr};
ghost use Rattle.kinds.specs.Rows.{zeros};
ghost use Rattle.language.specs.Clauses.{body};
ghost use Rattle.language.specs.Terms.{BareBelow, nodes, opened};
ghost use Rattle.openings.specs.Clauses.{clause_at, templates_of};
ghost use Rattle.terms.specs.Tables.{Wrote, Writes};
ghost use Rattle.terms.specs.Plans.{opens};
ghost use Rattle.terms.specs.Results.{Replaced};

use crate::filling::filled;
use crate::nodes::{Node, Table};
use crate::plans::{Plan, planned};
use crate::too_large::TooLarge;
use contract_file::MOST_TEMPLATES;
use kinds::{Row, SLOTS};
use openings::{MOST_NODES, Openings, body};

/// Each call names a template below this.
const ABOVE_TEMPLATES: u8 = MOST_TEMPLATES as u8 + 1;

// Kept as parameters: a call goes on from a row of its own, and what stays the same is passed on as it is.
/// Writes what the clause of an entry opens to, from a row and on a base day. Its bare calls name templates below `level`.
#[cycle(open_call_open_from)]
fn open_from(openings: &Openings, level: u8, at: u16, row: &Row, base: u32, out: &mut Table)
    requires bare { BareBelow level (clause_at openings.now.read.file at) }
    requires room { length out.old.items + nodes (opens openings.now.read.file row.now base at) ≤ 256 }
    ensures { Wrote openings.now.read.file out.old.items out.new.items (opens openings.now.read.file row.now base at) }
{
    match planned(openings, at) {
        Plan::Lost => out.push(Node::Lost),
        Plan::Done => out.push(Node::Done),
        Plan::Leaf => out.push(Node::Leaf {
            step: at,
            row: *row,
            base,
        }),
        Plan::Only(other) => open_from(openings, level, other, row, base, out),
        Plan::Choice(left, right) => {
            out.push(Node::Choice);
            open_from(openings, level, left, row, base, out);
            open_from(openings, level, right, row, base, out);
        }
        Plan::Both(left, right) => {
            out.push(Node::Both);
            open_from(openings, level, left, row, base, out);
            open_from(openings, level, right, row, base, out);
        }
        Plan::Follow(left, right) => {
            out.push(Node::Follow {
                clause: right,
                row: *row,
            });
            open_from(openings, level, left, row, base, out);
        }
        Plan::Skip(left, right) => {
            out.push(Node::Choice);
            out.push(Node::Follow {
                clause: right,
                row: *row,
            });
            open_from(openings, level, left, row, base, out);
            open_from(openings, level, right, row, base, out);
        }
        Plan::Call(template, arguments) => {
            let callee = filled(openings.file(), arguments, row);
            open_call(openings, template, &callee, base, out);
        }
    }
}

/// Writes what a template's body opens to, from a row and on a base day.
#[cycle(open_call_open_from)]
fn open_call(openings: &Openings, template: u8, row: &Row, base: u32, out: &mut Table)
    requires named { (1 ≤ template) × (template ≤ 16) }
    requires room { length out.old.items + nodes (opened (templates_of openings.now.read.file) (body (templates_of openings.now.read.file) template) row.now base) ≤ 256 }
    ensures { Wrote openings.now.read.file out.old.items out.new.items (opened (templates_of openings.now.read.file) (body (templates_of openings.now.read.file) template) row.now base) }
{
    let first = body(openings.file(), template);
    open_from(openings, template, first, row, base, out);
}

/// Writes what the clause of an entry opens to, from a row and on a base day, behind the table's nodes, if there is room
/// for all of it. What does not fit is not walked: with shared entries that might never end.
pub fn open_clause(openings: &Openings, clause: u16, row: &Row, base: u32, out: &mut Table)
    ensures { Writes openings.now.read.file out.old.items out.new.items (opens openings.now.read.file row.now base clause) }
{
    let size = usize::from(openings.at(clause).size());
    if size <= out.remaining_capacity() {
        open_from(openings, ABOVE_TEMPLATES, clause, row, base, out);
    }
}

/// Makes the table what the contract opens to, from zeros and on a day, if that has at most 256 nodes; else leaves it.
pub fn open_contract(openings: &Openings, day: u32, out: &mut Table) -> Result<(), TooLarge>
    ensures replaced { Replaced openings.now.read.file (opens openings.now.read.file zeros day openings.now.read.file.contract) out.old.items out.new.items result }
    ensures refused { OnErr result (out.new ≡ out.old) }
{
    let contract = openings.file().contract;
    if usize::from(openings.at(contract).size()) > MOST_NODES {
        return Err(TooLarge);
    }
    out.clear();
    open_clause(openings, contract, &[0; SLOTS], day, out);
    Ok(())
}
