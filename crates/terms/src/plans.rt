//! What is written for an entry, by what its parts open to.
ghost use Rattle.std.specs.Prelude.{◌≡◌};
ghost use Rattle.entries.specs.Parts.{at};
ghost use Rattle.terms.specs.Plans.{choice_plan, both_plan, then_plan, plan_by};

use entries::Entry;
use openings::{Followed, Openings, Tidied};

/// What is written for an entry. Nothing that tidies away is named.
#[derive(Clone, Copy)]
pub enum Plan {
    Lost,
    Done,
    Leaf,
    /// What that entry opens to.
    Only(u16),
    Choice(u16, u16),
    Both(u16, u16),
    /// The first and then the second.
    Follow(u16, u16),
    /// The first and then the second, or the second at once.
    Skip(u16, u16),
    /// A template's body, with arguments.
    Call(u8, u16),
}

fn choice_plan(openings: &Openings, left: u16, right: u16) -> Plan
    ensures { result ≡ choice_plan openings.now.shapes left right }
{
    match Tidied::of_choice(openings.at(left), openings.at(right)) {
        Tidied::Left => Plan::Only(left),
        Tidied::Right => Plan::Only(right),
        Tidied::Whole => Plan::Choice(left, right),
    }
}

fn both_plan(openings: &Openings, left: u16, right: u16) -> Plan
    ensures { result ≡ both_plan openings.now.shapes left right }
{
    match Tidied::of_both(openings.at(left), openings.at(right)) {
        None => Plan::Lost,
        Some(Tidied::Left) => Plan::Only(left),
        Some(Tidied::Right) => Plan::Only(right),
        Some(Tidied::Whole) => Plan::Both(left, right),
    }
}

fn then_plan(openings: &Openings, left: u16, right: u16) -> Plan
    ensures { result ≡ then_plan openings.now.shapes left right }
{
    match Followed::of(openings.at(left), openings.at(right)) {
        None => Plan::Lost,
        Some(Followed::Clause) => Plan::Only(right),
        Some(Followed::Follow) => Plan::Follow(left, right),
        Some(Followed::Skip) => Plan::Skip(left, right),
    }
}

/// What is written for the entry of a number. One that is no clause is lost.
pub(crate) fn planned(openings: &Openings, number: u16) -> Plan
    ensures { result ≡ plan_by openings.now.shapes (at openings.now.read.file.entries number) }
{
    let entry = openings.file().at(number);
    match entry {
        Entry::Done => Plan::Done,
        Entry::Step { .. } => Plan::Leaf,
        Entry::Choice { left, right } => choice_plan(openings, left, right),
        Entry::Both { left, right } => both_plan(openings, left, right),
        Entry::Then { left, right } => then_plan(openings, left, right),
        Entry::Call {
            template,
            arguments,
        } => Plan::Call(template, arguments),
        Entry::Lost | Entry::Template { .. } | Entry::Condition { .. } | Entry::Argument { .. } =>
            Plan::Lost,
    }
}
