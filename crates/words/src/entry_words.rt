//! An entry in words, with the chain that hangs on it.
use crate::names::Names;
use crate::test_words::{FillingWords, TestWords};
use contract_file::{Condition, File};
use days::{Counted, Window};
use entries::Entry;
use kinds::Filling;
use std::fmt;

/// An entry of a file, by its number.
#[derive(Clone, Copy)]
pub struct EntryWords<'a> {
    pub names: Names,
    pub file: &'a File,
    pub number: u16,
}

/// Writes the conditions of a step.
fn conditions<W: fmt::Write>(
    names: Names,
    file: &File,
    first: u16,
    f: &mut fmt::Formatter<W>,
) -> fmt::Result {
    for Condition { field, test } in file.conditions(first) {
        let asked = TestWords { names, field, test };
        write!(f, ", {asked}")?;
    }
    Ok(())
}

/// Writes the arguments of a call.
fn arguments<W: fmt::Write>(file: &File, first: u16, f: &mut fmt::Formatter<W>) -> fmt::Result {
    for Filling { slot, value } in file.arguments(first) {
        let filled = FillingWords { slot, value };
        write!(f, ", {filled}")?;
    }
    Ok(())
}

/// Writes what comes next in a chain.
// Kept with 0 for none: an entry holds its pointers as docs/file-format.md has them.
fn next_in_chain<W: fmt::Write>(next: u16, f: &mut fmt::Formatter<W>) -> fmt::Result {
    if next == 0 {
        write!(f, ", the last of its chain")
    } else {
        write!(f, ", next {next}")
    }
}

/// Writes the days of a window.
fn window<W: fmt::Write>(window: Window, f: &mut fmt::Formatter<W>) -> fmt::Result {
    let Window {
        counted,
        first,
        last,
    } = window;
    match counted {
        Counted::FromBase => write!(f, "days {first} to {last} after its base"),
        Counted::ByCalendar => write!(f, "days {first} to {last} of the calendar"),
    }
}

impl fmt::Display for EntryWords<'_> {
    fn fmt<W: fmt::Write>(&self, f: &mut fmt::Formatter<W>) -> fmt::Result {
        let n = self.number;
        match self.file.at(n) {
            Entry::Lost => write!(f, "{n} lost"),
            Entry::Done => write!(f, "{n} done"),
            Entry::Step {
                window: days,
                tail,
                conditions: first_condition,
            } => {
                write!(f, "{n} step, ")?;
                window(days, f)?;
                conditions(self.names, self.file, first_condition, f)?;
                write!(f, ", then {tail}")
            }
            Entry::Choice { left, right } => write!(f, "{n} choice, {left} or {right}"),
            Entry::Both { left, right } => write!(f, "{n} both, {left} and {right}"),
            Entry::Then { left, right } => write!(
                f,
                "{n} then, first {left} and behind it {right}"
            ),
            Entry::Call {
                template,
                arguments: first_argument,
            } => {
                write!(f, "{n} call of template {template}")?;
                arguments(self.file, first_argument, f)
            }
            Entry::Template { number, body, next } => {
                write!(f, "{n} template {number}, body {body}")?;
                next_in_chain(next, f)
            }
            Entry::Condition { field, test, next } => {
                let asked = TestWords {
                    names: self.names,
                    field,
                    test,
                };
                write!(f, "{n} condition, {asked}")?;
                next_in_chain(next, f)
            }
            Entry::Argument { slot, value, next } => {
                let filled = FillingWords { slot, value };
                write!(f, "{n} argument, {filled}")?;
                next_in_chain(next, f)
            }
        }
    }
}
