//! How cases are written, and how they are run.
//!
//! A case is a line of four parts, with `|` between them.
//! - What it is, in words.
//! - What is told: the question that fails and the entry at fault, or, if the file passes, 0 and how many nodes its
//!   contract opens to.
//! - The head: kind, version, count of entries, first template, contract. Behind these may stand the signing day, a
//!   length that the file is cut to or filled up to with zeros, and the kind that the file is checked with, where it
//!   is not the file's own.
//! - The entries, with `;` between them. Each is its numbers in the order of the file: tag, k, a, b, next, u, v. Behind
//!   these may stand how often the entry is written.
//!
//! Numbers that are left out at the end are 0. For a and b, `>` is the number of the entry behind.
//!
//! The tags are 1 done, 2 lost, 3 step, 4 choice, 5 both, 6 then, 7 call, 8 template, 9 condition, 10 argument.
mod admitted;
mod calls;
mod chains;
mod costly;
mod examples;
mod lengths;
mod order;
mod places;
mod pointers;
mod sizes;
mod values;
mod windows;

use crate::asking::check_as;
use crate::writing::{file_bytes, parts};
use approval::Checked;
use contract_file::{Fault, ReadFile, read};
use std::alloc::Global;
use std::process::Abort;
use std::test::Fail;

/// The question that fails and the entry at fault.
// Kept as numbers: the tables tell an answer by those of docs/questions.md.
fn told_of(fault: Fault) -> (u32, u32) {
    (u32::from(fault.number()), u32::from(fault.entry()))
}

/// What reading tells of a file: a question and an entry, or zeros.
fn tell_read(bytes: &[u8]) -> (u32, u32) {
    let mut file = ReadFile::new();
    match read(&mut file, bytes) {
        Ok(()) => (0, 0),
        Err(fault) => told_of(fault),
    }
}

/// Checks a file into a place, as one of inspections for kind 2 and of transfers for any other, and tells of it.
fn tell(place: &mut Checked, bytes: &[u8], kind: u32, day: u32) -> (u32, u32) {
    match check_as(kind, place, bytes, day) {
        Ok(()) => (0, u32::from(place.nodes())),
        Err(fault) => told_of(fault),
    }
}

/// What a place holds: kind, count of entries, first template, contract, signing day, and how many nodes it opens to.
fn held(place: &Checked) -> [u32; 6] {
    let file = place.file();
    [
        u32::from(file.kind),
        u32::from(file.count),
        u32::from(file.templates),
        u32::from(file.contract),
        place.day(),
        u32::from(place.nodes()),
    ]
}

/// Runs a case: checks the file into a place, which a refusal leaves as it was, and reads the file alone, which asks
/// the questions 1 to 7.
fn run_case(rt: &impl Abort, heap: Global, place: &mut Checked, line: &str) -> Result<(), Fail> {
    let parts = parts(heap, line.as_bytes())?;
    let [_, told, head, entries @ ..] = parts.as_slice() else {
        panic!(rt; "a part is missing: {line}");
    };
    let bytes = file_bytes(heap, head, entries)?;
    // Kept with 0 for what is left out: the tables of cases are written so.
    let [question, entry, ..] = told.map(|number| number.unwrap_or(0));
    let [kind, _, count, templates, contract, day, _, other] = head.map(|number| number.unwrap_or(
        0,
    ));
    let before = held(place);
    let checked_with = if other == 0 { kind } else { other };
    assert_eq!(rt;
        tell(place, &bytes, checked_with, day),
        (question, entry),
        "{line}"
    );
    let (read, after) = match question {
        0 => ((0, 0), [kind, count, templates, contract, day, entry]),
        1..=7 => ((question, entry), before),
        _ => ((0, 0), before),
    };
    assert_eq!(rt; tell_read(&bytes), read, "{line}");
    assert_eq!(rt; held(place), after, "{line}");
    Ok(())
}

/// Runs cases, one after the other into one place. A line may be empty.
fn run(rt: &impl Abort, heap: Global, cases: &str) -> Result<(), Fail> {
    let mut place = Checked::new();
    for line in cases.lines().filter(|line| !line.is_empty()) {
        run_case(rt, heap, &mut place, line)?;
    }
    Ok(())
}
