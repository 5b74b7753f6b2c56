//! How cases are written, and how they are run.
//!
//! A case is a line for a contract file, and below it a line for each thing that happens, which begins with a blank.
//! The parts of a line have `|` between them.
//!
//! The line of a file:
//! - What it is, in words.
//! - The head: kind, version, count of entries, first template, contract, signing day.
//! - The entries, with `;` between them, as in the tables of contract files: tag, k, a, b, next, u, v, and how often.
//!
//! The line of what happens:
//! - ` opened`; ` clock` and a day; or ` record`, four fields and a day. A reading below 0 is written in two's complement.
//! - How many nodes the term has then, and its earliest end from the signing day, the clock or the record's day on,
//!   `-` for none. If the record is refused, 0 and the number of the question.
//! - What is due, with `;` between the open steps: the entry, the first day and the last day. Left out if nothing is,
//!   or if the record is refused.
mod costly;
mod ends;
mod examples;
mod inspections;
mod remainders;
mod rounds;
mod rows;
mod sizes;
mod stages;
mod transfers;

use approval::Checked;
use file_cases::{Numbers, check_as, file_bytes, parts};
use held::{Foreseen, Held, TooLarge};
use kinds::{Inspection, Inspections, Transfer, Transfers};
use std::alloc::Global;
use std::process::Abort;
use std::test::Fail;

/// What stands in a place of a lent list that nothing was written to.
const UNTOUCHED: u64 = 7;

/// What is told of each open step: its entry, and its first and last day.
const NUMBERS: usize = 3;

/// More places than the largest term has numbers due.
const PLACES: usize = 800;

/// Sends a record: an inspection for kind 2, and a transfer for any other.
fn sent(held: &mut Held, numbers: &Numbers) -> Result<(), TooLarge> {
    let [_, one, two, three, four, day, ..] = numbers.map(|number| number.unwrap_or(0));
    match held.foreseen().file().kind {
        Inspections::NUMBER => {
            let inspection = Inspection {
                vehicle: one,
                check: two,
                reading: three.cast_signed(),
                odometer: four,
                day,
            };
            held.take(&Inspections, &inspection)
        }
        _ => {
            let transfer = Transfer {
                from: one,
                to: two,
                resource: three,
                amount: four,
                day,
            };
            held.take(&Transfers, &transfer)
        }
    }
}

/// A line that is run.
#[derive(Drop)]
struct Line<'a, R> {
    rt: &'a R,
    heap: Global,
    text: &'a str,
}

impl<R: Abort> Line<'_, R> {
    /// Opens the line's file for the kind and the signing day of its head.
    fn opened(&self) -> Result<Held, Fail> {
        let Line { rt, heap, text } = *self;
        let parts = parts(heap, text.as_bytes())?;
        let [_, head, entries @ ..] = parts.as_slice() else {
            panic!(rt; "a part is missing: {text}");
        };
        let [kind, _, _, _, _, day, ..] = head.map(|number| number.unwrap_or(0));
        let bytes = file_bytes(heap, head, entries)?;
        let mut place = Checked::new();
        let answer = check_as(kind, &mut place, &bytes, day);
        assert!(rt; answer.is_ok(), "the file is refused: {text}");
        Ok(Held::open(Foreseen::over(heap, place)?))
    }

    /// Nothing was written to these places.
    fn compare_untouched(&self, places: &[u64]) {
        let text = self.text;
        assert!(self.rt; places.iter().all(|place| *place == UNTOUCHED), "{text}");
    }

    /// Compares the front of a list with items, behind which nothing is touched.
    fn compare_items(&self, list: &[u64], items: &[Numbers]) {
        let Line { rt, text, .. } = *self;
        let places = items.len().saturating_mul(NUMBERS);
        let Some((due, rest)) = list.split_at_checked(places) else {
            panic!(rt; "too many items: {text}");
        };
        let (due, _) = due.as_chunks::<NUMBERS>();
        for (leaf, item) in due.iter().zip(items) {
            let [own, from, to, ..] = item.map(|number| u64::from(number.unwrap_or(0)));
            assert_eq!(rt; *leaf, [own, from, to], "{text}");
        }
        self.compare_untouched(rest);
    }

    /// A list that lacks a place is refused, and nothing is written to it.
    fn compare_short(&self, held: &Held, leaves: usize) -> Result<(), Fail> {
        let Line { rt, heap, text } = *self;
        let Some(places) = leaves.saturating_mul(NUMBERS).checked_sub(1) else {
            return Ok(());
        };
        let mut list = vec![in heap; UNTOUCHED; places]?;
        let refused = held
            .due_list(&mut list)
            .err()
            .map(|refused| refused.number());
        assert_eq!(rt; refused, Some(18), "{text}");
        self.compare_untouched(&list);
        Ok(())
    }

    /// Compares what is due with the items of a case.
    fn compare_due(&self, held: &Held, items: &[Numbers]) -> Result<(), Fail> {
        let Line { rt, text, .. } = *self;
        let mut list = [UNTOUCHED; PLACES];
        let Ok(leaves) = held.due_list(&mut list) else {
            panic!(rt; "the list is too short: {text}");
        };
        assert_eq!(rt; leaves, items.len(), "{text}");
        self.compare_items(&list, items);
        self.compare_short(held, leaves)
    }

    /// Compares a held contract with what a case tells of it at a clock.
    fn compare(
        &self,
        held: &Held,
        clock: u32,
        told: &Numbers,
        items: &[Numbers],
    ) -> Result<(), Fail> {
        let Line { rt, text, .. } = *self;
        let [nodes, end, ..] = *told;
        assert_eq!(rt; Some(u32::from(held.nodes())), nodes, "{text}");
        assert_eq!(rt; held.end_day(clock), end, "{text}");
        self.compare_due(held, items)
    }

    /// Runs what happens to a held contract.
    fn happens(&self, held: &mut Held) -> Result<(), Fail> {
        let Line { rt, heap, text } = *self;
        let parts = parts(heap, text.as_bytes())?;
        let [happens, told, items @ ..] = parts.as_slice() else {
            panic!(rt; "a part is missing: {text}");
        };
        let clock = match text.split_ascii_whitespace().next() {
            Some("opened") => held.foreseen().day(),
            Some("clock") => happens[1].unwrap_or(0),
            _ => {
                let refused = sent(held, happens)
                    .err()
                    .map(|refused| u32::from(refused.number()));
                if told[0] == Some(0) {
                    assert!(rt; refused.is_some() && refused == told[1], "{text}");
                    return Ok(());
                }
                assert_eq!(rt; refused, None, "{text}");
                happens[5].unwrap_or(0)
            }
        };
        self.compare(held, clock, told, items)
    }
}

/// Runs cases, one after the other: a file is opened in place of the one before. A line may be empty.
fn run(rt: &impl Abort, heap: Global, cases: &str) -> Result<(), Fail> {
    let mut held = Held::open(Foreseen::over(heap, Checked::new())?);
    for text in cases.lines().filter(|text| !text.is_empty()) {
        let line = Line { rt, heap, text };
        if text.starts_with(' ') {
            line.happens(&mut held)?;
        } else {
            held = line.opened()?;
        }
    }
    Ok(())
}
