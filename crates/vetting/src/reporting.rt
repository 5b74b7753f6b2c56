//! The report on a file.
ghost use Rattle.std.specs.Prelude.{◌≡◌, IfOk, string_bytes};
ghost use Rattle.vetting.specs.Told.{answer_for, Reported};

use crate::verdict::Verdict;
use approval::{Checked, check};
use contract_file::{Fault, File};
use entries::Entry;
use kinds::{Inspections, Transfers};
use std::alloc::{AllocError, Global};
use words::{EntryWords, Names, Reason, byte};

/// How many templates a file has.
fn templates(file: &File) -> usize {
    file.entries
        .iter()
        .filter(|entry| matches!(entry, Entry::Template { .. }))
        .count()
}

/// A checked file in words: a summary, and a line for each entry.
fn listing(heap: Global, names: Names, checked: &Checked) -> Result<String, AllocError> {
    let file = checked.file();
    let kind = names.kind();
    let number = file.kind;
    let day = checked.day();
    let count = file.count;
    let templates = templates(file);
    let nodes = checked.nodes();
    let contract = file.contract;
    let mut text = format!(in heap;
        "kind {number} ({kind}), signing day {day}, entries {count}, templates {templates}, nodes on opening {nodes}, contract at entry {contract}\n"
    )?;
    for number in 1..=count {
        let entry = EntryWords {
            names,
            file,
            number,
        };
        writeln!(text, "{entry}")?;
    }
    Ok(text)
}

/// The answer of check for the kind that goes by these words.
fn check_as(names: Names, place: &mut Checked, bytes: &[u8], day: u32) -> Result<(), Fault>
    ensures { result ≡ answer_for names day bytes.now }
{
    match names {
        Names::Transfers => check(place, bytes, &Transfers, day),
        Names::Inspections => check(place, bytes, &Inspections, day),
    }
}

/// The report on the bytes of a file for a signing day. Its first line is the answer of check, for the kind that byte 0
/// picks; behind it stands, for people, the file or the fault in words.
pub fn report(heap: Global, bytes: &[u8], day: u32) -> Result<String, AllocError>
    ensures { IfOk result (λ s. Reported day bytes.now (string_bytes s)) }
{
    let names = Names::from(byte(bytes, 0));
    let mut place = Checked::new();
    let answer = check_as(names, &mut place, bytes, day);
    let verdict = Verdict(answer);
    let mut text = format!(in heap; "{verdict}")?;
    let words = match answer {
        Ok(()) => listing(heap, names, &place)?,
        Err(fault) => {
            let reason = Reason {
                names,
                bytes,
                day,
                fault,
            };
            format!(in heap; "{reason}\n")?
        }
    };
    text.push_str(words.as_str())?;
    Ok(text)
}
