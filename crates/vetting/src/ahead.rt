//! What a contract comes to when it is opened: what is due, and the earliest end.
use held::Held;
use openings::MOST_NODES;
use std::alloc::{AllocError, Global};

/// What is told of each leaf that is due: its entry, and its first and last day.
const NUMBERS: usize = 3;

/// Places for all leaves of the largest term.
const PLACES: usize = NUMBERS * MOST_NODES;

/// A line for each open step.
fn due(heap: Global, held: &Held, day: u32) -> Result<String, AllocError> {
    // Kept as a list with its count beside it: the running contract writes into memory that is lent, and allocates nothing.
    let mut list = [0; PLACES];
    // Kept as 0 for a list that is too short: that no term has more leaves than nodes is not in a contract of `Held`.
    let leaves = held.due_list(&mut list).unwrap_or(0);
    if leaves == 0 {
        return String::from_str(heap, "due: nothing\n");
    }
    let mut text = String::new(heap);
    let (items, _) = list.as_chunks::<NUMBERS>();
    for [entry, first, last] in items.iter().take(leaves) {
        let past = if *last < u64::from(day) {
            ", which is past"
        } else {
            ""
        };
        writeln!(
            text,
            "due: entry {entry}, from day {first} to day {last}{past}"
        )?;
    }
    Ok(text)
}

/// What is due on a day, and the earliest end from that day on.
pub fn prospects(heap: Global, held: &Held, day: u32) -> Result<String, AllocError> {
    let mut text = due(heap, held, day)?;
    match held.end_day(day) {
        Some(end) => writeln!(text, "earliest end: day {end}")?,
        None => writeln!(text, "earliest end: none, no records can perform it")?,
    }
    Ok(text)
}
