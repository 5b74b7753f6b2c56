//! The durations of a file's templates, by rounds until one changes nothing, and the spans by them.
ghost use Rattle.std.specs.Prelude.{◌≡◌};
ghost use Rattle.language.specs.Ends as language;
ghost use Rattle.openings.specs.Clauses.{templates_of};
ghost use Rattle.spans.specs.Spans.{spans_of};

use crate::passes::{days_at, pass, told};
use crate::spans::Span;
use contract_file::{MOST_TEMPLATES, PLACES, ReadFile};
use openings::body;
use std::array;

/// Rounds are held at this. Each but the last lowers a duration.
const ROUNDS: usize = 1 + 65536 * MOST_TEMPLATES;

/// The durations by one more round of calls.
fn round(
    read: &ReadFile,
    durations: &[Option<u32>; MOST_TEMPLATES],
) -> [Option<u32>; MOST_TEMPLATES]
    ensures { result ≡ language.round (templates_of read.now.file) durations.now }
{
    let file = read.file();
    let lasts = pass(read, durations);
    array::from_fn(|place| days_at(&lasts, body(file, place as u8 + 1)))
}

/// The durations, from none known.
fn durations(read: &ReadFile) -> [Option<u32>; MOST_TEMPLATES]
    ensures { result ≡ language.durations (templates_of read.now.file) }
{
    let mut durations = [None; MOST_TEMPLATES];
    for _ in 0..ROUNDS {
        let next = round(read, &durations);
        if durations == next {
            return durations;
        }
        durations = next;
    }
    durations
}

/// The span of each entry of a file, at its number.
pub fn entry_spans(read: &ReadFile) -> [Span; PLACES]
    ensures { result ≡ spans_of read.now.file }
{
    let lasts = pass(read, &durations(read));
    told(read, &lasts)
}
