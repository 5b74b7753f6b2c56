//! Passes over the entries, from the last to the first: what an entry points to lies above it.
ghost use Rattle.std.specs.Prelude.{◌≡◌};
ghost use Rattle.language.specs.Ends.{duration};
ghost use Rattle.spans.specs.Rounds.{of, following, entry_lasts, Passed, entry_dated, Told};

use crate::spans::{Span, span_at};
use contract_file::{MOST_TEMPLATES, PLACES, ReadFile};
use days::{Counted, day_after, earlier, later};
use entries::Entry;
use openings::fill_from_last;

/// The days at a place of a table, and none past its end.
pub(crate) fn days_at(days: &[Option<u32>], place: u16) -> Option<u32>
    ensures { result ≡ of days.now place }
{
    days.get(usize::from(place)).copied().flatten()
}

/// The duration of the template of a number.
fn duration(durations: &[Option<u32>; MOST_TEMPLATES], template: u8) -> Option<u32>
    ensures { result ≡ duration durations.now template }
{
    let place = template.checked_sub(1)?;
    days_at(durations, u16::from(place))
}

/// So many days and then so many more, if both are known and come to a day that a record may bear.
fn following(days: Option<u32>, more: Option<u32>) -> Option<u32>
    ensures { result ≡ following days more }
{
    day_after(days?, more?)
}

/// How many days an entry lasts, by the days of the entries above it and of the templates, where no window is by the calendar.
fn entry_lasts(
    entry: Entry,
    lasts: &[Option<u32>; PLACES],
    durations: &[Option<u32>; MOST_TEMPLATES],
) -> Option<u32>
    ensures { result ≡ entry_lasts lasts.now durations.now «entry» }
{
    match entry {
        Entry::Done => Some(0),
        Entry::Step { window, tail, .. } => following(window.reach(0, 0), days_at(lasts, tail)),
        Entry::Choice { left, right } => earlier(days_at(lasts, left), days_at(lasts, right)),
        Entry::Both { left, right } => later(days_at(lasts, left), days_at(lasts, right)),
        Entry::Then { left, right } => following(days_at(lasts, left), days_at(lasts, right)),
        Entry::Call { template, .. } => following(Some(0), duration(durations, template)),
        Entry::Lost | Entry::Template { .. } | Entry::Condition { .. } | Entry::Argument { .. } =>
            None,
    }
}

/// How many days each entry lasts, where the templates last as given.
pub(crate) fn pass(
    read: &ReadFile,
    durations: &[Option<u32>; MOST_TEMPLATES],
) -> [Option<u32>; PLACES]
    ensures { Passed read.now.file durations.now result }
{
    let file = read.file();
    fill_from_last(None, |number, lasts| {
        entry_lasts(file.at(number), lasts, durations)
    })
}

/// Does an entry reach a calendar window? The spans above it tell.
fn is_dated(entry: Entry, spans: &[Span; PLACES]) -> bool
    ensures { result ≡ entry_dated spans.now «entry» }
{
    match entry {
        Entry::Step { window, tail, .. } => window.counted == Counted::ByCalendar
            || span_at(spans, tail).is_by_day(),
        Entry::Choice { left, right } | Entry::Both { left, right } | Entry::Then { left, right } =>
            span_at(spans, left).is_by_day() || span_at(spans, right).is_by_day(),
        _ => false,
    }
}

/// The span of each entry, by how many days those last that reach no calendar window. The others are given rows, the last
/// of them the first.
pub(crate) fn told(read: &ReadFile, lasts: &[Option<u32>; PLACES]) -> [Span; PLACES]
    ensures { Told read.now.file lasts.now result }
{
    let file = read.file();
    let mut spans = [Span::Never; PLACES];
    let mut rows: u16 = 0;
    // Kept by index: behind `fill_from_last`, whose rule is told the spans alone, the rows given so far were counted anew for each.
    for at in (0..PLACES).rev() {
        let number = at as u16;
        if is_dated(file.at(number), &spans) {
            spans[at] = Span::ByDay(rows);
            rows += 1;
        } else {
            spans[at] = Span::from(days_at(lasts, number));
        }
    }
    spans
}
