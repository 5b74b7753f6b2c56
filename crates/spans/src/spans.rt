//! How long a clause lasts at the least.
ghost use Rattle.std.specs.Prelude.{◌≡◌, count_by};
ghost use Rattle.spans.specs.Spans.{lasting};
ghost use Rattle.spans.specs.Rounds.{by_day, span_of};

use contract_file::PLACES;

/// When a clause can end, from a base day on.
#[derive(Clone, Copy, Debug, PartialEq, Eq)]
pub enum Span {
    /// On no day.
    Never,
    /// So many days after its base, whatever the base.
    After(u32),
    /// It reaches a calendar window, so that the end hangs on the base: the number of its row of ends by day.
    ByDay(u16),
}

impl From<Option<u32>> for Span {
    ghost from_gives = { λ days span. span ≡ lasting days };

    /// The span of a clause that lasts so many days.
    fn from(days: Option<u32>) -> Span {
        days.map_or(Span::Never, Span::After)
    }
}

impl Span {
    /// Does the end hang on the base?
    pub(crate) fn is_by_day(self) -> bool
        ensures { result ≡ by_day self }
    {
        matches!(self, Span::ByDay(_))
    }
}

/// What stands at a place of a table, and never past its end.
pub fn span_at(spans: &[Span], place: u16) -> Span
    ensures { result ≡ span_of spans.now place }
{
    spans
        .get(usize::from(place))
        .copied()
        .unwrap_or(Span::Never)
}

/// How many spans have a row.
pub fn row_count(spans: &[Span; PLACES]) -> u16
    ensures { result ≡ count_by by_day spans.now }
{
    spans.iter().filter(|span| span.is_by_day()).count() as u16
}
