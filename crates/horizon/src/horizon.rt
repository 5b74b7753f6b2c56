//! The horizon of a file: what is filled once, and looked up afterwards.
ghost use Rattle.std.specs.Prelude.{◌≡◌, ◌+◌, ◌*◌, slice_index_or, IfOk, OnOk};
ghost use Rattle.contract_file.specs.Fresh.{fresh};
ghost use Rattle.language.specs.Ends.{after, up_to};
ghost use Rattle.horizon.specs.Foretelling.{end_by, Foretells};
ghost use Rattle.horizon.specs.Filling.{entry_end, RowAdded};

use contract_file::{PLACES, ReadFile};
use days::{day_after, earlier, later};
use entries::Entry;
use kinds::LAST_DAY;
use spans::{Span, entry_spans, row_count, span_at};
use std::alloc::{AllocError, Global};

/// The days that a record may bear: the cells of a row.
pub const DAYS: usize = LAST_DAY as usize + 1;

/// The span of each entry's clause, and a row of ends for each that reaches a calendar window, one end for each base day.
#[derive(Drop)]
pub struct Horizon {
    pub(crate) spans: [Span; PLACES],
    // Kept as one list of cells: a list of rows would pass each row of 256 KiB over the stack, or take memory for each anew.
    pub(crate) rows: Vec<Option<u16>>,
}

impl Horizon {
    /// The horizon of a file. This alone takes memory: four bytes for each day of each row, all at once, and none for a file
    /// without calendar windows. Pointers lead up, so that the ends of an entry's parts are told before its own.
    pub fn over(heap: Global, read: &ReadFile) -> Result<Horizon, AllocError>
        ensures { IfOk result (λ h. Foretells read.now.file h.spans h.rows.items) }
    {
        let file = read.file();
        let spans = entry_spans(read);
        let rows = Vec::with_capacity(heap, usize::from(row_count(&spans)) * DAYS)?;
        let mut horizon = Horizon { spans, rows };
        // Kept by number: behind a `zip` that goes backwards no proof of what is told closed.
        for number in (0..PLACES as u16).rev() {
            if let Span::ByDay(_) = span_at(&spans, number) {
                horizon.push_row(file.at(number))?;
            }
        }
        Ok(horizon)
    }

    /// The horizon of a new file, whose one entry is lost.
    pub fn never(heap: Global) -> Horizon
        ensures { Foretells fresh result.spans result.rows.items }
    {
        Horizon {
            spans: [Span::Never; PLACES],
            rows: Vec::new(heap),
        }
    }

    /// The earliest end of an entry's clause from a base day.
    pub fn end(&self, clause: u16, base: u32) -> Option<u32>
        ensures { result ≡ end_by self.now.spans self.now.rows.items clause base }
    {
        match span_at(&self.spans, clause) {
            Span::Never => None,
            Span::After(days) => day_after(base, days),
            Span::ByDay(row) => self.cell(row, base).map(u32::from),
        }
    }

    /// The cell of a row and a day, and no end past the last.
    fn cell(&self, row: u16, base: u32) -> Option<u16>
        ensures { result ≡ slice_index_or self.now.rows.items (row * 65536 + base) None }
    {
        let place = usize::from(row) * DAYS + base as usize;
        self.rows.get(place).copied().flatten()
    }

    /// The earliest end of an entry's clause from a base day, by the ends of its parts. A call has no row to fill.
    fn entry_end(&self, entry: Entry, base: u32) -> Option<u32>
        ensures { result ≡ entry_end self.now.spans self.now.rows.items base «entry» }
    {
        match entry {
            Entry::Done => Some(base),
            Entry::Step { window, tail, .. } => self.end(tail, window.reach(base, base)?),
            Entry::Choice { left, right } => earlier(self.end(left, base), self.end(right, base)),
            Entry::Both { left, right } => later(self.end(left, base), self.end(right, base)),
            Entry::Then { left, right } => self.end(right, self.end(left, base)?),
            Entry::Lost
            | Entry::Call { .. }
            | Entry::Template { .. }
            | Entry::Condition { .. }
            | Entry::Argument { .. } => None,
        }
    }

    /// Adds the row of an entry, by the rows that stand.
    fn push_row(&mut self, entry: Entry) -> Result<(), AllocError>
        ensures spans { self.new.spans ≡ self.old.spans }
        ensures row { OnOk result (RowAdded self.old.spans «entry» self.old.rows.items self.new.rows.items 65536) }
    {
        for base in 0..=LAST_DAY {
            let end = self.entry_end(entry, base);
            self.rows.push(held(end))?;
        }
        Ok(())
    }
}

/// An end as a cell holds it: just the days that a record may bear fit.
#[tactic(auto, unfolding(language::specs::Ends::up_to))]
fn held(end: Option<u32>) -> Option<u16>
    ensures { result ≡ after end (up_to 65535) }
{
    u16::try_from(end?).ok()
}
