//! What every kind of record has.
ghost use Rattle.std.specs.Prelude.{◌≡◌, ℕ, is_some};
ghost use Rattle.kinds.specs.Meaning.{Meaning, Lawful, row_after};

use crate::fields::{Conditions, Test};
use crate::rows::Row;

/// The last day; days run from 0. A kind's specimen meets its conditions on each of them.
pub const LAST_DAY: u32 = 65535;

/// A kind of record. Its calls refuse nothing, change nothing but the row that is lent to `meets`,
/// and answer what its meaning says.
pub trait Kind {
    /// A record of this kind.
    type Record;

    /// What the kind means: it depends on no value of the kind.
    ghost meaning: { Meaning Self.Record };

    /// The number that a value of the kind carries.
    ghost numbered: { Self → ℕ };

    /// The kind's own number, which no other kind has.
    // Kept as a number: a contract file says its kind by one byte.
    fn number(&self) -> u8
        ensures { result ≡ numbered self.now };

    /// Whether a test is admitted on a field, 1 to 4.
    // Kept as a number: docs/kinds.md numbers the fields of every kind from 1 to 4.
    fn admits(&self, field: u8, test: &Test) -> bool
        ensures { result ≡ meaning.admits field test.now };

    /// The day that a record bears.
    fn day(&self, record: &Self::Record) -> u32
        ensures { result ≡ meaning.day «record».now };

    /// Whether a record meets conditions under a row. If it does, the row is left as the one that
    /// results; otherwise it stays.
    // Kept as a yes or no beside a lent row: docs/DECISIONS.md has this form as asked for.
    fn meets(&self, conditions: &Conditions, row: &mut Row, record: &Self::Record) -> bool
        ensures answer { result ≡ is_some (meaning.meets conditions.now row.old «record».now) }
        ensures after { row.new ≡ row_after (meaning.meets conditions.now row.old «record».now) row.old };

    /// A record that bears the day and, if the conditions are admitted, meets them under the row.
    fn specimen(&self, conditions: &Conditions, row: &Row, day: u32) -> Self::Record
        ensures { result ≡ meaning.specimen conditions.now row.now day };

    /// The condition that every kind meets: for admitted conditions of listed values, any row and any
    /// day to `LAST_DAY`, the specimen bears that day and meets them.
    ghost lawful: { Lawful meaning };
}
