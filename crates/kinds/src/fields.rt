//! What is asked of one field of a record, and of its four fields together.
ghost use Rattle.std.specs.Prelude.{◌≡◌, is_some, map};
ghost use Rattle.std.specs.Int.{cast_signed, w32};
ghost use Rattle.kinds.specs.Fields.{passes, filled, chosen, chosen_signed, chosen_if, chosen_signed_if, all_pass, all_filled, held, unsigned, signed};
ghost use Rattle.kinds.specs.Meaning.{row_after};

use crate::rows::{Row, put, slot};

/// How many fields of a record can have a condition.
pub const FIELDS: usize = 4;

/// What is asked of one field.
#[derive(Clone, Copy, Debug, PartialEq, Eq)]
pub enum Test {
    /// The field equals the number.
    Equals(u32),
    /// The field lies from the first number to the second, both included.
    Between(u32, u32),
    /// The field equals what the slot holds.
    EqualsSlot(u8),
    /// The field is any value, and is put into the slot.
    Put(u8),
    /// The field is at least what the slot holds plus the number, a sum past 32 bits being held at
    /// their greatest number.
    AtLeastSlotPlus(u8, u32),
    /// The field is at most the second number away from the first, which is signed.
    Near(i32, u32),
}

/// What a step asks of the four fields of a record, in their order: at most one test to a field. A
/// field without a test takes any value.
#[derive(Clone, Copy, Debug, PartialEq, Eq)]
pub struct Conditions {
    /// The test of each field.
    pub tests: [Option<Test>; FIELDS],
}

/// A field of a record: its 32 bits, and the number that they stand for.
#[derive(Clone, Copy, Debug, PartialEq, Eq)]
pub struct Field {
    /// The bits, as a slot holds them.
    pub bits: u32,
    /// The number.
    pub value: i64,
}

/// A field without sign.
impl From<u32> for Field {
    ghost from_gives = { λ n field. field ≡ unsigned n };

    fn from(n: u32) -> Self {
        Field {
            bits: n,
            value: i64::from(n),
        }
    }
}

/// A signed field; its bits are its two's complement.
impl From<i32> for Field {
    ghost from_gives = { λ n field. field ≡ signed n };

    fn from(n: i32) -> Self {
        Field {
            bits: n.cast_unsigned(),
            value: i64::from(n),
        }
    }
}

impl Test {
    /// Whether a field passes, under the row from before the record.
    fn passes(&self, row: &Row, field: &Field) -> bool
        ensures { result ≡ passes self.now row.now field.now }
    {
        match *self {
            Test::Equals(u) => field.bits == u,
            Test::Between(u, v) => (u..=v).contains(&field.bits),
            Test::EqualsSlot(b) => field.bits == slot(row, b),
            Test::Put(_) => true,
            Test::AtLeastSlotPlus(b, u) => slot(row, b).saturating_add(u) <= field.bits,
            Test::Near(u, v) => field.value.abs_diff(i64::from(u)) <= u64::from(v),
        }
    }

    /// Puts the field into the row, if the test is a put.
    fn fill(&self, field: &Field, row: &mut Row)
        ensures { row.new ≡ filled self.now field.now row.old }
    {
        if let Test::Put(b) = *self {
            put(row, b, field.bits);
        }
    }

    /// The bits of the specimen's value.
    fn chosen(&self, row: &Row) -> u32
        ensures bits { result ≡ chosen self.now row.now }
        ensures signed { cast_signed w32 result ≡ chosen_signed self.now row.now }
    {
        match *self {
            Test::Equals(u) | Test::Between(u, _) => u,
            Test::EqualsSlot(b) => slot(row, b),
            Test::Put(_) => 0,
            Test::AtLeastSlotPlus(b, u) => slot(row, b).saturating_add(u),
            Test::Near(u, _) => u.cast_unsigned(),
        }
    }
}

impl Conditions {
    /// Whether the fields pass their tests. If all do, the row then has what they put, in their
    /// order; otherwise it stays.
    pub(crate) fn hold(&self, row: &mut Row, fields: [Field; FIELDS]) -> bool
        ensures answer { result ≡ is_some (held self.now.tests row.old fields) }
        ensures after { row.new ≡ row_after (held self.now.tests row.old fields) row.old }
    {
        let met = self.all_pass(row, &fields);
        if met {
            self.fill_all(&fields, row);
        }
        met
    }

    /// Whether the fields pass their tests; without a test any does.
    fn all_pass(&self, row: &Row, fields: &[Field; FIELDS]) -> bool
        ensures { result ≡ all_pass self.now.tests row.now fields.now }
    {
        let mut asked = self.tests.iter().zip(fields);
        asked.all(|(test, field)| test.is_none_or(|test| test.passes(row, field)))
    }

    /// Puts the fields into the row whose tests are puts, in their order.
    fn fill_all(&self, fields: &[Field; FIELDS], row: &mut Row)
        ensures { row.new ≡ all_filled self.now.tests fields.now row.old }
    {
        for (test, field) in self.tests.iter().zip(fields) {
            if let Some(test) = test {
                test.fill(field, row);
            }
        }
    }

    /// The bits of the specimen's values; 0 without a test.
    pub(crate) fn chosen(&self, row: &Row) -> [u32; FIELDS]
        ensures bits { result ≡ map (λ test. chosen_if test row.now) self.now.tests }
        ensures signed { map (cast_signed w32) result ≡ map (λ test. chosen_signed_if test row.now) self.now.tests }
    {
        self.tests
            .map(|test| test.map_or(0, |test| test.chosen(row)))
    }
}
