//! Rows of slots, and what an argument of a call puts into one.
ghost use Rattle.std.specs.Prelude.{◌≡◌, slice_index, slice_set};
ghost use Rattle.kinds.specs.Rows.{value_of};

/// How many slots a row has.
pub const SLOTS: usize = 8;

/// Eight slots, numbered from 0, each 32 bits without sign.
pub type Row = [u32; SLOTS];

/// What an argument of a call fills a slot with.
#[derive(Clone, Copy, Debug, PartialEq, Eq)]
pub enum Value {
    /// A number.
    Constant(u32),
    /// What this slot of the caller's row holds.
    Slot(u8),
}

/// An argument of a call.
#[derive(Clone, Copy, Debug, PartialEq, Eq)]
pub struct Filling {
    /// The slot of the callee's row that is filled.
    pub slot: u8,
    /// What it is filled with.
    pub value: Value,
}

impl Value {
    /// The number that is filled in, where the caller has this row.
    pub fn number(&self, caller: &Row) -> u32
        ensures { result ≡ value_of self.now caller.now }
    {
        match *self {
            Value::Constant(u) => u,
            Value::Slot(b) => slot(caller, b),
        }
    }
}

/// What a slot holds; 0 for a slot that the row does not have.
pub(crate) fn slot(row: &Row, b: u8) -> u32
    ensures { result ≡ slice_index row.now b }
{
    row.get(usize::from(b)).copied().unwrap_or(0)
}

/// Puts a number into a slot; a slot that the row does not have takes nothing.
pub fn put(row: &mut Row, slot: u8, number: u32)
    ensures { row.new ≡ slice_set row.old slot number }
{
    // Kept as a bound and an index: of what is written through an array's `get_mut`, a proof knows nothing.
    let slot = usize::from(slot);
    if slot < SLOTS {
        row[slot] = number;
    }
}
