//! What a condition asks and what an argument fills, in words.
use crate::names::Names;
use kinds::{Test, Value};
use std::fmt;

/// A test on a field, 1 to 4.
#[derive(Clone, Copy)]
pub struct TestWords {
    pub names: Names,
    pub field: u8,
    pub test: Test,
}

impl fmt::Display for TestWords {
    fn fmt<W: fmt::Write>(&self, f: &mut fmt::Formatter<W>) -> fmt::Result {
        let field = self.names.field(self.field);
        match self.test {
            Test::Equals(u) => write!(f, "{field} = {u}"),
            Test::Between(u, v) => write!(f, "{field} from {u} to {v}"),
            Test::EqualsSlot(b) => write!(f, "{field} = slot {b}"),
            Test::Put(b) => write!(f, "{field} into slot {b}"),
            Test::AtLeastSlotPlus(b, u) => write!(f, "{field} at least slot {b} + {u}"),
            Test::Near(u, v) => write!(f, "{field} at most {v} away from {u}"),
        }
    }
}

/// What fills a slot.
#[derive(Clone, Copy)]
pub struct FillingWords {
    pub slot: u8,
    pub value: Value,
}

impl fmt::Display for FillingWords {
    fn fmt<W: fmt::Write>(&self, f: &mut fmt::Formatter<W>) -> fmt::Result {
        let slot = self.slot;
        match self.value {
            Value::Constant(u) => write!(f, "slot {slot} = {u}"),
            Value::Slot(b) => write!(f, "slot {slot} = slot {b}"),
        }
    }
}
