//! Transfers: so much of a resource, from one party to another.
ghost use Rattle.kinds.specs.Transfers.{transfers};
ghost use Rattle.kinds.specs.Specimens.{transfers_lawful};

use crate::fields::{Conditions, Field, Test};
use crate::interface::Kind;
use crate::rows::Row;

/// A transfer: its four fields in their order, and its day.
#[derive(Clone, Copy, Debug, PartialEq, Eq)]
pub struct Transfer {
    /// The party that gives.
    pub from: u32,
    /// The party that receives.
    pub to: u32,
    /// What is given.
    pub resource: u32,
    /// How much of it.
    pub amount: u32,
    /// The day that the transfer bears.
    pub day: u32,
}

/// The kind of transfers.
#[derive(Clone, Copy, Debug, PartialEq, Eq)]
pub struct Transfers;

impl Transfers {
    /// The kind's number.
    pub const NUMBER: u8 = 1;
}

/// Every field takes every test but a sum and a distance; a range is admitted only if it is not
/// empty.
impl Kind for Transfers {
    type Record = Transfer;

    ghost meaning = { transfers };

    ghost numbered = { λ _. 1 };

    ghost lawful = { transfers_lawful };

    fn number(&self) -> u8 {
        Transfers::NUMBER
    }

    fn admits(&self, _field: u8, test: &Test) -> bool {
        match *test {
            Test::Equals(_) | Test::EqualsSlot(_) | Test::Put(_) => true,
            Test::Between(u, v) => u <= v,
            Test::AtLeastSlotPlus(_, _) | Test::Near(_, _) => false,
        }
    }

    fn day(&self, record: &Transfer) -> u32 {
        record.day
    }

    fn meets(&self, conditions: &Conditions, row: &mut Row, record: &Transfer) -> bool {
        let fields = [record.from, record.to, record.resource, record.amount];
        conditions.hold(row, fields.map(Field::from))
    }

    fn specimen(&self, conditions: &Conditions, row: &Row, day: u32) -> Transfer {
        let [from, to, resource, amount] = conditions.chosen(row);
        Transfer {
            from,
            to,
            resource,
            amount,
            day,
        }
    }
}
