//! Inspections: a reading taken of a vehicle.
ghost use Rattle.kinds.specs.Inspections.{inspections};
ghost use Rattle.kinds.specs.Specimens.{inspections_lawful};

use crate::fields::{Conditions, Field, Test};
use crate::interface::Kind;
use crate::rows::Row;

/// An inspection: its four fields in their order, and its day.
#[derive(Clone, Copy, Debug, PartialEq, Eq)]
pub struct Inspection {
    /// The vehicle inspected.
    pub vehicle: u32,
    /// What was checked.
    pub check: u32,
    /// What was read; the one field with a sign.
    pub reading: i32,
    /// The vehicle's odometer.
    pub odometer: u32,
    /// The day that the inspection bears.
    pub day: u32,
}

/// The kind of inspections.
#[derive(Clone, Copy, Debug, PartialEq, Eq)]
pub struct Inspections;

impl Inspections {
    /// The kind's number.
    pub const NUMBER: u8 = 2;
}

/// Vehicle and check take a number or a slot, the reading a distance, the odometer a sum, and every
/// field a put.
impl Kind for Inspections {
    type Record = Inspection;

    ghost meaning = { inspections };

    ghost numbered = { λ _. 2 };

    ghost lawful = { inspections_lawful };

    fn number(&self) -> u8 {
        Inspections::NUMBER
    }

    fn admits(&self, field: u8, test: &Test) -> bool {
        match *test {
            Test::Equals(_) | Test::EqualsSlot(_) => field <= 2,
            Test::Between(_, _) => false,
            Test::Put(_) => true,
            Test::AtLeastSlotPlus(_, _) => field == 4,
            Test::Near(_, _) => field == 3,
        }
    }

    fn day(&self, record: &Inspection) -> u32 {
        record.day
    }

    fn meets(&self, conditions: &Conditions, row: &mut Row, record: &Inspection) -> bool {
        let fields = [
            Field::from(record.vehicle),
            Field::from(record.check),
            Field::from(record.reading),
            Field::from(record.odometer),
        ];
        conditions.hold(row, fields)
    }

    fn specimen(&self, conditions: &Conditions, row: &Row, day: u32) -> Inspection {
        let [vehicle, check, reading, odometer] = conditions.chosen(row);
        Inspection {
            vehicle,
            check,
            reading: reading.cast_signed(),
            odometer,
            day,
        }
    }
}
