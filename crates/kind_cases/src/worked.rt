//! What the examples of both kinds share.
use kinds::{Conditions, FIELDS, Kind, Row, Test, Value, put};
use std::array;

/// The row that the examples start from.
pub const BEFORE: Row = [10, 11, 12, 13, 14, 15, 16, 4_294_967_290];

/// A test, a field without sign, and whether it passes under `BEFORE`.
pub const PASSED: [(Test, u32, bool); 16] = [
    (Test::Equals(500), 499, false),
    (Test::Equals(500), 500, true),
    (Test::Between(5, 7), 4, false),
    (Test::Between(5, 7), 5, true),
    (Test::Between(5, 7), 7, true),
    (Test::Between(5, 7), 8, false),
    (Test::EqualsSlot(3), 12, false),
    (Test::EqualsSlot(3), 13, true),
    (Test::AtLeastSlotPlus(0, 5), 14, false),
    (Test::AtLeastSlotPlus(0, 5), 15, true),
    (Test::AtLeastSlotPlus(7, 10), 4, false),
    (Test::AtLeastSlotPlus(7, 10), 4_294_967_294, false),
    (Test::AtLeastSlotPlus(7, 10), 4_294_967_295, true),
    (Test::Near(-1, 5), 4, true),
    (Test::Near(-1, 5), 5, false),
    (Test::Near(-1, 5), 4_294_967_295, false),
];

/// Each field put into a slot of its own.
pub const PUTS: [Option<Test>; FIELDS] = [
    Some(Test::Put(0)),
    Some(Test::Put(1)),
    Some(Test::Put(2)),
    Some(Test::Put(3)),
];

/// What one field has, 1 to 4, and what each of the others has.
pub fn on<T: Copy>(field: usize, value: T, others: T) -> [T; FIELDS] {
    array::from_fn(|i| if i + 1 == field { value } else { others })
}

/// A test on one field, 1 to 4, and none on the others.
pub fn alone(field: usize, test: Test) -> Conditions {
    Conditions {
        tests: on(field, Some(test), None),
    }
}

/// Whether a record meets conditions under `BEFORE`, and the row that is left.
pub fn held<K: Kind>(kind: &K, conditions: &Conditions, record: &K::Record) -> (bool, Row) {
    let mut row = BEFORE;
    let met = kind.meets(conditions, &mut row, record);
    (met, row)
}

#[test]
fn slots_take_and_give(rt: HostRuntime) {
    let mut row = BEFORE;
    put(&mut row, 7, 1);
    put(&mut row, 8, 2);
    assert_eq!(rt; row, [10, 11, 12, 13, 14, 15, 16, 1]);
    assert_eq!(rt; Value::Constant(5).number(&row), 5);
    assert_eq!(rt; Value::Slot(3).number(&row), 13);
    assert_eq!(rt; Value::Slot(8).number(&row), 0);
}
