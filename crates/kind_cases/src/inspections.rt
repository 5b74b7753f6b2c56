//! Examples of inspections.
use crate::worked::{BEFORE, PASSED, PUTS, alone, held};
use kinds::{Conditions, Inspection, Inspections, Kind, LAST_DAY, Test};

fn inspection(vehicle: u32, check: u32, reading: i32, odometer: u32) -> Inspection {
    Inspection {
        vehicle,
        check,
        reading,
        odometer,
        day: 40,
    }
}

#[test]
fn modes_on_fields_without_sign(rt: HostRuntime) {
    for (i, (test, n, met)) in PASSED.into_iter().enumerate() {
        for (field, record) in [
            (1, inspection(n, 9, 9, 9)),
            (2, inspection(9, n, 9, 9)),
            (4, inspection(9, 9, 9, n)),
        ] {
            assert_eq!(rt;
                held(&Inspections, &alone(field, test), &record),
                (met, BEFORE),
                "case {i} on field {field}"
            );
        }
    }
}

#[test]
fn distances_of_the_reading(rt: HostRuntime) {
    let cases = [
        (1, 2, -2, false),
        (1, 2, -1, true),
        (1, 1, -1, false),
        (1, 2, 3, true),
        (1, 2, 4, false),
        (-5, 0, -5, true),
        (-5, 0, 5, false),
        (i32::MIN, u32::MAX, i32::MAX, true),
        (i32::MIN, u32::MAX - 1, i32::MAX, false),
        (i32::MAX, u32::MAX, i32::MIN, true),
        (i32::MAX, u32::MAX - 1, i32::MIN, false),
    ];
    for (i, (u, v, reading, met)) in cases.into_iter().enumerate() {
        let conditions = alone(3, Test::Near(u, v));
        assert_eq!(rt;
            held(&Inspections, &conditions, &inspection(9, 9, reading, 9)),
            (met, BEFORE),
            "case {i}"
        );
    }
}

#[test]
fn reads_before_and_puts_after(rt: HostRuntime) {
    let any = None;
    let below = Some(Test::AtLeastSlotPlus(2, 5));
    let near = Some(Test::Near(-3, 2));
    let [p, q, r, s] = PUTS;
    let put_all = [1, 2, 4_294_967_295, 17, 14, 15, 16, 4_294_967_290];
    let put_last = [17, 11, 12, 13, 14, 15, 16, 4_294_967_290];
    let put_lowest = [10, 11, 2_147_483_648, 13, 14, 15, 16, 4_294_967_290];
    let put_reading = [10, 11, 4_294_967_295, 13, 14, 15, 16, 4_294_967_290];
    let put_first = [1, 11, 12, 13, 14, 15, 16, 4_294_967_290];
    let cases = [
        // a negative reading is put in two's complement
        ([p, q, r, s], -1, 17, true, put_all),
        ([any, any, r, any], i32::MIN, 17, true, put_lowest),
        ([p, p, p, p], -1, 17, true, put_last),
        // the odometer is held to slot 2 as it was before the reading went there
        ([any, any, r, below], -1, 17, true, put_reading),
        ([any, any, r, below], -1, 16, false, BEFORE),
        // nothing is put where the reading is too far off
        ([p, any, near, any], -5, 17, true, put_first),
        ([p, any, near, any], 0, 17, false, BEFORE),
    ];
    for (i, (tests, reading, odometer, met, after)) in cases.into_iter().enumerate() {
        let record = inspection(1, 2, reading, odometer);
        assert_eq!(rt;
            held(&Inspections, &Conditions { tests }, &record),
            (met, after),
            "case {i}"
        );
    }
}

#[test]
fn specimens(rt: HostRuntime) {
    let cases = [
        (1, Test::Equals(500), inspection(500, 0, 0, 0)),
        (2, Test::Equals(500), inspection(0, 500, 0, 0)),
        (1, Test::EqualsSlot(3), inspection(13, 0, 0, 0)),
        (2, Test::EqualsSlot(3), inspection(0, 13, 0, 0)),
        (1, Test::Put(6), inspection(0, 0, 0, 0)),
        (2, Test::Put(6), inspection(0, 0, 0, 0)),
        (3, Test::Put(6), inspection(0, 0, 0, 0)),
        (4, Test::Put(6), inspection(0, 0, 0, 0)),
        (4, Test::AtLeastSlotPlus(0, 5), inspection(0, 0, 0, 15)),
        (
            4,
            Test::AtLeastSlotPlus(7, 10),
            inspection(0, 0, 0, 4_294_967_295),
        ),
        (3, Test::Near(-7, 0), inspection(0, 0, -7, 0)),
        (3, Test::Near(i32::MIN, 0), inspection(0, 0, i32::MIN, 0)),
    ];
    for (i, (field, test, wanted)) in cases.into_iter().enumerate() {
        let conditions = alone(field, test);
        let found = Inspections.specimen(&conditions, &BEFORE, LAST_DAY);
        let (met, _) = held(&Inspections, &conditions, &found);
        let wanted = Inspection {
            day: 65_535,
            ..wanted
        };
        assert_eq!(rt; (found, met), (wanted, true), "case {i}");
        assert_eq!(rt; Inspections.day(&found), 65_535, "case {i}");
    }
}
