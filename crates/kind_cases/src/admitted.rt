//! Which tests the two kinds admit on which fields, and what else a kind answers.
use kinds::{FIELDS, Inspection, Inspections, Kind, Test, Transfer, Transfers};

/// Which of the fields 1 to 4 a kind admits a test on.
fn fields<K: Kind>(kind: &K, test: &Test) -> [bool; FIELDS] {
    [1, 2, 3, 4].map(|field| kind.admits(field, test))
}

#[test]
fn tests_and_fields(rt: HostRuntime) {
    let all = [true; FIELDS];
    let none = [false; FIELDS];
    let first_two = [true, true, false, false];
    let third = [false, false, true, false];
    let fourth = [false, false, false, true];
    let cases = [
        // a test, the fields of a transfer, the fields of an inspection
        (Test::Equals(1), all, first_two),
        (Test::Between(7, 7), all, none),
        (Test::Between(8, 7), none, none),
        (Test::EqualsSlot(1), all, first_two),
        (Test::Put(1), all, all),
        (Test::AtLeastSlotPlus(1, 2), none, fourth),
        (Test::Near(1, 2), none, third),
    ];
    for (i, (test, transfer, inspection)) in cases.into_iter().enumerate() {
        assert_eq!(rt;
            (fields(&Transfers, &test), fields(&Inspections, &test)),
            (transfer, inspection),
            "case {i}"
        );
    }
}

#[test]
fn numbers_and_days(rt: HostRuntime) {
    let transfer = Transfer {
        from: 1,
        to: 2,
        resource: 3,
        amount: 4,
        day: 5,
    };
    let inspection = Inspection {
        vehicle: 1,
        check: 2,
        reading: 3,
        odometer: 4,
        day: 70_000,
    };
    assert_eq!(rt; (Transfers.number(), Inspections.number()), (1, 2));
    assert_eq!(rt;
        (Transfers.day(&transfer), Inspections.day(&inspection)),
        (5, 70_000)
    );
}
