//! Examples of transfers.
use crate::worked::{BEFORE, PASSED, PUTS, alone, held, on};
use kinds::{Conditions, FIELDS, Kind, LAST_DAY, Test, Transfer, Transfers};

fn transfer([from, to, resource, amount]: [u32; FIELDS]) -> Transfer {
    Transfer {
        from,
        to,
        resource,
        amount,
        day: 40,
    }
}

#[test]
fn modes_on_every_field(rt: HostRuntime) {
    for (i, (test, n, met)) in PASSED.into_iter().enumerate() {
        for field in 1..=FIELDS {
            let record = transfer(on(field, n, 9));
            assert_eq!(rt;
                held(&Transfers, &alone(field, test), &record),
                (met, BEFORE),
                "case {i} on field {field}"
            );
        }
    }
}

#[test]
fn reads_before_and_puts_after(rt: HostRuntime) {
    let any = None;
    let same = Some(Test::EqualsSlot(2));
    let five = Some(Test::Equals(5));
    let [p, q, r, s] = PUTS;
    let put_all = [1, 2, 3, 4, 14, 15, 16, 4_294_967_290];
    let put_last = [4, 11, 12, 13, 14, 15, 16, 4_294_967_290];
    let put_third = [3, 11, 12, 13, 14, 15, 16, 4_294_967_290];
    let put_first = [10, 11, 1, 13, 14, 15, 16, 4_294_967_290];
    let cases = [
        // no condition takes any record
        ([any, any, any, any], 2, true, BEFORE),
        // each field into its own slot; of several into one slot the last in field order stays
        ([p, q, r, s], 2, true, put_all),
        ([p, p, p, p], 2, true, put_last),
        ([p, any, p, any], 2, true, put_third),
        // a slot is read as it was before the record, also where the record puts into it
        ([r, same, any, any], 12, true, put_first),
        ([r, same, any, any], 1, false, BEFORE),
        // one field that disagrees, first or last, and nothing is put
        ([five, q, r, s], 2, false, BEFORE),
        ([p, q, r, five], 2, false, BEFORE),
    ];
    for (i, (tests, to, met, after)) in cases.into_iter().enumerate() {
        assert_eq!(rt;
            held(&Transfers, &Conditions { tests }, &transfer([1, to, 3, 4])),
            (met, after),
            "case {i}"
        );
    }
}

#[test]
fn specimens(rt: HostRuntime) {
    let cases = [
        (Test::Equals(500), 500),
        (Test::Between(5, 7), 5),
        (Test::EqualsSlot(3), 13),
        (Test::Put(6), 0),
    ];
    for (i, (test, n)) in cases.into_iter().enumerate() {
        for field in 1..=FIELDS {
            let wanted = Transfer {
                day: 65_535,
                ..transfer(on(field, n, 0))
            };
            let conditions = alone(field, test);
            let found = Transfers.specimen(&conditions, &BEFORE, LAST_DAY);
            let (met, _) = held(&Transfers, &conditions, &found);
            assert_eq!(rt; (found, met), (wanted, true), "case {i} on field {field}");
            assert_eq!(rt; Transfers.day(&found), 65_535);
        }
    }
}
