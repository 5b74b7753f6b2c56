//! Reports compared, word for word: contracts, what is said where bytes of them are changed, and what they come to.
#![tactic(auto)]

use approval::Checked;
use file_cases::check_as;
use held::{Foreseen, Held};
use std::alloc::{AllocError, Global};
use vetting::{prospects, report};

/// The head of a file, and its entries: tag, k, and then a, b and next of two bytes, u and v of four.
pub struct Contract {
    pub head: [u8; 8],
    pub entries: &'static [[u8; 16]],
}

/// Delivery within 14 days, and then payment within 8.
pub const DELIVERY: Contract = Contract {
    head: [1, 1, 0, 10, 0, 0, 0, 1],
    entries: &[
        [3, 0, 0, 2, 0, 4, 0, 0, 0, 0, 0, 0, 0, 0, 0, 14],
        [3, 0, 0, 3, 0, 7, 0, 0, 0, 0, 0, 0, 0, 0, 0, 8],
        [1, 0, 0, 0, 0, 0, 0, 0, 0, 0, 0, 0, 0, 0, 0, 0],
        [9, 1, 0, 1, 0, 0, 0, 5, 0, 0, 0, 2, 0, 0, 0, 0],
        [9, 2, 0, 1, 0, 0, 0, 6, 0, 0, 0, 1, 0, 0, 0, 0],
        [9, 3, 0, 1, 0, 0, 0, 0, 0, 0, 0, 7, 0, 0, 0, 0],
        [9, 1, 0, 1, 0, 0, 0, 8, 0, 0, 0, 1, 0, 0, 0, 0],
        [9, 2, 0, 1, 0, 0, 0, 9, 0, 0, 0, 2, 0, 0, 0, 0],
        [9, 3, 0, 1, 0, 0, 0, 10, 0, 0, 0, 1, 0, 0, 0, 0],
        [9, 4, 0, 1, 0, 0, 0, 0, 0, 0, 1, 244, 0, 0, 0, 0],
    ],
};

/// A monthly step that may go on: a template that calls itself behind its step.
pub const MONTHLY: Contract = Contract {
    head: [1, 1, 0, 6, 0, 2, 0, 1],
    entries: &[
        [7, 1, 0, 0, 0, 0, 0, 0, 0, 0, 0, 0, 0, 0, 0, 0],
        [8, 1, 0, 3, 0, 0, 0, 0, 0, 0, 0, 0, 0, 0, 0, 0],
        [3, 0, 0, 4, 0, 0, 0, 0, 0, 0, 0, 28, 0, 0, 0, 31],
        [4, 0, 0, 5, 0, 6, 0, 0, 0, 0, 0, 0, 0, 0, 0, 0],
        [1, 0, 0, 0, 0, 0, 0, 0, 0, 0, 0, 0, 0, 0, 0, 0],
        [7, 1, 0, 0, 0, 0, 0, 0, 0, 0, 0, 0, 0, 0, 0, 0],
    ],
};

/// A wheel inspection that is called with arguments, and behind it a choice of plans.
pub const WHEELS: Contract = Contract {
    head: [2, 1, 0, 23, 0, 16, 0, 1],
    entries: &[
        [6, 0, 0, 2, 0, 3, 0, 0, 0, 0, 0, 0, 0, 0, 0, 0],
        [7, 1, 0, 0, 0, 12, 0, 0, 0, 0, 0, 0, 0, 0, 0, 0],
        [4, 0, 0, 4, 0, 5, 0, 0, 0, 0, 0, 0, 0, 0, 0, 0],
        [1, 0, 0, 0, 0, 0, 0, 0, 0, 0, 0, 0, 0, 0, 0, 0],
        [5, 0, 0, 6, 0, 7, 0, 0, 0, 0, 0, 0, 0, 0, 0, 0],
        [3, 1, 0, 8, 0, 14, 0, 0, 0, 0, 0, 100, 0, 0, 0, 200],
        [4, 0, 0, 9, 0, 10, 0, 0, 0, 0, 0, 0, 0, 0, 0, 0],
        [1, 0, 0, 0, 0, 0, 0, 0, 0, 0, 0, 0, 0, 0, 0, 0],
        [2, 0, 0, 0, 0, 0, 0, 0, 0, 0, 0, 0, 0, 0, 0, 0],
        [3, 0, 0, 11, 0, 0, 0, 0, 0, 0, 0, 28, 0, 0, 0, 31],
        [1, 0, 0, 0, 0, 0, 0, 0, 0, 0, 0, 0, 0, 0, 0, 0],
        [10, 0, 0, 1, 0, 0, 0, 13, 0, 0, 0, 42, 0, 0, 0, 0],
        [10, 3, 0, 2, 0, 1, 0, 0, 0, 0, 0, 0, 0, 0, 0, 0],
        [9, 1, 0, 1, 0, 0, 0, 15, 0, 0, 0, 7, 0, 0, 0, 0],
        [9, 4, 0, 4, 0, 2, 0, 0, 0, 0, 0, 0, 0, 0, 0, 0],
        [8, 1, 0, 17, 0, 0, 0, 0, 0, 0, 0, 0, 0, 0, 0, 0],
        [3, 0, 0, 18, 0, 20, 0, 0, 0, 0, 0, 0, 0, 0, 0, 30],
        [4, 0, 0, 19, 0, 22, 0, 0, 0, 0, 0, 0, 0, 0, 0, 0],
        [1, 0, 0, 0, 0, 0, 0, 0, 0, 0, 0, 0, 0, 0, 0, 0],
        [9, 1, 0, 3, 0, 0, 0, 21, 0, 0, 0, 0, 0, 0, 0, 0],
        [9, 3, 0, 6, 0, 0, 0, 23, 255, 255, 255, 255, 0, 0, 0, 5],
        [7, 1, 0, 0, 0, 0, 0, 0, 0, 0, 0, 0, 0, 0, 0, 0],
        [9, 4, 0, 5, 0, 2, 0, 0, 0, 0, 1, 244, 0, 0, 0, 0],
    ],
};

/// A place past the end of each: nothing is changed.
// Kept as a place that no file has: in a table it is plainer than an option at each edit.
pub const NOWHERE: usize = 9999;

/// Two bytes changed, and the report.
pub struct Case {
    pub name: &'static str,
    pub edits: [(usize, u8); 2],
    pub day: u32,
    pub text: &'static str,
}

pub const ON_DELIVERY: [Case; 15] = [
    Case {
        name: "unchanged",
        edits: [(NOWHERE, 0), (NOWHERE, 0)],
        day: 100,
        text: "ok\nkind 1 (transfers), signing day 100, entries 10, templates 0, nodes on opening 1, contract at entry 1\n1 step, days 0 to 14 after its base, from = 2, to = 1, resource = 7, then 2\n2 step, days 0 to 8 after its base, from = 1, to = 2, resource = 1, amount = 500, then 3\n3 done\n4 condition, from = 2, next 5\n5 condition, to = 1, next 6\n6 condition, resource = 7, the last of its chain\n7 condition, from = 1, next 8\n8 condition, to = 2, next 9\n9 condition, resource = 1, next 10\n10 condition, amount = 500, the last of its chain\n",
    },
    Case {
        name: "eleven entries told",
        edits: [(3, 11), (NOWHERE, 0)],
        day: 0,
        text: "no 1 0\nthe head tells 11 entries, and the file has 168 bytes, where 8 and 16 for each of 1 to 256 entries belong\n",
    },
    Case {
        name: "version 2",
        edits: [(1, 2), (NOWHERE, 0)],
        day: 0,
        text: "no 2 0\nbyte 1 is 2, and has to be 1\n",
    },
    Case {
        name: "tag 11",
        edits: [(40, 11), (NOWHERE, 0)],
        day: 0,
        text: "no 3 3\nentry 3 has the tag 11, and there are only the tags 1 to 10\n",
    },
    Case {
        name: "a done with contents",
        edits: [(41, 1), (NOWHERE, 0)],
        day: 0,
        text: "no 3 3\nentry 3, a done, has a value that is not listed, or something other than zero in a place that it does not use\n",
    },
    Case {
        name: "a tail that is its own",
        edits: [(11, 1), (NOWHERE, 0)],
        day: 0,
        text: "no 4 1\nentry 1 points to 1 and 4, and not each of them is an entry of the right sort with a higher number, or 0 where a chain may end\n",
    },
    Case {
        name: "a contract that is a condition",
        edits: [(7, 4), (NOWHERE, 0)],
        day: 0,
        text: "no 4 0\nthe head points to 4 as the contract, which has to be a clause of the file, and to 0 as the first template, which has to be a template of the file or 0\n",
    },
    Case {
        name: "a field twice",
        edits: [(73, 1), (NOWHERE, 0)],
        day: 0,
        text: "no 5 5\nentry 5, a condition on field 1 (from), follows one on the same or a later field\n",
    },
    Case {
        name: "a call of no template",
        edits: [(40, 7), (41, 1)],
        day: 0,
        text: "no 6 3\nentry 3 calls template 1, which does not stand on the chain of templates, or is not below the template whose body comes to this call with no step before it\n",
    },
    Case {
        name: "days that fall",
        edits: [(19, 15), (NOWHERE, 0)],
        day: 0,
        text: "no 7 1\nentry 1, a step, has its first day 15 after its last day 14\n",
    },
    Case {
        name: "a day too late",
        edits: [(21, 1), (NOWHERE, 0)],
        day: 0,
        text: "no 7 1\nentry 1, a step, has its last day 65550 after the last day there is, 65535\n",
    },
    Case {
        name: "kind 3",
        edits: [(0, 3), (NOWHERE, 0)],
        day: 0,
        text: "no 8 0\nbyte 0 is 3, and has to be 1 for transfers or 2 for inspections\n",
    },
    Case {
        name: "a sum for transfers",
        edits: [(155, 5), (NOWHERE, 0)],
        day: 0,
        text: "no 9 10\nentry 10 asks: amount at least slot 0 + 500, which transfers do not admit\n",
    },
    Case {
        name: "the same as an inspection",
        edits: [(0, 2), (NOWHERE, 0)],
        day: 0,
        text: "no 9 6\nentry 6 asks: reading = 7, which inspections do not admit\n",
    },
    Case {
        name: "signed too late",
        edits: [(NOWHERE, 0), (NOWHERE, 0)],
        day: 65536,
        text: "no 11 0\nthe signing day 65536 is after the last day there is, 65535\n",
    },
];

pub const ON_MONTHLY: [Case; 3] = [
    Case {
        name: "unchanged",
        edits: [(NOWHERE, 0), (NOWHERE, 0)],
        day: 0,
        text: "ok\nkind 1 (transfers), signing day 0, entries 6, templates 1, nodes on opening 1, contract at entry 1\n1 call of template 1\n2 template 1, body 3, the last of its chain\n3 step, days 28 to 31 after its base, then 4\n4 choice, 5 or 6\n5 done\n6 call of template 1\n",
    },
    Case {
        name: "template 2 alone",
        edits: [(25, 2), (NOWHERE, 0)],
        day: 0,
        text: "no 5 2\nentry 2, template 2, does not stand at place 2 of the chain of templates\n",
    },
    Case {
        name: "a body by the calendar",
        edits: [(41, 1), (NOWHERE, 0)],
        day: 0,
        text: "no 7 3\nentry 3, a step by the calendar, is reached from the body of a template\n",
    },
];

/// What is told of contracts that pass, and then what they come to when they are opened: what is due, and the earliest end.
pub const AHEAD_OF_DELIVERY: [Case; 3] = [
    Case {
        name: "unchanged",
        edits: [(NOWHERE, 0), (NOWHERE, 0)],
        day: 100,
        text: "ok\nkind 1 (transfers), signing day 100, entries 10, templates 0, nodes on opening 1, contract at entry 1\n1 step, days 0 to 14 after its base, from = 2, to = 1, resource = 7, then 2\n2 step, days 0 to 8 after its base, from = 1, to = 2, resource = 1, amount = 500, then 3\n3 done\n4 condition, from = 2, next 5\n5 condition, to = 1, next 6\n6 condition, resource = 7, the last of its chain\n7 condition, from = 1, next 8\n8 condition, to = 2, next 9\n9 condition, resource = 1, next 10\n10 condition, amount = 500, the last of its chain\ndue: entry 1, from day 100 to day 114\nearliest end: day 100\n",
    },
    Case {
        name: "a contract that is done",
        edits: [(7, 3), (NOWHERE, 0)],
        day: 100,
        text: "ok\nkind 1 (transfers), signing day 100, entries 10, templates 0, nodes on opening 1, contract at entry 3\n1 step, days 0 to 14 after its base, from = 2, to = 1, resource = 7, then 2\n2 step, days 0 to 8 after its base, from = 1, to = 2, resource = 1, amount = 500, then 3\n3 done\n4 condition, from = 2, next 5\n5 condition, to = 1, next 6\n6 condition, resource = 7, the last of its chain\n7 condition, from = 1, next 8\n8 condition, to = 2, next 9\n9 condition, resource = 1, next 10\n10 condition, amount = 500, the last of its chain\ndue: nothing\nearliest end: day 100\n",
    },
    Case {
        name: "a window that is past",
        edits: [(9, 1), (NOWHERE, 0)],
        day: 100,
        text: "ok\nkind 1 (transfers), signing day 100, entries 10, templates 0, nodes on opening 1, contract at entry 1\n1 step, days 0 to 14 of the calendar, from = 2, to = 1, resource = 7, then 2\n2 step, days 0 to 8 after its base, from = 1, to = 2, resource = 1, amount = 500, then 3\n3 done\n4 condition, from = 2, next 5\n5 condition, to = 1, next 6\n6 condition, resource = 7, the last of its chain\n7 condition, from = 1, next 8\n8 condition, to = 2, next 9\n9 condition, resource = 1, next 10\n10 condition, amount = 500, the last of its chain\ndue: entry 1, from day 0 to day 14, which is past\nearliest end: none, no records can perform it\n",
    },
];

pub const AHEAD_OF_MONTHLY: [Case; 1] = [Case {
    name: "unchanged",
    edits: [(NOWHERE, 0), (NOWHERE, 0)],
    day: 0,
    text: "ok\nkind 1 (transfers), signing day 0, entries 6, templates 1, nodes on opening 1, contract at entry 1\n1 call of template 1\n2 template 1, body 3, the last of its chain\n3 step, days 28 to 31 after its base, then 4\n4 choice, 5 or 6\n5 done\n6 call of template 1\ndue: entry 3, from day 28 to day 31\nearliest end: day 28\n",
}];

pub const AHEAD_OF_WHEELS: [Case; 1] = [Case {
    name: "unchanged",
    edits: [(NOWHERE, 0), (NOWHERE, 0)],
    day: 100,
    text: "ok\nkind 2 (inspections), signing day 100, entries 23, templates 1, nodes on opening 2, contract at entry 1\n1 then, first 2 and behind it 3\n2 call of template 1, slot 0 = 42, slot 3 = slot 1\n3 choice, 4 or 5\n4 done\n5 both, 6 and 7\n6 step, days 100 to 200 of the calendar, vehicle = 7, odometer into slot 2, then 8\n7 choice, 9 or 10\n8 done\n9 lost\n10 step, days 28 to 31 after its base, then 11\n11 done\n12 argument, slot 0 = 42, next 13\n13 argument, slot 3 = slot 1, the last of its chain\n14 condition, vehicle = 7, next 15\n15 condition, odometer into slot 2, the last of its chain\n16 template 1, body 17, the last of its chain\n17 step, days 0 to 30 after its base, vehicle = slot 0, reading at most 5 away from -1, odometer at least slot 2 + 500, then 18\n18 choice, 19 or 22\n19 done\n20 condition, vehicle = slot 0, next 21\n21 condition, reading at most 5 away from -1, next 23\n22 call of template 1\n23 condition, odometer at least slot 2 + 500, the last of its chain\ndue: entry 17, from day 100 to day 130\nearliest end: day 100\n",
}];

/// The bytes of a contract.
pub fn bytes_of(heap: Global, contract: &Contract) -> Result<Vec<u8>, AllocError> {
    let mut bytes = contract.head.to_vec(heap)?;
    bytes.extend_from_slice(contract.entries.as_flattened())?;
    Ok(bytes)
}

/// The bytes of a contract with some of them changed.
fn changed(
    heap: Global,
    contract: &Contract,
    edits: &[(usize, u8)],
) -> Result<Vec<u8>, AllocError> {
    let mut bytes = bytes_of(heap, contract)?;
    for (at, byte) in edits {
        if let Some(place) = bytes.get_mut(*at) {
            *place = *byte;
        }
    }
    Ok(bytes)
}

// Kept as parameters: a test reads as its case is written.
/// The report on a contract with some bytes changed.
pub fn edited(
    heap: Global,
    contract: &Contract,
    edits: &[(usize, u8)],
    day: u32,
) -> Result<String, AllocError> {
    let bytes = changed(heap, contract, edits)?;
    report(heap, &bytes, day)
}

/// Opens a contract on its signing day; where it is refused, a new place in its stead.
fn opened(heap: Global, bytes: &[u8], day: u32) -> Result<Held, AllocError> {
    let mut place = Checked::new();
    let kind = bytes.first().map_or(0, |kind| u32::from(*kind));
    if check_as(kind, &mut place, bytes, day).is_err() {
        place = Checked::new();
    }
    Ok(Held::open(Foreseen::over(heap, place)?))
}

/// The report on a contract with some bytes changed, and then what it comes to.
pub fn looked_ahead(
    heap: Global,
    contract: &Contract,
    edits: &[(usize, u8)],
    day: u32,
) -> Result<String, AllocError> {
    let bytes = changed(heap, contract, edits)?;
    let mut text = report(heap, &bytes, day)?;
    let ahead = prospects(heap, &opened(heap, &bytes, day)?, day)?;
    text.push_str(ahead.as_str())?;
    Ok(text)
}

#[cfg(test)]
mod tests {
    use super::*;
    use std::process::Abort;
    use std::test::Fail;

    /// Compares what is told in each case with its text.
    fn compare<F: Fn([(usize, u8); 2], u32) -> Result<String, AllocError>>(
        rt: &impl Abort,
        cases: &[Case],
        told: F,
    ) -> Result<(), Fail>
        requires { F.IsAlwaysCallable told }
    {
        for case in cases {
            let text = told(case.edits, case.day)?;
            assert_eq!(rt; text.as_str(), case.text, "{}", case.name);
        }
        Ok(())
    }

    #[test]
    fn delivery(rt: HostRuntime) -> Result<(), Fail> {
        let heap = rt.alloc();
        compare(
            &rt,
            &ON_DELIVERY,
            |edits, day| edited(heap, &DELIVERY, &edits, day),
        )
    }

    #[test]
    fn monthly(rt: HostRuntime) -> Result<(), Fail> {
        let heap = rt.alloc();
        compare(
            &rt,
            &ON_MONTHLY,
            |edits, day| edited(heap, &MONTHLY, &edits, day),
        )
    }

    #[test]
    fn ahead_of_delivery(rt: HostRuntime) -> Result<(), Fail> {
        let heap = rt.alloc();
        compare(
            &rt,
            &AHEAD_OF_DELIVERY,
            |edits, day| looked_ahead(heap, &DELIVERY, &edits, day),
        )
    }

    #[test]
    fn ahead_of_monthly(rt: HostRuntime) -> Result<(), Fail> {
        let heap = rt.alloc();
        compare(
            &rt,
            &AHEAD_OF_MONTHLY,
            |edits, day| looked_ahead(heap, &MONTHLY, &edits, day),
        )
    }

    #[test]
    fn ahead_of_wheels(rt: HostRuntime) -> Result<(), Fail> {
        let heap = rt.alloc();
        compare(
            &rt,
            &AHEAD_OF_WHEELS,
            |edits, day| looked_ahead(heap, &WHEELS, &edits, day),
        )
    }

    #[test]
    fn short(rt: HostRuntime) -> Result<(), Fail> {
        let none = report(rt.alloc(), b"", 0)?;
        assert_eq!(rt;
            none.as_str(),
            "no 1 0\nthe file has 0 bytes, which is less than the 8 of a head\n"
        );
        let head = report(rt.alloc(), &DELIVERY.head[0..7], 0)?;
        assert_eq!(rt;
            head.as_str(),
            "no 1 0\nthe file has 7 bytes, which is less than the 8 of a head\n"
        );
        Ok(())
    }

    // Nine choices of the same next entry: 512 leaves.
    #[test]
    fn large(rt: HostRuntime) -> Result<(), Fail> {
        let mut bytes = [1, 1, 0, 11, 0, 0, 0, 1].to_vec(rt.alloc())?;
        for next in 2..=10u8 {
            bytes.extend_from_slice(&[4, 0, 0, next, 0, next, 0, 0, 0, 0, 0, 0, 0, 0, 0, 0])?;
        }
        bytes.extend_from_slice(&[3, 0, 0, 11, 0, 0, 0, 0, 0, 0, 0, 0, 0, 0, 0, 9])?;
        bytes.extend_from_slice(&[1, 0, 0, 0, 0, 0, 0, 0, 0, 0, 0, 0, 0, 0, 0, 0])?;
        let text = report(rt.alloc(), &bytes, 0)?;
        assert_eq!(rt;
            text.as_str(),
            "no 10 0\nthe contract has more than 256 nodes when it is opened\n"
        );
        Ok(())
    }
}
