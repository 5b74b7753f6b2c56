//! Question 7: the days of steps, and calendar windows.
use super::run;
use std::test::Fail;

static CASES: &str = "\
from base, the first day after the last | 7 1 | 1 1 2 0 1 | 3 0 2 0 0 9 8; 1
from base, the first day as the last | 0 1 | 1 1 2 0 1 | 3 0 2 0 0 9 9; 1
from base, both days 0 | 0 1 | 1 1 2 0 1 | 3 0 2; 1
from base, last day 65,535 | 0 1 | 1 1 2 0 1 | 3 0 2 0 0 0 65535; 1
from base, last day 65,536 | 7 1 | 1 1 2 0 1 | 3 0 2 0 0 0 65536; 1
from base, both days 65,535 | 0 1 | 1 1 2 0 1 | 3 0 2 0 0 65535 65535; 1
from base, both days 65,536 | 7 1 | 1 1 2 0 1 | 3 0 2 0 0 65536 65536; 1
from base, last day 4,294,967,295 | 7 1 | 1 1 2 0 1 | 3 0 2 0 0 0 4294967295; 1
from base, first day 65,536 and last day 9 | 7 1 | 1 1 2 0 1 | 3 0 2 0 0 65536 9; 1
calendar, the first day after the last | 7 1 | 1 1 2 0 1 | 3 1 2 0 0 9 8; 1
calendar, the first day as the last | 0 1 | 1 1 2 0 1 | 3 1 2 0 0 9 9; 1
calendar, last day 65,535 | 0 1 | 1 1 2 0 1 | 3 1 2 0 0 0 65535; 1
calendar, last day 65,536 | 7 1 | 1 1 2 0 1 | 3 1 2 0 0 0 65536; 1
the first day after the last, in a step that no clause leads to | 7 2 | 1 1 3 0 1 | 1; 3 0 3 0 0 9 8; 1

a calendar window as body | 7 3 | 1 1 4 2 1 | 1; 8 1 3; 3 1 4 0 0 0 9; 1
a window from base as body | 0 1 | 1 1 4 2 1 | 1; 8 1 3; 3 0 4 0 0 0 9; 1
a calendar window as tail in a body | 7 4 | 1 1 5 2 1 | 1; 8 1 3; 3 0 4 0 0 0 9; 3 1 5 0 0 0 9; 1
a calendar window as left of a choice in a body | 7 4 | 1 1 5 2 1 | 1; 8 1 3; 4 0 4 5; 3 1 5 0 0 0 9; 1
a calendar window as right of a choice in a body | 7 4 | 1 1 5 2 1 | 1; 8 1 3; 4 0 5 4; 3 1 5 0 0 0 9; 1
a calendar window as left of a both in a body | 7 4 | 1 1 5 2 1 | 1; 8 1 3; 5 0 4 5; 3 1 5 0 0 0 9; 1
a calendar window as right of a both in a body | 7 4 | 1 1 5 2 1 | 1; 8 1 3; 5 0 5 4; 3 1 5 0 0 0 9; 1
a calendar window as left of a then in a body | 7 4 | 1 1 5 2 1 | 1; 8 1 3; 6 0 4 5; 3 1 5 0 0 0 9; 1
a calendar window as right of a then in a body | 7 4 | 1 1 5 2 1 | 1; 8 1 3; 6 0 5 4; 3 1 5 0 0 0 9; 1
a calendar window in a second body, behind a tail, a choice and a tail | 7 7 | 1 1 8 2 1 | \
    1; 8 1 8 0 3; 8 2 4; 3 0 5 0 0 0 9; 4 0 8 6; 3 0 7 0 0 0 9; 3 1 8 0 0 0 9; 1
a calendar window that the contract and a body share | 7 4 | 1 1 5 3 1 | 4 0 2 4; 7 1; 8 1 4; 3 1 5 0 0 0 9; 1
a calendar window beside a call | 0 3 | 1 1 6 4 1 | 4 0 2 3; 3 1 6 0 0 0 9; 7 1; 8 1 5; 3 0 6 0 0 0 9; 1
a calendar window with a call as tail | 0 1 | 1 1 5 3 1 | 3 1 2 0 0 0 9; 7 1; 8 1 4; 3 0 5 0 0 0 9; 1
";

#[test]
fn windows(rt: HostRuntime) -> Result<(), Fail> {
    run(&rt, rt.alloc(), CASES)
}
