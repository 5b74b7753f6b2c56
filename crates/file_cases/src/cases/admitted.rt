//! Questions 8 and 9: the kind of a file, and the conditions that the kind admits.
//!
//! Most of the conditions belong to no step, and are asked about all the same.
use super::run;
use std::test::Fail;

static CASES: &str = "\
kind 0 | 8 0 | 0 1 1 0 1 | 1
kind 3 | 8 0 | 3 1 1 0 1 | 1
kind 255 | 8 0 | 255 1 1 0 1 | 1
a file of transfers, checked as one of inspections | 8 0 | 1 1 1 0 1 0 0 2 | 1
a file of inspections, checked as one of transfers | 8 0 | 2 1 1 0 1 0 0 1 | 1
a file of transfers with a condition of inspections, checked as one of inspections | 8 0 | 1 1 2 0 1 0 0 2 | 1; 9 4 5 0 0 1

from, mode 1 | 0 1 | 1 1 2 0 1 | 1; 9 1 1 0 0 7
from, mode 2 | 0 1 | 1 1 2 0 1 | 1; 9 1 2 0 0 7 8
from, mode 2, nothing between | 9 2 | 1 1 2 0 1 | 1; 9 1 2 0 0 8 7
from, mode 3 | 0 1 | 1 1 2 0 1 | 1; 9 1 3 7
from, mode 4 | 0 1 | 1 1 2 0 1 | 1; 9 1 4 7
from, mode 5 | 9 2 | 1 1 2 0 1 | 1; 9 1 5 7 0 1
from, mode 6 | 9 2 | 1 1 2 0 1 | 1; 9 1 6 0 0 1 2
to, mode 1 | 0 1 | 1 1 2 0 1 | 1; 9 2 1 0 0 7
to, mode 2 | 0 1 | 1 1 2 0 1 | 1; 9 2 2 0 0 7 8
to, mode 2, nothing between | 9 2 | 1 1 2 0 1 | 1; 9 2 2 0 0 1
to, mode 3 | 0 1 | 1 1 2 0 1 | 1; 9 2 3 7
to, mode 4 | 0 1 | 1 1 2 0 1 | 1; 9 2 4 7
to, mode 5 | 9 2 | 1 1 2 0 1 | 1; 9 2 5 7 0 1
to, mode 6 | 9 2 | 1 1 2 0 1 | 1; 9 2 6 0 0 1 2
resource, mode 1 | 0 1 | 1 1 2 0 1 | 1; 9 3 1 0 0 7
resource, mode 2 | 0 1 | 1 1 2 0 1 | 1; 9 3 2 0 0 7 7
resource, mode 2, nothing between | 9 2 | 1 1 2 0 1 | 1; 9 3 2 0 0 4294967295
resource, mode 3 | 0 1 | 1 1 2 0 1 | 1; 9 3 3 7
resource, mode 4 | 0 1 | 1 1 2 0 1 | 1; 9 3 4 7
resource, mode 5 | 9 2 | 1 1 2 0 1 | 1; 9 3 5 7 0 1
resource, mode 6 | 9 2 | 1 1 2 0 1 | 1; 9 3 6 0 0 1 2
amount, mode 1 | 0 1 | 1 1 2 0 1 | 1; 9 4 1 0 0 7
amount, mode 2 | 0 1 | 1 1 2 0 1 | 1; 9 4 2 0 0 4294967295 4294967295
amount, mode 2, nothing between | 9 2 | 1 1 2 0 1 | 1; 9 4 2 0 0 4294967295 4294967294
amount, mode 3 | 0 1 | 1 1 2 0 1 | 1; 9 4 3 7
amount, mode 4 | 0 1 | 1 1 2 0 1 | 1; 9 4 4 7
amount, mode 5 | 9 2 | 1 1 2 0 1 | 1; 9 4 5 7 0 1
amount, mode 6 | 9 2 | 1 1 2 0 1 | 1; 9 4 6 0 0 1 2

vehicle, mode 1 | 0 1 | 2 1 2 0 1 | 1; 9 1 1 0 0 7
vehicle, mode 2 | 9 2 | 2 1 2 0 1 | 1; 9 1 2 0 0 7 8
vehicle, mode 3 | 0 1 | 2 1 2 0 1 | 1; 9 1 3 7
vehicle, mode 4 | 0 1 | 2 1 2 0 1 | 1; 9 1 4 7
vehicle, mode 5 | 9 2 | 2 1 2 0 1 | 1; 9 1 5 7 0 1
vehicle, mode 6 | 9 2 | 2 1 2 0 1 | 1; 9 1 6 0 0 1 2
check, mode 1 | 0 1 | 2 1 2 0 1 | 1; 9 2 1 0 0 7
check, mode 2 | 9 2 | 2 1 2 0 1 | 1; 9 2 2 0 0 7 8
check, mode 3 | 0 1 | 2 1 2 0 1 | 1; 9 2 3 7
check, mode 4 | 0 1 | 2 1 2 0 1 | 1; 9 2 4 7
check, mode 5 | 9 2 | 2 1 2 0 1 | 1; 9 2 5 7 0 1
check, mode 6 | 9 2 | 2 1 2 0 1 | 1; 9 2 6 0 0 1 2
reading, mode 1 | 9 2 | 2 1 2 0 1 | 1; 9 3 1 0 0 7
reading, mode 2 | 9 2 | 2 1 2 0 1 | 1; 9 3 2 0 0 7 8
reading, mode 3 | 9 2 | 2 1 2 0 1 | 1; 9 3 3 7
reading, mode 4 | 0 1 | 2 1 2 0 1 | 1; 9 3 4 7
reading, mode 5 | 9 2 | 2 1 2 0 1 | 1; 9 3 5 7 0 1
reading, mode 6 | 0 1 | 2 1 2 0 1 | 1; 9 3 6 0 0 1
odometer, mode 1 | 9 2 | 2 1 2 0 1 | 1; 9 4 1 0 0 7
odometer, mode 2 | 9 2 | 2 1 2 0 1 | 1; 9 4 2 0 0 7 8
odometer, mode 3 | 9 2 | 2 1 2 0 1 | 1; 9 4 3 7
odometer, mode 4 | 0 1 | 2 1 2 0 1 | 1; 9 4 4 7
odometer, mode 5 | 0 1 | 2 1 2 0 1 | 1; 9 4 5 7 0 1
odometer, mode 6 | 9 2 | 2 1 2 0 1 | 1; 9 4 6 0 0 1 2

a step on transfers with a mode of inspections | 9 4 | 1 1 4 0 1 | 3 0 2 3 0 0 9; 1; 9 1 1 0 4 7; 9 4 5 0 0 500
a step on inspections with a mode of transfers | 9 4 | 2 1 4 0 1 | 3 0 2 3 0 0 9; 1; 9 1 1 0 4 7; 9 4 2 0 0 5 8
a step on transfers, modes 1 to 4 | 0 1 | 1 1 6 0 1 | 3 0 2 3 0 0 9; 1; 9 1 4 0 4; 9 2 3 1 5; 9 3 1 0 6 7; 9 4 2 0 0 100 500
two steps on inspections, modes 1, 4, 5 and 6 | 0 1 | 2 1 9 0 1 | \
    3 0 2 4 0 0 30; 3 0 3 6 0 300 365; 1; 9 1 1 0 5 7; 9 4 4; 9 1 1 0 7 7; 9 2 4 1 8; 9 3 6 0 9 1 2; 9 4 5 0 0 10000
";

#[test]
fn admitted(rt: HostRuntime) -> Result<(), Fail> {
    run(&rt, rt.alloc(), CASES)
}
