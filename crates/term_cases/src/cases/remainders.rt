//! What a record leaves of each form of term: steps met and missed, sides of choices and boths, and follows.
use super::run;
use std::test::Fail;

static STEPS: &str = "\
done | 1 1 1 0 1 | 1
 opened | 1 0
 record 0 0 0 0 0 | 1 -
 record 0 0 0 0 0 | 1 -
lost | 1 1 1 0 1 | 2
 opened | 1 -
 record 0 0 0 0 0 | 1 -
 record 0 0 0 0 3 | 1 -
a step from base on its first day | 1 1 3 0 1 10 | 3 0 2 0 0 3 7; 3 0 3 0 0 0 2; 1
 opened | 1 13 | 1 13 17
 record 9 8 7 6 13 | 1 13 | 2 13 15
a step from base on its last day | 1 1 3 0 1 10 | 3 0 2 0 0 3 7; 3 0 3 0 0 0 2; 1
 opened | 1 13 | 1 13 17
 record 9 8 7 6 17 | 1 17 | 2 17 19
a step from base a day before its first | 1 1 3 0 1 10 | 3 0 2 0 0 3 7; 3 0 3 0 0 0 2; 1
 opened | 1 13 | 1 13 17
 record 9 8 7 6 12 | 1 -
a step from base a day after its last | 1 1 3 0 1 10 | 3 0 2 0 0 3 7; 3 0 3 0 0 0 2; 1
 opened | 1 13 | 1 13 17
 record 9 8 7 6 18 | 1 -
a step by the calendar on its first day | 1 1 3 0 1 10 | 3 1 2 0 0 13 17; 3 1 3 0 0 13 17; 1
 opened | 1 13 | 1 13 17
 record 9 8 7 6 13 | 1 13 | 2 13 17
a step by the calendar on its last day | 1 1 3 0 1 10 | 3 1 2 0 0 13 17; 3 1 3 0 0 13 17; 1
 opened | 1 13 | 1 13 17
 record 9 8 7 6 17 | 1 17 | 2 13 17
a step by the calendar a day before its first | 1 1 3 0 1 10 | 3 1 2 0 0 13 17; 3 1 3 0 0 13 17; 1
 opened | 1 13 | 1 13 17
 record 9 8 7 6 12 | 1 -
a step by the calendar a day after its last | 1 1 3 0 1 10 | 3 1 2 0 0 13 17; 3 1 3 0 0 13 17; 1
 opened | 1 13 | 1 13 17
 record 9 8 7 6 18 | 1 -
a step that runs to the last day there is | 1 1 2 0 1 65530 | 3 0 2 0 0 0 20; 1
 opened | 1 65530 | 1 65530 65550
 record 0 0 0 0 65535 | 1 65535
a step by the calendar that was over before | 1 1 2 0 1 10 | 3 1 2 0 0 0 9; 1
 opened | 1 - | 1 0 9
 record 0 0 0 0 10 | 1 -
";

static SIDES: &str = "\
a choice whose left side is met | 1 1 10 0 1 | \
    4 0 2 6; 3 0 3 5 0 0 9; 3 0 8 4 0 0 9; 9 1 1 0 0 3; 9 1 1 0 0 1; 3 0 7 10 0 0 9; 3 0 8 9 0 0 9; 1; 9 1 1 0 0 4; 9 1 1 0 0 2
 opened | 3 0 | 2 0 9; 6 0 9
 record 1 0 0 0 3 | 1 3 | 3 3 12
 record 3 0 0 0 4 | 1 4
a choice whose right side is met | 1 1 10 0 1 | \
    4 0 2 6; 3 0 3 5 0 0 9; 3 0 8 4 0 0 9; 9 1 1 0 0 3; 9 1 1 0 0 1; 3 0 7 10 0 0 9; 3 0 8 9 0 0 9; 1; 9 1 1 0 0 4; 9 1 1 0 0 2
 opened | 3 0 | 2 0 9; 6 0 9
 record 2 0 0 0 3 | 1 3 | 7 3 12
 record 4 0 0 0 4 | 1 4
a choice whose two sides are met | 1 1 9 0 1 | \
    4 0 2 5; 3 0 3 9 0 0 9; 3 0 7 4 0 0 9; 9 1 1 0 0 3; 3 0 6 9 0 0 9; 3 0 7 8 0 1 9; 1; 9 1 1 0 0 4; 9 1 1 0 0 1
 opened | 3 0 | 2 0 9; 5 0 9
 record 1 0 0 0 3 | 3 3 | 3 3 12; 6 4 12
 record 4 0 0 0 4 | 1 4
a choice with no side met | 1 1 6 0 1 | 4 0 2 4; 3 0 5 3 0 0 9; 9 1 1 0 0 1; 3 0 5 6 0 0 9; 1; 9 1 1 0 0 2
 opened | 3 0 | 2 0 9; 4 0 9
 record 3 0 0 0 3 | 1 -
done or a step, and the step is met | 1 1 6 0 1 | 4 0 4 2; 3 0 3 6 0 0 9; 3 0 4 5 0 0 9; 1; 9 1 1 0 0 2; 9 1 1 0 0 1
 opened | 3 0 | 2 0 9
 record 1 0 0 0 3 | 1 3 | 3 3 12
 record 2 0 0 0 4 | 1 4
two steps side by side, left before right | 1 1 10 0 1 | \
    5 0 2 6; 3 0 3 5 0 0 9; 3 0 8 4 0 0 9; 9 1 1 0 0 3; 9 1 1 0 0 1; 3 0 7 10 0 0 9; 3 0 8 9 0 0 9; 1; 9 1 1 0 0 4; 9 1 1 0 0 2
 opened | 3 0 | 2 0 9; 6 0 9
 record 1 0 0 0 3 | 3 3 | 3 3 12; 6 0 9
 record 2 0 0 0 4 | 3 4 | 3 3 12; 7 4 13
 record 3 0 0 0 5 | 1 5 | 7 4 13
 record 4 0 0 0 6 | 1 6
two steps side by side, right before left | 1 1 8 0 1 | \
    5 0 2 6; 3 0 3 5 0 0 9; 3 0 7 4 0 0 9; 9 1 1 0 0 3; 9 1 1 0 0 1; 3 0 7 8 0 0 9; 1; 9 1 1 0 0 2
 opened | 3 0 | 2 0 9; 6 0 9
 record 2 0 0 0 3 | 1 3 | 2 0 9
 record 1 0 0 0 4 | 1 4 | 3 4 13
 record 3 0 0 0 13 | 1 13
two steps side by side, either | 1 1 9 0 1 | \
    5 0 2 5; 3 0 3 9 0 0 9; 3 0 7 4 0 0 9; 9 1 1 0 0 3; 3 0 6 9 0 0 9; 3 0 7 8 0 0 9; 1; 9 1 1 0 0 4; 9 1 1 0 0 1
 opened | 3 0 | 2 0 9; 5 0 9
 record 1 0 0 0 3 | 7 3 | 3 3 12; 5 0 9; 2 0 9; 6 3 12
 record 1 0 0 0 4 | 7 4 | 3 3 12; 6 4 13; 3 4 13; 6 3 12
 record 4 0 0 0 5 | 3 5 | 3 3 12; 3 4 13
 record 3 0 0 0 6 | 3 6
a step beside itself, and a record too many | 1 1 5 0 1 | 5 0 2 3; 3 0 4 5 0 0 9; 3 0 4 5 0 0 9; 1; 9 1 1 0 0 1
 opened | 3 0 | 2 0 9; 3 0 9
 record 1 0 0 0 3 | 3 3 | 3 0 9; 2 0 9
 record 1 0 0 0 3 | 3 3
 record 1 0 0 0 3 | 1 -
a both with no side met | 1 1 6 0 1 | 5 0 2 4; 3 0 5 3 0 0 9; 9 1 1 0 0 1; 3 0 5 6 0 0 9; 1; 9 1 1 0 0 2
 opened | 3 0 | 2 0 9; 4 0 9
 record 3 0 0 0 3 | 1 -
a step beside done or a step | 1 1 7 0 1 | 5 0 2 4; 3 0 6 3 0 0 9; 9 1 1 0 0 1; 4 0 6 5; 3 0 6 7 0 0 9; 1; 9 1 1 0 0 2
 opened | 5 0 | 2 0 9; 5 0 9
 record 1 0 0 0 3 | 3 3 | 5 0 9
 record 2 0 0 0 3 | 1 3
done or a step, on both sides | 1 1 7 0 1 | 5 0 2 4; 4 0 7 3; 3 0 7 6 0 0 9; 4 0 5 7; 3 0 7 6 0 0 9; 9 1 1 0 0 1; 1
 opened | 7 0 | 3 0 9; 5 0 9
 record 1 0 0 0 3 | 7 3 | 5 0 9; 3 0 9
 record 1 0 0 0 4 | 3 4
three side by side | 1 1 10 0 1 | \
    5 0 2 6; 5 0 3 4; 3 0 8 10 0 0 9; 3 0 8 5 0 0 9; 9 1 1 0 0 2; 3 0 7 10 0 0 9; 3 0 8 9 0 0 5; 1; 9 1 1 0 0 3; 9 1 1 0 0 1
 opened | 5 0 | 3 0 9; 4 0 9; 6 0 9
 record 1 0 0 0 2 | 9 2 | 4 0 9; 6 0 9; 3 0 9; 4 0 9; 7 2 7
 record 2 0 0 0 3 | 5 3 | 6 0 9; 3 0 9; 7 2 7
 record 1 0 0 0 4 | 3 4 | 7 4 9; 7 2 7
 record 3 0 0 0 4 | 3 4
a both whose lost residual is tidied away | 1 1 8 0 1 | 5 0 2 4; 3 0 3 8 0 0 9; 2; 3 0 5 8 0 0 9; 3 0 6 7 0 0 9; 1; 9 1 1 0 0 2; 9 1 1 0 0 1
 opened | 3 - | 2 0 9; 4 0 9
 record 1 0 0 0 2 | 3 - | 2 0 9; 5 2 11
 record 2 0 0 0 2 | 1 - | 2 0 9
a both of a step over lost | 1 1 7 0 1 | 5 0 2 5; 3 0 3 4 0 0 9; 2; 9 1 1 0 0 1; 3 0 6 7 0 0 9; 1; 9 1 1 0 0 2
 opened | 3 - | 2 0 9; 5 0 9
 record 2 0 0 0 2 | 1 - | 2 0 9
 record 1 0 0 0 2 | 1 -
";

static FOLLOWS: &str = "\
a then whose left is not met | 1 1 6 0 1 | 6 0 2 4; 3 0 5 3 0 0 9; 9 1 1 0 0 1; 3 0 5 6 0 0 9; 1; 9 1 1 0 0 2
 opened | 2 0 | 2 0 9
 record 2 0 0 0 3 | 1 -
a then whose left ends and whose right counts from there | 1 1 6 0 1 | 6 0 2 4; 3 0 5 3 0 0 9; 9 1 1 0 0 1; 3 0 5 6 0 2 5; 1; 9 1 1 0 0 2
 opened | 2 2 | 2 0 9
 record 1 0 0 0 7 | 1 9 | 4 9 12
 record 2 0 0 0 12 | 1 12
a then whose left goes on | 1 1 8 0 1 | 6 0 2 6; 3 0 3 5 0 0 9; 3 0 7 4 0 0 9; 9 1 1 0 0 2; 9 1 1 0 0 1; 3 0 7 8 0 0 9; 1; 9 1 1 0 0 3
 opened | 2 0 | 2 0 9
 record 1 0 0 0 3 | 2 3 | 3 3 12
 record 2 0 0 0 5 | 1 5 | 6 5 14
 record 3 0 0 0 14 | 1 14
a then whose left may end after a record | 1 1 9 0 1 | \
    6 0 2 7; 3 0 3 6 0 0 9; 4 0 8 4; 3 0 8 5 0 0 9; 9 1 1 0 0 2; 9 1 1 0 0 1; 3 0 8 9 0 0 9; 1; 9 1 1 0 0 3
 opened | 2 0 | 2 0 9
 record 1 0 0 0 3 | 6 3 | 4 3 12; 7 3 12
 record 3 0 0 0 12 | 1 12
a then whose left may end, and goes on | 1 1 9 0 1 | \
    6 0 2 7; 3 0 3 6 0 0 9; 4 0 8 4; 3 0 8 5 0 0 9; 9 1 1 0 0 2; 9 1 1 0 0 1; 3 0 8 9 0 0 9; 1; 9 1 1 0 0 3
 opened | 2 0 | 2 0 9
 record 1 0 0 0 3 | 6 3 | 4 3 12; 7 3 12
 record 2 0 0 0 12 | 1 12 | 7 12 21
 record 3 0 0 0 13 | 1 13
a then whose left may end on opening, left out | 1 1 7 0 1 100 | 6 0 2 5; 4 0 6 3; 3 0 6 4 0 0 3; 9 1 1 0 0 1; 3 0 6 7 0 2 5; 1; 9 1 1 0 0 2
 opened | 6 102 | 3 100 103; 5 102 105
 record 2 0 0 0 105 | 1 105
a then whose left may end on opening, taken | 1 1 7 0 1 100 | 6 0 2 5; 4 0 6 3; 3 0 6 4 0 0 3; 9 1 1 0 0 1; 3 0 6 7 0 2 5; 1; 9 1 1 0 0 2
 opened | 6 102 | 3 100 103; 5 102 105
 record 1 0 0 0 103 | 1 105 | 5 105 108
 record 2 0 0 0 108 | 1 108
a record that fits the left and the right | 1 1 8 0 1 | 6 0 2 4; 4 0 6 3; 3 0 6 8 0 0 9; 3 0 5 8 0 0 9; 3 0 6 7 0 0 9; 1; 9 1 1 0 0 2; 9 1 1 0 0 1
 opened | 6 0 | 3 0 9; 4 0 9
 record 1 0 0 0 3 | 3 3 | 4 3 12; 5 3 12
 record 1 0 0 0 4 | 1 4 | 5 4 13
 record 2 0 0 0 4 | 1 4
a right that is lost | 1 1 5 0 1 | 6 0 2 5; 3 0 3 4 0 0 9; 1; 9 1 1 0 0 1; 2
 opened | 2 - | 2 0 9
 record 1 0 0 0 3 | 1 -
a right that is lost behind a left that may end | 1 1 8 0 1 | 6 0 2 8; 3 0 3 7 0 0 9; 4 0 5 4; 3 0 5 6 0 0 9; 1; 9 1 1 0 0 2; 9 1 1 0 0 1; 2
 opened | 2 - | 2 0 9
 record 1 0 0 0 3 | 4 - | 4 3 12
 record 2 0 0 0 3 | 1 -
a right that is done behind a left that may end | 1 1 7 0 1 | 6 0 2 7; 3 0 3 6 0 0 9; 4 0 7 4; 3 0 7 5 0 0 9; 9 1 1 0 0 2; 9 1 1 0 0 1; 1
 opened | 2 0 | 2 0 9
 record 1 0 0 0 3 | 6 3 | 4 3 12
 record 2 0 0 0 3 | 1 3
a left whose tail is lost | 1 1 7 0 1 | 6 0 2 5; 3 0 3 4 0 0 9; 2; 9 1 1 0 0 1; 3 0 6 7 0 0 9; 1; 9 1 1 0 0 2
 opened | 2 - | 2 0 9
 record 1 0 0 0 3 | 1 -
follows inside a follow | 1 1 9 0 1 | 6 0 2 7; 6 0 3 5; 3 0 8 4 0 0 9; 9 1 1 0 0 1; 3 0 8 6 0 0 9; 9 1 1 0 0 2; 3 0 8 9 0 0 9; 1; 9 1 1 0 0 3
 opened | 3 0 | 3 0 9
 record 1 0 0 0 3 | 2 3 | 5 3 12
 record 2 0 0 0 4 | 1 4 | 7 4 13
 record 3 0 0 0 5 | 1 5
a then on the right of a then | 1 1 9 0 1 | \
    6 0 2 4; 3 0 8 3 0 0 9; 9 1 1 0 0 1; 6 0 5 7; 3 0 8 6 0 1 9; 9 1 1 0 0 2; 3 0 8 9 0 2 9; 1; 9 1 1 0 0 3
 opened | 2 3 | 2 0 9
 record 1 0 0 0 3 | 2 6 | 5 4 12
 record 2 0 0 0 4 | 1 6 | 7 6 13
 record 3 0 0 0 6 | 1 6
follows inside a follow, all of which may end | 1 1 11 0 1 | \
    6 0 2 8; 6 0 3 6; 3 0 4 11 0 0 9; 4 0 10 5; 3 0 10 11 0 0 9; 4 0 7 10; 3 0 10 11 0 0 9; 4 0 10 9; 3 0 10 11 0 0 9; 1; 9 1 1 0 0 1
 opened | 3 0 | 3 0 9
 record 1 0 0 0 3 | 13 3 | 5 3 12; 7 3 12; 9 3 12
 record 1 0 0 0 4 | 12 4 | 7 4 13; 9 4 13
 record 1 0 0 0 5 | 5 5 | 9 5 14
a then of two steps side by side | 1 1 9 0 1 | \
    6 0 2 7; 5 0 3 5; 3 0 8 4 0 0 9; 9 1 1 0 0 1; 3 0 8 6 0 0 9; 9 1 1 0 0 2; 3 0 8 9 0 0 9; 1; 9 1 1 0 0 3
 opened | 4 0 | 3 0 9; 5 0 9
 record 2 0 0 0 3 | 2 3 | 3 0 9
 record 1 0 0 0 9 | 1 9 | 7 9 18
 record 3 0 0 0 9 | 1 9
a then beside a step | 1 1 8 0 1 | 5 0 2 6; 6 0 3 5; 3 0 7 4 0 0 9; 9 1 1 0 0 1; 3 0 7 8 0 0 9; 3 0 7 8 0 0 20; 1; 9 1 1 0 0 2
 opened | 4 0 | 3 0 9; 6 0 20
 record 1 0 0 0 3 | 3 3 | 5 3 12; 6 0 20
 record 2 0 0 0 4 | 3 4 | 6 0 20; 5 3 12
 record 2 0 0 0 5 | 3 5
";

#[test]
fn steps(rt: HostRuntime) -> Result<(), Fail> {
    run(&rt, rt.alloc(), STEPS)
}

#[test]
fn sides(rt: HostRuntime) -> Result<(), Fail> {
    run(&rt, rt.alloc(), SIDES)
}

#[test]
fn follows(rt: HostRuntime) -> Result<(), Fail> {
    run(&rt, rt.alloc(), FOLLOWS)
}
