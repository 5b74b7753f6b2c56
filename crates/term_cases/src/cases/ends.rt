//! Earliest ends: windows and the clock, sides, ways that add up, ways that are over, and ways past the last day.
use super::run;
use std::test::Fail;

static WINDOWS: &str = "\
a window from base, and the clock before it, in it and behind it | 1 1 2 0 1 | 3 0 2 0 0 5 9; 1
 opened | 1 5 | 1 5 9
 clock 4 | 1 5 | 1 5 9
 clock 5 | 1 5 | 1 5 9
 clock 7 | 1 7 | 1 5 9
 clock 9 | 1 9 | 1 5 9
 clock 10 | 1 - | 1 5 9
a window by the calendar, and the clock before it, in it and behind it | 1 1 2 0 1 10 | 3 1 2 0 0 15 19; 1
 opened | 1 15 | 1 15 19
 clock 14 | 1 15 | 1 15 19
 clock 15 | 1 15 | 1 15 19
 clock 17 | 1 17 | 1 15 19
 clock 19 | 1 19 | 1 15 19
 clock 20 | 1 - | 1 15 19
a window by the calendar that is open at signing | 1 1 2 0 1 10 | 3 1 2 0 0 5 19; 1
 opened | 1 10 | 1 5 19
 clock 19 | 1 19 | 1 5 19
 clock 20 | 1 - | 1 5 19
a window by the calendar that is over at signing | 1 1 2 0 1 10 | 3 1 2 0 0 5 9; 1
 opened | 1 - | 1 5 9
 clock 10 | 1 - | 1 5 9
a window of one day | 1 1 2 0 1 | 3 0 2; 1
 opened | 1 0 | 1 0 0
 clock 0 | 1 0 | 1 0 0
 clock 1 | 1 - | 1 0 0
a window up to the last day | 1 1 2 0 1 | 3 1 2 0 0 0 65535; 1
 opened | 1 0 | 1 0 65535
 clock 65534 | 1 65534 | 1 0 65535
 clock 65535 | 1 65535 | 1 0 65535
a window from base that opens on the last day | 1 1 2 0 1 | 3 0 2 0 0 65535 65535; 1
 opened | 1 65535 | 1 65535 65535
 clock 65535 | 1 65535 | 1 65535 65535
a window from base that opens a day too late | 1 1 2 0 1 1 | 3 0 2 0 0 65535 65535; 1
 opened | 1 - | 1 65536 65536
 clock 65535 | 1 - | 1 65536 65536
a window from base that is cut by the last day | 1 1 2 0 1 65530 | 3 0 2 0 0 5 50; 1
 opened | 1 65535 | 1 65535 65580
 clock 65535 | 1 65535 | 1 65535 65580
signed on the last day, a step on that day | 1 1 2 0 1 65535 | 3 0 2 0 0 0 9; 1
 opened | 1 65535 | 1 65535 65544
 clock 65535 | 1 65535 | 1 65535 65544
 record 0 0 0 0 65535 | 1 65535
signed on the last day, a step a day later | 1 1 2 0 1 65535 | 3 0 2 0 0 1 9; 1
 opened | 1 - | 1 65536 65544
 clock 65535 | 1 - | 1 65536 65544
done may end at once, whatever the day | 1 1 1 0 1 3 | 1
 opened | 1 3
 clock 10 | 1 10
 clock 65535 | 1 65535
lost has no end | 1 1 1 0 1 3 | 2
 opened | 1 -
 clock 10 | 1 -
done or a step ends at once | 1 1 3 0 1 | 4 0 3 2; 3 0 3 0 0 5 9; 1
 opened | 3 0 | 2 5 9
 clock 7 | 3 7 | 2 5 9
 clock 70 | 3 70 | 2 5 9
a step or done, on each side of a both | 1 1 6 0 1 | 5 0 2 4; 4 0 3 6; 3 0 6 0 0 5 9; 4 0 6 5; 3 0 6 0 0 7 8; 1
 opened | 7 0 | 3 5 9; 5 7 8
 clock 9 | 7 9 | 3 5 9; 5 7 8
 clock 10 | 7 10 | 3 5 9; 5 7 8
done both done, then done | 1 1 3 0 1 | 6 0 2 3; 5 0 3 3; 1
 opened | 1 0
 clock 9 | 1 9
";

static SIDES: &str = "\
the earlier of two steps | 1 1 4 0 1 | 4 0 2 3; 3 0 4 0 0 7 9; 3 0 4 0 0 5 6; 1
 opened | 3 5 | 2 7 9; 3 5 6
 clock 6 | 3 6 | 2 7 9; 3 5 6
 clock 7 | 3 7 | 2 7 9; 3 5 6
 clock 9 | 3 9 | 2 7 9; 3 5 6
 clock 10 | 3 - | 2 7 9; 3 5 6
the later of two steps | 1 1 4 0 1 | 5 0 2 3; 3 0 4 0 0 7 9; 3 0 4 0 0 5 6; 1
 opened | 3 7 | 2 7 9; 3 5 6
 clock 6 | 3 7 | 2 7 9; 3 5 6
 clock 7 | 3 - | 2 7 9; 3 5 6
the earlier by the calendar until it is over | 1 1 4 0 1 10 | 4 0 2 3; 3 1 4 0 0 12 14; 3 0 4 0 0 5 6; 1
 opened | 3 12 | 2 12 14; 3 15 16
 clock 14 | 3 14 | 2 12 14; 3 15 16
 clock 15 | 3 15 | 2 12 14; 3 15 16
 clock 16 | 3 16 | 2 12 14; 3 15 16
 clock 17 | 3 - | 2 12 14; 3 15 16
both of from base and by the calendar | 1 1 4 0 1 10 | 5 0 2 3; 3 1 4 0 0 12 14; 3 0 4 0 0 5 6; 1
 opened | 3 15 | 2 12 14; 3 15 16
 clock 14 | 3 15 | 2 12 14; 3 15 16
 clock 15 | 3 - | 2 12 14; 3 15 16
an earlier start does not end earlier | 1 1 6 0 1 | 4 0 2 4; 3 0 3 0 0 1 2; 3 0 6 0 0 9 9; 3 0 5 0 0 3 4; 3 0 6 0 0 1 1; 1
 opened | 3 4 | 2 1 2; 4 3 4
 clock 2 | 3 4 | 2 1 2; 4 3 4
 clock 3 | 3 4 | 2 1 2; 4 3 4
 clock 4 | 3 5 | 2 1 2; 4 3 4
 clock 5 | 3 - | 2 1 2; 4 3 4
what is left when the quicker way is over | 1 1 6 0 1 | 4 0 2 4; 3 0 3 0 0 1 2; 3 0 6 0 0 1 1; 3 0 5 0 0 3 8; 3 0 6 0 0 9 9; 1
 opened | 3 2 | 2 1 2; 4 3 8
 clock 2 | 3 3 | 2 1 2; 4 3 8
 clock 3 | 3 12 | 2 1 2; 4 3 8
 clock 8 | 3 17 | 2 1 2; 4 3 8
 clock 9 | 3 - | 2 1 2; 4 3 8
a choice in a both in a choice | 1 1 8 0 1 | 4 0 2 7; 5 0 3 6; 4 0 4 5; 3 0 8 0 0 4 5; 3 0 8 0 0 9 9; 3 0 8 0 0 2 7; 3 0 8 0 0 8 8; 1
 opened | 7 4 | 4 4 5; 5 9 9; 6 2 7; 7 8 8
 clock 5 | 7 5 | 4 4 5; 5 9 9; 6 2 7; 7 8 8
 clock 6 | 7 8 | 4 4 5; 5 9 9; 6 2 7; 7 8 8
 clock 8 | 7 8 | 4 4 5; 5 9 9; 6 2 7; 7 8 8
 clock 9 | 7 - | 4 4 5; 5 9 9; 6 2 7; 7 8 8
lost sides are passed over | 1 1 8 0 1 | 4 0 2 5; 6 0 3 4; 3 0 8 0 0 0 3; 2; 5 0 6 7; 3 0 8 0 0 2 6; 3 0 8 0 0 0 5; 1
 opened | 6 2 | 3 0 3; 6 2 6; 7 0 5
 clock 3 | 6 3 | 3 0 3; 6 2 6; 7 0 5
 clock 5 | 6 5 | 3 0 3; 6 2 6; 7 0 5
 clock 6 | 6 - | 3 0 3; 6 2 6; 7 0 5
";

static ONE_AFTER_ANOTHER: &str = "\
tails add up | 1 1 4 0 1 | 3 0 2 0 0 1 2; 3 0 3 0 0 2 3; 3 0 4 0 0 3 4; 1
 opened | 1 6 | 1 1 2
 clock 2 | 1 7 | 1 1 2
 record 0 0 0 0 2 | 1 7 | 2 4 5
 clock 5 | 1 8 | 2 4 5
 record 0 0 0 0 5 | 1 8 | 3 8 9
 clock 9 | 1 9 | 3 8 9
 clock 10 | 1 - | 3 8 9
a then adds up as tails do | 1 1 6 0 1 | 6 0 2 5; 6 0 3 4; 3 0 6 0 0 1 2; 3 0 6 0 0 2 3; 3 0 6 0 0 3 4; 1
 opened | 3 6 | 3 1 2
 clock 2 | 3 7 | 3 1 2
 record 0 0 0 0 2 | 2 7 | 4 4 5
 clock 5 | 2 8 | 4 4 5
 record 0 0 0 0 5 | 1 8 | 5 8 9
 clock 9 | 1 9 | 5 8 9
 clock 10 | 1 - | 5 8 9
by the calendar behind from base | 1 1 4 0 1 | 3 0 2 0 0 1 9; 3 1 3 0 0 5 6; 3 0 4 0 0 2 2; 1
 opened | 1 7 | 1 1 9
 clock 5 | 1 7 | 1 1 9
 clock 6 | 1 8 | 1 1 9
 clock 7 | 1 - | 1 1 9
 clock 9 | 1 - | 1 1 9
from base behind by the calendar | 1 1 4 0 1 | 3 1 2 0 0 5 6; 3 0 3 0 0 2 4; 3 1 4 0 0 7 8; 1
 opened | 1 7 | 1 5 6
 clock 6 | 1 8 | 1 5 6
 record 0 0 0 0 6 | 1 8 | 2 8 10
 clock 8 | 1 8 | 2 8 10
 clock 9 | 1 - | 2 8 10
calendar windows that meet on one day | 1 1 4 0 1 | 3 1 2 0 0 5 9; 3 1 3 0 0 3 9; 3 1 4 0 0 9 12; 1
 opened | 1 9 | 1 5 9
 clock 9 | 1 9 | 1 5 9
 clock 10 | 1 - | 1 5 9
calendar windows that miss by a day | 1 1 3 0 1 | 3 1 2 0 0 5 9; 3 1 3 0 0 3 4; 1
 opened | 1 - | 1 5 9
 clock 5 | 1 - | 1 5 9
the right counts from the later side of a both | 1 1 6 0 1 | 6 0 2 5; 5 0 3 4; 3 0 6 0 0 2 5; 3 1 6 0 0 4 9; 3 0 6 0 0 3 3; 1
 opened | 4 7 | 3 2 5; 4 4 9
 clock 5 | 4 8 | 3 2 5; 4 4 9
 record 0 0 0 0 5 | 4 8 | 4 4 9; 3 2 5
 clock 6 | 4 9 | 4 4 9; 3 2 5
the right counts from the earlier side of a choice | 1 1 6 0 1 | 6 0 2 5; 4 0 3 4; 3 0 6 0 0 2 5; 3 1 6 0 0 4 9; 3 0 6 0 0 3 3; 1
 opened | 4 5 | 3 2 5; 4 4 9
 clock 5 | 4 8 | 3 2 5; 4 4 9
 clock 6 | 4 9 | 3 2 5; 4 4 9
 clock 9 | 4 12 | 3 2 5; 4 4 9
 clock 10 | 4 - | 3 2 5; 4 4 9
a left that may end does not wait | 1 1 5 0 1 | 6 0 2 4; 4 0 5 3; 3 0 5 0 0 3 9; 3 0 5 0 0 2 4; 1
 opened | 6 2 | 3 3 9; 4 2 4
 clock 2 | 6 2 | 3 3 9; 4 2 4
 clock 4 | 6 4 | 3 3 9; 4 2 4
 clock 5 | 6 7 | 3 3 9; 4 2 4
 clock 9 | 6 11 | 3 3 9; 4 2 4
 clock 10 | 6 - | 3 3 9; 4 2 4
a left that may end is not left out behind its day | 1 1 5 0 1 | 6 0 2 4; 4 0 5 3; 3 0 5 0 0 0 9; 3 1 5 0 0 5 6; 1
 opened | 6 5 | 3 0 9; 4 5 6
 clock 4 | 6 5 | 3 0 9; 4 5 6
 clock 6 | 6 6 | 3 0 9; 4 5 6
 clock 7 | 6 - | 3 0 9; 4 5 6
two lefts that may end | 1 1 8 0 1 | 6 0 2 4; 4 0 8 3; 3 0 8 0 0 4 9; 6 0 5 7; 4 0 6 8; 3 0 8 0 0 3 9; 3 0 8 0 0 1 2; 1
 opened | 11 1 | 3 4 9; 6 3 9; 7 1 2
 clock 2 | 11 2 | 3 4 9; 6 3 9; 7 1 2
 clock 3 | 11 4 | 3 4 9; 6 3 9; 7 1 2
 clock 9 | 11 10 | 3 4 9; 6 3 9; 7 1 2
 clock 10 | 11 - | 3 4 9; 6 3 9; 7 1 2
two sides of a left that may end | 1 1 8 0 1 | 6 0 2 7; 5 0 3 5; 4 0 8 4; 3 0 8 0 0 1 7; 4 0 8 6; 3 0 8 0 0 2 5; 3 0 8 0 0 3 3; 1
 opened | 10 3 | 4 1 7; 6 2 5; 7 3 3
 clock 3 | 10 3 | 4 1 7; 6 2 5; 7 3 3
 clock 4 | 10 7 | 4 1 7; 6 2 5; 7 3 3
 clock 5 | 10 8 | 4 1 7; 6 2 5; 7 3 3
 clock 6 | 10 9 | 4 1 7; 6 2 5; 7 3 3
 clock 7 | 10 10 | 4 1 7; 6 2 5; 7 3 3
 clock 8 | 10 - | 4 1 7; 6 2 5; 7 3 3
the longer sum just fits | 1 1 3 0 1 5535 | 3 0 2 0 0 30000 40000; 3 0 3 0 0 30000 40000; 1
 opened | 1 65535 | 1 35535 45535
 clock 5535 | 1 65535 | 1 35535 45535
 clock 40000 | 1 - | 1 35535 45535
the longer sum is a day too long | 1 1 3 0 1 5536 | 3 0 2 0 0 30000 40000; 3 0 3 0 0 30000 40000; 1
 opened | 1 - | 1 35536 45536
 clock 35536 | 1 - | 1 35536 45536
a way past the last day is no way | 1 1 5 0 1 | 4 0 2 4; 3 0 3 0 0 60000 65535; 3 0 5 0 0 60000 65535; 3 0 5 0 0 9 9; 1
 opened | 3 9 | 2 60000 65535; 4 9 9
 clock 9 | 3 9 | 2 60000 65535; 4 9 9
 clock 10 | 3 - | 2 60000 65535; 4 9 9
a both past the last day | 1 1 5 0 1 | 5 0 2 4; 3 0 3 0 0 60000 65535; 3 0 5 0 0 5536 5536; 3 0 5 0 0 9 9; 1
 opened | 3 - | 2 60000 65535; 4 9 9
 clock 9 | 3 - | 2 60000 65535; 4 9 9
";

#[test]
fn windows(rt: HostRuntime) -> Result<(), Fail> {
    run(&rt, rt.alloc(), WINDOWS)
}

#[test]
fn sides(rt: HostRuntime) -> Result<(), Fail> {
    run(&rt, rt.alloc(), SIDES)
}

#[test]
fn one_after_another(rt: HostRuntime) -> Result<(), Fail> {
    run(&rt, rt.alloc(), ONE_AFTER_ANOTHER)
}
