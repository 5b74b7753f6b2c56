//! Earliest ends of templates that call themselves or one another, and what their records leave.
use super::run;
use std::test::Fail;

static CASES: &str = "\
a step that must repeat, or a step | 1 1 7 5 1 | 4 0 2 3; 7 1; 3 0 4 0 0 5 6; 1; 8 1 6; 3 0 7 0 0 1 2; 7 1
 opened | 3 5 | 6 1 2; 3 5 6
 clock 6 | 3 6 | 6 1 2; 3 5 6
 clock 7 | 3 - | 6 1 2; 3 5 6
a step that must repeat, both a step | 1 1 7 5 1 | 5 0 2 3; 7 1; 3 0 4 0 0 5 6; 1; 8 1 6; 3 0 7 0 0 1 2; 7 1
 opened | 3 - | 6 1 2; 3 5 6
 clock 1 | 3 - | 6 1 2; 3 5 6
a step that must repeat on the same day | 1 1 4 2 1 | 7 1; 8 1 3; 3 0 4; 7 1
 opened | 1 - | 3 0 0
 record 0 0 0 0 0 | 1 - | 3 0 0
 record 0 0 0 0 0 | 1 - | 3 0 0
a step that may repeat on the same day | 1 1 6 2 1 | 7 1; 8 1 3; 3 0 4; 4 0 5 6; 7 1; 1
 opened | 1 0 | 3 0 0
 record 0 0 0 0 0 | 3 0 | 3 0 0
 record 0 0 0 0 0 | 3 0 | 3 0 0
two templates that must call one another | 1 1 7 2 1 | 7 2; 8 1 3 0 5; 3 0 4 0 0 1 1; 7 2; 8 2 6; 3 0 7 0 0 2 2; 7 1
 opened | 1 - | 6 2 2
 record 0 0 0 0 2 | 1 - | 3 3 3
two templates that call one another, one of which may end | 1 1 10 2 1 | \
    7 2; 8 1 3 0 5; 3 0 4 0 0 1 1; 7 2; 8 2 6; 3 0 7 0 0 2 2; 4 0 8 9; 7 1; 3 0 10 0 0 5 5; 1
 opened | 1 7 | 6 2 2
 record 0 0 0 0 2 | 3 7 | 3 3 3; 9 7 7
 record 0 0 0 0 3 | 1 10 | 6 5 5
the way out is only through the other template | 1 1 15 2 1 | \
    7 1; 8 1 3 0 5; 3 0 4 0 0 3 4; 7 2; 8 2 6 0 10; 3 0 7 0 0 5 6; 4 0 8 9; 7 1; 7 3; 8 3 11; 3 0 12 0 0 7 8; 4 0 13 14; 7 2; 3 0 15 0 0 1 1; 1
 opened | 1 16 | 3 3 4
 record 0 0 0 0 3 | 1 16 | 6 8 9
 clock 8 | 1 16 | 6 8 9
 record 0 0 0 0 8 | 3 16 | 3 11 12; 11 15 16
a template twice and then once more | 1 1 8 6 1 | 6 0 2 5; 6 0 3 4; 7 1 0 0 0 0 0 3; 8 1 7; 3 0 8 0 0 3 4; 1
 opened | 3 9 | 7 3 4
 record 0 0 0 0 4 | 2 10 | 7 7 8
 record 0 0 0 0 7 | 1 10 | 7 10 11
templates over templates | 1 1 16 2 1 | \
    7 4; 8 1 3 0 5; 3 0 4 0 0 1 2; 1; 8 2 6 0 9; 6 0 7 8; 7 1; 7 1; 8 3 10 0 13; 6 0 11 12; 7 2; 7 2; 8 4 14; 6 0 15 16; 7 3; 7 3
 opened | 4 8 | 3 1 2
 record 0 0 0 0 1 | 3 8 | 3 2 3
 record 0 0 0 0 3 | 3 9 | 3 4 5
of two rounds the shorter | 1 1 17 2 1 | \
    7 1; 8 1 3 0 10; 4 0 4 8; 3 0 5 0 0 1 2; 4 0 6 7; 3 0 17 0 0 20 30; 7 2; 3 0 9 0 0 3 4; 7 2; 8 2 11; 4 0 12 13; 3 0 17 0 0 5 6; \
    3 0 14 0 0 4 4; 4 0 15 16; 7 1; 3 0 17 0 0 9 9; 1
 opened | 3 6 | 4 1 2; 8 3 4
 clock 1 | 3 6 | 4 1 2; 8 3 4
 record 0 0 0 0 2 | 5 7 | 6 22 32; 12 7 8; 13 6 6
 record 0 0 0 0 6 | 5 12 | 4 7 8; 8 9 10; 16 15 15
 record 0 0 0 0 9 | 3 14 | 12 14 15; 13 13 13
both rounds, one of which waits for the other | 1 1 11 2 1 | \
    7 2; 8 1 3 0 6; 3 0 4 0 0 4 6; 4 0 11 5; 7 1; 8 2 7; 3 0 8 0 0 0 3; 5 0 9 10; 7 1; 3 0 11 0 0 5 9; 1
 opened | 1 5 | 7 0 3
 record 0 0 0 0 0 | 3 5 | 3 4 6; 10 5 9
 record 0 0 0 0 4 | 5 5 | 3 8 10; 10 5 9
 record 0 0 0 0 5 | 3 5 | 3 8 10
a round a day up to the last day | 1 1 6 2 1 65534 | 7 1; 8 1 3; 3 0 4 0 0 1 1; 4 0 5 6; 1; 7 1
 opened | 1 65535 | 3 65535 65535
 clock 65535 | 1 65535 | 3 65535 65535
 record 0 0 0 0 65535 | 3 65535 | 3 65536 65536
a round that ends only past the last day | 1 1 8 2 1 | \
    7 1; 8 1 3; 3 0 4 0 0 20000 40000; 3 0 5 0 0 30000 30000; 4 0 6 7; 7 1; 3 0 8 0 0 20000 20000; 1
 opened | 1 - | 3 20000 40000
 record 0 0 0 0 40000 | 1 - | 4 70000 70000
a round of no days that grows | 1 1 8 2 1 | 7 1; 8 1 3; 3 0 4; 4 0 8 5; 6 0 6 7; 7 1; 3 0 8; 1
 opened | 1 0 | 3 0 0
 record 0 0 0 0 0 | 4 0 | 3 0 0
 record 0 0 0 0 0 | 7 0 | 3 0 0; 7 0 0
three templates in a ring, and one way out | 1 1 13 2 1 5 | \
    7 1; 8 1 3 0 5; 3 0 4 0 0 1 2; 7 2; 8 2 6 0 8; 3 0 7 0 0 2 4; 7 3; 8 3 9; 4 0 10 12; 3 0 11 0 0 4 8; 7 1; 3 0 13 0 0 9 9; 1
 opened | 1 17 | 3 6 7
 record 0 0 0 0 6 | 1 17 | 6 8 10
 record 0 0 0 0 8 | 3 17 | 10 12 16; 12 17 17
 clock 9 | 3 17 | 10 12 16; 12 17 17
 record 0 0 0 0 12 | 1 24 | 3 13 14
a ring that is never left, beside one that is | 1 1 15 4 1 | \
    4 0 2 3; 7 1; 7 3; 8 1 5 0 7; 3 0 6 0 0 1 3; 7 2; 8 2 8 0 10; 3 0 9 0 0 1 3; 7 1; 8 3 11; 3 0 12 0 0 2 2; 4 0 13 14; 7 3; 3 0 15 0 0 5 6; 1
 opened | 3 7 | 5 1 3; 11 2 2
 record 0 0 0 0 2 | 5 7 | 8 3 5; 11 4 4; 14 7 8
 clock 7 | 5 7 | 8 3 5; 11 4 4; 14 7 8
 record 0 0 0 0 8 | 1 8
a bare call below and a call of itself behind a step | 1 1 10 2 1 | \
    7 2; 8 1 3 0 4; 3 0 8 0 0 2 3; 8 2 5; 6 0 6 7; 7 1; 4 0 8 9; 1; 3 0 10 0 0 2 2; 7 2
 opened | 2 2 | 3 2 3
 record 0 0 0 0 3 | 3 3 | 9 5 5
 record 0 0 0 0 5 | 2 7 | 3 7 8
rounds, and a step by the calendar behind them | 1 1 8 4 1 | 6 0 2 3; 7 1; 3 1 7 0 0 20 25; 8 1 5; 3 0 6 0 0 9 9; 4 0 7 8; 1; 7 1
 opened | 2 20 | 5 9 9
 record 0 0 0 0 9 | 6 20 | 5 18 18; 3 20 25
 record 0 0 0 0 18 | 6 20 | 5 27 27; 3 20 25
 clock 25 | 6 25 | 5 27 27; 3 20 25
 clock 26 | 6 - | 5 27 27; 3 20 25
rounds that miss the calendar | 1 1 10 4 1 | 6 0 2 3; 7 1; 3 1 9 0 0 20 25; 8 1 5; 3 0 6 0 0 13 13; 4 0 7 10; 6 0 8 9; 3 0 9; 1; 7 1
 opened | 2 20 | 5 13 13
 record 0 0 0 0 13 | 5 20 | 8 13 13; 5 26 26
 record 0 0 0 0 26 | 5 - | 8 26 26; 5 39 39
rounds of two lengths, side by side | 1 1 13 4 1 | \
    5 0 2 3; 7 1; 7 2; 8 1 5 0 8; 3 0 6 0 0 3 3; 4 0 13 7; 7 1; 8 2 9; 3 0 10 0 0 5 5; 4 0 11 12; 7 2; 3 0 13 0 0 4 4; 1
 opened | 3 9 | 5 3 3; 9 5 5
 record 0 0 0 0 3 | 5 9 | 5 6 6; 9 5 5
 record 0 0 0 0 5 | 7 9 | 5 6 6; 9 10 10; 12 9 9
 record 0 0 0 0 6 | 7 9 | 5 9 9; 9 10 10; 12 9 9
rounds with what they put | 1 1 11 3 1 | \
    7 1 0 2; 10 0 1 0 0 5; 8 1 4; 3 0 5 10 0 1 2; 4 0 6 8; 3 0 7 0 0 9 9; 1; 7 1 0 9; 10 0 2 1; 9 1 3 0 11; 9 2 4 1
 opened | 1 10 | 4 1 2
 record 5 7 0 0 1 | 3 10 | 6 10 10; 4 2 3
 record 7 5 0 0 3 | 3 12 | 6 12 12; 4 4 5
 record 5 0 0 0 4 | 3 13 | 6 13 13; 4 5 6
";

#[test]
fn rounds(rt: HostRuntime) -> Result<(), Fail> {
    run(&rt, rt.alloc(), CASES)
}
