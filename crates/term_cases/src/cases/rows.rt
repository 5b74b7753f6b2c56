//! Conditions met and missed, what is put into slots and who sees it, and calls with arguments.
use super::run;
use std::test::Fail;

static CONDITIONS: &str = "\
conditions of a transfer, lowest amount | 1 1 7 0 1 | 3 0 2 4 0 0 9; 3 0 3; 1; 9 1 1 0 5 2; 9 2 1 0 6 1; 9 3 1 0 7 7; 9 4 2 0 0 100 500
 opened | 1 0 | 1 0 9
 record 2 1 7 100 4 | 1 4 | 2 4 4
conditions of a transfer, highest amount | 1 1 7 0 1 | 3 0 2 4 0 0 9; 3 0 3; 1; 9 1 1 0 5 2; 9 2 1 0 6 1; 9 3 1 0 7 7; 9 4 2 0 0 100 500
 opened | 1 0 | 1 0 9
 record 2 1 7 500 4 | 1 4 | 2 4 4
conditions of a transfer, amount too low | 1 1 7 0 1 | 3 0 2 4 0 0 9; 3 0 3; 1; 9 1 1 0 5 2; 9 2 1 0 6 1; 9 3 1 0 7 7; 9 4 2 0 0 100 500
 opened | 1 0 | 1 0 9
 record 2 1 7 99 4 | 1 -
conditions of a transfer, amount too high | 1 1 7 0 1 | 3 0 2 4 0 0 9; 3 0 3; 1; 9 1 1 0 5 2; 9 2 1 0 6 1; 9 3 1 0 7 7; 9 4 2 0 0 100 500
 opened | 1 0 | 1 0 9
 record 2 1 7 501 4 | 1 -
conditions of a transfer, another from | 1 1 7 0 1 | 3 0 2 4 0 0 9; 3 0 3; 1; 9 1 1 0 5 2; 9 2 1 0 6 1; 9 3 1 0 7 7; 9 4 2 0 0 100 500
 opened | 1 0 | 1 0 9
 record 1 1 7 100 4 | 1 -
conditions of a transfer, another to | 1 1 7 0 1 | 3 0 2 4 0 0 9; 3 0 3; 1; 9 1 1 0 5 2; 9 2 1 0 6 1; 9 3 1 0 7 7; 9 4 2 0 0 100 500
 opened | 1 0 | 1 0 9
 record 2 2 7 100 4 | 1 -
conditions of a transfer, another resource | 1 1 7 0 1 | 3 0 2 4 0 0 9; 3 0 3; 1; 9 1 1 0 5 2; 9 2 1 0 6 1; 9 3 1 0 7 7; 9 4 2 0 0 100 500
 opened | 1 0 | 1 0 9
 record 2 1 8 100 4 | 1 -
conditions of an inspection, lowest reading | 2 1 7 0 1 | 3 0 2 4 0 0 9; 3 0 3; 1; 9 1 1 0 5 4; 9 2 1 0 6 2; 9 3 6 0 7 1 2; 9 4 5 0 0 5000
 opened | 1 0 | 1 0 9
 record 4 2 4294967295 5000 4 | 1 4 | 2 4 4
conditions of an inspection, highest reading | 2 1 7 0 1 | 3 0 2 4 0 0 9; 3 0 3; 1; 9 1 1 0 5 4; 9 2 1 0 6 2; 9 3 6 0 7 1 2; 9 4 5 0 0 5000
 opened | 1 0 | 1 0 9
 record 4 2 3 4294967295 4 | 1 4 | 2 4 4
conditions of an inspection, reading too low | 2 1 7 0 1 | 3 0 2 4 0 0 9; 3 0 3; 1; 9 1 1 0 5 4; 9 2 1 0 6 2; 9 3 6 0 7 1 2; 9 4 5 0 0 5000
 opened | 1 0 | 1 0 9
 record 4 2 4294967294 5000 4 | 1 -
conditions of an inspection, reading too high | 2 1 7 0 1 | 3 0 2 4 0 0 9; 3 0 3; 1; 9 1 1 0 5 4; 9 2 1 0 6 2; 9 3 6 0 7 1 2; 9 4 5 0 0 5000
 opened | 1 0 | 1 0 9
 record 4 2 4 5000 4 | 1 -
conditions of an inspection, odometer too low | 2 1 7 0 1 | 3 0 2 4 0 0 9; 3 0 3; 1; 9 1 1 0 5 4; 9 2 1 0 6 2; 9 3 6 0 7 1 2; 9 4 5 0 0 5000
 opened | 1 0 | 1 0 9
 record 4 2 1 4999 4 | 1 -
conditions of an inspection, another vehicle | 2 1 7 0 1 | 3 0 2 4 0 0 9; 3 0 3; 1; 9 1 1 0 5 4; 9 2 1 0 6 2; 9 3 6 0 7 1 2; 9 4 5 0 0 5000
 opened | 1 0 | 1 0 9
 record 5 2 1 5000 4 | 1 -
conditions of an inspection, another check | 2 1 7 0 1 | 3 0 2 4 0 0 9; 3 0 3; 1; 9 1 1 0 5 4; 9 2 1 0 6 2; 9 3 6 0 7 1 2; 9 4 5 0 0 5000
 opened | 1 0 | 1 0 9
 record 4 1 1 5000 4 | 1 -
the widest distance, met | 2 1 3 0 1 | 3 0 2 3 0 0 9; 1; 9 3 6 0 0 2147483648 4294967295
 opened | 1 0 | 1 0 9
 record 0 0 2147483647 0 1 | 1 1
a distance one less, not met | 2 1 3 0 1 | 3 0 2 3 0 0 9; 1; 9 3 6 0 0 2147483648 4294967294
 opened | 1 0 | 1 0 9
 record 0 0 2147483647 0 1 | 1 -
";

static PUTS: &str = "\
a put is compared in the tail, equal | 1 1 5 0 1 | 3 0 2 5 0 0 9; 3 0 3 4 0 0 9; 1; 9 2 3 3; 9 1 4 3
 opened | 1 0 | 1 0 9
 record 5 1 1 1 2 | 1 2 | 2 2 11
 record 1 5 1 1 4 | 1 4
a put is compared in the tail, not equal | 1 1 5 0 1 | 3 0 2 5 0 0 9; 3 0 3 4 0 0 9; 1; 9 2 3 3; 9 1 4 3
 opened | 1 0 | 1 0 9
 record 5 1 1 1 2 | 1 2 | 2 2 11
 record 1 4 1 1 4 | 1 -
another slot than the one put holds 0 | 1 1 5 0 1 | 3 0 2 5 0 0 9; 3 0 3 4 0 0 9; 1; 9 2 3 2; 9 1 4 3
 opened | 1 0 | 1 0 9
 record 5 1 1 1 2 | 1 2 | 2 2 11
 record 1 0 1 1 4 | 1 4
a put stays in the row behind a step without one | 1 1 6 0 1 | 3 0 2 6 0 0 9; 3 0 3 0 0 0 9; 3 0 4 5 0 0 9; 1; 9 2 3 3; 9 1 4 3
 opened | 1 0 | 1 0 9
 record 5 1 1 1 2 | 1 2 | 2 2 11
 record 0 0 0 0 3 | 1 3 | 3 3 12
 record 1 5 1 1 4 | 1 4
a step does not compare with its own put | 1 1 6 0 1 | 3 0 2 5 0 0 9; 3 0 3 4 0 0 9; 1; 9 1 3; 9 1 4 0 6; 9 2 3
 opened | 1 0 | 1 0 9
 record 5 0 1 1 2 | 1 2 | 2 2 11
 record 5 1 1 1 4 | 1 4
a step compared with its own put is not met | 1 1 4 0 1 | 3 0 2 3 0 0 9; 1; 9 1 4 0 4; 9 2 3
 opened | 1 0 | 1 0 9
 record 5 5 1 1 2 | 1 -
of two puts into a slot the later field stays | 1 1 6 0 1 | 3 0 2 5 0 0 9; 3 0 3 4 0 0 9; 1; 9 1 3 7; 9 2 4 7 6; 9 4 4 7
 opened | 1 0 | 1 0 9
 record 1 5 1 6 2 | 1 2 | 2 2 11
 record 6 1 1 1 4 | 1 4
of two puts into a slot the earlier field is gone | 1 1 6 0 1 | 3 0 2 5 0 0 9; 3 0 3 4 0 0 9; 1; 9 1 3 7; 9 2 4 7 6; 9 4 4 7
 opened | 1 0 | 1 0 9
 record 1 5 1 6 2 | 1 2 | 2 2 11
 record 5 1 1 1 4 | 1 -
a put over a put | 1 1 7 0 1 | 3 0 2 7 0 0 9; 3 0 3 6 0 0 9; 3 0 4 5 0 0 9; 1; 9 2 3 3; 9 1 4 3; 9 1 4 3
 opened | 1 0 | 1 0 9
 record 5 1 1 1 2 | 1 2 | 2 2 11
 record 6 1 1 1 2 | 1 2 | 3 2 11
 record 1 6 1 1 4 | 1 4
nothing is put where a later field fails | 1 1 9 0 1 | \
    4 0 2 5; 3 0 7 3 0 0 9; 9 1 4 0 4; 9 2 1 0 0 7; 3 0 6 9 0 0 9; 3 0 7 8 0 0 9; 1; 9 1 3; 9 2 1 0 0 8
 opened | 3 0 | 2 0 9; 5 0 9
 record 5 8 1 1 2 | 1 2 | 6 2 11
 record 0 1 1 1 4 | 1 4
a sum with a slot, met | 2 1 5 0 1 | 3 0 2 5 0 0 9; 3 0 3 4 0 0 9; 1; 9 4 5 1 0 500; 9 4 4 1
 opened | 1 0 | 1 0 9
 record 1 1 1 1000 2 | 1 2 | 2 2 11
 record 1 1 1 1500 4 | 1 4
a sum with a slot, one less | 2 1 5 0 1 | 3 0 2 5 0 0 9; 3 0 3 4 0 0 9; 1; 9 4 5 1 0 500; 9 4 4 1
 opened | 1 0 | 1 0 9
 record 1 1 1 1000 2 | 1 2 | 2 2 11
 record 1 1 1 1499 4 | 1 -
a sum that is held, met | 2 1 5 0 1 | 3 0 2 5 0 0 9; 3 0 3 4 0 0 9; 1; 9 4 5 1 0 2; 9 4 4 1
 opened | 1 0 | 1 0 9
 record 1 1 1 4294967294 2 | 1 2 | 2 2 11
 record 1 1 1 4294967295 4 | 1 4
a sum that is held, one less | 2 1 5 0 1 | 3 0 2 5 0 0 9; 3 0 3 4 0 0 9; 1; 9 4 5 1 0 2; 9 4 4 1
 opened | 1 0 | 1 0 9
 record 1 1 1 4294967294 2 | 1 2 | 2 2 11
 record 1 1 1 4294967294 4 | 1 -
a reading below 0 in a slot, compared with a vehicle | 2 1 5 0 1 | 3 0 2 5 0 0 9; 3 0 3 4 0 0 9; 1; 9 1 3; 9 3 4
 opened | 1 0 | 1 0 9
 record 1 1 4294967295 1 2 | 1 2 | 2 2 11
 record 4294967295 1 1 1 4 | 1 4
the other side of a both does not see a put | 1 1 8 0 1 | 5 0 2 5; 3 0 6 3 0 0 9; 9 1 4 0 4; 9 2 1 0 0 1; 3 0 6 7 0 0 9; 1; 9 1 3 0 8; 9 2 1 0 0 2
 opened | 3 0 | 2 0 9; 5 0 9
 record 5 1 0 0 2 | 1 2 | 5 0 9
 record 5 2 0 0 3 | 1 -
the other side of a both holds what it held | 1 1 8 0 1 | 5 0 2 5; 3 0 6 3 0 0 9; 9 1 4 0 4; 9 2 1 0 0 1; 3 0 6 7 0 0 9; 1; 9 1 3 0 8; 9 2 1 0 0 2
 opened | 3 0 | 2 0 9; 5 0 9
 record 5 1 0 0 2 | 1 2 | 5 0 9
 record 0 2 0 0 3 | 1 3
the right of a then does not see a put of the left | 1 1 6 0 1 | 6 0 2 4; 3 0 5 3 0 0 9; 9 1 4; 3 0 5 6 0 0 9; 1; 9 2 3
 opened | 2 0 | 2 0 9
 record 5 1 0 0 2 | 1 2 | 4 2 11
 record 1 5 0 0 3 | 1 -
the right of a then has the row of the then | 1 1 8 0 1 | 3 0 2 8 0 0 9; 6 0 3 5; 3 0 6 4 0 0 9; 9 1 4 3; 3 0 6 7 0 0 9; 1; 9 2 3 3; 9 1 4 3
 opened | 1 0 | 1 0 9
 record 5 1 0 0 2 | 2 2 | 3 2 11
 record 6 1 0 0 3 | 1 3 | 5 3 12
 record 1 5 0 0 4 | 1 4
two ways into one step, each with its own row | 1 1 8 0 1 | 4 0 2 4; 3 0 5 3 0 0 9; 9 1 4; 3 0 5 8 0 0 9; 3 0 6 7 0 0 9; 1; 9 2 3; 9 2 4
 opened | 3 0 | 2 0 9; 4 0 9
 record 5 6 0 0 2 | 3 2 | 5 2 11; 5 2 11
 record 0 6 0 0 3 | 1 3
two ways into one step, neither row | 1 1 8 0 1 | 4 0 2 4; 3 0 5 3 0 0 9; 9 1 4; 3 0 5 8 0 0 9; 3 0 6 7 0 0 9; 1; 9 2 3; 9 2 4
 opened | 3 0 | 2 0 9; 4 0 9
 record 5 6 0 0 2 | 3 2 | 5 2 11; 5 2 11
 record 0 7 0 0 3 | 1 -
";

static CALLS: &str = "\
a call with constants | 1 1 8 4 1 | 7 1 0 2; 10 0 1 0 3 5; 10 1 1 0 0 6; 8 1 5; 3 0 6 7 0 0 9; 1; 9 1 3 0 8; 9 2 3 1
 opened | 1 0 | 5 0 9
 record 5 6 0 0 3 | 1 3
a call with constants, another value | 1 1 8 4 1 | 7 1 0 2; 10 0 1 0 3 5; 10 1 1 0 0 6; 8 1 5; 3 0 6 7 0 0 9; 1; 9 1 3 0 8; 9 2 3 1
 opened | 1 0 | 5 0 9
 record 5 5 0 0 3 | 1 -
a slot that no argument fills is 0 | 1 1 9 5 1 | 3 0 2 4 0 0 9; 7 1 0 3; 10 0 1 0 0 5; 9 1 4 3; 8 1 6; 3 0 7 8 0 0 9; 1; 9 1 3 0 9; 9 2 3 1
 opened | 1 0 | 1 0 9
 record 8 0 0 0 1 | 1 1 | 6 1 10
 record 5 0 0 0 3 | 1 3
a call with slots | 1 1 11 7 1 | 3 0 2 5 0 0 9; 7 1 0 3; 10 0 2 4 4; 10 1 2 3; 9 1 4 3 6; 9 2 4 4; 8 1 8; 3 0 9 10 0 0 9; 1; 9 1 3 0 11; 9 2 3 1
 opened | 1 0 | 1 0 9
 record 5 6 0 0 3 | 1 3 | 8 3 12
 record 6 5 0 0 12 | 1 12
a call with a slot and a constant | 1 1 11 7 1 | \
    3 0 2 5 0 0 9; 7 1 0 3; 10 0 2 1 4; 10 1 1; 9 1 4 0 6; 9 2 4 1; 8 1 8; 3 0 9 10 0 0 9; 1; 9 1 3 0 11; 9 2 3 1
 opened | 1 0 | 1 0 9
 record 5 6 0 0 3 | 1 3 | 8 3 12
 record 6 0 0 0 12 | 1 12
a call that swaps slots | 1 1 15 7 1 | \
    3 0 2 5 0 0 9; 7 2 0 3; 10 0 2 0 4; 10 1 2 1; 9 1 4 0 6; 9 2 4 1; 8 1 8 0 12; 3 0 9 10 0 0 9; 1; 9 1 3 0 11; 9 2 3 1; 8 2 13; 7 1 0 14; \
    10 0 2 1 15; 10 1 2
 opened | 1 0 | 1 0 9
 record 5 6 0 0 3 | 1 3 | 8 3 12
 record 6 5 0 0 12 | 1 12
the caller keeps its row | 1 1 12 8 1 | \
    3 0 2 7 0 0 9; 6 0 3 5; 7 1 0 4; 10 3 1 0 0 9; 3 0 10 6 0 0 9; 9 1 3 3; 9 1 4 3; 8 1 9; 3 0 10 11 0 0 9; 1; 9 1 3 3 12; 9 2 4 3
 opened | 1 0 | 1 0 9
 record 5 0 0 0 1 | 2 1 | 9 1 10
 record 9 7 0 0 2 | 1 2 | 5 2 11
 record 5 0 0 0 3 | 1 3
the base of a body is the base of its call | 1 1 5 3 1 | 3 0 2 0 0 0 9; 7 1; 8 1 4; 3 0 5 0 0 2 3; 1
 opened | 1 2 | 1 0 9
 record 0 0 0 0 7 | 1 9 | 4 9 10
 record 0 0 0 0 10 | 1 10
calls side by side, with other arguments | 1 1 10 6 1 | \
    5 0 2 4; 7 1 0 3; 10 0 1 0 0 1; 7 1 0 5; 10 0 1 0 0 2; 8 1 7; 3 0 8 9 0 0 9; 1; 9 1 3 0 10; 9 2 3 1
 opened | 3 0 | 7 0 9; 7 0 9
 record 2 0 0 0 3 | 1 3 | 7 0 9
 record 1 0 0 0 4 | 1 4
a template that calls itself with what it put | 2 1 15 3 1 | \
    7 1 0 2; 10 0 1 0 0 1000; 8 1 4; 3 0 5 13 0 1 30; 3 0 6 10 0 0 5; 4 0 7 8; 1; 7 1 0 9; 10 0 2 1; 9 1 1 0 11 4; 9 2 1 0 12 2; 9 4 4 1; \
    9 1 1 0 14 4; 9 2 1 0 15 1; 9 4 5 0 0 500
 opened | 1 1 | 4 1 30
 record 4 1 0 1500 2 | 1 2 | 5 2 7
 record 4 2 0 1600 3 | 3 3 | 4 4 33
 record 4 1 0 2100 9 | 1 9 | 5 9 14
 record 4 2 0 2100 9 | 3 9 | 4 10 39
a template that calls itself with what it put, not met | 2 1 15 3 1 | \
    7 1 0 2; 10 0 1 0 0 1000; 8 1 4; 3 0 5 13 0 1 30; 3 0 6 10 0 0 5; 4 0 7 8; 1; 7 1 0 9; 10 0 2 1; 9 1 1 0 11 4; 9 2 1 0 12 2; 9 4 4 1; \
    9 1 1 0 14 4; 9 2 1 0 15 1; 9 4 5 0 0 500
 opened | 1 1 | 4 1 30
 record 4 1 0 1500 2 | 1 2 | 5 2 7
 record 4 2 0 1600 3 | 3 3 | 4 4 33
 record 4 1 0 2099 9 | 1 -
two templates that call one another behind steps | 1 1 11 2 1 | \
    7 1; 8 1 3 0 6; 3 0 4 5 0 0 4; 7 2; 9 1 1 0 0 1; 8 2 7; 3 0 8 11 0 2 5; 4 0 9 10; 1; 7 1; 9 1 1 0 0 2
 opened | 1 2 | 3 0 4
 record 1 0 0 0 1 | 1 3 | 7 3 6
 record 2 0 0 0 3 | 3 3 | 3 3 7
 record 1 0 0 0 4 | 1 6 | 7 6 9
a template that calls itself beside itself | 1 1 9 2 1 | 7 1; 8 1 3; 3 0 4 9 0 1 2; 4 0 5 6; 1; 5 0 7 8; 7 1; 7 1; 9 1 1 0 0 1
 opened | 1 1 | 3 1 2
 record 1 0 0 0 1 | 5 1 | 3 2 3; 3 2 3
 record 1 0 0 0 2 | 15 2 | 3 3 4; 3 3 4; 3 2 3; 3 2 3; 3 3 4; 3 3 4
 record 1 0 0 0 2 | 23 2 | 3 3 4; 3 3 4; 3 3 4; 3 3 4; 3 3 4; 3 3 4; 3 3 4; 3 3 4
a repeated step, then a step | 1 1 10 5 1 | 6 0 2 3; 7 1; 3 0 8 4 0 0 3; 9 1 1 0 0 2; 8 1 6; 3 0 7 10 0 1 3; 4 0 8 9; 1; 7 1; 9 1 1 0 0 1
 opened | 2 1 | 6 1 3
 record 1 0 0 0 1 | 6 1 | 6 2 4; 3 1 4
 record 1 0 0 0 4 | 6 4 | 6 5 7; 3 4 7
 record 2 0 0 0 7 | 1 7
";

#[test]
fn conditions(rt: HostRuntime) -> Result<(), Fail> {
    run(&rt, rt.alloc(), CONDITIONS)
}

#[test]
fn puts(rt: HostRuntime) -> Result<(), Fail> {
    run(&rt, rt.alloc(), PUTS)
}

#[test]
fn calls(rt: HostRuntime) -> Result<(), Fail> {
    run(&rt, rt.alloc(), CALLS)
}
