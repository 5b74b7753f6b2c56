//! The worked cases of docs/terms.md.
use super::run;
use std::test::Fail;

static CASES: &str = "\
File A | 1 1 10 0 1 100 | \
    3 0 2 4 0 0 14; 3 0 3 7 0 0 8; 1; 9 1 1 0 5 2; 9 2 1 0 6 1; 9 3 1 0 0 7; 9 1 1 0 8 1; 9 2 1 0 9 2; 9 3 1 0 10 1; 9 4 1 0 0 500
 opened | 1 100 | 1 100 114
 clock 105 | 1 105 | 1 100 114
 clock 114 | 1 114 | 1 100 114
 clock 115 | 1 - | 1 100 114
 record 2 1 7 1 110 | 1 110 | 2 110 118
 record 1 2 1 500 118 | 1 118
 record 1 2 1 500 118 | 1 -
File A, paid a day late | 1 1 10 0 1 100 | \
    3 0 2 4 0 0 14; 3 0 3 7 0 0 8; 1; 9 1 1 0 5 2; 9 2 1 0 6 1; 9 3 1 0 0 7; 9 1 1 0 8 1; 9 2 1 0 9 2; 9 3 1 0 10 1; 9 4 1 0 0 500
 opened | 1 100 | 1 100 114
 record 2 1 7 1 110 | 1 110 | 2 110 118
 record 1 2 1 500 119 | 1 -
a step that may repeat | 1 1 6 2 1 0 | 7 1; 8 1 3; 3 0 4 0 0 28 31; 4 0 5 6; 1; 7 1
 opened | 1 28 | 3 28 31
 record 0 0 0 0 31 | 3 31 | 3 59 62
a step that may repeat, a day early | 1 1 6 2 1 0 | 7 1; 8 1 3; 3 0 4 0 0 28 31; 4 0 5 6; 1; 7 1
 record 0 0 0 0 27 | 1 -
a step that must repeat | 1 1 4 2 1 0 | 7 1; 8 1 3; 3 0 4 0 0 28 31; 7 1
 opened | 1 - | 3 28 31
calendar windows in the wrong order | 1 1 4 0 1 0 | 6 0 2 3; 3 1 4 0 0 10 20; 3 1 4 0 0 5 9; 1
 opened | 2 - | 2 10 20
two steps side by side | 1 1 4 0 1 0 | 5 0 2 3; 3 1 4 0 0 10 20; 3 0 4 0 0 5 30; 1
 opened | 3 10 | 2 10 20; 3 5 30
a left side that may end | 1 1 5 0 1 100 | 6 0 2 4; 4 0 5 3; 3 0 5 0 0 0 3; 3 0 5 0 0 2 5; 1
 opened | 6 102 | 3 100 103; 4 102 105
 clock 105 | 6 105 | 3 100 103; 4 102 105
 clock 106 | 6 - | 3 100 103; 4 102 105
one record, two ways | 1 1 7 0 1 0 | 5 0 2 3; 3 0 5 6 0 0 9; 3 0 4 6 0 0 9; 3 0 5 7 0 0 9; 1; 9 1 1 0 0 1; 9 1 1 0 0 2
 opened | 3 0 | 2 0 9; 3 0 9
 record 1 0 0 0 4 | 5 4 | 3 0 9; 2 0 9; 4 4 13
";

#[test]
fn examples(rt: HostRuntime) -> Result<(), Fail> {
    run(&rt, rt.alloc(), CASES)
}
