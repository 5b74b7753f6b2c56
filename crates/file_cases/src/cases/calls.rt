//! Question 6: the templates that calls name.
use super::run;
use std::test::Fail;

static CASES: &str = "\
a call, and no template | 6 1 | 1 1 1 0 1 | 7 1
a call of template 1 of 1 | 0 1 | 1 1 3 2 1 | 7 1; 8 1 3; 1
a call of template 2 of 1 | 6 1 | 1 1 3 2 1 | 7 2; 8 1 3; 1
a call of template 16 of 1 | 6 1 | 1 1 3 2 1 | 7 16; 8 1 3; 1
a call of no template, which no clause leads to | 6 2 | 1 1 4 3 1 | 1; 7 2; 8 1 4; 1
a call of template 1, which no clause leads to | 0 1 | 1 1 4 3 1 | 1; 7 1; 8 1 4; 1

a body that is a call of its own template | 6 3 | 1 1 3 2 1 | 1; 8 1 3; 7 1
a body that is a call of a higher template | 6 4 | 1 1 5 2 1 | 1; 8 1 4 0 3; 8 2 5; 7 2; 1
a body that is a call of a lower template | 0 1 | 1 1 6 2 1 | 7 2; 8 1 4 0 3; 8 2 5; 3 0 6 0 0 0 9; 7 1; 1
a call of its own template as left of a choice | 6 4 | 1 1 5 2 1 | 1; 8 1 3; 4 0 4 5; 7 1; 1
a call of its own template as right of a choice | 6 4 | 1 1 5 2 1 | 1; 8 1 3; 4 0 5 4; 7 1; 1
a call of its own template as left of a both | 6 4 | 1 1 5 2 1 | 1; 8 1 3; 5 0 4 5; 7 1; 1
a call of its own template as right of a both | 6 4 | 1 1 5 2 1 | 1; 8 1 3; 5 0 5 4; 7 1; 1
a call of its own template as left of a then | 6 4 | 1 1 5 2 1 | 1; 8 1 3; 6 0 4 5; 7 1; 1
a call of its own template as right of a then, behind a step on the left | 6 5 | 1 1 6 2 1 | 1; 8 1 3; 6 0 4 5; 3 0 6 0 0 0 9; 7 1; 1
a call of a higher template through a choice, a both and a then | 6 7 | 1 1 8 2 1 | 1; 8 1 4 0 3; 8 2 8; 4 0 5 8; 5 0 8 6; 6 0 8 7; 7 2; 1
a call of a lower template through a choice, a both and a then | 0 1 | 1 1 8 2 1 | 1; 8 1 8 0 3; 8 2 4; 4 0 5 8; 5 0 8 6; 6 0 8 7; 7 1; 1
a call of its own template behind a step | 0 1 | 1 1 4 2 1 | 7 1; 8 1 3; 3 0 4 0 0 0 9; 7 1
two templates that call each other behind a step | 0 1 | 1 1 7 2 1 | 7 1; 8 1 4 0 3; 8 2 6; 3 0 5 0 0 0 9; 7 2; 3 0 7 0 0 0 9; 7 1
a call of its own template, behind a step and bare | 6 5 | 1 1 5 2 1 | 1; 8 1 3; 4 0 4 5; 3 0 5 0 0 0 9; 7 1
a bare call of template 1 that the bodies 2 and 3 share | 0 1 | 1 1 7 2 1 | 7 3; 8 1 5 0 3; 8 2 6 0 4; 8 3 6; 3 0 7 0 0 0 9; 7 1; 1
a bare call of template 2 that the bodies 2 and 3 share | 6 6 | 1 1 7 2 1 | 7 3; 8 1 5 0 3; 8 2 6 0 4; 8 3 6; 3 0 7 0 0 0 9; 7 2; 1
a body that is the contract, with a call of its own template | 6 4 | 1 1 4 1 2 | 8 1 2; 4 0 3 4; 1; 7 1
a call with arguments that its own body reads | 0 1 | 1 1 8 2 1 | \
    7 1 0 7; 8 1 3; 3 0 4 6 0 0 9; 7 1 0 5; 10 2 2 2; 9 4 3 2; 10 0 1 0 8 9; 10 2 1 0 0 500
";

#[test]
fn calls(rt: HostRuntime) -> Result<(), Fail> {
    run(&rt, rt.alloc(), CASES)
}
