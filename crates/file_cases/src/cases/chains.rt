//! Question 5: the chains of templates, conditions and arguments.
use super::run;
use std::test::Fail;

static CASES: &str = "\
templates 1 and 2 | 0 1 | 1 1 3 1 3 | 8 1 3 0 2; 8 2 3; 1
a chain that starts at number 2 | 5 1 | 1 1 2 1 2 | 8 2 2; 1
templates 1 and 1 | 5 2 | 1 1 3 1 3 | 8 1 3 0 2; 8 1 3; 1
templates 1 and 3 | 5 2 | 1 1 3 1 3 | 8 1 3 0 2; 8 3 3; 1
templates 2 and 1 | 5 1 | 1 1 3 1 3 | 8 2 3 0 2; 8 1 3; 1
templates 1, 2 and 2 | 5 3 | 1 1 4 1 4 | 8 1 4 0 2; 8 2 4 0 3; 8 2 4; 1
a template, and no chain | 5 1 | 1 1 2 0 2 | 8 1 2; 1
template 2 off the chain of template 1 | 5 2 | 1 1 3 1 3 | 8 1 3; 8 2 3; 1
a second template 1 off the chain, above it | 5 2 | 1 1 3 1 3 | 8 1 3; 8 1 3; 1
a second template 1 off the chain, below it | 5 1 | 1 1 3 2 3 | 8 1 3; 8 1 3; 1
a template off the chain that leads to its first | 5 1 | 1 1 3 2 3 | 8 1 3 0 2; 8 1 3; 1
a template off the chain that leads to its second | 5 2 | 1 1 4 1 4 | 8 1 4 0 3; 8 1 4 0 3; 8 2 4; 1

fields 1, 2, 3 and 4 | 0 1 | 1 1 6 0 1 | 3 0 2 3 0 0 9; 1; 9 1 1 0 4 7; 9 2 1 0 5 7; 9 3 1 0 6 7; 9 4 1 0 0 7
fields 1 and 4 | 0 1 | 1 1 4 0 1 | 3 0 2 3 0 0 9; 1; 9 1 1 0 4 7; 9 4 1 0 0 7
fields 2 and 2 | 5 4 | 1 1 4 0 1 | 3 0 2 3 0 0 9; 1; 9 2 1 0 4 7; 9 2 1 0 0 8
fields 2 and 1 | 5 4 | 1 1 4 0 1 | 3 0 2 3 0 0 9; 1; 9 2 1 0 4 7; 9 1 1 0 0 7
fields 1, 3 and 2 | 5 5 | 1 1 5 0 1 | 3 0 2 3 0 0 9; 1; 9 1 1 0 4 7; 9 3 1 0 5 7; 9 2 1 0 0 7
fields 1 and 1 in a chain that no step uses | 5 3 | 1 1 3 0 1 | 1; 9 1 1 0 3 7; 9 1 1 0 0 7
two steps with one chain | 0 1 | 1 1 5 0 1 | 3 0 2 4 0 0 9; 3 0 3 4 0 0 9; 1; 9 1 1 0 5 7; 9 2 1 0 0 7
a step that starts inside the chain of another | 0 1 | 1 1 5 0 1 | 3 0 2 4 0 0 9; 3 0 3 5 0 0 9; 1; 9 1 1 0 5 7; 9 2 1 0 0 7
two steps whose chains 1, 3 and 2, 3 share their end | 0 1 | 1 1 6 0 1 | \
    3 0 2 4 0 0 9; 3 0 3 5 0 0 9; 1; 9 1 1 0 6 7; 9 2 1 0 6 7; 9 3 1 0 0 7
two steps whose chains 1, 2 and 3, 2 share their end | 5 6 | 1 1 6 0 1 | \
    3 0 2 4 0 0 9; 3 0 3 5 0 0 9; 1; 9 1 1 0 6 7; 9 3 1 0 6 7; 9 2 1 0 0 7
two steps whose chains 2, 2 and 1, 2 share their end | 5 6 | 1 1 6 0 1 | \
    3 0 2 4 0 0 9; 3 0 3 5 0 0 9; 1; 9 2 1 0 6 7; 9 1 1 0 6 7; 9 2 1 0 0 7

slots 0 to 7 | 0 1 | 1 1 11 2 1 | \
    7 1 0 4; 8 1 3; 1; 10 0 1 0 5 9; 10 1 1 0 6 9; 10 2 1 0 7 9; 10 3 1 0 8 9; 10 4 1 0 9 9; 10 5 1 0 10 9; 10 6 2 0 11; 10 7 2 7
slots 0 and 0 | 5 5 | 1 1 5 2 1 | 7 1 0 4; 8 1 3; 1; 10 0 1 0 5 9; 10 0 1 0 0 9
slots 3 and 2 | 5 5 | 1 1 5 2 1 | 7 1 0 4; 8 1 3; 1; 10 3 1 0 5 9; 10 2 1 0 0 9
slots 0, 5 and 3 | 5 6 | 1 1 6 2 1 | 7 1 0 4; 8 1 3; 1; 10 0 1 0 5 9; 10 5 1 0 6 9; 10 3 1 0 0 9
slots 7 and 7 in a chain that no call uses | 5 3 | 1 1 3 0 1 | 1; 10 7 1 0 3 9; 10 7 1 0 0 9
two calls whose chains 0, 6 and 4, 6 share their end | 0 1 | 1 1 8 4 1 | \
    6 0 2 3; 7 1 0 6; 7 1 0 7; 8 1 5; 1; 10 0 1 0 8 9; 10 4 1 0 8 9; 10 6 1 0 0 9
two calls whose chains 7, 6 and 4, 6 share their end | 5 8 | 1 1 8 4 1 | \
    6 0 2 3; 7 1 0 6; 7 1 0 7; 8 1 5; 1; 10 7 1 0 8 9; 10 4 1 0 8 9; 10 6 1 0 0 9
";

#[test]
fn chains(rt: HostRuntime) -> Result<(), Fail> {
    run(&rt, rt.alloc(), CASES)
}
