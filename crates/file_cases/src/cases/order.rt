//! Which question and which entry are told where several fail: the first question, even if its entry is the higher one,
//! and of its entries the lowest.
use super::run;
use std::test::Fail;

static CASES: &str = "\
entries 2 and 3 fail question 3 | 3 2 | 1 1 3 0 1 | 1; 11; 0
all entries fail question 3 | 3 1 | 1 1 3 0 1 | 0; 1 1; 3 2
entries 1 and 2 fail question 4 | 4 1 | 1 1 2 0 1 | 3 0 1 0 0 0 9; 3 0 2 0 0 0 9
entries 3 and 4 fail question 4 | 4 3 | 1 1 5 0 1 | 1; 3 0 4 0 0 0 9; 9 1 1 0 3 7; 4 0 5 9; 1
the head and entry 1 fail question 4 | 4 0 | 1 1 1 0 0 | 3 0 1 0 0 0 9
arguments and then conditions fail question 5 | 5 3 | 1 1 5 0 1 | 1; 10 3 1 0 3 9; 10 3 1 0 0 9; 9 2 1 0 5 7; 9 2 1 0 0 7
conditions and then a template fail question 5 | 5 3 | 1 1 5 0 1 | 1; 9 2 1 0 3 7; 9 1 1 0 0 7; 8 1 5; 1
a template and then conditions fail question 5 | 5 1 | 1 1 4 1 2 | 8 2 2; 1; 9 2 1 0 4 7; 9 1 1 0 0 7
two calls of no template fail question 6 | 6 2 | 1 1 3 0 1 | 4 0 2 3; 7 1; 7 2
a bare call and then a call of no template fail question 6 | 6 3 | 1 1 4 2 1 | 1; 8 1 3; 7 1; 7 2
a call of no template and then a bare call fail question 6 | 6 1 | 1 1 3 2 1 | 7 2; 8 1 3; 7 1
two steps fail question 7 by their days | 7 1 | 1 1 3 0 1 | 3 0 2 0 0 9 8; 3 0 3 0 0 0 65536; 1
a calendar window and then days fail question 7 | 7 3 | 1 1 5 2 1 | 1; 8 1 3; 3 1 4 0 0 0 9; 3 0 5 0 0 9 8; 1
days and then a calendar window fail question 7 | 7 1 | 1 1 4 2 1 | 3 0 4 0 0 9 8; 8 1 3; 3 1 4 0 0 0 9; 1
two conditions fail question 9 | 9 2 | 1 1 3 0 1 | 1; 9 4 5 0 0 1; 9 3 6 0 0 1 2
the second of a chain, and then a condition of no step, fail question 9 | 9 4 | 1 1 5 0 1 | \
    3 0 2 3 0 0 9; 1; 9 1 1 0 4 7; 9 4 5 0 0 1; 9 1 5 0 0 1

questions 1 and 2 | 1 0 | 1 2 2 0 1 | 1
questions 1 and 3 | 1 0 | 1 1 2 0 1 | 11
questions 2 and 3 | 2 0 | 1 2 1 0 1 | 11
questions 3 and 4 | 3 3 | 1 1 3 0 1 | 3 0 1 0 0 0 9; 1; 11
questions 3 and 4, by the head | 3 2 | 1 1 2 0 9 | 1; 11
questions 4 and 5 | 4 4 | 1 1 4 0 1 | 1; 9 2 1 0 3 7; 9 2 1 0 0 7; 3 0 4 0 0 0 9
questions 4 and 6 | 4 2 | 1 1 2 0 1 | 7 1; 3 0 9 0 0 0 9
questions 5 and 6 | 5 3 | 1 1 3 0 1 | 7 1; 9 1 1 0 3 7; 9 1 1 0 0 7
questions 5 and 7 | 5 3 | 1 1 4 0 1 | 3 0 2 0 0 9 8; 1; 8 1 4; 1
questions 6 and 7 | 6 2 | 1 1 2 0 1 | 3 0 2 0 0 9 8; 7 1
questions 7 and 8 | 7 1 | 3 1 2 0 1 | 3 0 2 0 0 9 8; 1
questions 7 and 9 | 7 2 | 1 1 5 0 1 | 3 0 2 3 0 0 9; 3 0 5 3 0 9 8; 9 4 5 0 0 1; 1; 1
questions 8 and 9 | 8 0 | 3 1 2 0 1 | 1; 9 4 5 0 0 1
questions 8 and 10 | 8 0 | 3 1 10 0 1 | 4 0 > > 0 0 0 8; 3 0 10 0 0 0 9; 1
questions 8 and 11 | 8 0 | 3 1 1 0 1 65536 | 1
questions 9 and 10 | 9 11 | 1 1 11 0 1 | 4 0 > > 0 0 0 8; 3 0 10 0 0 0 9; 1; 9 4 5 0 0 1
questions 9 and 11 | 9 2 | 1 1 2 0 1 65536 | 1; 9 4 5 0 0 1
questions 10 and 11 | 10 0 | 1 1 10 0 1 65536 | 4 0 > > 0 0 0 8; 3 0 10 0 0 0 9; 1
all questions but 1 | 2 0 | 3 2 3 0 1 65536 | 11; 3 0 2 0 0 9 8; 9 4 5 0 0 1
";

#[test]
fn order(rt: HostRuntime) -> Result<(), Fail> {
    run(&rt, rt.alloc(), CASES)
}
