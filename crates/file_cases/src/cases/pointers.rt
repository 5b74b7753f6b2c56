//! Question 4: where pointers lead.
//!
//! In the first group the entries are a clause, a condition, an argument, a template and its body.
use super::run;
use std::test::Fail;

static CASES: &str = "\
no contract | 4 0 | 1 1 5 4 0 | 1; 9 1 4; 10 0 1; 8 1 5; 1
a condition as contract | 4 0 | 1 1 5 4 2 | 1; 9 1 4; 10 0 1; 8 1 5; 1
an argument as contract | 4 0 | 1 1 5 4 3 | 1; 9 1 4; 10 0 1; 8 1 5; 1
a template as contract | 4 0 | 1 1 5 4 4 | 1; 9 1 4; 10 0 1; 8 1 5; 1
the last entry as contract | 0 1 | 1 1 5 4 5 | 1; 9 1 4; 10 0 1; 8 1 5; 1
a contract past the last entry | 4 0 | 1 1 5 4 6 | 1; 9 1 4; 10 0 1; 8 1 5; 1
a contract 256 above a clause | 4 0 | 1 1 5 4 257 | 1; 9 1 4; 10 0 1; 8 1 5; 1
a contract of 65,535 | 4 0 | 1 1 5 4 65535 | 1; 9 1 4; 10 0 1; 8 1 5; 1
a clause as first template | 4 0 | 1 1 5 1 1 | 1; 9 1 4; 10 0 1; 8 1 5; 1
a condition as first template | 4 0 | 1 1 5 2 1 | 1; 9 1 4; 10 0 1; 8 1 5; 1
an argument as first template | 4 0 | 1 1 5 3 1 | 1; 9 1 4; 10 0 1; 8 1 5; 1
a first template past the last entry | 4 0 | 1 1 5 6 1 | 1; 9 1 4; 10 0 1; 8 1 5; 1
a first template 256 above one | 4 0 | 1 1 5 260 1 | 1; 9 1 4; 10 0 1; 8 1 5; 1

step with itself as tail | 4 1 | 1 1 2 0 1 | 3 0 1 0 0 0 9; 1
step with a lower tail | 4 2 | 1 1 2 0 1 | 1; 3 0 1 0 0 0 9
step without a tail | 4 1 | 1 1 2 0 1 | 3 0 0 0 0 0 9; 1
step with a tail past the last entry | 4 1 | 1 1 2 0 1 | 3 0 3 0 0 0 9; 1
step with a tail 256 above a clause | 4 1 | 1 1 2 0 1 | 3 0 258 0 0 0 9; 1
step with a tail of 65,535 | 4 1 | 1 1 2 0 1 | 3 0 65535 0 0 0 9; 1
step with a condition as tail | 4 1 | 1 1 2 0 1 | 3 0 2 0 0 0 9; 9 1 4
step with an argument as tail | 4 1 | 1 1 2 0 1 | 3 0 2 0 0 0 9; 10 0 1
step with a template as tail | 4 1 | 1 1 3 2 1 | 3 0 2 0 0 0 9; 8 1 3; 1
step with a lower first condition | 4 2 | 1 1 3 0 2 | 9 1 4; 3 0 3 1 0 0 9; 1
step with itself as first condition | 4 1 | 1 1 2 0 1 | 3 0 2 1 0 0 9; 1
step with a clause as first condition | 4 1 | 1 1 2 0 1 | 3 0 2 2 0 0 9; 1
step with an argument as first condition | 4 1 | 1 1 3 0 1 | 3 0 2 3 0 0 9; 1; 10 0 1
step with a template as first condition | 4 1 | 1 1 4 3 1 | 3 0 2 3 0 0 9; 1; 8 1 4; 1
step with a first condition past the last entry | 4 1 | 1 1 2 0 1 | 3 0 2 3 0 0 9; 1
step with a first condition 256 above one | 4 1 | 1 1 3 0 1 | 3 0 2 259 0 0 9; 1; 9 1 4
step with a first condition | 0 1 | 1 1 3 0 1 | 3 0 2 3 0 0 9; 1; 9 1 4
step without a condition | 0 1 | 1 1 2 0 1 | 3 0 2 0 0 0 9; 1

choice with itself as left | 4 1 | 1 1 2 0 1 | 4 0 1 2; 1
choice with a lower left | 4 2 | 1 1 3 0 1 | 1; 4 0 1 3; 1
choice without a left | 4 1 | 1 1 2 0 1 | 4 0 0 2; 1
choice with a left past the last entry | 4 1 | 1 1 2 0 1 | 4 0 3 2; 1
choice with a condition as left | 4 1 | 1 1 3 0 1 | 4 0 3 2; 1; 9 1 4
choice with an argument as left | 4 1 | 1 1 3 0 1 | 4 0 3 2; 1; 10 0 1
choice with a template as left | 4 1 | 1 1 4 3 1 | 4 0 3 2; 1; 8 1 4; 1
choice with itself as right | 4 1 | 1 1 2 0 1 | 4 0 2 1; 1
choice with a lower right | 4 2 | 1 1 3 0 1 | 1; 4 0 3 1; 1
choice without a right | 4 1 | 1 1 2 0 1 | 4 0 2 0; 1
choice with a right past the last entry | 4 1 | 1 1 2 0 1 | 4 0 2 3; 1
choice with a condition as right | 4 1 | 1 1 3 0 1 | 4 0 2 3; 1; 9 1 4
choice with an argument as right | 4 1 | 1 1 3 0 1 | 4 0 2 3; 1; 10 0 1
choice with a template as right | 4 1 | 1 1 4 3 1 | 4 0 2 3; 1; 8 1 4; 1
choice of two steps | 0 3 | 1 1 4 0 1 | 4 0 3 2; 3 0 4 0 0 0 9; 3 0 4 0 0 0 9; 1
both with itself as left | 4 1 | 1 1 2 0 1 | 5 0 1 2; 1
both with a lower left | 4 2 | 1 1 3 0 1 | 1; 5 0 1 3; 1
both without a left | 4 1 | 1 1 2 0 1 | 5 0 0 2; 1
both with a left past the last entry | 4 1 | 1 1 2 0 1 | 5 0 3 2; 1
both with a condition as left | 4 1 | 1 1 3 0 1 | 5 0 3 2; 1; 9 1 4
both with itself as right | 4 1 | 1 1 2 0 1 | 5 0 2 1; 1
both with a lower right | 4 2 | 1 1 3 0 1 | 1; 5 0 3 1; 1
both without a right | 4 1 | 1 1 2 0 1 | 5 0 2 0; 1
both with a right past the last entry | 4 1 | 1 1 2 0 1 | 5 0 2 3; 1
both with a condition as right | 4 1 | 1 1 3 0 1 | 5 0 2 3; 1; 9 1 4
both of two steps | 0 3 | 1 1 4 0 1 | 5 0 3 2; 3 0 4 0 0 0 9; 3 0 4 0 0 0 9; 1
then with itself as left | 4 1 | 1 1 2 0 1 | 6 0 1 2; 1
then with a lower left | 4 2 | 1 1 3 0 1 | 1; 6 0 1 3; 1
then without a left | 4 1 | 1 1 2 0 1 | 6 0 0 2; 1
then with a left past the last entry | 4 1 | 1 1 2 0 1 | 6 0 3 2; 1
then with a condition as left | 4 1 | 1 1 3 0 1 | 6 0 3 2; 1; 9 1 4
then with itself as right | 4 1 | 1 1 2 0 1 | 6 0 2 1; 1
then with a lower right | 4 2 | 1 1 3 0 1 | 1; 6 0 3 1; 1
then without a right | 4 1 | 1 1 2 0 1 | 6 0 2 0; 1
then with a right past the last entry | 4 1 | 1 1 2 0 1 | 6 0 2 3; 1
then with a condition as right | 4 1 | 1 1 3 0 1 | 6 0 2 3; 1; 9 1 4
then of two steps | 0 2 | 1 1 4 0 1 | 6 0 3 2; 3 0 4 0 0 0 9; 3 0 4 0 0 0 9; 1

call with a lower first argument | 4 2 | 1 1 4 3 2 | 10 0 1; 7 1 0 1; 8 1 4; 1
call with itself as first argument | 4 1 | 1 1 3 2 1 | 7 1 0 1; 8 1 3; 1
call with a clause as first argument | 4 1 | 1 1 3 2 1 | 7 1 0 3; 8 1 3; 1
call with a condition as first argument | 4 1 | 1 1 4 2 1 | 7 1 0 4; 8 1 3; 1; 9 1 4
call with a template as first argument | 4 1 | 1 1 3 2 1 | 7 1 0 2; 8 1 3; 1
call with a first argument past the last entry | 4 1 | 1 1 3 2 1 | 7 1 0 4; 8 1 3; 1
call with an argument | 0 1 | 1 1 4 2 1 | 7 1 0 4; 8 1 3; 1; 10 0 1
call without an argument | 0 1 | 1 1 3 2 1 | 7 1; 8 1 3; 1

template with a lower body | 4 2 | 1 1 2 2 1 | 1; 8 1 1
template with itself as body | 4 2 | 1 1 2 2 1 | 1; 8 1 2
template without a body | 4 2 | 1 1 2 2 1 | 1; 8 1
template with a body past the last entry | 4 2 | 1 1 2 2 1 | 1; 8 1 3
template with a condition as body | 4 2 | 1 1 3 2 1 | 1; 8 1 3; 9 1 4
template with an argument as body | 4 2 | 1 1 3 2 1 | 1; 8 1 3; 10 0 1
template with a template as body | 4 2 | 1 1 4 2 1 | 1; 8 1 3 0 3; 8 2 4; 1
template with itself as next | 4 2 | 1 1 3 2 1 | 1; 8 1 3 0 2; 1
template with the first as next | 4 3 | 1 1 4 2 1 | 1; 8 1 4 0 3; 8 2 4 0 2; 1
template with a clause as next | 4 2 | 1 1 3 2 1 | 1; 8 1 3 0 3; 1
template with a condition as next | 4 2 | 1 1 4 2 1 | 1; 8 1 3 0 4; 1; 9 1 4
template with an argument as next | 4 2 | 1 1 4 2 1 | 1; 8 1 3 0 4; 1; 10 0 1
template with a next past the last entry | 4 2 | 1 1 3 2 1 | 1; 8 1 3 0 4; 1
template with a body and a next | 0 1 | 1 1 4 2 1 | 1; 8 1 4 0 3; 8 2 4; 1

condition with a lower next | 4 3 | 1 1 3 0 1 | 1; 9 1 4; 9 2 4 0 2
condition with itself as next | 4 2 | 1 1 2 0 1 | 1; 9 1 4 0 2
condition with a clause as next | 4 2 | 1 1 3 0 1 | 1; 9 1 4 0 3; 1
condition with an argument as next | 4 2 | 1 1 3 0 1 | 1; 9 1 4 0 3; 10 0 1
condition with a template as next | 4 2 | 1 1 4 3 1 | 1; 9 1 4 0 3; 8 1 4; 1
condition with a next past the last entry | 4 2 | 1 1 2 0 1 | 1; 9 1 4 0 3
condition with a next | 0 1 | 1 1 3 0 1 | 1; 9 1 4 0 3; 9 2 4

argument with a lower next | 4 3 | 1 1 3 0 1 | 1; 10 0 1; 10 1 1 0 2
argument with itself as next | 4 2 | 1 1 2 0 1 | 1; 10 0 1 0 2
argument with a clause as next | 4 2 | 1 1 3 0 1 | 1; 10 0 1 0 3; 1
argument with a condition as next | 4 2 | 1 1 3 0 1 | 1; 10 0 1 0 3; 9 1 4
argument with a template as next | 4 2 | 1 1 4 3 1 | 1; 10 0 1 0 3; 8 1 4; 1
argument with a next past the last entry | 4 2 | 1 1 2 0 1 | 1; 10 0 1 0 3
argument with a next | 0 1 | 1 1 3 0 1 | 1; 10 0 1 0 3; 10 1 1
";

#[test]
fn pointers(rt: HostRuntime) -> Result<(), Fail> {
    run(&rt, rt.alloc(), CASES)
}
