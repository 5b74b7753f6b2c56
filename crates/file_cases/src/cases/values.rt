//! Question 3: tags, values from the list, and zeros elsewhere.
use super::run;
use std::test::Fail;

static CASES: &str = "\
tag 0 | 3 2 | 1 1 2 0 1 | 1; 0
tag 11 | 3 2 | 1 1 2 0 1 | 1; 11
tag 255 | 3 2 | 1 1 2 0 1 | 1; 255

done with k | 3 2 | 1 1 2 0 1 | 1; 1 1
done with a | 3 2 | 1 1 2 0 1 | 1; 1 0 1
done with b | 3 2 | 1 1 2 0 1 | 1; 1 0 0 1
done with next | 3 2 | 1 1 2 0 1 | 1; 1 0 0 0 1
done with u | 3 2 | 1 1 2 0 1 | 1; 1 0 0 0 0 1
done with v | 3 2 | 1 1 2 0 1 | 1; 1 0 0 0 0 0 1
done | 0 1 | 1 1 2 0 1 | 1; 1
lost with k | 3 2 | 1 1 2 0 1 | 1; 2 255
lost with a high a | 3 2 | 1 1 2 0 1 | 1; 2 0 256
lost with a high b | 3 2 | 1 1 2 0 1 | 1; 2 0 0 256
lost with a high next | 3 2 | 1 1 2 0 1 | 1; 2 0 0 0 256
lost with a high u | 3 2 | 1 1 2 0 1 | 1; 2 0 0 0 0 16777216
lost with a high v | 3 2 | 1 1 2 0 1 | 1; 2 0 0 0 0 0 16777216
lost | 0 1 | 1 1 2 0 1 | 1; 2
step with window 2 | 3 2 | 1 1 3 0 1 | 1; 3 2 3 0 0 0 9; 1
step with window 255 | 3 2 | 1 1 3 0 1 | 1; 3 255 3 0 0 0 9; 1
step with next | 3 2 | 1 1 3 0 1 | 1; 3 0 3 0 3 0 9; 1
step with window 0 | 0 1 | 1 1 3 0 1 | 1; 3 0 3 0 0 0 9; 1
step with window 1 | 0 1 | 1 1 3 0 1 | 1; 3 1 3 0 0 0 9; 1
choice with k | 3 2 | 1 1 3 0 1 | 1; 4 1 3 3; 1
choice with next | 3 2 | 1 1 3 0 1 | 1; 4 0 3 3 3; 1
choice with u | 3 2 | 1 1 3 0 1 | 1; 4 0 3 3 0 1; 1
choice with v | 3 2 | 1 1 3 0 1 | 1; 4 0 3 3 0 0 1; 1
choice | 0 1 | 1 1 3 0 1 | 1; 4 0 3 3; 1
both with k | 3 2 | 1 1 3 0 1 | 1; 5 1 3 3; 1
both with next | 3 2 | 1 1 3 0 1 | 1; 5 0 3 3 3; 1
both with u | 3 2 | 1 1 3 0 1 | 1; 5 0 3 3 0 1; 1
both with v | 3 2 | 1 1 3 0 1 | 1; 5 0 3 3 0 0 1; 1
both | 0 1 | 1 1 3 0 1 | 1; 5 0 3 3; 1
then with k | 3 2 | 1 1 3 0 1 | 1; 6 1 3 3; 1
then with next | 3 2 | 1 1 3 0 1 | 1; 6 0 3 3 3; 1
then with u | 3 2 | 1 1 3 0 1 | 1; 6 0 3 3 0 1; 1
then with v | 3 2 | 1 1 3 0 1 | 1; 6 0 3 3 0 0 1; 1
then | 0 1 | 1 1 3 0 1 | 1; 6 0 3 3; 1
call of template 0 | 3 2 | 1 1 4 3 1 | 1; 7; 8 1 4; 1
call of template 17 | 3 2 | 1 1 4 3 1 | 1; 7 17; 8 1 4; 1
call of template 255 | 3 2 | 1 1 4 3 1 | 1; 7 255; 8 1 4; 1
call with a | 3 2 | 1 1 4 3 1 | 1; 7 1 4; 8 1 4; 1
call with next | 3 2 | 1 1 4 3 1 | 1; 7 1 0 0 3; 8 1 4; 1
call with u | 3 2 | 1 1 4 3 1 | 1; 7 1 0 0 0 1; 8 1 4; 1
call with v | 3 2 | 1 1 4 3 1 | 1; 7 1 0 0 0 0 1; 8 1 4; 1
call of template 1 | 0 1 | 1 1 4 3 1 | 1; 7 1; 8 1 4; 1
call of template 16, which is not there | 6 2 | 1 1 4 3 1 | 1; 7 16; 8 1 4; 1

template 0 | 3 2 | 1 1 3 2 1 | 1; 8 0 3; 1
template 17 | 3 2 | 1 1 3 2 1 | 1; 8 17 3; 1
template 255 | 3 2 | 1 1 3 2 1 | 1; 8 255 3; 1
template with b | 3 2 | 1 1 3 2 1 | 1; 8 1 3 3; 1
template with u | 3 2 | 1 1 3 2 1 | 1; 8 1 3 0 0 1; 1
template with v | 3 2 | 1 1 3 2 1 | 1; 8 1 3 0 0 0 1; 1
template 1 | 0 1 | 1 1 3 2 1 | 1; 8 1 3; 1
template 16, which is the first | 5 2 | 1 1 3 2 1 | 1; 8 16 3; 1

field 0 | 3 2 | 1 1 2 0 1 | 1; 9 0 1 0 0 7
field 5 | 3 2 | 1 1 2 0 1 | 1; 9 5 1 0 0 7
field 255 | 3 2 | 1 1 2 0 1 | 1; 9 255 1 0 0 7
mode 0 | 3 2 | 1 1 2 0 1 | 1; 9 1
mode 7 | 3 2 | 1 1 2 0 1 | 1; 9 1 7
mode 257 | 3 2 | 1 1 2 0 1 | 1; 9 1 257 0 0 7
mode 1 with b | 3 2 | 1 1 2 0 1 | 1; 9 1 1 1 0 7
mode 1 with v | 3 2 | 1 1 2 0 1 | 1; 9 1 1 0 0 7 1
mode 1 | 0 1 | 1 1 2 0 1 | 1; 9 1 1 0 0 4294967295
mode 2 with b | 3 2 | 1 1 2 0 1 | 1; 9 1 2 1 0 7 8
mode 2 | 0 1 | 1 1 2 0 1 | 1; 9 1 2 0 0 0 4294967295
mode 3 with slot 8 | 3 2 | 1 1 2 0 1 | 1; 9 1 3 8
mode 3 with slot 256 | 3 2 | 1 1 2 0 1 | 1; 9 1 3 256
mode 3 with u | 3 2 | 1 1 2 0 1 | 1; 9 1 3 0 0 1
mode 3 with v | 3 2 | 1 1 2 0 1 | 1; 9 1 3 0 0 0 1
mode 3 with slot 7 | 0 1 | 1 1 2 0 1 | 1; 9 1 3 7
mode 4 with slot 8 | 3 2 | 1 1 2 0 1 | 1; 9 1 4 8
mode 4 with slot 256 | 3 2 | 1 1 2 0 1 | 1; 9 1 4 256
mode 4 with u | 3 2 | 1 1 2 0 1 | 1; 9 1 4 0 0 1
mode 4 with v | 3 2 | 1 1 2 0 1 | 1; 9 1 4 0 0 0 1
mode 4 with slot 7 | 0 1 | 1 1 2 0 1 | 1; 9 1 4 7
mode 5 with slot 8 | 3 2 | 2 1 2 0 1 | 1; 9 4 5 8 0 1
mode 5 with slot 256 | 3 2 | 2 1 2 0 1 | 1; 9 4 5 256 0 1
mode 5 with v | 3 2 | 2 1 2 0 1 | 1; 9 4 5 0 0 1 1
mode 5 with slot 7 | 0 1 | 2 1 2 0 1 | 1; 9 4 5 7 0 4294967295
mode 6 with b | 3 2 | 2 1 2 0 1 | 1; 9 3 6 1 0 1 2
mode 6 | 0 1 | 2 1 2 0 1 | 1; 9 3 6 0 0 4294967295 4294967295

argument for slot 8 | 3 2 | 1 1 2 0 1 | 1; 10 8 1 0 0 5
argument for slot 255 | 3 2 | 1 1 2 0 1 | 1; 10 255 1 0 0 5
argument with an a of 0 | 3 2 | 1 1 2 0 1 | 1; 10
argument with an a of 3 | 3 2 | 1 1 2 0 1 | 1; 10 0 3
argument with an a of 257 | 3 2 | 1 1 2 0 1 | 1; 10 0 257 0 0 5
constant argument with b | 3 2 | 1 1 2 0 1 | 1; 10 0 1 1 0 5
constant argument with v | 3 2 | 1 1 2 0 1 | 1; 10 0 1 0 0 5 1
constant argument for slot 7 | 0 1 | 1 1 2 0 1 | 1; 10 7 1 0 0 4294967295
argument from slot 8 | 3 2 | 1 1 2 0 1 | 1; 10 0 2 8
argument from slot 256 | 3 2 | 1 1 2 0 1 | 1; 10 0 2 256
argument from a slot with u | 3 2 | 1 1 2 0 1 | 1; 10 0 2 0 0 1
argument from a slot with v | 3 2 | 1 1 2 0 1 | 1; 10 0 2 0 0 0 1
argument from slot 7 | 0 1 | 1 1 2 0 1 | 1; 10 7 2 7
";

#[test]
fn values(rt: HostRuntime) -> Result<(), Fail> {
    run(&rt, rt.alloc(), CASES)
}
