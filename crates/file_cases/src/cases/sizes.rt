//! Questions 10 and 11: how many nodes a contract opens to, and the signing day.
use super::run;
use std::test::Fail;

static CASES: &str = "\
done | 0 1 | 1 1 1 0 1 | 1
lost | 0 1 | 1 1 1 0 1 | 2
a step with a both as tail | 0 1 | 1 1 4 0 1 | 3 0 2 0 0 0 9; 5 0 3 3; 3 0 4 0 0 0 9; 1
a step or a step | 0 3 | 1 1 3 0 1 | 4 0 2 2; 3 0 3 0 0 0 9; 1
done or a step | 0 3 | 1 1 3 0 1 | 4 0 3 2; 3 0 3 0 0 0 9; 1
done or done | 0 3 | 1 1 2 0 1 | 4 0 2 2; 1
lost or a step | 0 1 | 1 1 4 0 1 | 4 0 2 3; 2; 3 0 4 0 0 0 9; 1
a step or lost | 0 1 | 1 1 4 0 1 | 4 0 3 2; 2; 3 0 4 0 0 0 9; 1
lost or lost | 0 1 | 1 1 2 0 1 | 4 0 2 2; 2
a step both a step | 0 3 | 1 1 3 0 1 | 5 0 2 2; 3 0 3 0 0 0 9; 1
done both two steps | 0 3 | 1 1 4 0 1 | 5 0 4 2; 5 0 3 3; 3 0 4 0 0 0 9; 1
two steps both done | 0 3 | 1 1 4 0 1 | 5 0 2 4; 5 0 3 3; 3 0 4 0 0 0 9; 1
done both done | 0 1 | 1 1 2 0 1 | 5 0 2 2; 1
lost both two steps | 0 1 | 1 1 5 0 1 | 5 0 2 3; 2; 5 0 4 4; 3 0 5 0 0 0 9; 1
two steps both lost | 0 1 | 1 1 5 0 1 | 5 0 3 2; 2; 5 0 4 4; 3 0 5 0 0 0 9; 1
(done both lost) or a step | 0 1 | 1 1 5 0 1 | 4 0 2 4; 5 0 5 3; 2; 3 0 5 0 0 0 9; 1
(lost both done) or a step | 0 1 | 1 1 5 0 1 | 4 0 2 4; 5 0 3 5; 2; 3 0 5 0 0 0 9; 1
(done or lost) both a step | 0 1 | 1 1 5 0 1 | 5 0 2 4; 4 0 5 3; 2; 3 0 5 0 0 0 9; 1
a step then two steps | 0 2 | 1 1 4 0 1 | 6 0 3 2; 5 0 3 3; 3 0 4 0 0 0 9; 1
a step then lost | 0 2 | 1 1 4 0 1 | 6 0 3 2; 2; 3 0 4 0 0 0 9; 1
a step then done | 0 2 | 1 1 3 0 1 | 6 0 2 3; 3 0 3 0 0 0 9; 1
two steps then a step | 0 4 | 1 1 4 0 1 | 6 0 2 3; 5 0 3 3; 3 0 4 0 0 0 9; 1
done then two steps | 0 3 | 1 1 4 0 1 | 6 0 4 2; 5 0 3 3; 3 0 4 0 0 0 9; 1
done then lost | 0 1 | 1 1 3 0 1 | 6 0 3 2; 2; 1
(lost then done) or a step | 0 1 | 1 1 5 0 1 | 4 0 2 4; 6 0 3 5; 2; 3 0 5 0 0 0 9; 1
(done then done) both a step | 0 1 | 1 1 4 0 1 | 5 0 2 3; 6 0 4 4; 3 0 4 0 0 0 9; 1
(a step then a step) then a step | 0 3 | 1 1 4 0 1 | 6 0 2 3; 6 0 3 3; 3 0 4 0 0 0 9; 1
(done or a step) then a step | 0 6 | 1 1 4 0 1 | 6 0 2 3; 4 0 4 3; 3 0 4 0 0 0 9; 1
(a step or done) then done | 0 6 | 1 1 4 0 1 | 6 0 2 4; 4 0 3 4; 3 0 4 0 0 0 9; 1
(done or a step) then lost | 0 4 | 1 1 5 0 1 | 6 0 2 3; 4 0 5 4; 2; 3 0 5 0 0 0 9; 1
((done or a step) then a step) then a step | 0 7 | 1 1 5 0 1 | 6 0 2 4; 6 0 3 4; 4 0 5 4; 3 0 5 0 0 0 9; 1
((done or a step) then (done or a step)) then a step | 0 11 | 1 1 5 0 1 | 6 0 2 4; 6 0 3 3; 4 0 5 4; 3 0 5 0 0 0 9; 1
((done or a step) both (done or a step)) then a step | 0 10 | 1 1 5 0 1 | 6 0 2 4; 5 0 3 3; 4 0 5 4; 3 0 5 0 0 0 9; 1
((done or a step) both a step) then a step | 0 6 | 1 1 5 0 1 | 6 0 2 4; 5 0 3 4; 4 0 5 4; 3 0 5 0 0 0 9; 1
a call of two steps | 0 3 | 1 1 5 2 1 | 7 1; 8 1 3; 5 0 4 4; 3 0 5 0 0 0 9; 1
a call of lost, or a step | 0 1 | 1 1 6 3 1 | 4 0 2 4; 7 1; 8 1 5; 3 0 6 0 0 0 9; 2; 1
a call of done, both a step | 0 1 | 1 1 5 3 1 | 5 0 2 4; 7 1; 8 1 5; 3 0 5 0 0 0 9; 1
a call of (done or a step), then a step | 0 6 | 1 1 6 3 1 | 6 0 2 5; 7 1; 8 1 4; 4 0 6 5; 3 0 6 0 0 0 9; 1

7 choices over a step, 255 nodes | 0 255 | 1 1 9 0 1 | 4 0 > > 0 0 0 7; 3 0 9 0 0 0 9; 1
8 choices over a step, 511 nodes | 10 0 | 1 1 10 0 1 | 4 0 > > 0 0 0 8; 3 0 10 0 0 0 9; 1
7 boths over a step, 255 nodes | 0 255 | 1 1 9 0 1 | 5 0 > > 0 0 0 7; 3 0 9 0 0 0 9; 1
8 boths over a step, 511 nodes | 10 0 | 1 1 10 0 1 | 5 0 > > 0 0 0 8; 3 0 10 0 0 0 9; 1
255 nodes then done, 256 nodes | 0 256 | 1 1 10 0 1 | 6 0 2 10; 4 0 > > 0 0 0 7; 3 0 10 0 0 0 9; 1
(255 nodes then done) then done, 257 nodes | 10 0 | 1 1 11 0 1 | 6 0 2 11; 6 0 3 11; 4 0 > > 0 0 0 7; 3 0 11 0 0 0 9; 1
255 nodes or a step, 257 nodes | 10 0 | 1 1 10 0 1 | 4 0 2 9; 4 0 > > 0 0 0 7; 3 0 10 0 0 0 9; 1
255 nodes both a step, 257 nodes | 10 0 | 1 1 10 0 1 | 5 0 9 2; 5 0 > > 0 0 0 7; 3 0 10 0 0 0 9; 1
255 nodes or lost, 255 nodes | 0 255 | 1 1 11 0 1 | 4 0 2 11; 4 0 > > 0 0 0 7; 3 0 10 0 0 0 9; 1; 2
511 nodes both lost, 1 node | 0 1 | 1 1 12 0 1 | 5 0 12 2; 4 0 > > 0 0 0 8; 3 0 11 0 0 0 9; 1; 2
a step then 511 nodes, 2 nodes | 0 2 | 1 1 11 0 1 | 6 0 10 2; 4 0 > > 0 0 0 8; 3 0 11 0 0 0 9; 1
done then 511 nodes | 10 0 | 1 1 11 0 1 | 6 0 11 2; 4 0 > > 0 0 0 8; 3 0 11 0 0 0 9; 1
a step with 511 nodes as tail, 1 node | 0 1 | 1 1 11 0 1 | 3 0 2 0 0 0 9; 4 0 > > 0 0 0 8; 3 0 11 0 0 0 9; 1
a template of 511 nodes that is not called, 1 node | 0 1 | 1 1 11 1 11 | 8 1 2; 4 0 > > 0 0 0 8; 3 0 11 0 0 0 9; 1
a call of 255 nodes | 0 255 | 1 1 11 2 1 | 7 1; 8 1 3; 4 0 > > 0 0 0 7; 3 0 11 0 0 0 9; 1
a call of 255 nodes, then done, 256 nodes | 0 256 | 1 1 12 3 1 | 6 0 2 2; 7 1; 8 1 4; 4 0 > > 0 0 0 7; 3 0 12 0 0 0 9; 1
(a call of 255 nodes, then done) then done, 257 nodes | 10 0 | 1 1 13 4 1 | 6 0 2 3; 6 0 3 3; 7 1; 8 1 5; 4 0 > > 0 0 0 7; 3 0 13 0 0 0 9; 1
a call of 255 nodes or the same call, 511 nodes | 10 0 | 1 1 12 3 1 | 4 0 2 2; 7 1; 8 1 4; 4 0 > > 0 0 0 7; 3 0 12 0 0 0 9; 1
a step with two calls of 255 nodes as tail, 1 node | 0 1 | 1 1 13 4 1 | \
    3 0 2 0 0 0 9; 5 0 3 3; 7 1; 8 1 5; 4 0 > > 0 0 0 7; 3 0 13 0 0 0 9; 1

day 0 | 0 1 | 1 1 1 0 1 | 1
day 65,535 | 0 1 | 1 1 1 0 1 65535 | 1
day 65,536 | 11 0 | 1 1 1 0 1 65536 | 1
day 4,294,967,295 | 11 0 | 1 1 1 0 1 4294967295 | 1
256 nodes on day 65,535 | 0 256 | 1 1 10 0 1 65535 | 6 0 2 10; 4 0 > > 0 0 0 7; 3 0 10 0 0 0 9; 1
256 nodes on day 65,536 | 11 0 | 1 1 10 0 1 65536 | 6 0 2 10; 4 0 > > 0 0 0 7; 3 0 10 0 0 0 9; 1
257 nodes on day 65,536 | 10 0 | 1 1 11 0 1 65536 | 6 0 2 11; 6 0 3 11; 4 0 > > 0 0 0 7; 3 0 11 0 0 0 9; 1
";

#[test]
fn sizes(rt: HostRuntime) -> Result<(), Fail> {
    run(&rt, rt.alloc(), CASES)
}
