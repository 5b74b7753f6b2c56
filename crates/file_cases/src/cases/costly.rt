//! Clauses that share their sides, where a walk along every way would not end.
use super::run;
use std::test::Fail;

static CASES: &str = "\
255 choices over lost | 0 1 | 1 1 256 0 1 | 4 0 > > 0 0 0 255; 2
255 boths over lost | 0 1 | 1 1 256 0 1 | 5 0 > > 0 0 0 255; 2
255 thens over lost | 0 1 | 1 1 256 0 1 | 6 0 > > 0 0 0 255; 2
255 choices over done | 10 0 | 1 1 256 0 1 | 4 0 > > 0 0 0 255; 1
255 boths over done | 0 1 | 1 1 256 0 1 | 5 0 > > 0 0 0 255; 1
255 thens over done | 0 1 | 1 1 256 0 1 | 6 0 > > 0 0 0 255; 1
254 choices over a step | 10 0 | 1 1 256 0 1 | 4 0 > > 0 0 0 254; 3 0 256 0 0 0 9; 1
254 boths over a step | 10 0 | 1 1 256 0 1 | 5 0 > > 0 0 0 254; 3 0 256 0 0 0 9; 1
254 thens over a step, 255 nodes | 0 255 | 1 1 256 0 1 | 6 0 > > 0 0 0 254; 3 0 256 0 0 0 9; 1
253 thens over a step or that step, 256 nodes | 0 256 | 1 1 256 0 1 | 6 0 > > 0 0 0 253; 4 0 255 255; 3 0 256 0 0 0 9; 1
250 thens over (done or a step) then that step, 256 nodes | 0 256 | 1 1 254 0 1 | \
    6 0 > > 0 0 0 250; 6 0 252 253; 4 0 254 253; 3 0 254 0 0 0 9; 1
251 thens over (done or a step) then that step, 257 nodes | 10 0 | 1 1 255 0 1 | \
    6 0 > > 0 0 0 251; 6 0 253 254; 4 0 255 254; 3 0 255 0 0 0 9; 1
5 thens over done or a step, 158 nodes | 0 158 | 1 1 8 0 1 | 6 0 > > 0 0 0 5; 4 0 8 7; 3 0 8 0 0 0 9; 1
253 thens over done or a step | 10 0 | 1 1 256 0 1 | 6 0 > > 0 0 0 253; 4 0 256 255; 3 0 256 0 0 0 9; 1
254 thens of done and the next, over a step | 0 1 | 1 1 256 0 1 | 6 0 256 > 0 0 0 254; 3 0 256 0 0 0 9; 1
127 choices of a step and the next, over that step, 255 nodes | 0 255 | 1 1 129 0 1 | 4 0 128 > 0 0 0 127; 3 0 129 0 0 0 9; 1
128 choices of a step and the next, over that step, 257 nodes | 10 0 | 1 1 130 0 1 | 4 0 129 > 0 0 0 128; 3 0 130 0 0 0 9; 1
127 boths of the next and a step, over that step, then done, 256 nodes | 0 256 | 1 1 130 0 1 | \
    6 0 2 2; 5 0 > 129 0 0 0 127; 3 0 130 0 0 0 9; 1
128 boths of the next and a step, over that step, 257 nodes | 10 0 | 1 1 130 0 1 | 5 0 > 129 0 0 0 128; 3 0 130 0 0 0 9; 1
a step with 252 boths over a step as tail | 0 1 | 1 1 255 0 1 | 3 0 2 0 0 0 9; 5 0 > > 0 0 0 252; 3 0 255 0 0 0 9; 1

a body of 252 choices over a bare call of its own template | 6 254 | 1 1 255 1 255 | 8 1 2; 4 0 > > 0 0 0 252; 7 1; 1
a body of 252 boths over a bare call of its own template | 6 254 | 1 1 255 1 255 | 8 1 2; 5 0 > > 0 0 0 252; 7 1; 1
a body of 252 thens over a bare call of its own template | 6 254 | 1 1 255 1 255 | 8 1 2; 6 0 > > 0 0 0 252; 7 1; 1
a body of 252 choices over a calendar window | 7 254 | 1 1 255 1 255 | 8 1 2; 4 0 > > 0 0 0 252; 3 1 255 0 0 0 9; 1
a body of 252 steps, each the tail of the one before, over a calendar window | 7 254 | 1 1 255 1 255 | \
    8 1 2; 3 0 > 0 0 0 9 252; 3 1 255 0 0 0 9; 1
a body of 252 choices over a step that is not called | 0 1 | 1 1 255 1 255 | 8 1 2; 4 0 > > 0 0 0 252; 3 0 255 0 0 0 9; 1
a call of a body of 252 choices over a step | 10 0 | 1 1 256 1 256 | 8 1 2; 4 0 > > 0 0 0 252; 3 0 255 0 0 0 9; 1; 7 1
a call of a body of 252 thens over a step, 253 nodes | 0 253 | 1 1 256 1 256 | 8 1 2; 6 0 > > 0 0 0 252; 3 0 255 0 0 0 9; 1; 7 1

16 templates, each both of two calls of the one below, over a step | 10 0 | 1 1 49 1 49 | \
    8 1 17 0 2; 8 2 19 0 3; 8 3 21 0 4; 8 4 23 0 5; 8 5 25 0 6; 8 6 27 0 7; 8 7 29 0 8; 8 8 31 0 9; 8 9 33 0 10; 8 10 35 0 11; \
    8 11 37 0 12; 8 12 39 0 13; 8 13 41 0 14; 8 14 43 0 15; 8 15 45 0 16; 8 16 47; 3 0 18 0 0 0 9; 1; 5 0 > >; 7 1; 5 0 > >; 7 2; 5 0 > >; \
    7 3; 5 0 > >; 7 4; 5 0 > >; 7 5; 5 0 > >; 7 6; 5 0 > >; 7 7; 5 0 > >; 7 8; 5 0 > >; 7 9; 5 0 > >; 7 10; 5 0 > >; 7 11; 5 0 > >; 7 12; \
    5 0 > >; 7 13; 5 0 > >; 7 14; 5 0 > >; 7 15; 7 16
of 16 templates like these the eighth is called, 255 nodes | 0 255 | 1 1 49 1 49 | \
    8 1 17 0 2; 8 2 19 0 3; 8 3 21 0 4; 8 4 23 0 5; 8 5 25 0 6; 8 6 27 0 7; 8 7 29 0 8; 8 8 31 0 9; 8 9 33 0 10; 8 10 35 0 11; \
    8 11 37 0 12; 8 12 39 0 13; 8 13 41 0 14; 8 14 43 0 15; 8 15 45 0 16; 8 16 47; 3 0 18 0 0 0 9; 1; 5 0 > >; 7 1; 5 0 > >; 7 2; 5 0 > >; \
    7 3; 5 0 > >; 7 4; 5 0 > >; 7 5; 5 0 > >; 7 6; 5 0 > >; 7 7; 5 0 > >; 7 8; 5 0 > >; 7 9; 5 0 > >; 7 10; 5 0 > >; 7 11; 5 0 > >; 7 12; \
    5 0 > >; 7 13; 5 0 > >; 7 14; 5 0 > >; 7 15; 7 8
16 templates, each both of two calls of the one below, over lost | 0 1 | 1 1 49 1 49 | \
    8 1 17 0 2; 8 2 19 0 3; 8 3 21 0 4; 8 4 23 0 5; 8 5 25 0 6; 8 6 27 0 7; 8 7 29 0 8; 8 8 31 0 9; 8 9 33 0 10; 8 10 35 0 11; \
    8 11 37 0 12; 8 12 39 0 13; 8 13 41 0 14; 8 14 43 0 15; 8 15 45 0 16; 8 16 47; 2; 1; 5 0 > >; 7 1; 5 0 > >; 7 2; 5 0 > >; 7 3; 5 0 > >; \
    7 4; 5 0 > >; 7 5; 5 0 > >; 7 6; 5 0 > >; 7 7; 5 0 > >; 7 8; 5 0 > >; 7 9; 5 0 > >; 7 10; 5 0 > >; 7 11; 5 0 > >; 7 12; 5 0 > >; 7 13; \
    5 0 > >; 7 14; 5 0 > >; 7 15; 7 16
16 templates, each a then of two calls of the one below, over a step, 16 nodes | 0 16 | 1 1 49 1 49 | \
    8 1 17 0 2; 8 2 19 0 3; 8 3 21 0 4; 8 4 23 0 5; 8 5 25 0 6; 8 6 27 0 7; 8 7 29 0 8; 8 8 31 0 9; 8 9 33 0 10; 8 10 35 0 11; \
    8 11 37 0 12; 8 12 39 0 13; 8 13 41 0 14; 8 14 43 0 15; 8 15 45 0 16; 8 16 47; 3 0 18 0 0 0 9; 1; 6 0 > >; 7 1; 6 0 > >; 7 2; 6 0 > >; \
    7 3; 6 0 > >; 7 4; 6 0 > >; 7 5; 6 0 > >; 7 6; 6 0 > >; 7 7; 6 0 > >; 7 8; 6 0 > >; 7 9; 6 0 > >; 7 10; 6 0 > >; 7 11; 6 0 > >; 7 12; \
    6 0 > >; 7 13; 6 0 > >; 7 14; 6 0 > >; 7 15; 7 16
16 templates, each a then of two calls of the one below, over done | 0 1 | 1 1 49 1 49 | \
    8 1 17 0 2; 8 2 19 0 3; 8 3 21 0 4; 8 4 23 0 5; 8 5 25 0 6; 8 6 27 0 7; 8 7 29 0 8; 8 8 31 0 9; 8 9 33 0 10; 8 10 35 0 11; \
    8 11 37 0 12; 8 12 39 0 13; 8 13 41 0 14; 8 14 43 0 15; 8 15 45 0 16; 8 16 47; 1; 1; 6 0 > >; 7 1; 6 0 > >; 7 2; 6 0 > >; 7 3; 6 0 > >; \
    7 4; 6 0 > >; 7 5; 6 0 > >; 7 6; 6 0 > >; 7 7; 6 0 > >; 7 8; 6 0 > >; 7 9; 6 0 > >; 7 10; 6 0 > >; 7 11; 6 0 > >; 7 12; 6 0 > >; 7 13; \
    6 0 > >; 7 14; 6 0 > >; 7 15; 7 16
";

#[test]
fn costly(rt: HostRuntime) -> Result<(), Fail> {
    run(&rt, rt.alloc(), CASES)
}
