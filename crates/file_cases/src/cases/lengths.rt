//! Questions 1 and 2: the length of a file, and byte 1. The empty file is among the cases of places.rt.
use super::run;
use std::test::Fail;

static CASES: &str = "\
one byte | 1 0 | 1 1 1 0 1 0 1 | 1
7 bytes, one less than the head | 1 0 | 1 1 1 0 1 0 7 | 1
the head alone, with a count of 0 | 1 0 | 1 1 0 0 1 0 8 | 1
the head alone, with a count of 1 | 1 0 | 1 1 1 0 1 0 8 | 1
the head alone, with a count of 256 | 1 0 | 1 1 256 0 1 0 8 | 1
a count of 0, and one entry | 1 0 | 1 1 0 0 1 | 1
a count of 1, one byte short | 1 0 | 1 1 1 0 1 0 23 | 1
a count of 1, and one entry | 0 1 | 1 1 1 0 1 | 1
a count of 1, one byte long | 1 0 | 1 1 1 0 1 0 25 | 1
a count of 1, and two entries | 1 0 | 1 1 1 0 1 | 1; 1
a count of 2, and one entry | 1 0 | 1 1 2 0 1 | 1
a count of 257, and one entry | 1 0 | 1 1 257 0 1 | 1
a count of 4,097, and one entry | 1 0 | 1 1 4097 0 1 | 1
a count of 256, one byte short | 1 0 | 1 1 256 0 1 0 4103 | 1 0 0 0 0 0 0 256
a count of 256, and 256 entries | 0 1 | 1 1 256 0 1 | 1 0 0 0 0 0 0 256
a count of 256, one byte long | 1 0 | 1 1 256 0 1 0 4105 | 1 0 0 0 0 0 0 256
a count of 257, and 257 entries | 1 0 | 1 1 257 0 1 | 1 0 0 0 0 0 0 257
a count of 65,535, and as many entries | 1 0 | 1 1 65535 0 1 | 1 0 0 0 0 0 0 65535

byte 1 is 0 | 2 0 | 1 0 1 0 1 | 1
byte 1 is 2 | 2 0 | 1 2 1 0 1 | 1
byte 1 is 255 | 2 0 | 1 255 1 0 1 | 1
byte 1 is 2 in a file of inspections | 2 0 | 2 2 1 0 1 | 1
";

#[test]
fn lengths(rt: HostRuntime) -> Result<(), Fail> {
    run(&rt, rt.alloc(), CASES)
}
