// Cases of generated images and their certificates.
use crate::stage::play;
use std::test::Fail;

const CASES: &str = r#"
case few functions are certified
run done gen 1
    functions 1 nodes 35 points 124 certified 49 of 240 areas
run done gen 2
    functions 2 nodes 36 points 128 certified 50 of 240 areas

# The table has sixteen words, and a heap of sixteen functions is one call deeper than one of fifteen.
case as many functions as the table has words
run done gen 15
    functions 15 nodes 49 points 180 certified 52 of 240 areas
run done gen 16
    functions 16 nodes 50 points 184 certified 53 of 240 areas
run done gen 17
    functions 17 nodes 51 points 188 certified 53 of 240 areas

case the most functions are certified
run done gen 500
    functions 500 nodes 534 points 2120 certified 57 of 240 areas

case other numbers are bad words
run bad-words gen 0
    bad words
run bad-words gen 501
    bad words
run bad-words gen 01
    bad words
run bad-words gen +1
    bad words
run bad-words gen -1
    bad words
run bad-words gen 1_
    bad words
run bad-words gen ''
    bad words
run bad-words gen 4294967297
    bad words
run bad-words gen 0x1
    bad words
"#;

#[test]
fn images_are_generated(rt: HostRuntime) -> Result<(), Fail> {
    play(&rt, CASES)
}
