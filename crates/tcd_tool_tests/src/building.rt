// Cases of sources that are assembled, linked and run, and of images that are listed.
use crate::stage::play;
use std::test::Fail;

const CASES: &str = r#"
case scripts drive the machine
put e DEVICE_LOAD
put p ANSWERING
# The script lets the device answer 4 and 5.
text ANSWERS
    in 0 4 5
    step 3
put s ANSWERS ..15
run done run e p s
    events 3 peak 0 running
text OTHERS
    in 0 3 6
    step 3
put s OTHERS ..15
run bad-input run e p s
    bad script 3 at 1

case a source is assembled
# One section, two symbols, one relocation.
bytes OBJECT
    54434f31 01000200 01000474 6578740a 0000006d 0000001d 00000000 90046d61
    696e0200 00000000 00016601 00000800 00000000 00000000 01010000 000000
put s CALLER_SOURCE
run done asm s o
    object 63 bytes
holds o OBJECT
text NO_SECTION
    nop
put s NO_SECTION
run bad-input asm s o
    bad source 8 at 0 1
holds o OBJECT

case an image is listed
put e CALLER
run done dis e
    .section s0 # 80000000
    call .+8 # 80000000 6D000400
    j .+0 # 80000004 1D000000
    ret16 # 80000008 0090

case objects are linked
put l CALLER_LAYOUT
put o OBJECT
run done link l e o
    image 94 bytes
holds e CALLER

case what is not linked is named
put o OBJECT
text REPEATED
    entry main
    place text 80000000 00010000
    place text 80000000 00010000
put l REPEATED
run bad-input link l e o
    bad layout 2 at 3
put l CALLER_LAYOUT
put q OBJECT ..62
run bad-input link l e o q
    bad object 1 at 1 59
put q OBJECT
run bad-input link l e o q
    bad link 1 name main
text OTHER_ENTRY
    entry other
    place text 80000000 00010000
put l OTHER_ENTRY
run bad-input link l e o
    bad link 6
none e
put l CALLER_LAYOUT
run bad-words link l e
    bad words
"#;

#[test]
fn programs_are_built_and_run(rt: HostRuntime) -> Result<(), Fail> {
    play(&rt, CASES)
}
