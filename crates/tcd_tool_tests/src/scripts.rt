// Cases of turn scripts that are rejected, and of the peaks of runs.
use crate::stage::play;
use std::test::Fail;

const CASES: &str = r#"
case scripts of a plan with interrupts and no device
put e NESTED
put p INTERRUPTS
text TURNS
    irq 30
put s TURNS ..6
run bad-input run e p s
    bad script 2 at 1
text TURNS
    step 1
    .
    irq 0
put s TURNS
run bad-input run e p s
    bad script 2 at 3
text TURNS
    in 0 0 5
put s TURNS ..8
run bad-input run e p s
    bad script 3 at 1
text TURNS
    step 100000
    irq 10
put s TURNS ..18
run bad-input run e p s
    bad script 4 at 2
text TURNS
    step 99999
    step 2
put s TURNS ..17
run bad-input run e p s
    bad script 4 at 2
text TURNS
    irq 256
put s TURNS ..7
run bad-input run e p s
    bad script 1 at 1
text TURNS
    step 0
put s TURNS ..6
run bad-input run e p s
    bad script 1 at 1
text TURNS
    step 100001
put s TURNS ..11
run bad-input run e p s
    bad script 1 at 1
text TURNS
    step 01
put s TURNS ..7
run bad-input run e p s
    bad script 1 at 1
text TURNS
    step +1
put s TURNS ..7
run bad-input run e p s
    bad script 1 at 1
text TURNS
    step  1
put s TURNS ..7
run bad-input run e p s
    bad script 1 at 1
bytes TURNS
    73746570 20310d0a
put s TURNS
run bad-input run e p s
    bad script 1 at 1
bytes TURNS
    73746570 203120
put s TURNS
run bad-input run e p s
    bad script 1 at 1
bytes TURNS
    20
put s TURNS
run bad-input run e p s
    bad script 1 at 1
text TURNS
    aln 2
put s TURNS ..5
run bad-input run e p s
    bad script 1 at 1
text TURNS
    Step 1
put s TURNS ..6
run bad-input run e p s
    bad script 1 at 1

case scripts of a plan with a device
put e CALLER
put p ANSWERING
text TURNS
    in 0 3 6
put s TURNS ..8
run bad-input run e p s
    bad script 3 at 1
text TURNS
    in 0 2 5
put s TURNS ..8
run bad-input run e p s
    bad script 3 at 1
text TURNS
    in 0 5 4
put s TURNS ..8
run bad-input run e p s
    bad script 1 at 1
text TURNS
    in 4294967296 3 5
put s TURNS ..17
run bad-input run e p s
    bad script 1 at 1

# The code of each is at 80000000:
# - `mtcr 0xFE38, d0` (FCX is 0 then), `call 80000000`;
# - `ret16`, with nothing saved;
# - `call 80000004`, `svlcx`, `ret16`, which finds a lower context;
# - `ji16 a15`, to 0;
# - four bytes that spell no instruction;
# - `mov d0, 1`, `mtcr 0xFE38, d0`, `call 80000000`: the free list begins at 00000040, in no memory.
case how runs die
text TURNS
    step 20
bytes NONE_FREE
    cd80e30f 6dfffeff 00000000
bytes RETURNING
    00900000 00000000 00000000
bytes RETURNING_TOO_LOW
    6d000200 0d000002 00900000
bytes TO_NO_CODE
    dc0f0000 00000000 00000000
bytes NO_INSTRUCTION
    73320a10 00000000 00000000
bytes NO_AREA
    3b100000 cd80e30f 6dfffcff
put s TURNS
put p BOARD
join E HEAD_OF_12 NONE_FREE
put e E
run done run e p s
    events 2 peak 0 dead fcu at 80000004
join E HEAD_OF_12 RETURNING
put e E
run done run e p s
    events 1 peak 0 dead csu at 80000000
join E HEAD_OF_12 RETURNING_TOO_LOW
put e E
run done run e p s
    events 3 peak 2 dead ctyp at 80000008
join E HEAD_OF_12 TO_NO_CODE
put e E
run done run e p s
    events 2 peak 0 dead nocode at 00000000
join E HEAD_OF_12 NO_INSTRUCTION
put e E
run done run e p s
    events 1 peak 0 dead notlisted at 80000000
join E HEAD_OF_12 NO_AREA
put e E
run done run e p s
    events 3 peak 0 dead noarea at 80000008

case nested interrupts, and an area too few
text NESTING
    step 2
    irq 10
    step 2
    irq 20
    step 7
replace SEVEN INTERRUPTS
    "areas":8
    "areas":7
put e NESTED
put p INTERRUPTS
put s NESTING
run done run e p s
    events 13 peak 6 running
put p SEVEN
run done run e p s
    events 6 peak 6 dead fcd at 8000000E
"#;

#[test]
fn scripts_are_refused_or_drive(rt: HostRuntime) -> Result<(), Fail> {
    play(&rt, CASES)
}
