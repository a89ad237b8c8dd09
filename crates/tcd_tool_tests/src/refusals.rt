// Cases of plans, turn scripts, executables, sources, objects and layouts that commands reject.
use crate::stage::play;
use std::test::Fail;

const CASES: &str = r#"
case plans that a run refuses
put e CALLER
put s NOTHING
replace EDITED BOARD
    "sp":"0xD0009000",
put p EDITED
run bad-input run e p s
    bad plan 2 key sp
replace EDITED BOARD
    "a9":0}}
    "a9":0},"core":"1.5"}
put p EDITED
run bad-input run e p s
    bad plan 4 key core
replace EDITED BOARD
    "reserve":2
    "reserve":0
put p EDITED
run bad-input run e p s
    bad plan 6
replace EDITED BOARD
    "csa":{"at":"0xD0000000"
    "csa":{"at":"0xD0008000"
put p EDITED
run bad-input run e p s
    bad plan 8 at 1 2
text EDITED
    []
put p EDITED ..2
run bad-input run e p s
    bad plan 1

case scripts that a run refuses
put e NESTED
put p INTERRUPTS
text TURNS
    irq 30
put s TURNS
run bad-input run e p s
    bad script 2 at 1
text TURNS
    in 0 0 5
put s TURNS
run bad-input run e p s
    bad script 3 at 1
text TURNS
    step 100000
    irq 10
put s TURNS
run bad-input run e p s
    bad script 4 at 2

case answers of a device are within its bounds
put e DEVICE_LOAD
put p ANSWERING
text TURNS
    in 0 4 5
    step 3
put s TURNS
run done run e p s
    events 3 peak 0 running
text TURNS
    in 0 3 6
put s TURNS
run bad-input run e p s
    bad script 3 at 1

case executables that have no listing
put e CALLER ..51
run bad-input dis e
    bad elf 1
put e CALLER ..52
run bad-input dis e
    bad elf 5 at 0
put e CALLER ..93
run bad-input dis e
    bad elf 5 at 0
put e CALLER 2c=ff 2d=ff ..52
run bad-input dis e
    bad elf 5 at 0

case a certificate of more frames than may be
put e CALLER
put p BOARD
put c CALLER_CERT 06=01 07=08 ..8
run bad-input check e p c
    bad cert 5 at 6

case sources that are not assembled
text SOURCE
    nop
put s SOURCE
run bad-input asm s o
    bad source 8 at 0 1
none o
text SOURCE
    .section t
    jz16 d1, .+32
put s SOURCE
run bad-input asm s o
    bad source 11 at 0 2
none o
text SOURCE
    .section t
    ld.a a2, [a2+]4
put s SOURCE
run bad-input asm s o
    bad source 12 at 0 2
none o

case a function that no object defines
text CALLING_MAIN
    .section text
    .global main
    main: call f
    j .+0
bytes CALLING_OBJECT
    54434f31 01000200 01000474 65787408 0000006d 0000001d 00000004 6d61696e
    02000000 00000001 66000000 00000000 00000000 00000101 00000000 00
put s CALLING_MAIN
put l CALLER_LAYOUT
run done asm s o
    object 61 bytes
holds o CALLING_OBJECT
run bad-input link l e o
    bad link 2 name f
none e

case a section that is placed twice
text REPEATED
    entry main
    place text 80000000 00010000
    place text 80000000 00010000
put l REPEATED
put o NOTHING
run bad-input link l e o
    bad layout 2 at 3

case certificates of tasks need a name each
put e SWITCHES
put p EIGHT
put t TWO_TASKS
run bad-input taskcert e p t c
    bad tasks 7
"#;

#[test]
fn inputs_are_refused(rt: HostRuntime) -> Result<(), Fail> {
    play(&rt, CASES)
}
