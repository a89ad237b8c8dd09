// Cases of graphs and reports of certificates.
use crate::stage::play;
use std::test::Fail;

const CASES: &str = r#"
case the graph of a made certificate is drawn
put e CALLER
put p BOARD
run done cfg e p
    start 80000000 prio 0 is 0: 80000000 call 80000008
    start 80000000 prio 0 is 0: 80000000 back 80000004
    start 80000000 prio 0 is 0: 80000004 to 80000004
    call 80000008 prio 0 is 0: 80000008 ret

case where none is made cfg tells why
put e RECURSIVE
put p BOARD
run refused cfg e p
    refused K14 at 80000008 in call 80000008 prio 0 is 0
run bad-words cfg e p c
    bad words

case nested interrupts are drawn
put e NESTED
put p INTERRUPTS
run done cfg e p
    start 80000000 prio 0 is 0: 80000000 call 80000008
    start 80000000 prio 0 is 0: 80000000 back 80000004
    start 80000000 prio 0 is 0: 80000000 irq 80000540
    start 80000000 prio 0 is 0: 80000000 irq 80000680
    start 80000000 prio 0 is 0: 80000004 to 80000004
    start 80000000 prio 0 is 0: 80000004 irq 80000540
    start 80000000 prio 0 is 0: 80000004 irq 80000680
    call 80000008 prio 0 is 0: 80000008 call 8000000C
    call 80000008 prio 0 is 0: 80000008 back 8000000A
    call 80000008 prio 0 is 0: 80000008 irq 80000540
    call 80000008 prio 0 is 0: 80000008 irq 80000680
    call 80000008 prio 0 is 0: 8000000A irq 80000540
    call 80000008 prio 0 is 0: 8000000A irq 80000680
    call 80000008 prio 0 is 0: 8000000A ret
    call 8000000C prio 0 is 0: 8000000C irq 80000540
    call 8000000C prio 0 is 0: 8000000C irq 80000680
    call 8000000C prio 0 is 0: 8000000C ret
    call 8000000E prio 10 is 1: 8000000E irq 80000680
    call 8000000E prio 10 is 1: 8000000E ret
    irq 80000540 prio 10 is 1: 80000540 to 80000542
    irq 80000540 prio 10 is 1: 80000542 call 8000000E
    irq 80000540 prio 10 is 1: 80000542 back 80000546
    irq 80000540 prio 10 is 1: 80000542 irq 80000680
    irq 80000540 prio 10 is 1: 80000546 to 8000054A
    irq 80000540 prio 10 is 1: 80000546 irq 80000680
    irq 80000540 prio 10 is 1: 8000054A irq 80000680
    irq 80000540 prio 10 is 1: 8000054A rfe
    irq 80000680 prio 20 is 1: 80000680 rfe

case a certificate is reported
put e CALLER
put p BOARD
put c CALLER_CERT
run done report e p c
    {"areas":4,"calls":[{"longest":1,"prio":0}],"certified":1,"nodes":[{"key":"start 80000000 prio 0 is 0","need":1,"points":2},{"key":"call 80000008 prio 0 is 0","need":0,"points":1}],"reserve":2}

case each priority has its longest row of calls
put e NESTED
put p INTERRUPTS
put c NESTED_CERT
run done report e p c
    {"areas":8,"calls":[{"longest":2,"prio":0},{"longest":1,"prio":10},{"longest":0,"prio":20}],"certified":6,"nodes":[{"key":"start 80000000 prio 0 is 0","need":6,"points":2},{"key":"call 80000008 prio 0 is 0","need":5,"points":2},{"key":"call 8000000C prio 0 is 0","need":4,"points":1},{"key":"call 8000000E prio 10 is 1","need":1,"points":1},{"key":"irq 80000540 prio 10 is 1","need":3,"points":4},{"key":"irq 80000680 prio 20 is 1","need":0,"points":1}],"reserve":2}

case an unaccepted certificate is refused as by check
put e CALLER
put p BOARD
put c CALLER_CERT 0f=00
run refused report e p c
    refused K14 at 80000000 in start 80000000 prio 0 is 0
put c CALLER_CERT ..100
run bad-input report e p c
    bad cert 1 at 100
"#;

#[test]
fn certificates_are_drawn_and_reported(rt: HostRuntime) -> Result<(), Fail> {
    play(&rt, CASES)
}
