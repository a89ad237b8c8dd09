// Cases of plans that are read or rejected.
use crate::stage::play;
use std::test::Fail;

const CASES: &str = r#"
# The board's plan with one text in place of another: in the order of the refusals' numbers and of the keys, and then numbers,
# repeated keys and ends of the text.
case plans that are read, and plans that are refused
put e CALLER
put c CALLER_CERT
replace EDITED BOARD
    "sp":"0xD0009000",
put p EDITED
run bad-input check e p c
    bad plan 2 key sp
replace EDITED BOARD
    "sp":"0xD0009000",
    "spare":0,
put p EDITED
run bad-input check e p c
    bad plan 2 key sp
replace EDITED BOARD
    "sp":"0xD0009000"
    "sp":0,"spare":0
put p EDITED
run bad-input check e p c
    bad plan 3 key root
replace EDITED BOARD
    "0x1000"}],"ram"
    "0x1000","to":1}],"ram"
put p EDITED
run bad-input check e p c
    bad plan 3 key rom
replace EDITED BOARD
    {"at":"0x80000000","len":"0x1000"}
    {}
put p EDITED
run bad-input check e p c
    bad plan 2 key rom.at
replace EDITED BOARD
    {"at":"0x80000000","len":"0x1000"}
    {},1
put p EDITED
run bad-input check e p c
    bad plan 4 key rom
replace EDITED BOARD
    {"at":"0x80000000","len":"0x1000"}
put p EDITED
run bad-input check e p c
    bad plan 4 key rom
replace EDITED BOARD
    "at":"0x80000000"
    "at":"0x80000002"
put p EDITED
run bad-input check e p c
    bad plan 4 key rom.at
replace EDITED BOARD
    "0x80000000","len":"0x1000"
    "0xFFFFFFF8","len":8
put p EDITED
run refused check e p c
    refused K3 at 80000000 in start 80000000 prio 0 is 0
replace EDITED BOARD
    "0x80000000","len":"0x1000"
    "0xFFFFFFF8","len":12
put p EDITED
run bad-input check e p c
    bad plan 4 key rom.len
replace EDITED BOARD
    "0x80000000","len":"0x1000"
    "0x80000000","len":0
put p EDITED
run bad-input check e p c
    bad plan 4 key rom.len
replace EDITED BOARD
    "devices":[]
    "devices":[{"at":0,"len":4,"lo":5,"hi":4}]
put p EDITED
run bad-input check e p c
    bad plan 4 key devices.hi
replace EDITED BOARD
    "devices":[]
    "devices":[{"at":0,"len":4,"lo":5,"hi":5}]
put p EDITED
run done check e p c
    certified 1 of 2 areas
replace EDITED BOARD
    "irqs":[]
    "irqs":[10,10]
put p EDITED
run bad-input check e p c
    bad plan 4 key irqs
replace EDITED BOARD
    "irqs":[]
    "irqs":[0]
put p EDITED
run bad-input check e p c
    bad plan 4 key irqs
replace EDITED BOARD
    "irqs":[]
    "irqs":[1,256]
put p EDITED
run bad-input check e p c
    bad plan 4 key irqs
replace EDITED BOARD
    "traps":[]
    "traps":["aln","sys"]
put p EDITED
run done check e p c
    certified 1 of 2 areas
replace EDITED BOARD
    "traps":[]
    "traps":["sys","aln","sys"]
put p EDITED
run bad-input check e p c
    bad plan 4 key traps
replace EDITED BOARD
    "ie":0
    "ie":2
put p EDITED
run bad-input check e p c
    bad plan 4 key start.ie
replace EDITED BOARD
    "ccpn":0
    "ccpn":256
put p EDITED
run bad-input check e p c
    bad plan 4 key start.ccpn
replace EDITED BOARD
    "traps":[]
    "traps":[],"core":"1.3"
put p EDITED
run done check e p c
    certified 1 of 2 areas
replace EDITED BOARD
    "traps":[]
    "traps":[],"core":"1.5"
put p EDITED
run bad-input check e p c
    bad plan 4 key core
replace EDITED BOARD
    "0x80000000","len":"0x1000"
    "0x80000000","len":"0x400004"
put p EDITED
run bad-input check e p c
    bad plan 5 key rom
replace EDITED BOARD
    "reserve":2
    "reserve":0
put p EDITED
run bad-input check e p c
    bad plan 6
replace EDITED BOARD
    "reserve":2
    "reserve":5
put p EDITED
run bad-input check e p c
    bad plan 6
replace EDITED BOARD
    "at":"0xD0000000"
    "at":"0xD0400000"
put p EDITED
run bad-input check e p c
    bad plan 6
replace EDITED BOARD
    "at":"0xD0000000"
    "at":0
put p EDITED
run bad-input check e p c
    bad plan 6
replace EDITED BOARD
    "0x80000400"
    "0x80000401"
put p EDITED
run bad-input check e p c
    bad plan 7
replace EDITED BOARD
    "at":"0xD0000000"
    "at":"0xD0008000"
put p EDITED
run bad-input check e p c
    bad plan 8 at 1 2
replace EDITED BOARD
    "sp":"0xD0009000"
    "sp":"x","sp":4
put p EDITED
run refused check e p c
    refused K1 at 80000000 in start 80000000 prio 0 is 0
replace EDITED BOARD
    "sp":"0xD0009000"
    "sp":4,"sp":"x"
put p EDITED
run bad-input check e p c
    bad plan 4 key sp
replace EDITED BOARD
    "0xD0009000"
    4294967295
put p EDITED
run refused check e p c
    refused K1 at 80000000 in start 80000000 prio 0 is 0
replace EDITED BOARD
    "0xD0009000"
    4294967296
put p EDITED
run bad-input check e p c
    bad plan 4 key sp
replace EDITED BOARD
    "0xD0009000"
    18446744073709551616
put p EDITED
run bad-input check e p c
    bad plan 4 key sp
replace EDITED BOARD
    "0xD0009000"
    1.0
put p EDITED
run bad-input check e p c
    bad plan 4 key sp
replace EDITED BOARD
    "0xD0009000"
    1e3
put p EDITED
run bad-input check e p c
    bad plan 4 key sp
replace EDITED BOARD
    "0xD0009000"
    -0
put p EDITED
run bad-input check e p c
    bad plan 4 key sp
replace EDITED BOARD
    "0xD0009000"
    -1
put p EDITED
run bad-input check e p c
    bad plan 4 key sp
replace EDITED BOARD
    "0xD0009000"
    "0XD0009000"
put p EDITED
run bad-input check e p c
    bad plan 4 key sp
replace EDITED BOARD
    "0xD0009000"
    "0x"
put p EDITED
run bad-input check e p c
    bad plan 4 key sp
replace EDITED BOARD
    "0xD0009000"
    "0x0D0009000"
put p EDITED
run bad-input check e p c
    bad plan 4 key sp
replace EDITED BOARD
    "0xD0009000"
    "D0009000"
put p EDITED
run bad-input check e p c
    bad plan 4 key sp
# A blank in place of the x.
replace EDITED BOARD
    "a9":0}}
    "a9":0}}x
put p EDITED 13d=20
run done check e p c
    certified 1 of 2 areas
replace EDITED BOARD
    "a9":0}}
    "a9":0}}x
put p EDITED
run bad-input check e p c
    bad plan 1
replace EDITED BOARD
    "a9":0}}
    "a9":0}
put p EDITED
run bad-input check e p c
    bad plan 1

case no other documents
put e CALLER
# 126 levels.
replace NESTED_VALUE BOARD
    "0xD0009000"
    [[[[[[[[[[[[[[[[[[[[[[[[[[[[[[[[[[[[[[[[[[[[[[[[[[[[[[[[[[[[[[[[[[[[[[[[[[[[[[[[[[[[[[[[[[[[[[[[[[[[[[[[[[[[[[[[[[[[[[[[[[[[[[]]]]]]]]]]]]]]]]]]]]]]]]]]]]]]]]]]]]]]]]]]]]]]]]]]]]]]]]]]]]]]]]]]]]]]]]]]]]]]]]]]]]]]]]]]]]]]]]]]]]]]]]]]]]]]]]]]]]]]]]]]]]]]
put p NESTED_VALUE
run bad-input check e p c
    bad plan 4 key sp
# 127 levels.
replace NESTED_VALUE BOARD
    "0xD0009000"
    [[[[[[[[[[[[[[[[[[[[[[[[[[[[[[[[[[[[[[[[[[[[[[[[[[[[[[[[[[[[[[[[[[[[[[[[[[[[[[[[[[[[[[[[[[[[[[[[[[[[[[[[[[[[[[[[[[[[[[[[[[[[[[[]]]]]]]]]]]]]]]]]]]]]]]]]]]]]]]]]]]]]]]]]]]]]]]]]]]]]]]]]]]]]]]]]]]]]]]]]]]]]]]]]]]]]]]]]]]]]]]]]]]]]]]]]]]]]]]]]]]]]]]]]]]]]]]
put p NESTED_VALUE
run bad-input check e p c
    bad plan 1
put p NOTHING
run bad-input check e p c
    bad plan 1
put p LIST
run bad-input check e p c
    bad plan 1
bytes BRACES
    7b7d
put p BRACES
run bad-input check e p c
    bad plan 2 key rom
bytes MARKED
    efbbbf7b 7d
put p MARKED
run bad-input check e p c
    bad plan 1
bytes NO_UTF8
    7b22ff22 3a307d
put p NO_UTF8
run bad-input check e p c
    bad plan 1
"#;

#[test]
fn plans_are_read_or_refused(rt: HostRuntime) -> Result<(), Fail> {
    play(&rt, CASES)
}
