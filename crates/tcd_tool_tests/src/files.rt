// Cases of certificates and objects with a few bytes changed or cut off.
use crate::stage::play;
use std::test::Fail;

const CASES: &str = r#"
case the first byte that is at fault
put e CALLER
put p BOARD
put c CALLER_CERT 00=55
run bad-input check e p c
    bad cert 2 at 0
put c CALLER_CERT 04=03
run bad-input check e p c
    bad cert 2 at 4
put c CALLER_CERT 06=01 07=08
run bad-input check e p c
    bad cert 5 at 6
put c CALLER_CERT 08=05
run bad-input check e p c
    bad cert 4 at 8
put c CALLER_CERT 0e=02
run bad-input check e p c
    bad cert 4 at 14
put c CALLER_CERT 0f=01 10=10
run bad-input check e p c
    bad cert 5 at 15
put c CALLER_CERT 11=01
run bad-input check e p c
    bad cert 4 at 17
put c CALLER_CERT 12=01 13=00 14=01 15=00
run bad-input check e p c
    bad cert 5 at 18
put c CALLER_CERT 1a=02
run bad-input check e p c
    bad cert 4 at 26
put c CALLER_CERT 1d=05
run bad-input check e p c
    bad cert 5 at 29
put c CALLER_CERT 1e=41
run bad-input check e p c
    bad cert 4 at 30
put c CALLER_CERT 1e=f3
run bad-input check e p c
    bad cert 4 at 30
put c CALLER_CERT 1e=02 1f=05 20=00 21=00 22=00 23=05 24=00 25=00 26=00
run bad-input check e p c
    bad cert 4 at 35
put c CALLER_CERT 1e=f0 1f=00 20=00 21=00 22=00 23=ff 24=ff 25=ff 26=ff
run bad-input check e p c
    bad cert 4 at 30
put c CALLER_CERT 1e=f2 1f=00 20=00 21=00 22=00 23=ff 24=00 25=00 26=00
run bad-input check e p c
    bad cert 4 at 30
put c CALLER_CERT 3d=00
run bad-input check e p c
    bad cert 3 at 61
put c CALLER_CERT 64=00 65=00
run bad-input check e p c
    bad cert 3 at 100
put c CALLER_CERT 64=00 65=08
run bad-input check e p c
    bad cert 4 at 109
# A need of 4,096 is in its form.
put c CALLER_CERT 0f=00 10=10
run refused check e p c
    refused K14 at 80000000 in start 80000000 prio 0 is 0

case longer and cut
put e CALLER
put p BOARD
# A byte behind the end.
bytes LONGER
    54434443 01000200 00000000 80000001 00000200 00000000 00800000 00000000
    00000000 00000000 00000000 00000000 00000000 01009000 d0000000 00040000
    80000000 00000000 00000000 00000000 00000000 00000000 00000001 009000d0
    00000000 01080000 80000000 00010000 00000000 00000000 00000000 00000100
    00000800 00800000 00000000 00000000 00000000 00000000 00000000 00000000
    01009000 d0000000 0000
put c LONGER
run bad-input check e p c
    bad cert 6 at 169
put c CALLER_CERT ..100
run bad-input check e p c
    bad cert 1 at 100
put c NOTHING
run bad-input check e p c
    bad cert 1 at 0

# One section, two symbols, of which the second is undefined, and a call of it, less 4.
bytes CALL
    54434f31 01000200 01000174 08000000 6d000000 00900000 046d6169 6e020000
    04000000 01660000 00000000 00000000 00000001 0100fcff ffff

case the first byte of an object that is at fault
put l CALLER_LAYOUT
put o CALL 00=55
run bad-input link l e o
    bad object 2 at 0 0
put o CALL 04=41
run bad-input link l e o
    bad object 5 at 0 4
put o CALL 0a=00
run bad-input link l e o
    bad object 4 at 0 10
put o CALL 0a=41
run bad-input link l e o
    bad object 4 at 0 10
put o CALL 0b=31
run bad-input link l e o
    bad object 4 at 0 11
put o CALL 1d=03
run bad-input link l e o
    bad object 4 at 0 29
put o CALL 1e=01
run bad-input link l e o
    bad object 4 at 0 30
put o CALL 20=09
run bad-input link l e o
    bad object 4 at 0 32
put o CALL 27=01
run bad-input link l e o
    bad object 4 at 0 39
put o CALL 29=01
run bad-input link l e o
    bad object 4 at 0 41
put o CALL 2d=01
run bad-input link l e o
    bad object 4 at 0 45
put o CALL 2f=05
run bad-input link l e o
    bad object 4 at 0 47
put o CALL 33=00
run bad-input link l e o
    bad object 4 at 0 51
put o CALL 34=02
run bad-input link l e o
    bad object 4 at 0 52
# It is cut in the addend.
put o CALL ..57
run bad-input link l e o
    bad object 1 at 0 54
"#;

#[test]
fn certificates_and_objects_are_refused(rt: HostRuntime) -> Result<(), Fail> {
    play(&rt, CASES)
}
