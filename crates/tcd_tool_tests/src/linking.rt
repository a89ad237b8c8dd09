// Cases of layouts that are rejected, and of programs that can't be linked.
use crate::stage::play;
use std::test::Fail;

const CASES: &str = r#"
case the first line of a layout that is at fault
text PLACES
put l PLACES
run bad-input link l e o
    bad layout 1 at 1
text PLACES
    .
put l PLACES
run bad-input link l e o
    bad layout 1 at 2
text PLACES
    entry main
    place text 80000000 00010000
    place text 80000000 00010000
put l PLACES ..68
run bad-input link l e o
    bad layout 2 at 3
text PLACES
    entry main
    entry main
put l PLACES
run bad-input link l e o
    bad layout 2 at 2
text PLACES
    place a 80000002 00000010
put l PLACES
run bad-input link l e o
    bad layout 1 at 1
text PLACES
    place a FFFFFFFC 00000005
put l PLACES
run bad-input link l e o
    bad layout 1 at 1
text PLACES
    place a ffffffc0 00000004
put l PLACES
run bad-input link l e o
    bad layout 1 at 1
text PLACES
    place a 80000000  00000010
put l PLACES
run bad-input link l e o
    bad layout 1 at 1
text PLACES
    entry main
    .
    place a 80000000 00000010
    place b 8000000C 00000004
put l PLACES
run bad-input link l e o
    bad layout 4 at 4

case a layout of 64 places, and of 65
text MANY
    entry main
    place p0 80000000 00000010
    place p1 80000010 00000010
    place p2 80000020 00000010
    place p3 80000030 00000010
    place p4 80000040 00000010
    place p5 80000050 00000010
    place p6 80000060 00000010
    place p7 80000070 00000010
    place p8 80000080 00000010
    place p9 80000090 00000010
    place p10 800000A0 00000010
    place p11 800000B0 00000010
    place p12 800000C0 00000010
    place p13 800000D0 00000010
    place p14 800000E0 00000010
    place p15 800000F0 00000010
    place p16 80000100 00000010
    place p17 80000110 00000010
    place p18 80000120 00000010
    place p19 80000130 00000010
    place p20 80000140 00000010
    place p21 80000150 00000010
    place p22 80000160 00000010
    place p23 80000170 00000010
    place p24 80000180 00000010
    place p25 80000190 00000010
    place p26 800001A0 00000010
    place p27 800001B0 00000010
    place p28 800001C0 00000010
    place p29 800001D0 00000010
    place p30 800001E0 00000010
    place p31 800001F0 00000010
    place p32 80000200 00000010
    place p33 80000210 00000010
    place p34 80000220 00000010
    place p35 80000230 00000010
    place p36 80000240 00000010
    place p37 80000250 00000010
    place p38 80000260 00000010
    place p39 80000270 00000010
    place p40 80000280 00000010
    place p41 80000290 00000010
    place p42 800002A0 00000010
    place p43 800002B0 00000010
    place p44 800002C0 00000010
    place p45 800002D0 00000010
    place p46 800002E0 00000010
    place p47 800002F0 00000010
    place p48 80000300 00000010
    place p49 80000310 00000010
    place p50 80000320 00000010
    place p51 80000330 00000010
    place p52 80000340 00000010
    place p53 80000350 00000010
    place p54 80000360 00000010
    place p55 80000370 00000010
    place p56 80000380 00000010
    place p57 80000390 00000010
    place p58 800003A0 00000010
    place p59 800003B0 00000010
    place p60 800003C0 00000010
    place p61 800003D0 00000010
    place p62 800003E0 00000010
    place p63 800003F0 00000010
    place p64 80000400 00000010
put l MANY ..1793
put o NOTHING
run bad-input link l e o
    bad object 1 at 0 0
put l MANY
run bad-input link l e o
    bad layout 3 at 66
none e

case a branch that reaches too far
text FAR
    .section text
    .global main
    main: jeq d0, d1, far
    .section buffer
    far:
text FAR_LAYOUT
    entry main
    place text 80000000 00000010
    place buffer D0008000 00000010
put s FAR
put l FAR_LAYOUT
run done asm s o
    object 70 bytes
run bad-input link l e o
    bad link 5 at 0 0 0 2
none e

# A section `t` of 8 bytes, an undefined symbol `f`, and two relocations of kind 1: at offset 4, and
# (from byte 46 on) at 0.
case relocations in another order, and a byte after the end
bytes OUT_OF_ORDER
    54434f31 01000100 02000174 08000000 6d000000 6d000000 01660000 00000000
    00000004 00000001 00000000 00000000 00000000 01000000 000000
bytes ONE_BYTE
    00
put l CALLER_LAYOUT
put o OUT_OF_ORDER
run bad-input link l e o
    bad object 3 at 0 46
put o OUT_OF_ORDER 23=00 30=04
run bad-input link l e o
    bad link 2 name f
join LONGER OUT_OF_ORDER ONE_BYTE
put o LONGER 23=00 30=04
run bad-input link l e o
    bad object 6 at 0 59
none e

case what is not linked
text UNDEFINED
    .section text
    .global main
    main: call f
text OTHER_SECTION
    entry main
    place data 80000000 00000400
text SMALL
    entry main
    place text 80000000 00000009
text LOCAL
    entry f
    place text 80000000 00000400
put s CALLER_SOURCE
run done asm s o
    object 63 bytes
put s UNDEFINED
run done asm s u
    object 57 bytes
put l CALLER_LAYOUT
run bad-input link l e o o
    bad link 1 name main
run bad-input link l e u
    bad link 2 name f
put l OTHER_SECTION
run bad-input link l e o
    bad link 3 name text
put l SMALL
run bad-input link l e o
    bad link 4 name text
put l LOCAL
run bad-input link l e o
    bad link 6
none e
"#;

#[test]
fn programs_are_not_linked(rt: HostRuntime) -> Result<(), Fail> {
    play(&rt, CASES)
}
