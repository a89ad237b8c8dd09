// Cases of sources that break a rule.
use crate::stage::play;
use std::test::Fail;

const CASES: &str = r#"
case the first rule that a source breaks
text SOURCE
    .section t
    ?
put s SOURCE ..12
run bad-input asm s o
    bad source 1 at 0 2
text SOURCE
    .section t
    move d1, d2
put s SOURCE ..22
run bad-input asm s o
    bad source 2 at 0 2
text SOURCE
    .section t
    mov d1
put s SOURCE ..17
run bad-input asm s o
    bad source 3 at 0 2
text SOURCE
    .section t
    mov a1, d2
put s SOURCE ..21
run bad-input asm s o
    bad source 4 at 0 2
text SOURCE
    .section t
    mov d1, 0x8000
put s SOURCE ..25
run bad-input asm s o
    bad source 5 at 0 2
text SOURCE
    .section t
    j .+3
put s SOURCE ..16
run bad-input asm s o
    bad source 6 at 0 2
text SOURCE
    .section t
    x: nop
    x: nop
put s SOURCE ..24
run bad-input asm s o
    bad source 7 at 0 3
text SOURCE
    .
    nop
put s SOURCE ..4
run bad-input asm s o
    bad source 8 at 0 2
text SOURCE
    .section .
put s SOURCE ..10
run bad-input asm s o
    bad source 9 at 0 1
text SOURCE
    .section t
    movh d1, x
put s SOURCE ..21
run bad-input asm s o
    bad source 10 at 0 2
text SOURCE
    .section t
    jz16 d1, .+32
put s SOURCE ..24
run bad-input asm s o
    bad source 11 at 0 2
text SOURCE
    .section t
    ld.a a2, [a2+]4
put s SOURCE ..26
run bad-input asm s o
    bad source 12 at 0 2
text SOURCE
    .section t
    .space 16777217
put s SOURCE ..26
run bad-input asm s o
    bad source 13 at 0 2
text SOURCE
    .global x
put s SOURCE ..9
run bad-input asm s o
    bad source 14 at 0 1
text SOURCE
    .section t
    j16 x
    .section u
    x: nop
put s SOURCE ..34
run bad-input asm s o
    bad source 10 at 0 2
text SOURCE
    .section t
    j16 x
    .space 254
    x: nop
put s SOURCE ..34
run bad-input asm s o
    bad source 11 at 0 2
text SOURCE
    .section t
    jz16.d15 .+170141183460469231731687303715884105728
put s SOURCE ..61
run bad-input asm s o
    bad source 11 at 0 2
text SOURCE
    .section t
    jz16.d15 .+170141183460469231731687303715884105729
put s SOURCE ..61
run bad-input asm s o
    bad source 6 at 0 2
text SOURCE
    .section t
    jz16.d15 .+340282366920938463463374607431768211456
put s SOURCE ..61
run bad-input asm s o
    bad source 5 at 0 2
text SOURCE
    .section t
    jz16.d15 .-340282366920938463463374607431768211457
put s SOURCE ..61
run bad-input asm s o
    bad source 5 at 0 2
text SOURCE
    .section t
    jz16.d15 .+680564733841876926926749214863536422912
put s SOURCE ..61
run bad-input asm s o
    bad source 5 at 0 2
text SOURCE
    .global x
    x:
put s SOURCE ..12
run bad-input asm s o
    bad source 8 at 0 2
text SOURCE
    x: j16 x
put s SOURCE ..8
run bad-input asm s o
    bad source 8 at 0 1
text SOURCE
    .global x
    x: ?
put s SOURCE ..14
run bad-input asm s o
    bad source 1 at 0 2
bytes SOURCE
    2e676c6f 62616c20 780a2078 093a206e 6f70203f
put s SOURCE
run bad-input asm s o
    bad source 1 at 0 2
text SOURCE
    .global x
    x: .byte 1,1,1,1,1,1,1,1,1,1,1,1,1,1,1,1,1,1,1,1,1,1,1,1,1,1,1,1,1,1,1,
put s SOURCE ..81
run bad-input asm s o
    bad source 1 at 0 2
text SOURCE
    .section t
    j16 x
    x: ?
put s SOURCE ..21
run bad-input asm s o
    bad source 1 at 0 3
text SOURCE
    .section t
    j16 x
    .space 254
    x: ?
put s SOURCE ..32
run bad-input asm s o
    bad source 11 at 0 2
text SOURCE
    .global x
    x ? :
put s SOURCE ..15
run bad-input asm s o
    bad source 14 at 0 1
text SOURCE
    .global x
    ? x:
put s SOURCE ..14
run bad-input asm s o
    bad source 14 at 0 1
none o
"#;

#[test]
fn sources_are_refused(rt: HostRuntime) -> Result<(), Fail> {
    play(&rt, CASES)
}
