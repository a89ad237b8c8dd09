// Cases of images that are listed.
use crate::stage::play;
use std::test::Fail;

const CASES: &str = r#"
case segments are listed
# Two segments, of which the lower one stands behind, and a byte that is no instruction.
text TWO_SEGMENTS
    .section lower
    .global main
    main: call f
    j .+0
    f: ret16
    .section upper
    ret16
    .byte 0xFF
text UPPER_BEHIND
    entry main
    place upper 80000010 00000010
    place lower 80000000 00000010
text LISTED
    .section s0 # 80000000
    call .+8 # 80000000 6D000400
    j .+0 # 80000004 1D000000
    ret16 # 80000008 0090
    .section s1 # 80000010
    ret16 # 80000010 0090
    .byte 0xFF # 80000012 FF
put s TWO_SEGMENTS
put l UPPER_BEHIND
run done asm s o
    object 77 bytes
run done link l e o
    image 129 bytes
prints LISTED dis e
# The listing's object has the two segments as sections, and neither symbols nor relocations.
bytes SECTIONS
    54434f31 02000000 00000273 300a0000 006d0004 001d0000 00009002 73310300
    00000090 ff
put s LISTED
run done asm s o
    object 37 bytes
holds o SECTIONS

# Two lines of each row of the instruction table, the second with all operands as large as they go, as they are listed.
# The bytes of the first were put together by hand from the manual's forms and codes.
case rows are assembled and listed
text ROWS
    .section s0 # 80000000
    addi d5, d2, -32763 # 80000000 1B520058
    addi d15, d15, -1 # 80000004 1BFFFFFF
    addih d5, d2, 32773 # 80000008 9B520058
    addih d15, d15, 65535 # 8000000C 9BFFFFFF
    addih.a a5, a2, 32773 # 80000010 11520058
    addih.a a15, a15, 65535 # 80000014 11FFFFFF
    mov d5, -32763 # 80000018 3B500058
    mov d15, -1 # 8000001C 3BF0FFFF
    mov.u d5, 32773 # 80000020 BB500058
    mov.u d15, 65535 # 80000024 BBF0FFFF
    movh d5, 32773 # 80000028 7B500058
    movh d15, 65535 # 8000002C 7BF0FFFF
    movh.a a5, 32773 # 80000030 91500058
    movh.a a15, 65535 # 80000034 91F0FFFF
    mfcr d5, 32773 # 80000038 4D500058
    mfcr d15, 65535 # 8000003C 4DF0FFFF
    mtcr 32773, d2 # 80000040 CD520008
    mtcr 65535, d15 # 80000044 CDFFFF0F
    add d5, d2, d9 # 80000048 0B920050
    add d15, d15, d15 # 8000004C 0BFF00F0
    sub d5, d2, d9 # 80000050 0B928050
    sub d15, d15, d15 # 80000054 0BFF80F0
    eq d5, d2, d9 # 80000058 0B920051
    eq d15, d15, d15 # 8000005C 0BFF00F1
    ne d5, d2, d9 # 80000060 0B921051
    ne d15, d15, d15 # 80000064 0BFF10F1
    lt d5, d2, d9 # 80000068 0B922051
    lt d15, d15, d15 # 8000006C 0BFF20F1
    lt.u d5, d2, d9 # 80000070 0B923051
    lt.u d15, d15, d15 # 80000074 0BFF30F1
    ge d5, d2, d9 # 80000078 0B924051
    ge d15, d15, d15 # 8000007C 0BFF40F1
    ge.u d5, d2, d9 # 80000080 0B925051
    ge.u d15, d15, d15 # 80000084 0BFF50F1
    mov d5, d9 # 80000088 0B90F051
    mov d15, d15 # 8000008C 0BF0F0F1
    sh d5, d2, d9 # 80000090 0F920050
    sh d15, d15, d15 # 80000094 0FFF00F0
    sha d5, d2, d9 # 80000098 0F921050
    sha d15, d15, d15 # 8000009C 0FFF10F0
    and d5, d2, d9 # 800000A0 0F928050
    and d15, d15, d15 # 800000A4 0FFF80F0
    nand d5, d2, d9 # 800000A8 0F929050
    nand d15, d15, d15 # 800000AC 0FFF90F0
    or d5, d2, d9 # 800000B0 0F92A050
    or d15, d15, d15 # 800000B4 0FFFA0F0
    nor d5, d2, d9 # 800000B8 0F92B050
    nor d15, d15, d15 # 800000BC 0FFFB0F0
    xor d5, d2, d9 # 800000C0 0F92C050
    xor d15, d15, d15 # 800000C4 0FFFC0F0
    xnor d5, d2, d9 # 800000C8 0F92D050
    xnor d15, d15, d15 # 800000CC 0FFFD0F0
    andn d5, d2, d9 # 800000D0 0F92E050
    andn d15, d15, d15 # 800000D4 0FFFE0F0
    orn d5, d2, d9 # 800000D8 0F92F050
    orn d15, d15, d15 # 800000DC 0FFFF0F0
    add d5, d2, -251 # 800000E0 8B521050
    add d15, d15, -1 # 800000E4 8BFF1FF0
    rsub d5, d2, -251 # 800000E8 8B521051
    rsub d15, d15, -1 # 800000EC 8BFF1FF1
    eq d5, d2, -251 # 800000F0 8B521052
    eq d15, d15, -1 # 800000F4 8BFF1FF2
    ne d5, d2, -251 # 800000F8 8B523052
    ne d15, d15, -1 # 800000FC 8BFF3FF2
    lt d5, d2, -251 # 80000100 8B525052
    lt d15, d15, -1 # 80000104 8BFF5FF2
    lt.u d5, d2, 261 # 80000108 8B527052
    lt.u d15, d15, 511 # 8000010C 8BFF7FF2
    ge d5, d2, -251 # 80000110 8B529052
    ge d15, d15, -1 # 80000114 8BFF9FF2
    ge.u d5, d2, 261 # 80000118 8B52B052
    ge.u d15, d15, 511 # 8000011C 8BFFBFF2
    sh d5, d2, -251 # 80000120 8F521050
    sh d15, d15, -1 # 80000124 8FFF1FF0
    sha d5, d2, -251 # 80000128 8F523050
    sha d15, d15, -1 # 8000012C 8FFF3FF0
    and d5, d2, 261 # 80000130 8F521051
    and d15, d15, 511 # 80000134 8FFF1FF1
    or d5, d2, 261 # 80000138 8F525051
    or d15, d15, 511 # 8000013C 8FFF5FF1
    xor d5, d2, 261 # 80000140 8F529051
    xor d15, d15, 511 # 80000144 8FFF9FF1
    bisr 261 # 80000148 AD501000
    bisr 511 # 8000014C ADF01F00
    syscall 261 # 80000150 AD509000
    syscall 511 # 80000154 ADF09F00
    mov.aa a5, a9 # 80000158 01900050
    mov.aa a15, a15 # 8000015C 01F000F0
    add.a a5, a2, a9 # 80000160 01921050
    add.a a15, a15, a15 # 80000164 01FF10F0
    sub.a a5, a2, a9 # 80000168 01922050
    sub.a a15, a15, a15 # 8000016C 01FF20F0
    mov.d d5, a9 # 80000170 0190C054
    mov.d d15, a15 # 80000174 01F0C0F4
    addsc.a a5, a9, d2, 1 # 80000178 01920156
    addsc.a a15, a15, d15, 3 # 8000017C 01FF03F6
    mov.a a5, d9 # 80000180 01903056
    mov.a a15, d15 # 80000184 01F030F6
    calli a2 # 80000188 2D020000
    calli a15 # 8000018C 2D0F0000
    ji a2 # 80000190 2D023000
    ji a15 # 80000194 2D0F3000
    nop # 80000198 0D000000
    ret # 8000019C 0D008001
    rfe # 800001A0 0D00C001
    svlcx # 800001A4 0D000002
    rslcx # 800001A8 0D004002
    enable # 800001AC 0D000003
    disable # 800001B0 0D004003
    dsync # 800001B4 0D008004
    isync # 800001B8 0D00C004
    ld.b d2, [a9+]-507 # 800001BC 09920580
    ld.b d15, [a15+]-1 # 800001C0 09FF3FF0
    ld.bu d2, [a9+]-507 # 800001C4 09924580
    ld.bu d15, [a15+]-1 # 800001C8 09FF7FF0
    ld.h d2, [a9+]-507 # 800001CC 09928580
    ld.h d15, [a15+]-1 # 800001D0 09FFBFF0
    ld.hu d2, [a9+]-507 # 800001D4 0992C580
    ld.hu d15, [a15+]-1 # 800001D8 09FFFFF0
    ld.w d2, [a9+]-507 # 800001DC 09920581
    ld.w d15, [a15+]-1 # 800001E0 09FF3FF1
    ld.a a2, [a9+]-507 # 800001E4 09928581
    ld.a a14, [a15+]-1 # 800001E8 09FEBFF1
    ld.b d2, [a9]-507 # 800001EC 09920588
    ld.b d15, [a15]-1 # 800001F0 09FF3FF8
    ld.bu d2, [a9]-507 # 800001F4 09924588
    ld.bu d15, [a15]-1 # 800001F8 09FF7FF8
    ld.h d2, [a9]-507 # 800001FC 09928588
    ld.h d15, [a15]-1 # 80000200 09FFBFF8
    ld.hu d2, [a9]-507 # 80000204 0992C588
    ld.hu d15, [a15]-1 # 80000208 09FFFFF8
    ld.w d2, [a9]-507 # 8000020C 09920589
    ld.w d15, [a15]-1 # 80000210 09FF3FF9
    ld.a a2, [a9]-507 # 80000214 09928589
    ld.a a15, [a15]-1 # 80000218 09FFBFF9
    st.b [a9+]-507, d2 # 8000021C 89920580
    st.b [a15+]-1, d15 # 80000220 89FF3FF0
    st.h [a9+]-507, d2 # 80000224 89928580
    st.h [a15+]-1, d15 # 80000228 89FFBFF0
    st.w [a9+]-507, d2 # 8000022C 89920581
    st.w [a15+]-1, d15 # 80000230 89FF3FF1
    st.a [a9+]-507, a2 # 80000234 89928581
    st.a [a15+]-1, a14 # 80000238 89FEBFF1
    st.b [a9]-507, d2 # 8000023C 89920588
    st.b [a15]-1, d15 # 80000240 89FF3FF8
    st.h [a9]-507, d2 # 80000244 89928588
    st.h [a15]-1, d15 # 80000248 89FFBFF8
    st.w [a9]-507, d2 # 8000024C 89920589
    st.w [a15]-1, d15 # 80000250 89FF3FF9
    st.a [a9]-507, a2 # 80000254 89928589
    st.a [a15]-1, a15 # 80000258 89FFBFF9
    lea a2, [a9]-507 # 8000025C 4992058A
    lea a15, [a15]-1 # 80000260 49FF3FFA
    ld.w.l d2, [a9]-32763 # 80000264 19920508
    ld.w.l d15, [a15]-1 # 80000268 19FFFFFF
    ld.a.l a2, [a9]-32763 # 8000026C 99920508
    ld.a.l a15, [a15]-1 # 80000270 99FFFFFF
    st.w.l [a9]-32763, d2 # 80000274 59920508
    st.w.l [a15]-1, d15 # 80000278 59FFFFFF
    lea.l a2, [a9]-32763 # 8000027C D9920508
    lea.l a15, [a15]-1 # 80000280 D9FFFFFF
    ld.w d2, 0x80000005 # 80000284 85820500
    ld.w d15, 0xF0003FFF # 80000288 85FFFFF3
    ld.a a2, 0x80000005 # 8000028C 85820508
    ld.a a15, 0xF0003FFF # 80000290 85FFFFFB
    st.w 0x80000005, d2 # 80000294 A5820500
    st.w 0xF0003FFF, d15 # 80000298 A5FFFFF3
    st.a 0x80000005, a2 # 8000029C A5820508
    st.a 0xF0003FFF, a15 # 800002A0 A5FFFFFB
    lea a2, 0x80000005 # 800002A4 C5820500
    lea a15, 0xF0003FFF # 800002A8 C5FFFFF3
    jeq d2, d9, .-32758 # 800002AC 5F920540
    jeq d15, d15, .-2 # 800002B0 5FFFFF7F
    jne d2, d9, .-32758 # 800002B4 5F9205C0
    jne d15, d15, .-2 # 800002B8 5FFFFFFF
    jlt d2, d9, .-32758 # 800002BC 3F920540
    jlt d15, d15, .-2 # 800002C0 3FFFFF7F
    jlt.u d2, d9, .-32758 # 800002C4 3F9205C0
    jlt.u d15, d15, .-2 # 800002C8 3FFFFFFF
    jge d2, d9, .-32758 # 800002CC 7F920540
    jge d15, d15, .-2 # 800002D0 7FFFFF7F
    jge.u d2, d9, .-32758 # 800002D4 7F9205C0
    jge.u d15, d15, .-2 # 800002D8 7FFFFFFF
    jeq.a a2, a9, .-32758 # 800002DC 7D920540
    jeq.a a15, a15, .-2 # 800002E0 7DFFFF7F
    jne.a a2, a9, .-32758 # 800002E4 7D9205C0
    jne.a a15, a15, .-2 # 800002E8 7DFFFFFF
    jz.a a2, .-32758 # 800002EC BD020540
    jz.a a15, .-2 # 800002F0 BD0FFF7F
    jnz.a a2, .-32758 # 800002F4 BD0205C0
    jnz.a a15, .-2 # 800002F8 BD0FFFFF
    loop a9, .-32758 # 800002FC FD900540
    loop a15, .-2 # 80000300 FDF0FF7F
    jeq d2, -7, .-32758 # 80000304 DF920540
    jeq d15, -1, .-2 # 80000308 DFFFFF7F
    jne d2, -7, .-32758 # 8000030C DF9205C0
    jne d15, -1, .-2 # 80000310 DFFFFFFF
    jlt d2, -7, .-32758 # 80000314 BF920540
    jlt d15, -1, .-2 # 80000318 BFFFFF7F
    jge d2, -7, .-32758 # 8000031C FF920540
    jge d15, -1, .-2 # 80000320 FFFFFF7F
    jlt.u d2, 9, .-32758 # 80000324 BF9205C0
    jlt.u d15, 15, .-2 # 80000328 BFFFFFFF
    jge.u d2, 9, .-32758 # 8000032C FF9205C0
    jge.u d15, 15, .-2 # 80000330 FFFFFFFF
    call .-16777206 # 80000334 6D800500
    call .-2 # 80000338 6DFFFFFF
    calla 0x8000000A # 8000033C ED800500
    calla 0xF01FFFFE # 80000340 EDFFFFFF
    j .-16777206 # 80000344 1D800500
    j .-2 # 80000348 1DFFFFFF
    ja 0x8000000A # 8000034C 9D800500
    ja 0xF01FFFFE # 80000350 9DFFFFFF
    nop16 # 80000354 0000
    rfe16 # 80000356 0080
    ret16 # 80000358 0090
    ji16 a2 # 8000035A DC02
    ji16 a15 # 8000035C DC0F
    bisr16 133 # 8000035E E085
    bisr16 255 # 80000360 E0FF
    mov16.d15 133 # 80000362 DA85
    mov16.d15 255 # 80000364 DAFF
    sub16.a a10, 133 # 80000366 2085
    sub16.a a10, 255 # 80000368 20FF
    call16 .-246 # 8000036A 5C85
    call16 .-2 # 8000036C 5CFF
    j16 .-246 # 8000036E 3C85
    j16 .-2 # 80000370 3CFF
    jz16.d15 .-246 # 80000372 6E85
    jz16.d15 .-2 # 80000374 6EFF
    jnz16.d15 .-246 # 80000376 EE85
    jnz16.d15 .-2 # 80000378 EEFF
    jz16 d9, .+26 # 8000037A 769D
    jz16 d15, .+30 # 8000037C 76FF
    jnz16 d9, .+26 # 8000037E F69D
    jnz16 d15, .+30 # 80000380 F6FF
    mov16 d2, d9 # 80000382 0292
    mov16 d15, d15 # 80000384 02FF
    add16 d2, d9 # 80000386 4292
    add16 d15, d15 # 80000388 42FF
    sub16 d2, d9 # 8000038A A292
    sub16 d15, d15 # 8000038C A2FF
    and16 d2, d9 # 8000038E 2692
    and16 d15, d15 # 80000390 26FF
    or16 d2, d9 # 80000392 A692
    or16 d15, d15 # 80000394 A6FF
    xor16 d2, d9 # 80000396 C692
    xor16 d15, d15 # 80000398 C6FF
    mov16.aa a2, a9 # 8000039A 4092
    mov16.aa a15, a15 # 8000039C 40FF
    mov16.a a2, d9 # 8000039E 6092
    mov16.a a15, d15 # 800003A0 60FF
    mov16.d d2, a9 # 800003A2 8092
    mov16.d d15, a15 # 800003A4 80FF
    add16.a a2, a9 # 800003A6 3092
    add16.a a15, a15 # 800003A8 30FF
    mov16 d2, -3 # 800003AA 82D2
    mov16 d15, -1 # 800003AC 82FF
    add16 d2, -3 # 800003AE C2D2
    add16 d15, -1 # 800003B0 C2FF
    mov16.a a2, 13 # 800003B2 A0D2
    mov16.a a15, 15 # 800003B4 A0FF
    add16.a a2, -3 # 800003B6 B0D2
    add16.a a15, -1 # 800003B8 B0FF
    ld16.w d2, [a9] # 800003BA 5492
    ld16.w d15, [a15] # 800003BC 54FF
    ld16.a a2, [a9] # 800003BE D492
    ld16.a a15, [a15] # 800003C0 D4FF
    st16.w [a9], d2 # 800003C2 7492
    st16.w [a15], d15 # 800003C4 74FF
    st16.a [a9], a2 # 800003C6 F492
    st16.a [a15], a15 # 800003C8 F4FF
    .byte 0x10 # 800003CA 10
# Where the image begins.
text ENTRY
    .section s1
    .global main
    main: nop16
text LISTED_ENTRY
    .section s1 # 80001000
    nop16 # 80001000 0000
join LISTED_ROWS ROWS LISTED_ENTRY
text ROOMS
    entry main
    place s0 80000000 00001000
    place s1 80001000 00000010
put s ROWS
put t ENTRY
put l ROOMS
run done asm s o
    object 988 bytes
run done asm t q
    object 31 bytes
run done link l e o q
    image 1089 bytes
prints LISTED_ROWS dis e
"#;

#[test]
fn images_are_listed(rt: HostRuntime) -> Result<(), Fail> {
    play(&rt, CASES)
}
