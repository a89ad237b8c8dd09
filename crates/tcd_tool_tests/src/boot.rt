// Cases of boot sequences.
use crate::stage::play;
use std::test::Fail;

const CASES: &str = r#"
# A main at 80000000 that calls the function at 80000008, and the boot sequence at 80000800.
bytes BOOTED
    7f454c46 01010100 00000000 00000000 02002c00 01000000 00000080 34000000
    00000000 00000000 34002000 02000000 00000000 01000000 74000000 00000080
    00000080 0a000000 0a000000 05000000 01000000 01000000 7e000000 00080080
    00080080 e0000000 e0000000 05000000 01000000 6d000400 1d000000 00907b00
    00001b00 0000cdc0 e20f0d00 c0047b00 00001b00 0000cd00 e00f0d00 c0047bd0
    00001b00 0000cd80 e30f0d00 c0047bd0 00001b20 0000cdc0 e30f0d00 c0047b00
    00081b00 4000cd00 e20f0d00 c0047b00 00081b00 1000cd40 e20f0d00 c0047b10
    000d1b00 8008cd80 e20f0d00 c0047b00 00001bf0 9700cd40 e00f0d00 c0047bd0
    00001b00 00009100 002dd922 00003b30 00100110 30361b10 00008920 0011fd30
    fc7f3b00 00105921 c0ff9100 0000d900 00009100 0010d911 00009100 0080d988
    00009100 0090d999 00009110 00add9aa 00099100 00f8d9ff 00002d0f 3000
# A start that jumps to itself needs no area.
bytes LOOP_CERT
    54434443 01000100 00000000 80000000 00000100 00000000 00800000 00000000
    00000000 00000000 00000000 00000000 00000000 01009000 d0000000 00

case the sequence is compared with the one that the plan asks for
put e BOOTED
put p BOARD
put c CALLER_CERT
run done boot e p c 80000800
    boot 65 events certified 1 of 2 areas
# A byte of the second instruction differs.
put e BOOTED 82=9b
run refused boot e p c 80000800
    refused boot 4 at 80000804
# The certificate is judged first.
put c CALLER_CERT 0f=00
run refused boot e p c 80000800
    refused K14 at 80000000 in start 80000000 prio 0 is 0

case sequences stand where they may
put e BOOTED
put p BOARD
put c CALLER_CERT
run refused boot e p c 80000801
    refused boot 2
run refused boot e p c 80000802
    refused boot 3
run refused boot e p c FFFFFF24
    refused boot 3
run bad-words boot e p c 8000080a
    bad words

case an interrupt could come before the last jump
replace ENABLED BOARD
    "ie":0
    "ie":1
put e BOOTED 74=3c
put p ENABLED
put c LOOP_CERT 1a=01
run refused boot e p c 80000800
    refused boot 1

case one area is enough
# In reserve, on core 1.6.
replace ONE_AREA BOARD
    "areas":4,"reserve":2
    "areas":1,"reserve":1
replace LONE ONE_AREA
    {"rom"
    {"core":"1.6","rom"
put e BOOTED 74=3c b3=00 10f=00
put p LONE
put c LOOP_CERT
run done boot e p c 80000800
    boot 56 events certified 0 of 0 areas

case all areas of the plan that has most are linked
replace MOST_AREAS BOARD
    "csa":{"at":"0xD0000000","areas":4
    "csa":{"at":"0xD0010000","areas":4096
put e BOOTED a4=40 b3=e0 b4=3f b5=01 104=40 107=10 10f=f0 110=ff
put p MOST_AREAS
put c CALLER_CERT
run done boot e p c 80000800
    boot 12341 events certified 1 of 4094 areas

case the start runs on the interrupt stack
replace STACKED BOARD
    "is":0
    "is":1
put e BOOTED f4=b7
put p STACKED
put c CALLER_CERT 0e=01 6a=01
run done boot e p c 80000800
    boot 65 events certified 1 of 2 areas

case the sequence is loaded at FFFFFF20, and the links of the first and third area are 000FFFFC and 000FFFFE
# The areas are the last of the last segment's; the image's other rom ends at 2^32.
replace HIGH_AREAS BOARD
    "csa":{"at":"0xD0000000"
    "csa":{"at":"0xF03FFF00"
replace HIGH HIGH_AREAS
    "0x1000"}],"ram"
    "0x1000"},{"at":"0xFFFFF000","len":"0x1000"}],"ram"
put e BOOTED 60=20 61=ff 62=ff 63=ff 9f=00 a0=01 a3=c0 a4=ff a5=0f af=00 b0=01 b3=e0 b4=ff b5=0f ff=00 100=01 103=c0 104=ff 105=0f 108=04 109=2f 10c=c0 10d=cf
put p HIGH
put c CALLER_CERT
run done boot e p c FFFFFF20
    boot 65 events certified 1 of 2 areas

case areas that end at 2^32 are none
# They lie beyond the bytes of a segment that may hold any.
replace BEYOND BOARD
    "csa":{"at":"0xD0000000"
    "csa":{"at":"0xFFFFFF00"
put e BOOTED 60=20 61=ff 62=ff 63=ff 9f=00 a0=01 a3=c0 a4=ff a5=0f af=00 b0=01 b3=e0 b4=ff b5=0f ff=00 100=01 103=c0 104=ff 105=0f 108=04 109=2f 10c=c0 10d=cf
put p BEYOND
put c CALLER_CERT
run bad-input boot e p c FFFFFF20
    bad plan 6

case a boot sequence is written
text LISTING
    .section s0 # 80000800
    movh d0, 0 # 80000800 7B000000
    addi d0, d0, 0 # 80000804 1B000000
    mtcr 65068, d0 # 80000808 CDC0E20F
    isync # 8000080C 0D00C004
    movh d0, 0 # 80000810 7B000000
    addi d0, d0, 0 # 80000814 1B000000
    mtcr 65024, d0 # 80000818 CD00E00F
    isync # 8000081C 0D00C004
    movh d0, 13 # 80000820 7BD00000
    addi d0, d0, 0 # 80000824 1B000000
    mtcr 65080, d0 # 80000828 CD80E30F
    isync # 8000082C 0D00C004
    movh d0, 13 # 80000830 7BD00000
    addi d0, d0, 2 # 80000834 1B200000
    mtcr 65084, d0 # 80000838 CDC0E30F
    isync # 8000083C 0D00C004
    movh d0, 32768 # 80000840 7B000008
    addi d0, d0, 1024 # 80000844 1B004000
    mtcr 65056, d0 # 80000848 CD00E20F
    isync # 8000084C 0D00C004
    movh d0, 32768 # 80000850 7B000008
    addi d0, d0, 256 # 80000854 1B001000
    mtcr 65060, d0 # 80000858 CD40E20F
    isync # 8000085C 0D00C004
    movh d0, 53249 # 80000860 7B10000D
    addi d0, d0, -30720 # 80000864 1B008008
    mtcr 65064, d0 # 80000868 CD80E20F
    isync # 8000086C 0D00C004
    movh d0, 0 # 80000870 7B000000
    addi d0, d0, 2431 # 80000874 1BF09700
    mtcr 65028, d0 # 80000878 CD40E00F
    isync # 8000087C 0D00C004
    movh d0, 13 # 80000880 7BD00000
    addi d0, d0, 0 # 80000884 1B000000
    movh.a a2, 53248 # 80000888 9100002D
    lea.l a2, [a2]0 # 8000088C D9220000
    mov d1, 3 # 80000890 3B300010
    mov.a a3, d1 # 80000894 01103036
    addi d0, d0, 1 # 80000898 1B100000
    st.w [a2+]64, d0 # 8000089C 89200011
    loop a3, .-8 # 800008A0 FD30FC7F
    mov d1, 0 # 800008A4 3B000010
    st.w.l [a2]-64, d1 # 800008A8 5921C0FF
    movh.a a0, 0 # 800008AC 91000000
    lea.l a0, [a0]0 # 800008B0 D9000000
    movh.a a1, 0 # 800008B4 91000010
    lea.l a1, [a1]0 # 800008B8 D9110000
    movh.a a8, 0 # 800008BC 91000080
    lea.l a8, [a8]0 # 800008C0 D9880000
    movh.a a9, 0 # 800008C4 91000090
    lea.l a9, [a9]0 # 800008C8 D9990000
    movh.a a10, 53249 # 800008CC 911000AD
    lea.l a10, [a10]-28672 # 800008D0 D9AA0009
    movh.a a15, 32768 # 800008D4 910000F8
    lea.l a15, [a15]0 # 800008D8 D9FF0000
    ji a15 # 800008DC 2D0F3000
text HIGH_BEGINNING
    .section s0 # FFFFFF20
    movh d0, 0 # FFFFFF20 7B000000
put p BOARD
run done bootgen p 80000000 80000800 s
    boot 56 instructions
holds s LISTING
run bad-words bootgen p 80000000 FFFFFF21 s
    bad words
put p BEYOND
run bad-input bootgen p 80000000 80000800 s
    bad plan 6
holds s LISTING
put p HIGH
run done bootgen p 80000000 FFFFFF20 s
    boot 56 instructions
begins s HIGH_BEGINNING
"#;

#[test]
fn boot_sequences_are_judged_and_written(rt: HostRuntime) -> Result<(), Fail> {
    play(&rt, CASES)
}
