// Cases of files of tasks and their certificates.
use crate::stage::play;
use std::test::Fail;

const CASES: &str = r#"
bytes FIRST_CERT
    54434443 02000200 00000000 80000002 00000200 00000000 00800000 00000000
    00000000 00000000 00000000 00000000 00000000 01009000 d0000000 00020000
    80000000 00000000 00000000 00000000 00000000 00000000 00000001 009000d0
    00000000 01200000 80000001 00010000 00000000 00000000 00000000 00001200
    00002000 00800000 00000000 00000000 00000000 00000000 00000000 00000000
    01009000 d0000000 00240000 80000000 00000000 00000000 00000000 00000000
    00000000 00000001 009000d0 00000000 28000080 00000001 00000000 00000000
    00000000 00000000 00000000 00000001 009000d0 00000000 2c000080 00000001
    00000000 00000000 00000000 00000000 00010000 01d00000 00000001 009000d0
    00000000 30000080 00000001 00000000 00000000 00000000 00000000 00010081
    00d00000 00000001 009000d0 00000000 34000080 00000001 00000000 00000000
    00000000 00000000 00010081 00d00000 00000001 009000d0 00000000 38000080
    00000001 00000000 00000000 00000000 00000000 00010081 00d0f200 000000ff
    ffffff00 00000001 009000d0 00000000 3c000080 00000001 00000000 00000000
    00000000 00000000 00010081 00d0f200 000000ff ffffff00 00000001 009000d0
    00000000 40000080 00000001 00000000 00000000 00000000 00000000 00010081
    00d0f200 000000ff ffffff00 00000001 009000d0 00000000 44000080 00000001
    00000000 00000000 00000000 00000000 00010081 00d0f200 000000ff ffffff00
    00000001 009000d0 00000000 48000080 00000001 00010200 00000000 00000000
    00000000 00000000 00010081 00d0f200 000000ff ffffff00 00000001 009000d0
    00000000 4c000080 00000001 00000000 00000000 00000000 00000000 00010081
    00d0f200 000000ff ffffff00 00000001 009000d0 00000000 50000080 00000001
    00000000 00000000 00000000 00000000 00010081 00d0f200 000000ff ffffff00
    00000001 009000d0 00000000 54000080 00000001 00000000 00000000 00000000
    00000000 00010081 00d0f200 000000ff ffffff00 00000001 009000d0 00000000
    58000080 00000001 00000000 00000000 00000000 00000000 00010081 00d0f200
    000000ff ffffff00 00000001 009000d0 00000000 5c000080 00000001 00000000
    00000000 00000000 00000000 00010081 00d0f200 000000ff ffffff00 00000001
    009000d0 00000000 60000080 00000001 00000000 00000000 00000000 00000000
    00010081 00d0f200 000000ff ffffff00 00000001 009000d0 00000000 64000080
    00000000 00000000 00000000 00000000 00000000 00000000 00000100 9000d000
    000000
bytes SECOND_CERT
    54434443 02000200 00100000 80000002 00000200 00001000 00800000 00000000
    00000000 00000000 00000000 00000000 00000000 01008c00 d0000000 00120000
    80000000 00000000 00000000 00000000 00000000 00000000 00000001 008c00d0
    00000000 01200000 80000001 00010000 00000000 00000000 00000000 00001200
    00002000 00800000 00000000 00000000 00000000 00000000 00000000 00000000
    01008c00 d0000000 00240000 80000000 00000000 00000000 00000000 00000000
    00000000 00000001 008c00d0 00000000 28000080 00000001 00000000 00000000
    00000000 00000000 00000000 00000001 008c00d0 00000000 2c000080 00000001
    00000000 00000000 00000000 00000000 00010000 01d00000 00000001 008c00d0
    00000000 30000080 00000001 00000000 00000000 00000000 00000000 00010081
    00d00000 00000001 008c00d0 00000000 34000080 00000001 00000000 00000000
    00000000 00000000 00010081 00d00000 00000001 008c00d0 00000000 38000080
    00000001 00000000 00000000 00000000 00000000 00010081 00d0f200 000000ff
    ffffff00 00000001 008c00d0 00000000 3c000080 00000001 00000000 00000000
    00000000 00000000 00010081 00d0f200 000000ff ffffff00 00000001 008c00d0
    00000000 40000080 00000001 00000000 00000000 00000000 00000000 00010081
    00d0f200 000000ff ffffff00 00000001 008c00d0 00000000 44000080 00000001
    00000000 00000000 00000000 00000000 00010081 00d0f200 000000ff ffffff00
    00000001 008c00d0 00000000 48000080 00000001 00010200 00000000 00000000
    00000000 00000000 00010081 00d0f200 000000ff ffffff00 00000001 008c00d0
    00000000 4c000080 00000001 00000000 00000000 00000000 00000000 00010081
    00d0f200 000000ff ffffff00 00000001 008c00d0 00000000 50000080 00000001
    00000000 00000000 00000000 00000000 00010081 00d0f200 000000ff ffffff00
    00000001 008c00d0 00000000 54000080 00000001 00000000 00000000 00000000
    00000000 00010081 00d0f200 000000ff ffffff00 00000001 008c00d0 00000000
    58000080 00000001 00000000 00000000 00000000 00000000 00010081 00d0f200
    000000ff ffffff00 00000001 008c00d0 00000000 5c000080 00000001 00000000
    00000000 00000000 00000000 00010081 00d0f200 000000ff ffffff00 00000001
    008c00d0 00000000 60000080 00000001 00000000 00000000 00000000 00000000
    00010081 00d0f200 000000ff ffffff00 00000001 008c00d0 00000000 64000080
    00000000 00000000 00000000 00000000 00000000 00000000 00000100 8c00d000
    000000
# At 80000000: `movh.a a15, 32768`, `ld.w.l d15, [a15]48`, `j16 .+0`.
bytes READS
    7f454c46 01010100 00000000 00000000 02002c00 01000000 00000080 34000000
    00000000 00000000 34002000 03000000 00000000 01000000 94000000 00000080
    00000080 0a000000 0a000000 05000000 01000000 01000000 9e000000 10000080
    10000080 04000000 04000000 05000000 01000000 01000000 a2000000 20000080
    20000080 48000000 48000000 05000000 01000000 910000f8 19ff3000 3c005c08
    3cff0d00 40030d00 00029110 002dd922 00481920 08000120 02364d00 e01f5931
    00001b10 0000df20 04803b00 00005920 08000120 02361931 0000cd01 e00f0d00
    c0040d00 40020d00 8001
# A15 is 80000000 behind the first instruction.
bytes READS_CERT
    54434443 02000100 00000000 80000000 00000300 00000000 00800000 00000000
    00000000 00000000 00000000 00000000 00000000 01009000 d0000000 00040000
    80000000 00000000 00000000 00000000 00000000 00000000 00000001 009000d0
    00000001 00000080 08000080 00000000 00000000 00000000 00000000 00000000
    00000000 00000100 9000d000 00000100 000080
# Behind `bisr 0` a lower context is held, and interrupts are on.
bytes LEVEL_CERT
    54434443 02000100 00000000 80000001 00000200 00000000 00800000 00000000
    00000000 00000000 00000000 00000000 00000000 01009000 d0000000 00020000
    80010000 01000000 00000000 00000000 00000000 00000000 00000000 01009000
    d0000000 00
# Core 1.6.
replace NEWER EIGHT
    {"rom"
    {"core":"1.6","rom"
# One area less than the tasks need.
replace SCARCE BOARD
    "areas":4
    "areas":5
# The start is on the interrupt stack.
replace ON_ISP EIGHT
    "is":0
    "is":1
# Fifteen devices beside ram, which the block parts in two.
replace CROWDED_EIGHT CROWDED
    "areas":4
    "areas":8
replace FIFTEEN CROWDED_EIGHT
    ,{"at":"0xF00000F0","len":4,"lo":0,"hi":0}
text OUTSIDE
    switch 80001000 D0008100
    task 80000000 D0009000
    task 80000010 D0008C00

case two tasks share the areas
put e SWITCHES
put p EIGHT
put t TWO_TASKS
put c FIRST_CERT
put d SECOND_CERT
run done tasks e p t c d
    certified 4 of 6 areas in 2 tasks
put p NEWER
run done tasks e p t c d
    certified 4 of 6 areas in 2 tasks
put p BOARD
run refused tasks e p t c d
    refused sum 4 of 2 areas
put p SCARCE
run refused tasks e p t c d
    refused sum 4 of 3 areas
# A certificate may ask for more than is needed.
put p EIGHT
put c FIRST_CERT 0f=04
run done tasks e p t c d
    certified 6 of 6 areas in 2 tasks
put c FIRST_CERT 0f=05
run refused tasks e p t c d
    refused sum 7 of 6 areas

case what a view hides is refused
put e SWITCHES 94=e0 95=00 96=3c 97=00
put p EIGHT
put t TWO_TASKS
put c LEVEL_CERT
put d SECOND_CERT
run refused tasks e p t c d
    refused K17 at 80000000 in start 80000000 prio 0 is 0 of task 0
put e READS
put c READS_CERT
run refused tasks e p t c d
    refused K17 at 80000004 in start 80000000 prio 0 is 0 of task 0
# The words beside the routine may be read, but not its last one.
put e READS 9a=1c
run done tasks e p t c d
    certified 2 of 6 areas in 2 tasks
put e READS 9a=28 9b=10
run done tasks e p t c d
    certified 2 of 6 areas in 2 tasks
put e READS 9a=24 9b=10
run refused tasks e p t c d
    refused K17 at 80000004 in start 80000000 prio 0 is 0 of task 0

case the first task that is refused is told
put e SWITCHES
put p EIGHT
put t TWO_TASKS
put c FIRST_CERT
put d FIRST_CERT
run refused tasks e p t c d
    refused K1 at 80000010 in start 80000010 prio 0 is 0 of task 1
put c SECOND_CERT
run refused tasks e p t c d
    refused K1 at 80000000 in start 80000000 prio 0 is 0 of task 0
# A need of one area is too little for the routine.
put c FIRST_CERT
put d SECOND_CERT 0f=01
run refused tasks e p t c d
    refused K14 at 80000010 in start 80000010 prio 0 is 0 of task 1

case the routine stands whole
put e SWITCHES e3=00
put p EIGHT
put t TWO_TASKS
put c SECOND_CERT
put d SECOND_CERT
run refused tasks e p t c d
    refused switch at 80000067
put e SWITCHES e3=00 9c=00
put p BOARD
put c FIRST_CERT
run refused tasks e p t c d
    refused switch at 80000020
put e SWITCHES
put p EIGHT
put t OUTSIDE
run refused tasks e p t c d
    refused switch at 80001000
# The routine is that of this block.
text OTHER_BLOCK
    switch 80000020 D0008104
    task 80000000 D0009000
    task 80000010 D0008C00
put t OTHER_BLOCK
run refused tasks e p t c d
    refused switch at 8000002E
# A block at the end of ram leaves one range, so that there is room for it.
text LAST_BLOCK
    switch 80000020 D0008FF4
    task 80000000 D0009000
    task 80000010 D0008C00
put p FIFTEEN
put t LAST_BLOCK
run refused tasks e p t c d
    refused switch at 8000002E

# Texts that are no tasks of a plan. Certificates aren't asked for before.
case no tasks 1
put e SWITCHES
put p ON_ISP
put t NOTHING
run bad-input tasks e p t x
    bad tasks 1 at 1
case no tasks 2
put e SWITCHES
put p EIGHT
text NO_TASKS
    switch 80000020 D0008102
    task 80000000 D0009000
    task 80000010 D0008C00
put t NO_TASKS
run bad-input tasks e p t x
    bad tasks 1 at 1
case no tasks 3
put e SWITCHES
put p EIGHT
text NO_TASKS
    .
    switch 80000021 D0008100
    task 80000000 D0009000
    task 80000010 D0008C00
put t NO_TASKS
run bad-input tasks e p t x
    bad tasks 1 at 2
case no tasks 4
put e SWITCHES
put p EIGHT
text NO_TASKS
    switch 80000020 D0008100
    task 80000000 D0009000
    task 8000001 D0008C00
put t NO_TASKS
run bad-input tasks e p t x
    bad tasks 1 at 3
case no tasks 5
put e SWITCHES
put p EIGHT
text NO_TASKS
    switch 80000020 D0008100
    task 00000000 00000000
    task 00000000 00000000
    task 00000000 00000000
    task 00000000 00000000
    task 00000000 00000000
    task 00000000 00000000
    task 00000000 00000000
    task 00000000 00000000
put t NO_TASKS
run bad-input tasks e p t x
    bad tasks 2 at 9
case no tasks 6
put e SWITCHES
put p EIGHT
text NO_TASKS
    switch 80000020 D0008100
    task 00000000 00000000
    task 00000000 00000000
    task 00000000 00000000
    task 00000000 00000000
    task 00000000 00000000
    task 00000000 00000000
    task 00000000 00000000
    task 00000000 00000000
    task
put t NO_TASKS
run bad-input tasks e p t x
    bad tasks 1 at 10
case no tasks 7
put e SWITCHES
put p ON_ISP
text NO_TASKS
    switch 80000020 00000000
    task 80000000 D0009000
put t NO_TASKS
run bad-input tasks e p t x
    bad tasks 3
case no tasks 8
put e SWITCHES
put p ON_ISP
text NO_TASKS
    switch 80000020 D0008FF8
    task 80000000 D0009000
    task 80000010 D0008C00
put t NO_TASKS
run bad-input tasks e p t x
    bad tasks 4
case no tasks 9
put e SWITCHES
put p FIFTEEN
text NO_TASKS
    switch 80000020 D0008FF8
    task 80000000 D0009000
    task 80000010 D0008C00
put t NO_TASKS
run bad-input tasks e p t x
    bad tasks 4
case no tasks 10
put e SWITCHES
put p FIFTEEN
put t TWO_TASKS
run bad-input tasks e p t x
    bad tasks 5
case no tasks 11
put e SWITCHES
put p ON_ISP
put t TWO_TASKS
run bad-input tasks e p t x
    bad tasks 6
case no tasks 12
put e SWITCHES
put p ON_ISP
text NO_TASKS
    switch 80000020 D0008FF4
    task 80000000 D0009000
    task 80000010 D0008C00
put t NO_TASKS
run bad-input tasks e p t x
    bad tasks 6

# Texts that the plan of the plain board takes or refuses: each task's certificate is asked for where they are taken.
case empty lines are passed over
text SPACED
    .
    .
    switch 80000020 D0008100
    .
    task 00000000 00000000
    .
    task 00000000 00000000
put e SWITCHES
put p BOARD
put t SPACED ..74
run bad-input tasks e p t x
    bad tasks 7

case no text of tasks
put e SWITCHES
put p BOARD
text EMPTY_LINES
    .
    .
put t EMPTY_LINES
run bad-input tasks e p t x
    bad tasks 1 at 1
text TASK_FIRST
    .
    task 80000000 D0009000
put t TASK_FIRST
run bad-input tasks e p t x
    bad tasks 1 at 2
text ODD_ROUTINE
    switch 80000021 D0008100
put t ODD_ROUTINE
run bad-input tasks e p t x
    bad tasks 1 at 1
text ODD_BLOCK
    switch 80000020 D0008102
put t ODD_BLOCK
run bad-input tasks e p t x
    bad tasks 1 at 1
text TWO_ROUTINES
    switch 80000020 D0008100
    switch 80000020 D0008100
put t TWO_ROUTINES
run bad-input tasks e p t x
    bad tasks 1 at 2
text SMALL_LETTER
    switch 80000020 D0008100
    task 80000000 d0009000
put t SMALL_LETTER
run bad-input tasks e p t x
    bad tasks 1 at 2
text ONE_TASK
    switch 80000020 D0008100
    task 80000000 D0009000
put t ONE_TASK
run bad-input tasks e p t x
    bad tasks 3

case each task has a certificate
put e SWITCHES
put p EIGHT
put t TWO_TASKS
put c FIRST_CERT
put d SECOND_CERT
run bad-input tasks e p t c
    bad tasks 7
run bad-input tasks e p t c d d
    bad tasks 7
# None is read before they are counted, and a broken routine is told behind them.
put e READS
run bad-input tasks e p t x
    bad tasks 7
put e SWITCHES
run fault tasks e p t c x
run bad-words tasks e p t
    bad words

case inputs of tasks are refused in their order
text CUT
    task
put e SWITCHES ..51
put p LIST
put t CUT ..4
put c FIRST_CERT ..7
put d SECOND_CERT ..100
run bad-input tasks e p t c d
    bad elf 1
put e SWITCHES
run bad-input tasks e p t c d
    bad plan 1
put p EIGHT
run bad-input tasks e p t c d
    bad tasks 1 at 1
# Certificates in their form come before the routine.
put t OUTSIDE
run bad-input tasks e p t c d
    bad cert 1 at 6
put c FIRST_CERT
run bad-input tasks e p t c d
    bad cert 1 at 100
put d SECOND_CERT
run refused tasks e p t c d
    refused switch at 80001000

case certificates of tasks are made
put e SWITCHES
put p EIGHT
put t TWO_TASKS
run done taskcert e p t c d
    certified 4 of 6 areas in 2 tasks
holds c FIRST_CERT
holds d SECOND_CERT

case the areas are too few for both tasks
put e SWITCHES
put p BOARD
put t TWO_TASKS
run refused taskcert e p t c d
    refused sum 4 of 2 areas
put p SCARCE
run refused taskcert e p t c d
    refused sum 4 of 3 areas
none c
none d

case tasks without certificates are refused
put e SWITCHES 94=e0 95=00 96=3c 97=00
put p EIGHT
put t TWO_TASKS
run refused taskcert e p t c d
    refused K17 at 80000000 in start 80000000 prio 0 is 0 of task 0
put e READS
run refused taskcert e p t c d
    refused K17 at 80000004 in start 80000000 prio 0 is 0 of task 0
# The second task is at an odd address, where no certificate is accepted.
text ODD
    switch 80000020 D0008100
    task 80000000 D0009000
    task 80000011 D0008C00
put e SWITCHES
put t ODD
run refused taskcert e p t c d
    refused K3 at 80000011 in start 80000011 prio 0 is 0 of task 1
put e SWITCHES e3=00
put p BOARD
put t TWO_TASKS
run refused taskcert e p t c d
    refused switch at 80000067
none c
none d

# Three mains at 80000000, 80000010 and 80000020, each of which gives way again and again, and the routine for three tasks.
text THREE_TURNS
    .section text
    .global main
    main: call16 switch
    j16 main
    .space 12
    second: call16 switch
    j16 second
    .space 12
    third: call16 switch
    j16 third
    .space 12
    switch: disable
    svlcx
    movh.a a2, 0xD001
    lea.l a2, [a2]-32512
    ld.w.l d0, [a2]12
    addsc.a a3, a2, d0, 2
    mfcr d1, 0xFE00
    st.w.l [a3]0, d1
    addi d0, d0, 1
    jne d0, 3, .+8
    mov d0, 0
    st.w.l [a2]12, d0
    addsc.a a3, a2, d0, 2
    ld.w.l d1, [a3]0
    mtcr 0xFE00, d1
    isync
    rslcx
    ret
text THREE_TASKS
    switch 80000030 D0008100
    task 80000000 D0009000
    task 80000010 D0008C00
    task 80000020 D0008800
# Seven tasks, the most there may be; the last four run the code of the first ones.
text SEVEN_TASKS
    switch 80000030 D0008100
    task 80000000 D0009000
    task 80000010 D0008E00
    task 80000020 D0008C00
    task 80000000 D0008A00
    task 80000010 D0008800
    task 80000020 D0008600
    task 80000000 D0008400
replace SEVEN_ROOM THREE_TURNS
    [a2]12
    [a2]28
replace SEVEN_TURNS SEVEN_ROOM
    jne d0, 3
    jne d0, 7
replace SEVEN_AREAS BOARD
    "areas":4
    "areas":7
replace SIXTEEN_AREAS BOARD
    "areas":4
    "areas":16
case three tasks share the areas
# Each calls the routine, which saves its lower context.
put l CALLER_LAYOUT
put s THREE_TURNS
put p EIGHT
put t THREE_TASKS
run done asm s o
    object 192 bytes
run done link l e o
    image 204 bytes
run done taskcert e p t c d f
    certified 6 of 6 areas in 3 tasks
run done tasks e p t c d f
    certified 6 of 6 areas in 3 tasks
# The certificates of tasks begin at different addresses.
run refused tasks e p t c f d
    refused K1 at 80000010 in start 80000010 prio 0 is 0 of task 1
run bad-input tasks e p t c d
    bad tasks 7
put p SEVEN_AREAS
run refused tasks e p t c d f
    refused sum 6 of 5 areas
run refused taskcert e p t x y z
    refused sum 6 of 5 areas
none x

case seven tasks share the areas
put l CALLER_LAYOUT
put s SEVEN_TURNS
put p SIXTEEN_AREAS
put t SEVEN_TASKS
run done asm s o
    object 192 bytes
run done link l e o
    image 204 bytes
run done taskcert e p t c0 c1 c2 c3 c4 c5 c6
    certified 14 of 14 areas in 7 tasks
run done tasks e p t c0 c1 c2 c3 c4 c5 c6
    certified 14 of 14 areas in 7 tasks

case certificates of tasks have their own names
put e SWITCHES
put p EIGHT
put t TWO_TASKS
put c FIRST_CERT
put d SECOND_CERT
run bad-words taskcert e p t c c
    bad words
run bad-words taskcert e p t c x d c
    bad words
run bad-words taskcert e p t
    bad words
run bad-input taskcert e p t c
    bad tasks 7
run bad-input taskcert e p t c d x
    bad tasks 7
run bad-input taskcert e p t n0 n1 n2 n3 n4 n5 n6 n7 n8 n9 n10 n11 n12 n13 n14 n15 n16 n17 n18 n19 n20 n21 n22 n23 n24 n25 n26 n27 n28 n29 n30 n31 n32 n33 n34 n35 n36 n37 n38 n39 n40 n41 n42 n43 n44 n45 n46 n47 n48 n49 n50 n51 n52 n53 n54 n55 n56 n57 n58 n59 n60 n61 n62 n63 n64 n65 n66 n67 n68 n69
    bad tasks 7
run bad-words taskcert e p t n0 n1 n2 n3 n4 n5 n6 n7 n8 n9 n10 n11 n12 n13 n14 n15 n16 n17 n18 n19 n20 n21 n22 n23 n24 n25 n26 n27 n28 n29 n30 n31 n32 n33 n34 n35 n36 n37 n38 n39 n40 n41 n42 n43 n44 n45 n46 n47 n48 n49 n50 n51 n52 n53 n54 n55 n56 n57 n58 n59 n60 n61 n62 n63 n64 n65 n66 n67 n68 n3
    bad words

case certificates before a failing write stand
failing 4
put e SWITCHES
put p EIGHT
put t TWO_TASKS
run fault taskcert e p t c d
holds c FIRST_CERT
none d
"#;

#[test]
fn tasks_share_the_areas(rt: HostRuntime) -> Result<(), Fail> {
    play(&rt, CASES)
}
