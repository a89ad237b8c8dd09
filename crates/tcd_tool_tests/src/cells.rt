// Cases of files of cells.
use crate::stage::play;
use std::test::Fail;

const CASES: &str = r#"
text COUNTED
    cell D0008000 00000000 00000003

case a counter keeps its bounds
put e COUNTER
put p BOARD
put q COUNTED
put c COUNTER_CERT
run done cells e p q c
    certified 0 of 2 areas with 1 cells
# With the mask 7 the value is 1 to 4.
put e COUNTER 5f=7f
put c COUNTER_CERT f6=01 fa=02 fe=03 102=04 131=01 135=02 139=03 13d=04
run refused cells e p q c
    refused K16 at 8000000E in start 80000000 prio 0 is 0
# The certificate is judged under the plan in which the cell is a device.
text TO_FOUR
    cell D0008000 00000000 00000004
put e COUNTER
put q TO_FOUR
put c COUNTER_CERT
run refused cells e p q c
    refused K4 at 80000004 in start 80000000 prio 0 is 0

case cells lie in ram, apart
put e COUNTER
put p BOARD
put c COUNTER_CERT
text IN_ROM
    cell 80000000 00000000 00000001
put q IN_ROM
run bad-input cells e p q c
    bad cells 2 at 1
text BEHIND_RAM
    cell D0009000 00000000 00000001
put q BEHIND_RAM
run bad-input cells e p q c
    bad cells 2 at 1
# The last word of ram.
text LAST_OF_RAM
    cell D0008000 00000000 00000003
    cell D0008FFC 00000000 00000001
put q LAST_OF_RAM
run done cells e p q c
    certified 0 of 2 areas with 2 cells
text SIDE_BY_SIDE
    cell D0008000 00000000 00000003
    cell D0008004 00000000 00000000
put q SIDE_BY_SIDE
run done cells e p q c
    certified 0 of 2 areas with 2 cells
text AGAIN
    cell D0008000 00000000 00000003
    cell D0008004 00000000 00000000
    cell D0008000 00000000 00000003
put q AGAIN
run bad-input cells e p q c
    bad cells 3 at 3

case cells are no more than a plan has devices for
bytes LOOP_CERT
    54434443 01000100 00000000 80000000 00000100 00000000 00800000 00000000
    00000000 00000000 00000000 00000000 00000000 01009000 d0000000 00
put e BYTE_STORE 54=3c 55=00
put p CROWDED
put c LOOP_CERT
put q NOTHING
run done cells e p q c
    certified 0 of 2 areas with 0 cells
text ONE_MORE
    .
    cell D0008000 00000000 00000003
put q ONE_MORE
run bad-input cells e p q c
    bad cells 4 at 2

case a byte of a cell is not stored
# A15 is D0008000 and D0 is 1 at the store.
bytes BYTE_STORE_CERT
    54434443 01000100 00000000 80000000 00000500 00000000 00800000 00000000
    00000000 00000000 00000000 00000000 00000000 01009000 d0000000 00040000
    80000000 00000000 00000000 00000000 00000000 00000000 00000001 009000d0
    00000001 000001d0 08000080 00000000 00000000 00000000 00000000 00000000
    00000000 00000100 9000d000 00000100 8000d00c 00008000 00000001 01000000
    00000000 00000000 00000000 00000000 00000000 00010090 00d00000 00010080
    00d01000 00800000 00000101 00000000 00000000 00000000 00000000 00000000
    00000000 01009000 d0000000 01008000 d0
put e BYTE_STORE
put p BOARD
put c BYTE_STORE_CERT
put q COUNTED
run refused cells e p q c
    refused K16 at 8000000C in start 80000000 prio 0 is 0
text BESIDE
    cell D0008004 00000000 00000003
put q BESIDE
run done cells e p q c
    certified 0 of 2 areas with 1 cells

case a word across two cells lies in no one range
text BOTH
    cell D0008000 00000000 00000003
    cell D0008004 00000000 00000003
put e BYTE_STORE 62=02 63=09
put p BOARD
put c BYTE_STORE_CERT
put q BOTH
run refused cells e p q c
    refused K9 at 8000000C in start 80000000 prio 0 is 0

case a store that may touch two cells keeps both
# At 80000000: `movh.a a15, 53249`, `ld.w.l d15, [a15]-32768`, `addsc.a a14, a15, d15, 2`, `mov d0, 1`,
# `st.w.l [a14]-32768, d0`, `j16 .+0`.
bytes EITHER_CELL
    7f454c46 01010100 00000000 00000000 02002c00 01000000 00000080 34000000
    00000000 00000000 34002000 01000000 00000000 01000000 54000000 00000080
    00000080 16000000 16000000 05000000 01000000 911000fd 19ff0008 01ff02e6
    3b100000 59e00008 3c00
# D15 is 0 or 1, so that D0008000 or D0008004 is written.
bytes EITHER_CELL_CERT
    54434443 01000100 00000000 80000000 00000600 00000000 00800000 00000000
    00000000 00000000 00000000 00000000 00000000 01009000 d0000000 00040000
    80000000 00000000 00000000 00000000 00000000 00000000 00000001 009000d0
    00000001 000001d0 08000080 00000000 00000000 00000000 00000000 00000002
    00000000 01000000 00000000 00000100 9000d000 00000100 0001d00c 00008000
    00000000 00000000 00000000 00000000 00000200 00000001 00000000 00000000
    00010090 00d00000 02000001 d0040001 d0010000 01d01000 00800000 00000101
    00000000 00000000 00000000 00000000 00020000 00000100 00000000 00000000
    01009000 d0000002 000001d0 040001d0 01000001 d0140000 80000000 00010100
    00000000 00000000 00000000 00000000 02000000 00010000 00000000 00000001
    009000d0 00000200 0001d004 0001d001 000001d0
put e EITHER_CELL
put p BOARD
put c EITHER_CELL_CERT
text ONE_IN_BOTH
    cell D0008000 00000000 00000001
    cell D0008004 00000001 00000002
put q ONE_IN_BOTH
run done cells e p q c
    certified 0 of 2 areas with 2 cells
text ONE_IN_THE_FIRST
    cell D0008000 00000000 00000001
    cell D0008004 00000002 00000003
put q ONE_IN_THE_FIRST
run refused cells e p q c
    refused K16 at 80000010 in start 80000000 prio 0 is 0

case inputs are refused in their order
put e COUNTER ..51
put p LIST
put q COUNTED ..4
put c COUNTER_CERT ..7
run bad-input cells e p q c
    bad elf 1
put e COUNTER
run bad-input cells e p q c
    bad plan 1
put p BOARD
run bad-input cells e p q c
    bad cells 1 at 1
put q NOTHING
run bad-input cells e p q c
    bad cert 1 at 6
"#;

#[test]
fn cells_keep_their_bounds(rt: HostRuntime) -> Result<(), Fail> {
    play(&rt, CASES)
}
