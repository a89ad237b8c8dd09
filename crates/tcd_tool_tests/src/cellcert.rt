// Cases of certificates that are made for words of ram that keep their bounds.
use crate::stage::play;
use std::test::Fail;

const CASES: &str = r#"
text COUNTED
    cell D0008000 00000000 00000003

case a counter is certified
put e COUNTER
put p BOARD
put q COUNTED
run done cellcert e p q c
    certified 0 of 2 areas with 1 cells
holds c COUNTER_CERT

case with the mask 7 the value is 1 to 4
put e COUNTER 5f=7f
put p BOARD
put q COUNTED
run refused cellcert e p q c
    refused K16 at 8000000E in start 80000000 prio 0 is 0
none c

case a word of rom is no cell
text IN_ROM
    cell 80000000 00000000 00000001
put e COUNTER
put p BOARD
put q IN_ROM
run bad-input cellcert e p q c
    bad cells 2 at 1
none c

case calls are certified without cells
put e CALLER
put p BOARD
put q NOTHING
run done cellcert e p q c
    certified 1 of 2 areas with 0 cells
holds c CALLER_CERT 04=02

case all areas are in reserve
put e CALLER
put p RESERVED
put q NOTHING
run refused cellcert e p q c
    refused K14 at 80000000 in start 80000000 prio 0 is 0
none c

case stores beside cells are certified
text BESIDE
    cell D0008004 00000000 00000003
put e BYTE_STORE
put p BOARD
put q BESIDE
run done cellcert e p q c
    certified 0 of 2 areas with 1 cells
length c 241

case a byte of a cell is stored
put e BYTE_STORE
put p BOARD
put q COUNTED
run refused cellcert e p q c
    refused K16 at 8000000C in start 80000000 prio 0 is 0
none c

case a word across two cells lies in no one range, which is told before rule 16
text BOTH
    cell D0008000 00000000 00000003
    cell D0008004 00000000 00000003
put e BYTE_STORE 62=02 63=09
put p BOARD
put q BOTH
run refused cellcert e p q c
    refused K9 at 8000000C in start 80000000 prio 0 is 0
none c

case inputs of cellcert are refused in their order
text SECOND_LINE
    .
    cell
text TWICE
    cell D0008000 00000000 00000003
    cell D0008000 00000000 00000003
put e COUNTER ..51
put p LIST
put q COUNTED ..4
run bad-input cellcert e p q c
    bad elf 1
put e COUNTER
run bad-input cellcert e p q c
    bad plan 1
put p BOARD
put q SECOND_LINE ..5
run bad-input cellcert e p q c
    bad cells 1 at 2
put q TWICE
run bad-input cellcert e p q c
    bad cells 3 at 2
put p CROWDED
put q COUNTED
run bad-input cellcert e p q c
    bad cells 4 at 1
none c

# The cells, which aren't there, are asked for behind the plan.
case cells are missing
put e COUNTER
put p LIST
run bad-input cellcert e p q c
    bad plan 1
put p BOARD
run fault cellcert e p q c
none c
# Three words behind the verb are no command.
run bad-words cellcert e p q
    bad words

case a table of functions is followed in the second version
put e DISPATCH
put p BOARD
put q NOTHING
run done cellcert e p q c
    certified 1 of 2 areas with 0 cells
length c 671
run done cells e p q c
    certified 1 of 2 areas with 0 cells
"#;

#[test]
fn cells_are_certified(rt: HostRuntime) -> Result<(), Fail> {
    play(&rt, CASES)
}
