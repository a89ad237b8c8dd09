// Cases of missing inputs, before and after other inputs.
use crate::stage::play;
use std::test::Fail;

const CASES: &str = r#"
# The first input that isn't in its form decides, also where those behind it are missing.
case a bad executable is told where all else is missing
put e CALLER ..51
run bad-input check e p c
    bad elf 1
run bad-input run e p s
    bad elf 1
run bad-input cells e p q c
    bad elf 1
run bad-input boot e p c 80000800
    bad elf 1
run bad-input cert e p c
    bad elf 1

case a missing plan is a fault before all behind it
put e CALLER
put c LIST
put q LIST
put s LIST
run fault check e p c
run fault run e p s
run fault cells e p q c
run fault boot e p c 80000800
run fault cert e p c

case a missing executable is a fault before a bad plan
put p LIST
run fault check e p c
run fault run e p s
run fault cells e p q c
run fault boot e p c 80000800
run fault cert e p c

case a bad plan is told behind an executable
put p LIST
put e CALLER
run bad-input check e p c
    bad plan 1
run bad-input run e p s
    bad plan 1
run bad-input cells e p q c
    bad plan 1
run bad-input boot e p c 80000800
    bad plan 1
run bad-input cert e p c
    bad plan 1

case a bad executable is told before a plan
put p BOARD
put e CALLER ..51
run bad-input check e p c
    bad elf 1
run bad-input run e p s
    bad elf 1
run bad-input cells e p q c
    bad elf 1
run bad-input boot e p c 80000800
    bad elf 1
run bad-input cert e p c
    bad elf 1
"#;

#[test]
fn inputs_are_asked_for_in_their_order(rt: HostRuntime) -> Result<(), Fail> {
    play(&rt, CASES)
}
