//! Plans of a small board: rom from 80000000 on and ram from D0008000 on, 4096 bytes each, and four
//! save areas at D0000000.
use std::alloc::AllocGlobal;
use std::process::Abort;
use std::test::Fail;
use tcd_plan::Plan;

// The plain board.
const BOARD: &str =
    r#"{"rom":[{"at":"0x80000000","len":"0x1000"}],"ram":[{"at":"0xD0008000","len":"0x1000"}],"devices":[],"csa":{"at":"0xD0000000","areas":4,"reserve":2},"sp":"0xD0009000","isp":"0xD0008800","biv":"0x80000400","btv":"0x80000100","irqs":[],"traps":[],"start":{"ie":0,"ccpn":0,"is":0},"globals":{"a0":0,"a1":0,"a8":0,"a9":0}}"#;

/// What stands on a board in place of a text of the plain one.
pub type Edit = (&'static str, &'static str);

pub const CORE_16: Edit = (r#""traps":[]"#, r#""traps":[],"core":"1.6""#);

pub const BOTH_TRAPS: Edit = (r#""traps":[]"#, r#""traps":["sys","aln"]"#);

pub const EIGHT_AREAS: Edit = (r#""areas":4"#, r#""areas":8"#);

pub const TWO_INTERRUPTS: Edit = (r#""irqs":[]"#, r#""irqs":[10,20]"#);

pub const ENABLED: Edit = (r#""ie":0"#, r#""ie":1"#);

/// Eight areas, and two interrupts that are on from the start.
pub const INTERRUPTS: [Edit; 3] = [EIGHT_AREAS, ENABLED, TWO_INTERRUPTS];

/// The plan of the board with these edits made.
pub fn board<R: Abort + AllocGlobal>(rt: &R, edits: &[Edit]) -> Result<Plan, Fail> {
    let alloc = rt.alloc();
    let mut text = String::from_str(alloc, BOARD)?;
    for (from, to) in edits {
        text = text.as_str().replace(alloc, *from, *to)?;
    }
    let bytes = text.as_bytes();
    assert!(rt; bytes.len() <= 1000);
    Ok(Plan::read(alloc, bytes)?)
}
