//! Values in the fields of instructions, and a layout.
use crate::asserts::same;
use std::test::Fail;
use tc_link::Layout;
use tc_reloc::{RelocErr, apply};

const FROM: u32 = 0x8000_0000;

#[test]
fn conditional_jump(rt: HostRuntime) {
    let jlt = [0x3f, 0x10, 0, 0];
    same(
        &rt,
        &apply(3, jlt, FROM, 0x8000_0010),
        &Ok([0x3f, 0x10, 8, 0]),
    );
    same(&rt, &apply(3, jlt, FROM, 0x8000_0011), &Err(RelocErr::Odd));
    same(
        &rt,
        &apply(3, jlt, FROM, 0x8000_8000),
        &Err(RelocErr::FarOff),
    );
}

#[test]
fn call(rt: HostRuntime) {
    same(
        &rt,
        &apply(1, [0x6d, 0, 0, 0], FROM, 0x8000_0100),
        &Ok([0x6d, 0, 0x80, 0]),
    );
    same(
        &rt,
        &apply(1, [0x6d, 0, 0, 0], FROM, 0x7fff_fffe),
        &Ok([0x6d, 0xff, 0xff, 0xff]),
    );
    same(
        &rt,
        &apply(2, [0xed, 0, 0, 0], 0, 0x8020_0000),
        &Err(RelocErr::Segment),
    );
    same(
        &rt,
        &apply(2, [0xed, 0, 0, 0], 0, 0x8010_0004),
        &Ok([0xed, 0x88, 2, 0]),
    );
}

#[test]
fn halves_and_words(rt: HostRuntime) {
    same(
        &rt,
        &apply(4, [0x91, 0, 0, 0xf0], 0, 0xf000_8000),
        &Ok([0x91, 0x10, 0, 0xff]),
    );
    same(
        &rt,
        &apply(5, [0x1b, 0, 0, 0], 0, 0x1234_8765),
        &Ok([0x1b, 0x50, 0x76, 8]),
    );
    same(
        &rt,
        &apply(6, [0x19, 0, 0, 0], 0, 0x1234_8765),
        &Ok([0x19, 0, 0x65, 0xd8]),
    );
    same(
        &rt,
        &apply(7, [1, 2, 3, 4], 0, 0x1234_5678),
        &Ok([0x78, 0x56, 0x34, 0x12]),
    );
}

#[test]
fn reads_a_layout(rt: HostRuntime) -> Result<(), Fail> {
    let text = b"entry main\nplace text 80000000 00010000\n";
    let layout = Layout::read(rt.alloc(), text)?;
    same(&rt, &layout.entry.as_str(), &"main");
    assert!(rt; layout.places.len() == 1);
    let place = &layout.places[0];
    same(&rt, &place.section.as_str(), &"text");
    same(&rt, &(place.at, place.most), &(0x8000_0000, 0x1_0000));
    Ok(())
}
