//! The machine's memory: bytes, whole accesses and save areas.
use crate::asserts::same;
use std::test::Fail;
use tc_mem::Mem;
use tcd_base::Range;

#[test]
fn bytes_across_two_pages(rt: HostRuntime) -> Result<(), Fail> {
    let mut mem = Mem::of(rt.alloc(), &[Range { at: 0xffe, len: 4 }])?;
    same(&rt, &mem.get(0xffd), &None);
    same(&rt, &mem.get(0xffe), &Some(0));
    same(&rt, &mem.set(0x1001, 7), &true);
    same(&rt, &mem.get(0x1001), &Some(7));
    same(&rt, &mem.set(0x1002, 1), &false);
    same(&rt, &mem.area(0xfc0), &None);
    Ok(())
}

#[test]
fn areas_hold_words(rt: HostRuntime) -> Result<(), Fail> {
    let ranges = [
        Range {
            at: 0xd000_0000,
            len: 128,
        },
        Range {
            at: 0x8000_0000,
            len: 4,
        },
    ];
    let mut mem = Mem::of(rt.alloc(), &ranges)?;
    let words = [
        0x0302_0100,
        1,
        2,
        3,
        4,
        5,
        6,
        7,
        8,
        9,
        10,
        11,
        12,
        13,
        14,
        0xffff_ffff,
    ];
    same(&rt, &mem.set_area(0xd000_0040, &words), &true);
    same(&rt, &mem.area(0xd000_0040), &Some(words));
    same(&rt, &mem.get(0xd000_0041), &Some(1));
    same(&rt, &mem.get(0xd000_003f), &Some(0));
    same(&rt, &mem.set_area(0x8000_0000, &words), &false);
    same(&rt, &mem.get(0x8000_0001), &Some(0));
    Ok(())
}

#[test]
fn whole_accesses(rt: HostRuntime) -> Result<(), Fail> {
    let ranges = [Range {
        at: 0x1000,
        len: 66,
    }];
    let mut mem = Mem::of(rt.alloc(), &ranges)?;
    same(&rt, &mem.set_word(0x103c, 0x0403_0201), &true);
    same(&rt, &mem.word(0x103c), &Some(0x0403_0201));
    same(&rt, &mem.get(0x103d), &Some(2));
    same(&rt, &mem.half(0x103e), &Some(0x0403));
    same(&rt, &mem.set_half(0x1040, 0x0605), &true);
    same(&rt, &mem.get(0x1041), &Some(6));
    same(&rt, &mem.word(0x103e), &None);
    same(&rt, &mem.set_word(0x1040, 1), &false);
    same(&rt, &mem.half(0x1041), &None);
    let mut near = 7;
    same(&rt, &mem.area_first_word(0x1000, &mut near), &Some(0));
    same(&rt, &mem.area_first_word(0x1040, &mut near), &None);
    Ok(())
}
