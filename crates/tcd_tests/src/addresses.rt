//! Worked addresses on the board; with peripherals, one at F0000000 that answers 0 to 15, and one
//! that begins where ram ends.
use crate::asserts::{is_so, same};
use crate::boards::{Edit, board};
use crate::programs::{Program, image};
use std::test::Fail;
use store_ranges::{aligned, load_of, loaded_rom, store_ok};
use value_domain::{Bounds, Val, cover, cover_words};

const DEVICES: [Edit; 1] = [(
    r#""devices":[]"#,
    r#""devices":[{"at":"0xF0000000","len":"0x100","lo":0,"hi":15},{"at":"0xD0009000","len":"0x100","lo":1,"hi":2}]"#,
)];

/// Four words at 80000020.
static TABLE: Program<'static> = Program {
    source: ".section words\n\
        .global table\n\
        table: .word 0x80000030\n\
        .word 0x80000032\n\
        .word 0x80000034\n\
        .word 0\n",
    layout: "entry table\nplace words 80000020 00000010\n",
};

// The last word of ram is stored at; a word that passes the end of ram is not, even where a
// peripheral begins there.
#[test]
fn stores_at_the_end_of_ram(rt: HostRuntime) -> Result<(), Fail> {
    for plan in [board(&rt, &[])?, board(&rt, &DEVICES)?] {
        is_so(&rt, store_ok(&plan, &Val::one(0xD000_8FFC), 4));
        is_so(&rt, !store_ok(&plan, &Val::one(0xD000_8FFE), 4));
        is_so(&rt, store_ok(&plan, &Val::one(0xD000_8FFE), 2));
        is_so(&rt, !store_ok(&plan, &Val::one(0x8000_0000), 4));
        is_so(&rt, !store_ok(&plan, &Val::one(0xFFFF_FFFF), 2));
        is_so(&rt, !store_ok(&plan, &Val::any(), 1));
    }
    Ok(())
}

// Single accesses lie in one range each, while the whole Span lies in two that touch.
#[test]
fn stores_over_two_ranges(rt: HostRuntime) -> Result<(), Fail> {
    let plan = board(&rt, &DEVICES)?;
    let b = Bounds::of(&plan, 1);
    let words = cover(&b, 0xD000_8000, 0xD000_90FC, 2);
    is_so(&rt, words.words().is_none());
    is_so(&rt, store_ok(&plan, &words, 4));
    is_so(&rt, !store_ok(&board(&rt, &[])?, &words, 4));
    let halves = cover(&b, 0xD000_8000, 0xD000_90FE, 1);
    is_so(&rt, store_ok(&plan, &halves, 2));
    is_so(&rt, !store_ok(&plan, &halves, 4));
    is_so(&rt, aligned(&halves, 2));
    is_so(&rt, !aligned(&halves, 4));
    Ok(())
}

#[test]
fn loads_from_rom(rt: HostRuntime) -> Result<(), Fail> {
    let plan = board(&rt, &DEVICES)?;
    let b = Bounds::of(&plan, 1);
    let image = image(&rt, &TABLE)?;
    is_so(&rt, loaded_rom(&image, &plan, 0x8000_002C, 4));
    is_so(&rt, !loaded_rom(&image, &plan, 0x8000_002D, 4));
    let places = cover_words(&b, &[0x8000_0020, 0x8000_0024, 0x8000_0028, 0x8000_002C]);
    let words = load_of(&b, &image, &plan, &places, 4, false);
    same(
        &rt,
        &words.words().ok_or("a Span")?,
        &[0, 0x8000_0030, 0x8000_0032, 0x8000_0034].as_slice(),
    );
    let byte = load_of(&b, &image, &plan, &cover_words(&b, &[0x8000_0023]), 1, true);
    same(
        &rt,
        &byte.words().ok_or("a Span")?,
        &[0xFFFF_FF80].as_slice(),
    );
    Ok(())
}

#[test]
fn loads_from_elsewhere(rt: HostRuntime) -> Result<(), Fail> {
    let plan = board(&rt, &DEVICES)?;
    let b = Bounds::of(&plan, 1);
    let image = image(&rt, &TABLE)?;
    let port = load_of(
        &b,
        &image,
        &plan,
        &cover_words(&b, &[0xF000_0000]),
        4,
        false,
    );
    same(&rt, &port.words().ok_or("a Span")?.len(), &16);
    for (at, size, signed, last) in [
        (0xD000_8000, 4, false, u32::MAX),
        (0x8000_002D, 4, false, u32::MAX),
        (0xF000_0000, 2, false, 0xFFFF),
        (0xD000_8000, 1, false, 0xFF),
        (0xD000_8000, 1, true, u32::MAX),
    ] {
        let loaded = load_of(&b, &image, &plan, &cover_words(&b, &[at]), size, signed);
        is_so(
            &rt,
            matches!(loaded, Val::Span { lo: 0, last: l, step: 0 } if l == last),
        );
    }
    Ok(())
}
