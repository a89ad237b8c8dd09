//! Generated images, read back: main, the table, vectors, the system call, n functions 32 bytes
//! apart.
use crate::asserts::same;
use elf_image::Image;
use std::test::Fail;
use tcd_plan::Plan;
use tcd_report::generate;

#[test]
fn one_function(rt: HostRuntime) -> Result<(), Fail> {
    let alloc = rt.alloc();
    let made = generate(alloc, 1)?;
    same(
        &rt,
        &made.elf.len(),
        &(52 + 5 * 32 + 32 + 64 + 4812 + 2 + 6),
    );
    let image = Image::read(alloc, &made.elf)?;
    same(&rt, &image.entry, &0x8000_0000);
    same(&rt, &image.segments.len(), &5);
    // Each word of the table is the one function's address.
    for (addr, want) in [
        (0x8000_00ff, None),
        (0x8000_0100, Some(0x00)),
        (0x8000_0101, Some(0x80)),
        (0x8000_0103, Some(0x80)),
        (0x8000_013d, Some(0x80)),
        (0x8000_0140, None),
        (0x8000_2140, Some(0xe0)),
        (0x8000_8005, Some(0x90)),
        (0x8000_8006, None),
    ] {
        same(&rt, &(addr, image.byte(addr)), &(addr, want));
    }
    same(&rt, &made.plan.len(), &428);
    let plan = Plan::read(alloc, &made.plan)?;
    same(&rt, &plan.areas, &256);
    Ok(())
}

#[test]
fn five_hundred_functions(rt: HostRuntime) -> Result<(), Fail> {
    let made = generate(rt.alloc(), 500)?;
    same(
        &rt,
        &made.elf.len(),
        &(52 + 5 * 32 + 32 + 64 + 4812 + 2 + 499 * 32 + 6),
    );
    Ok(())
}
