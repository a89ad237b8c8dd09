//! Certificates that are made, in both formats.
use crate::asserts::{is_so, same};
use crate::boards::{Edit, INTERRUPTS, board};
use crate::programs::{CALLER, DISPATCH, FIVE_LOCALS, NESTED, Program, image};
use depth_cert::Key;
use depth_check::{Verdict, check};
use depth_maker::{MakeErr, make};
use elf_image::Image;
use packed_cert::PointWalk;
use std::alloc::AllocGlobal;
use std::process::Abort;
use std::test::Fail;

// The certificate of a program is accepted, and its frames, the start first, have these needs.
fn has_needs<R: Abort + AllocGlobal>(
    rt: &R,
    program: &Program,
    edits: &[Edit],
    version: u8,
    needs: &[u16],
) -> Result<(), Fail> {
    assert!(rt; version == 1 || version == 2);
    let plan = board(rt, edits)?;
    let image = image(rt, program)?;
    let cert = make(rt.alloc(), &image, &plan, version).map_err(|_| "refused")?;
    same(rt, &cert.version(), &version);
    same(rt, &cert.len(), &needs.len());
    for (i, need) in needs.iter().enumerate() {
        let node = cert.get(i).ok_or("no node")?;
        same(rt, &node.need, need);
    }
    let first = needs.first().ok_or("no need")?;
    is_so(
        rt,
        check(&image, &plan, &cert) == Verdict::Yes(u32::from(*first)),
    );
    Ok(())
}

// NESTED's frames: main, its three functions, of which the third runs at priority 10, and the
// handlers of 10 and 20.
#[test]
fn certificates_have_the_least_needs(rt: HostRuntime) -> Result<(), Fail> {
    for version in [1u8, 2] {
        has_needs(&rt, &CALLER, &[], version, &[1, 0])?;
        has_needs(&rt, &NESTED, &INTERRUPTS, version, &[6, 5, 4, 1, 3, 0])?;
        has_needs(&rt, &DISPATCH, &[], version, &[1, 0, 0, 0])?;
    }
    Ok(())
}

// Where a table of functions is called through, the register has the table's addresses.
#[test]
fn a_table_of_functions_has_its_targets(rt: HostRuntime) -> Result<(), Fail> {
    let plan = board(&rt, &[])?;
    let image = image(&rt, &DISPATCH)?;
    let cert = make(rt.alloc(), &image, &plan, 1).map_err(|_| "refused")?;
    let start = cert.get(0).ok_or("no start")?;
    let mut walk = PointWalk::empty();
    start.start_walk(&mut walk);
    for _i in 0..start.len() {
        if walk.advance() == Some(0x8000_0010) {
            break;
        }
    }
    same(
        &rt,
        &walk.state().regs[26].words().ok_or("a span")?,
        &[0x8000_0030, 0x8000_0032, 0x8000_0034].as_slice(),
    );
    Ok(())
}

// Five locals are too many for format 1.
#[test]
fn five_locals_want_the_second_version(rt: HostRuntime) -> Result<(), Fail> {
    let edits = [
        (r#""areas":4"#, r#""areas":8"#),
        (r#""reserve":2"#, r#""reserve":1"#),
    ];
    let plan = board(&rt, &edits)?;
    let image = image(&rt, &FIVE_LOCALS)?;
    let refused = make(rt.alloc(), &image, &plan, 1).err();
    let start = Key {
        kind: 0,
        entry: 0x8000_0000,
        prio: 0,
        is: false,
    };
    same(
        &rt,
        &refused,
        &Some(MakeErr::Refused {
            rule: 8,
            key: start,
            addr: 0x8000_0010,
        }),
    );
    has_needs(&rt, &FIVE_LOCALS, &edits, 2, &[5])
}

// An executable of 65,536 bytes, without them.
#[rattlefmt::skip]
const HEADER: [u8; 84] = [
    0x7f, 0x45, 0x4c, 0x46, 1, 1, 1, 0, 0, 0, 0, 0, 0, 0, 0, 0,
    2, 0, 0x2c, 0, 1, 0, 0, 0, 0, 0, 0, 0x80, 52, 0, 0, 0,
    0, 0, 0, 0, 0, 0, 0, 0, 52, 0, 32, 0, 1, 0, 0, 0, 0, 0, 0, 0,
    1, 0, 0, 0, 84, 0, 0, 0, 0, 0, 0, 0x80, 0, 0, 0, 0x80,
    0, 0, 1, 0, 0, 0, 1, 0, 5, 0, 0, 0, 1, 0, 0, 0,
];

// 16,384 jumps: jump w goes to jump 16,383 - w, in the second half to jump 16,384 - w.
#[test]
fn jumps_between_two_ends(rt: HostRuntime) -> Result<(), Fail> {
    let alloc = rt.alloc();
    let mut bytes = Vec::from_slice(alloc, &HEADER)?;
    for w in 0..16384u32 {
        let to = if w < 8192 { 16383 - w } else { 16384 - w };
        let by = (2 * to).wrapping_sub(2 * w);
        bytes.extend_from_slice(&[
            0x1d,
            (by / 65536 % 256) as u8,
            (by % 256) as u8,
            (by / 256 % 256) as u8,
        ])?;
    }
    assert!(rt; bytes.len() <= 100_000);
    let image = Image::read(alloc, &bytes)?;
    let plan = board(
        &rt,
        &[(r#""len":"0x1000"}],"ram""#, r#""len":"0x10000"}],"ram""#)],
    )?;
    let cert = make(alloc, &image, &plan, 1).map_err(|_| "refused")?;
    is_so(&rt, check(&image, &plan, &cert) == Verdict::Yes(0));
    same(&rt, &cert.into_bytes().len(), &638_998);
    Ok(())
}
