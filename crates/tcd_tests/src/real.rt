//! The files of the system, and standard output.
use crate::asserts::same;
use std::fs;
use std::test::Fail;
use tcd_base::{FileErr, Files, Sink};
use tcd_real::{RealFiles, Stdout};

#[test]
fn a_written_file_is_read_back(rt: HostRuntime) -> Result<(), Fail> {
    let name = "tcd_adapter_test";
    let mut files = RealFiles { rt: &rt, failed: 0 };
    files.write(rt.alloc(), name, b"areas")?;
    let whole = files.read(rt.alloc(), name, 5);
    let cut = files.read(rt.alloc(), name, 4);
    fs::remove_file(&rt, name)?;
    same(&rt, &whole?.as_slice(), &b"areas".as_slice());
    same(&rt, &cut.err(), &Some(FileErr::TooLong));
    same(&rt, &files.failed, &0);
    same(
        &rt,
        &files.read(rt.alloc(), name, 5).err(),
        &Some(FileErr::Failed),
    );
    same(&rt, &files.failed, &1);
    Ok(())
}

// A device that is full, and a folder that isn't there.
#[test]
fn a_write_that_fails_is_a_fault(rt: HostRuntime) -> Result<(), Fail> {
    let mut files = RealFiles { rt: &rt, failed: 0 };
    same(
        &rt,
        &files.write(rt.alloc(), "/dev/full", b"areas"),
        &Err(FileErr::Failed),
    );
    same(&rt, &files.failed, &1);
    same(
        &rt,
        &files.write(rt.alloc(), "tcd_missing_folder/areas", b"areas"),
        &Err(FileErr::Failed),
    );
    same(&rt, &files.failed, &2);
    Ok(())
}

#[test]
fn standard_output_takes_a_text(rt: HostRuntime) -> Result<(), Fail> {
    let mut out = Stdout { rt: &rt, failed: 0 };
    out.write(b"certified\n")?;
    same(&rt, &out.failed, &0);
    Ok(())
}

// A file of more bytes than one call of the system gives, none of whose blocks is like another, and
// one of exactly two such blocks.
#[test]
fn a_long_file_is_read_back(rt: HostRuntime) -> Result<(), Fail> {
    let name = "tcd_adapter_long_test";
    let mut files = RealFiles { rt: &rt, failed: 0 };
    let mut bytes = Vec::new(rt.alloc());
    for i in 0..10000u32 {
        bytes.push(((i + i / 251) % 256) as u8)?;
    }
    files.write(rt.alloc(), name, &bytes)?;
    let whole = files.read(rt.alloc(), name, 10000);
    let with_room = files.read(rt.alloc(), name, 10001);
    let cut = files.read(rt.alloc(), name, 9999);
    let far_cut = files.read(rt.alloc(), name, 4096);
    let front = bytes.get(..8192).ok_or("too few")?;
    files.write(rt.alloc(), name, front)?;
    let blocks = files.read(rt.alloc(), name, 8192);
    let blocks_with_room = files.read(rt.alloc(), name, 8193);
    let cut_blocks = files.read(rt.alloc(), name, 8191);
    fs::remove_file(&rt, name)?;
    same(&rt, &whole?.as_slice(), &bytes.as_slice());
    same(&rt, &with_room?.as_slice(), &bytes.as_slice());
    same(&rt, &cut.err(), &Some(FileErr::TooLong));
    same(&rt, &far_cut.err(), &Some(FileErr::TooLong));
    same(&rt, &blocks?.as_slice(), &front);
    same(&rt, &blocks_with_room?.as_slice(), &front);
    same(&rt, &cut_blocks.err(), &Some(FileErr::TooLong));
    same(&rt, &files.failed, &0);
    Ok(())
}
