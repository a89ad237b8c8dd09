//! Files and sinks in memory, also through their bounds, and calls that are to fail.
use crate::asserts::same;
use std::alloc::Global;
use std::test::Fail;
use tcd_base::{FileErr, Files, MemFiles, MemSink, Sink, SinkErr};

// Through the bound.
fn read_through<F: Files>(
    files: &mut F,
    alloc: Global,
    name: &str,
    limit: u32,
) -> Result<Vec<u8>, FileErr> {
    files.read(alloc, name, limit)
}

#[test]
fn files_hold(rt: HostRuntime) -> Result<(), Fail> {
    let alloc = rt.alloc();
    let mut files = MemFiles::sure(alloc);
    files.put("a", &[1, 2])?;
    files.write(alloc, "b", &[3])?;
    same(&rt, &read_through(&mut files, alloc, "a", 2)?.len(), &2);
    same(
        &rt,
        &files.read(alloc, "a", 1).err(),
        &Some(FileErr::TooLong),
    );
    same(
        &rt,
        &files.read(alloc, "c", 1).err(),
        &Some(FileErr::Failed),
    );
    same(&rt, &files.get("b"), &Some([3].as_slice()));
    Ok(())
}

#[test]
fn listed_calls_fail_once(rt: HostRuntime) -> Result<(), Fail> {
    let alloc = rt.alloc();
    let mut files = MemFiles::failing(alloc, &[1])?;
    files.write(alloc, "a", &[3])?;
    same(
        &rt,
        &files.write(alloc, "a", &[4, 4]),
        &Err(FileErr::Failed),
    );
    same(&rt, &files.read(alloc, "a", 2)?.len(), &1);
    files.write(alloc, "a", &[5, 6])?;
    same(&rt, &files.get("a"), &Some([5, 6].as_slice()));
    Ok(())
}

// Through the bound.
fn write_through<S: Sink>(out: &mut S, bytes: &[u8]) -> Result<(), SinkErr> {
    out.write(bytes)
}

#[test]
fn sink_keeps_its_capacity(rt: HostRuntime) -> Result<(), Fail> {
    let mut out = MemSink::sure(rt.alloc(), 3)?;
    write_through(&mut out, b"ab")?;
    same(&rt, &out.write(b"cd"), &Err(SinkErr::Failed));
    out.write(b"c")?;
    same(&rt, &out.text(), &b"abc".as_slice());
    Ok(())
}

#[test]
fn listed_writes_fail_once(rt: HostRuntime) -> Result<(), Fail> {
    let mut out = MemSink::failing(rt.alloc(), 3, &[0])?;
    same(&rt, &out.write(b"a"), &Err(SinkErr::Failed));
    out.write(b"b")?;
    same(&rt, &out.text(), &b"b".as_slice());
    Ok(())
}
