//! A certificate of two nodes, its look-ups, and bytes that spell none.
use crate::asserts::{is_so, same};
use depth_cert::{CertErr, Key};
use packed_cert::{Cert, PointWalk};
use std::alloc::AllocGlobal;
use std::process::Abort;
use std::test::Fail;
use tcd_base::FormErr;

/// The start at 80000000, which calls a function at 80000008: both keep A10 at D0009000.
#[rattlefmt::skip]
pub const CALLER_CERT: [u8; 169] = [
    0x54, 0x43, 0x44, 0x43, 1, 0, 2, 0,
    // The start, with one save area and two points.
    0, 0, 0, 0, 0x80, 0, 0, 1, 0, 0, 2, 0, 0, 0,
    0, 0, 0, 0x80, 0, 0, 0, 0,
    0, 0, 0, 0, 0, 0, 0, 0, 0, 0, 0, 0, 0, 0, 0, 0, 0, 0, 0, 0, 0, 0, 1, 0, 0x90, 0, 0xD0, 0, 0, 0, 0,
    4, 0, 0, 0x80, 0, 0, 0, 0,
    0, 0, 0, 0, 0, 0, 0, 0, 0, 0, 0, 0, 0, 0, 0, 0, 0, 0, 0, 0, 0, 0, 1, 0, 0x90, 0, 0xD0, 0, 0, 0, 0,
    // The function, with an exit and one point.
    1, 8, 0, 0, 0x80, 0, 0, 0, 0,
    1, 0, 0, 0, 0, 0, 0, 0, 0, 0, 0, 0, 0, 0, 0, 0, 0,
    1, 0, 0, 0,
    8, 0, 0, 0x80, 0, 0, 0, 0,
    0, 0, 0, 0, 0, 0, 0, 0, 0, 0, 0, 0, 0, 0, 0, 0, 0, 0, 0, 0, 0, 0, 1, 0, 0x90, 0, 0xD0, 0, 0, 0, 0,
];

const START: Key = Key {
    kind: 0,
    entry: 0x8000_0000,
    prio: 0,
    is: false,
};

/// Why bytes are no certificate, and None where they are one.
fn refused<R: Abort + AllocGlobal>(rt: &R, bytes: &[u8]) -> Option<CertErr> {
    read(rt, bytes).err()
}

/// Reads a certificate.
fn read<R: Abort + AllocGlobal>(rt: &R, bytes: &[u8]) -> Result<Cert, CertErr> {
    assert!(rt; bytes.len() <= 1 << 30);
    match Vec::from_slice(rt.alloc(), bytes) {
        Ok(own) => Cert::read(rt.alloc(), own),
        Err(_) => Err(CertErr::NoMemory),
    }
}

#[test]
fn reads_and_writes(rt: HostRuntime) -> Result<(), Fail> {
    for version in [1u8, 2] {
        let mut bytes = CALLER_CERT;
        bytes[4] = version;
        let cert = read(&rt, &bytes).map_err(|_| "no certificate")?;
        same(&rt, &cert.version(), &version);
        same(&rt, &cert.len(), &2);
        same(&rt, &cert.write(rt.alloc())?.as_slice(), &bytes.as_slice());
        same(&rt, &cert.into_bytes().as_slice(), &bytes.as_slice());
    }
    Ok(())
}

#[test]
fn finds_nodes_and_points(rt: HostRuntime) -> Result<(), Fail> {
    let cert = read(&rt, &CALLER_CERT).map_err(|_| "no certificate")?;
    let start = cert.node(&START).ok_or("no start")?;
    same(&rt, &start.need, &1);
    is_so(&rt, start.exit().is_none());
    is_so(&rt, start.point(0x8000_0004).is_some());
    is_so(&rt, start.point(0x8000_0002).is_none());
    is_so(&rt, start.point(0x8000_0008).is_none());
    let mut call = START;
    call.kind = 1;
    is_so(&rt, cert.node(&call).is_none());
    call.entry = 0x8000_0008;
    let call = cert.node(&call).ok_or("no node")?;
    same(&rt, &call.need, &0);
    let exit = call.exit().ok_or("no exit")?;
    is_so(&rt, !exit.ie() && exit.ccpn() == 0);
    is_so(&rt, exit.to_exit().lower[13].words().is_none());
    let mut walk = PointWalk::empty();
    call.start_walk(&mut walk);
    same(&rt, &walk.advance(), &Some(0x8000_0008));
    same(
        &rt,
        &walk.state().regs[22].words().ok_or("any")?,
        &[0xD000_9000].as_slice(),
    );
    Ok(())
}

#[test]
fn short_at_each_length(rt: HostRuntime) -> Result<(), Fail> {
    for n in 0..169 {
        let at = match refused(&rt, &CALLER_CERT[..n]) {
            Some(CertErr::Bad(FormErr { kind: 1, at })) => at as usize,
            _ => return Err("not short".into()),
        };
        is_so(&rt, at <= n);
        is_so(&rt, n < at + 4);
    }
    Ok(())
}
