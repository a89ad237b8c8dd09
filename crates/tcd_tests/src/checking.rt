//! The verdict on a certificate.
use crate::asserts::same;
use crate::boards::board;
use crate::certificates::CALLER_CERT;
use crate::programs::{CALLER, image};
use depth_cert::Key;
use depth_check::{Verdict, check};
use packed_cert::Cert;
use std::alloc::AllocGlobal;
use std::process::Abort;
use std::test::Fail;

const START: Key = Key {
    kind: 0,
    entry: 0x8000_0000,
    prio: 0,
    is: false,
};

fn answer<R: Abort + AllocGlobal>(rt: &R, cert: &[u8]) -> Result<Verdict, Fail> {
    assert!(rt; cert.len() < 1000);
    let image = image(rt, &CALLER)?;
    let plan = board(rt, &[])?;
    let mut bytes = Vec::new(rt.alloc());
    bytes.extend_from_slice(cert)?;
    let cert = Cert::read(rt.alloc(), bytes)?;
    Ok(check(&image, &plan, &cert))
}

#[test]
fn a_need_is_enough(rt: HostRuntime) -> Result<(), Fail> {
    let mut cert = CALLER_CERT;
    same(&rt, &answer(&rt, &cert)?, &Verdict::Yes(1));
    cert[15] = 0;
    let none = Verdict::No {
        rule: 14,
        key: START,
        addr: 0x8000_0000,
    };
    same(&rt, &answer(&rt, &cert)?, &none);
    Ok(())
}
