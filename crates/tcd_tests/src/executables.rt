//! The bytes of an image by their addresses.
use crate::asserts::same;
use crate::programs::{CALLER, image};
use std::test::Fail;

#[test]
fn bytes_at_addresses(rt: HostRuntime) -> Result<(), Fail> {
    let image = image(&rt, &CALLER)?;
    for (addr, want) in [
        (0x7fff_ffff, None),
        (0x8000_0000, Some(0x6d)),
        (0x8000_0009, Some(0x90)),
        (0x8000_000a, None),
    ] {
        same(&rt, &(addr, image.byte(addr)), &(addr, want));
    }
    Ok(())
}
