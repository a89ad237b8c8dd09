//! The object of a listing.
use crate::asserts::same;
use crate::programs::{CALLER, image};
use std::test::Fail;
use tc_disasm::reassemble;

#[test]
fn a_listing_is_assembled(rt: HostRuntime) -> Result<(), Fail> {
    let image = image(&rt, &CALLER)?;
    let object = reassemble(rt.alloc(), &image)?;
    same(&rt, &object.sections.len(), &1);
    Ok(())
}
