//! An object of one section, two symbols and a call.
use crate::asserts::same;
use std::test::Fail;
use tc_object::{Object, object_name_of};

const BYTES: [u8; 58] = [
    0x54, 0x43, 0x4f, 0x31, 1, 0, 2, 0, 1, 0, // one section, two symbols, one relocation
    1, b't', 8, 0, 0, 0, 0x6d, 0, 0, 0, 0, 0x90, 0, 0, // from 10: `t`
    4, b'm', b'a', b'i', b'n', 2, 0, 0, 4, 0, 0, 0, // from 24: `main`, global, at 4
    1, b'f', 0, 0, 0, 0, 0, 0, 0, // from 36: `f`, undefined
    0, 0, 0, 0, 0, 0, 1, 1, 0, 0xfc, 0xff, 0xff, 0xff, // from 45: a call at 0 of `f - 4`
];

#[test]
fn reads_and_writes(rt: HostRuntime) -> Result<(), Fail> {
    let object = Object::read(rt.alloc(), &BYTES)?;
    assert!(rt; object.sections.len() == 1);
    let section = &object.sections[0];
    same(&rt, &section.name.as_str(), &"t");
    same(
        &rt,
        &section.bytes.as_slice(),
        &[0x6d, 0, 0, 0, 0, 0x90, 0, 0].as_slice(),
    );
    assert!(rt; object.symbols.len() == 2);
    let main = &object.symbols[0];
    same(&rt, &main.name.as_str(), &"main");
    same(&rt, &(main.kind, main.section, main.offset), &(2, 0, 4));
    let f = &object.symbols[1];
    same(&rt, &(f.name.as_str(), f.kind), &("f", 0));
    assert!(rt; object.relocs.len() == 1);
    let call = object.relocs[0];
    same(
        &rt,
        &(call.offset, call.kind, call.symbol, call.addend),
        &(0, 1, 1, 0xffff_fffc),
    );
    let written = object.write(rt.alloc())?;
    same(&rt, &written.as_slice(), &BYTES.as_slice());
    Ok(())
}

#[test]
fn names(rt: HostRuntime) {
    same(&rt, &object_name_of(b".text$1"), &Some(".text$1"));
    same(&rt, &object_name_of(b""), &None);
    same(&rt, &object_name_of(b"1a"), &None);
    same(&rt, &object_name_of(b"a b"), &None);
}
