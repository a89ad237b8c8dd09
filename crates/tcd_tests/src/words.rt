//! Words and the bytes that hold them, and readers that name the first byte at fault.
use crate::asserts::same;
use std::test::Fail;
use tcd_base::{
    Cursor, FileCursor, FormErr, bits, put_u32, read_bytes, read_u8, read_u16, read_u32, sext,
};

#[test]
fn fields_and_words(rt: HostRuntime) -> Result<(), Fail> {
    same(&rt, &bits(0x1234_5678, 15, 8), &0x56);
    same(&rt, &bits(0xffff_ffff, 31, 0), &0xffff_ffff);
    same(&rt, &sext(0x7fff, 16), &0x7fff);
    same(&rt, &sext(0x8000, 16), &0xffff_8000);
    same(&rt, &sext(0x8000_0000, 32), &0x8000_0000);
    let mut out = Vec::new(rt.alloc());
    put_u32(&mut out, 0x0200_000d)?;
    same(&rt, &out.as_slice(), &[0x0d, 0x00, 0x00, 0x02].as_slice());
    Ok(())
}

#[test]
fn cursor_moves(rt: HostRuntime) {
    let bytes = [0x54, 0x43, 0x44, 0x43, 0x01, 0x00, 0x02, 0x00, 0xaa];
    let mut c = Cursor::new(&bytes);
    same(&rt, &c.take_u32(), &Some(0x4344_4354));
    same(&rt, &c.take_u16(), &Some(1));
    same(&rt, &c.take(4), &None);
    same(&rt, &c.place(), &6);
    same(&rt, &c.take_u8(), &Some(2));
    same(&rt, &c.take(2).map(|part| part.len()), &Some(2));
    same(&rt, &c.take_u8(), &None);
}

#[test]
fn readers_name_the_first_byte(rt: HostRuntime) {
    let bytes = [1, 2, 0, 3, 0, 0, 0, 4, 5];
    let mut c = FileCursor::new(&bytes);
    same(&rt, &read_u8(&mut c), &Ok(1));
    same(&rt, &read_u16(&mut c), &Ok(2));
    same(&rt, &read_u32(&mut c), &Ok(3));
    same(&rt, &read_bytes(&mut c, 1).map(|part| part.len()), &Ok(1));
    same(&rt, &read_u16(&mut c), &Err(FormErr { kind: 1, at: 8 }));
}
