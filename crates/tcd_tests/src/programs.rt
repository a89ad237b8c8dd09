//! Programs, and how they are put together.
use elf_image::Image;
use std::alloc::AllocGlobal;
use std::process::Abort;
use std::test::Fail;
use tc_asm::assemble;
use tc_link::{Layout, link};
use tc_object::Object;

/// A source and the layout of its sections.
#[derive(Clone, Copy)]
pub struct Program<'a> {
    pub source: &'a str,
    pub layout: &'a str,
}

/// Calls a function and stands still.
pub static CALLER: Program<'static> = Program {
    source: ".section text\n\
        .global main\n\
        main: call f\n\
        j .+0\n\
        f: ret16\n",
    layout: "entry main\nplace text 80000000 00000400\n",
};

/// Calls one of three functions through a table of four addresses.
pub static DISPATCH: Program<'static> = Program {
    source: ".section text\n\
        .global main\n\
        main: and d15, d15, 3\n\
        movh.a a15, 0x8000\n\
        addsc.a a15, a15, d15, 2\n\
        ld.a.l a15, [a15]32\n\
        calli a15\n\
        j16 .+0\n\
        .space 10\n\
        .word 0x80000030, 0x80000032, 0x80000034, 0x80000030\n\
        ret16\n\
        ret16\n\
        ret16\n",
    layout: "entry main\nplace text 80000000 00000400\n",
};

/// Saves five lower contexts and stands still.
pub static FIVE_LOCALS: Program<'static> = Program {
    source: ".section text\n\
        .global main\n\
        main: svlcx\n\
        svlcx\n\
        svlcx\n\
        svlcx\n\
        svlcx\n\
        j16 .+0\n",
    layout: "entry main\nplace text 80000000 00000400\n",
};

/// Sets LCX to 0 and stands still.
pub static LIMIT_TO_ZERO: Program<'static> = Program {
    source: ".section text\n\
        .global main\n\
        main: mov d0, 0\n\
        mtcr 0xFE3C, d0\n\
        j .+0\n",
    layout: "entry main\nplace text 80000000 00000400\n",
};

/// A main that calls functions, and handlers of interrupts 10 and 20, of which the first one calls
/// a function, too.
pub static NESTED: Program<'static> = Program {
    source: ".section text\n\
        .global main\n\
        main: call f\n\
        j .+0\n\
        f: call16 h\n\
        ret16\n\
        h: ret16\n\
        g: ret16\n\
        .section handler10\n\
        bisr16 10\n\
        call g\n\
        rslcx\n\
        rfe16\n\
        .section handler20\n\
        rfe16\n",
    layout: "entry main\n\
        place text 80000000 00000400\n\
        place handler10 80000540 00000020\n\
        place handler20 80000680 00000020\n",
};

/// Loads halfwords at F0000000, the last one from an odd address, and makes a system call; a
/// handler of interrupt 10.
pub static LOADS: Program<'static> = Program {
    source: ".section text\n\
        .global main\n\
        main: movh.a a15, 0xF000\n\
        ld.hu d1, [a15]0\n\
        ld.h d2, [a15]0\n\
        ld.hu d1, [a15]1\n\
        syscall 3\n\
        .section handler10\n\
        rfe16\n",
    layout: "entry main\n\
        place text 80000000 00000400\n\
        place handler10 80000540 00000020\n",
};

/// Reads the word at F0000000 into D15 and stands still.
pub static POLLED: Program<'static> = Program {
    source: ".section text\n\
        .global main\n\
        main: movh.a a15, 0xF000\n\
        ld.w.l d15, [a15]0\n\
        j16 .+0\n",
    layout: "entry main\nplace text 80000000 00000400\n",
};

/// Each kind of point, from 80000000 on.
pub static POINTS: Program<'static> = Program {
    source: ".section text\n\
        .global main\n\
        main: mov16 d0, 1\n\
        jz16.d15 .+8\n\
        ji16 a15\n\
        call16 .+4\n\
        ret16\n\
        rfe16\n\
        ld16.w d0, [a4]\n\
        st16.w [a4], d0\n\
        bisr16 10\n\
        syscall 3\n",
    layout: "entry main\nplace text 80000000 00000400\n",
};

/// The object of a source.
pub fn object<R: Abort + AllocGlobal>(rt: &R, source: &str) -> Result<Object, Fail> {
    let bytes = source.as_bytes();
    assert!(rt; bytes.len() <= 100_000);
    Ok(assemble(rt.alloc(), bytes)?)
}

/// A layout that is read from its text.
pub fn layout<R: Abort + AllocGlobal>(rt: &R, text: &str) -> Result<Layout, Fail> {
    let bytes = text.as_bytes();
    assert!(rt; bytes.len() <= 1000);
    Ok(Layout::read(rt.alloc(), bytes)?)
}

/// The image of sources, linked by a layout.
pub fn linked<R: Abort + AllocGlobal>(
    rt: &R,
    sources: &[&str],
    layout: &Layout,
) -> Result<Image, Fail> {
    let alloc = rt.alloc();
    let mut objects = Vec::new(alloc);
    for source in sources {
        objects.push(object(rt, *source)?)?;
    }
    assert!(rt; objects.len() < 1000);
    Ok(link(alloc, objects.as_slice(), layout)?)
}

/// The image of a program.
pub fn image<R: Abort + AllocGlobal>(rt: &R, program: &Program) -> Result<Image, Fail> {
    let layout = layout(rt, program.layout)?;
    linked(rt, &[program.source], &layout)
}
