//! Worked values on the board, and each call once.
use crate::asserts::{is_so, same};
use crate::boards::board;
use crate::states::{open, with};
use std::test::Fail;
use value_domain::{
    Bounds, Val, Words, cover, cover_words, covers, is_value, join, join_states, leq, member,
};

fn is_span(v: &Val, span: (u32, u32, u8)) -> bool {
    match v {
        Val::Set(_) => false,
        Val::Span { lo, last, step } => (*lo, *last, *step) == span,
    }
}

#[test]
fn covers_of_sets(rt: HostRuntime) -> Result<(), Fail> {
    let b = Bounds::of(&board(&rt, &[])?, 1);
    let set = cover_words(&b, &[5, 3, 5]);
    is_so(&rt, set.words().ok_or("a span")? == [3, 5].as_slice());
    let mut words = [0u32; 65];
    for i in 0..65usize {
        words[i] = i as u32;
    }
    is_so(&rt, is_span(&cover_words(&b, &words), (0, 127, 0)));
    is_so(&rt, is_span(&cover(&b, 0, 400, 2), (0, 511, 2)));
    let few = cover(&b, 1, 200, 2);
    let few = few.words().ok_or("a span")?;
    assert!(rt; few.len() == 50);
    same(&rt, &few[0], &4);
    same(&rt, &few[49], &200);

    // The end of ram is a threshold of this board; 0xD0009000 isn't one of the powers of two.
    is_so(
        &rt,
        is_span(
            &cover(&b, 0xD000_8800, 0xD000_8900, 0),
            (0xD000_8000, 0xD000_8FFF, 0),
        ),
    );
    Ok(())
}

#[test]
fn values_in_order(rt: HostRuntime) -> Result<(), Fail> {
    let b = Bounds::of(&board(&rt, &[])?, 1);
    is_so(&rt, Words::of(&[1, 1]).is_none());
    is_so(&rt, Words::of(&[]).is_none());
    let seven = Val::one(7);
    let eight = Val::Set(Words::of(&[8]).ok_or("no words")?);
    assert!(&rt; is_value(&b, &seven));
    assert!(&rt; is_value(&b, &eight));
    let both = join(&b, &seven, &eight);
    is_so(&rt, member(8, &both));
    is_so(&rt, leq(&seven, &both));
    is_so(&rt, !leq(&both, &seven.copy()));
    let any = Val::any();
    assert!(&rt; is_value(&b, &any));
    is_so(&rt, is_span(&join(&b, &any, &both), (0, u32::MAX, 0)));
    is_so(
        &rt,
        !is_value(
            &b,
            &Val::Span {
                lo: 0,
                last: 126,
                step: 0,
            },
        ),
    );
    Ok(())
}

#[test]
fn states_in_order(rt: HostRuntime) -> Result<(), Fail> {
    let b = Bounds::of(&board(&rt, &[])?, 1);
    let seven = with(&b, open(&b), 0, &[7]);
    let unknown = open(&b);
    is_so(&rt, covers(&unknown, &seven));
    is_so(&rt, !covers(&seven, &unknown));
    let eight = with(&b, open(&b), 0, &[8]);
    let joined = join_states(&b, &seven, &eight).ok_or("no state")?;
    is_so(
        &rt,
        joined.regs[0].words().ok_or("a span")? == [7, 8].as_slice(),
    );
    Ok(())
}
