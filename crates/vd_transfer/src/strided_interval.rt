// The sets that the rows of the table of operations cover: multiples of a power of two in a range.
ghost use Rattle.std.specs.Prelude.{◌≡◌, ◌<◌, ◌≤◌, ◌||◌, min, max};
ghost use Rattle.vd_transfer.specs.Intervals.{sum_interval, difference_interval, logical_shift_interval, arithmetic_shift_interval, result_interval};

use tc_isa::Op;
use value_domain::{Extent, Val};

/// The number of words.
const WORDS: u64 = 1 << 32;

/// The multiples of 2^`step` in `first..=last`.
#[derive(Clone, Copy)]
pub struct StridedInterval {
    pub first: u32,
    pub last: u32,
    pub step: u8,
}

const ANY: StridedInterval = StridedInterval {
    first: 0,
    last: u32::MAX,
    step: 0,
};

/// Returns the strided interval that covers an operation's results, by its operands' extents
/// (least, greatest, step) `e` and `f`. Shifts take their count from the right operand `w`.
#[tactic(auto, unfolding(crate::specs::Intervals::result_interval))]
pub(crate) fn result_interval(op: Op, e: &Extent, f: &Extent, w: &Val) -> StridedInterval
    requires left { e.now.least ≤ e.now.greatest }
    requires right { f.now.least ≤ f.now.greatest }
    ensures { result ≡ result_interval op e.now f.now w.now }
{
    match op {
        Op::Add => sum_interval(e, f),
        Op::Sub => difference_interval(e, f),
        Op::And => StridedInterval {
            first: 0,
            last: e.greatest.min(f.greatest),
            step: e.step.max(f.step),
        },
        Op::Sh => match w.words() {
            Some([count]) => logical_shift_interval(e, (*count % 64) as u8),
            _ => ANY,
        },
        Op::Sha => match w.words() {
            Some([count]) => arithmetic_shift_interval(e, (*count % 64) as u8),
            _ => ANY,
        },
        _ => ANY,
    }
}

/// Returns the strided interval of all sums of two extents of abstract values, modulo 2^32.
#[tactic(auto, unfolding(crate::specs::Intervals::sum_interval))]
fn sum_interval(e: &Extent, f: &Extent) -> StridedInterval
    requires left { e.now.least ≤ e.now.greatest }
    requires right { f.now.least ≤ f.now.greatest }
    ensures { result ≡ sum_interval e.now.least e.now.greatest f.now.least f.now.greatest
        (min e.now.step f.now.step) }
{
    let first = u64::from(e.least) + u64::from(f.least);
    let last = u64::from(e.greatest) + u64::from(f.greatest);
    let step = e.step.min(f.step);
    if last < WORDS {
        StridedInterval {
            first: first as u32,
            last: last as u32,
            step,
        }
    } else if WORDS <= first {
        StridedInterval {
            first: (first - WORDS) as u32,
            last: (last - WORDS) as u32,
            step,
        }
    } else {
        StridedInterval {
            first: 0,
            last: u32::MAX,
            step,
        }
    }
}

/// Returns the strided interval of all differences of two extents of abstract values, modulo 2^32.
#[tactic(auto, unfolding(crate::specs::Intervals::difference_interval))]
fn difference_interval(e: &Extent, f: &Extent) -> StridedInterval
    requires left { e.now.least ≤ e.now.greatest }
    requires right { f.now.least ≤ f.now.greatest }
    ensures { result
        ≡ difference_interval e.now.least e.now.greatest f.now.least f.now.greatest
        (min e.now.step f.now.step) }
{
    let step = e.step.min(f.step);
    if f.greatest <= e.least {
        StridedInterval {
            first: e.least - f.greatest,
            last: e.greatest - f.least,
            step,
        }
    } else if e.greatest < f.least {
        let first = u64::from(e.least) + WORDS - u64::from(f.greatest);
        let last = u64::from(e.greatest) + WORDS - u64::from(f.least);
        StridedInterval {
            first: first as u32,
            last: last as u32,
            step,
        }
    } else {
        StridedInterval {
            first: 0,
            last: u32::MAX,
            step,
        }
    }
}

/// Returns the strided interval that covers words of extent `e` shifted by SH: left by `n` if below
/// 32, else right by 64 - `n`.
#[tactic(auto, unfolding(crate::specs::Intervals::logical_shift_interval))]
fn logical_shift_interval(e: &Extent, n: u8) -> StridedInterval
    requires count { n < 64 }
    requires order { e.now.least ≤ e.now.greatest }
    ensures { result ≡ logical_shift_interval e.now.least e.now.greatest e.now.step n }
{
    if n < 32 {
        let first = u64::from(e.least) << n;
        let last = u64::from(e.greatest) << n;
        let step = (u16::from(e.step) + u16::from(n)).min(2) as u8;
        if last < WORDS {
            StridedInterval {
                first: first as u32,
                last: last as u32,
                step,
            }
        } else {
            StridedInterval {
                first: 0,
                last: u32::MAX,
                step,
            }
        }
    } else {
        let by = 64 - n;
        StridedInterval {
            first: (u64::from(e.least) >> by) as u32,
            last: (u64::from(e.greatest) >> by) as u32,
            step: 0,
        }
    }
}

/// Returns the strided interval that covers words of extent `e` shifted by SHA, which fills with
/// the sign bit. `n` is the count's six bits.
#[tactic(auto, unfolding(crate::specs::Intervals::arithmetic_shift_interval))]
fn arithmetic_shift_interval(e: &Extent, n: u8) -> StridedInterval
    requires count { n < 64 }
    requires order { e.now.least ≤ e.now.greatest }
    ensures { result ≡ arithmetic_shift_interval e.now.least e.now.greatest e.now.step n }
{
    if n < 32 || e.greatest < 0x8000_0000 {
        logical_shift_interval(e, n)
    } else {
        ANY
    }
}
