// Cuts a block of bytes out of ranges.
ghost use Rattle.std.specs.Prelude.{◌≡◌, ◌≤◌, ◌<◌, ◌+◌, ◌^◌, ◌++◌, length, All};
ghost use Rattle.tcd_plan.specs.Cutting.{ranges_outside, range_outside, range_between};

use arrayvec::ArrayVec;
use tcd_base::Range;

/// Cuts the `n` bytes from address `x` on out of ranges. Returns what is left below and above, at
/// most two parts of each range.
pub fn ranges_outside(ranges: &[Range], x: u32, n: u32) -> ArrayVec<Range, 32>
    requires few { length ranges.now ≤ 16 }
    requires fit { All (λ r. r.at + r.len ≤ 2 ^ 32) ranges.now }
    ensures { result.items ≡ ranges_outside x n ranges.now }
{
    let mut parts = ArrayVec::new();
    for r in ranges {
        push_range_outside(&mut parts, r, x, n);
    }
    parts
}

/// Appends to `ranges` the parts of the range `r` below and above the `n` bytes from `x` on, at
/// most two.
fn push_range_outside(ranges: &mut ArrayVec<Range, 32>, r: &Range, x: u32, n: u32)
    requires room { length ranges.old.items ≤ 30 }
    requires fits { r.now.at + r.now.len ≤ 2 ^ 32 }
    ensures ranges { ranges.new.items ≡ ranges.old.items ++ range_outside x n r.now }
    ensures few { length ranges.new.items ≤ length ranges.old.items + 2 }
{
    let start = u64::from(r.at);
    let end = start + u64::from(r.len);
    let block = u64::from(x);
    push_range_between(ranges, start, block.min(end));
    push_range_between(ranges, (block + u64::from(n)).max(start), end);
}

// Appends the range from address `from` up to, but not including, address `upto`, unless that range
// is empty.
fn push_range_between(ranges: &mut ArrayVec<Range, 32>, from: u64, upto: u64)
    requires room { length ranges.old.items < 32 }
    requires end { upto ≤ 2 ^ 32 }
    requires small { upto < from + 2 ^ 32 }
    ensures ranges { ranges.new.items ≡ ranges.old.items ++ range_between from upto }
    ensures few { length ranges.new.items ≤ length ranges.old.items + 1 }
{
    if from < upto {
        ranges.push(Range {
            at: from as u32,
            len: (upto - from) as u32,
        });
    }
}
