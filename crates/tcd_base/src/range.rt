// Ranges of addresses: their end, and the tests for what is inside.
ghost use Rattle.std.specs.Prelude.{◌≡◌};
ghost use Rattle.std.specs.List.{list_any};
ghost use Rattle.tcd_base.specs.Ranges.{range_end, is_within_range};

/// The range of `len` bytes from the address `at` on.
#[derive(Clone, Copy, Debug, Default, PartialEq, Eq)]
pub struct Range {
    pub at: u32,
    pub len: u32,
}

impl Range {
    /// Returns the first address after the range.
    pub fn end(&self) -> u64
        ensures { result ≡ range_end self.now }
    {
        u64::from(self.at) + u64::from(self.len)
    }

    /// Returns true if the `n` addresses from `addr` on are inside the range. The sums are of 64
    /// bits, so no range wraps.
    pub fn holds(&self, addr: u32, n: u32) -> bool
        ensures { result ≡ is_within_range addr n self.now }
    {
        self.at <= addr && u64::from(addr) + u64::from(n) <= self.end()
    }
}

/// Returns true if the `n` addresses from `addr` on are inside one of the ranges.
pub fn is_in_one_range(ranges: &[Range], addr: u32, n: u32) -> bool
    ensures { result ≡ list_any (is_within_range addr n) ranges.now }
{
    ranges.iter().any(|range| range.holds(addr, n))
}
