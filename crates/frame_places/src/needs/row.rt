// What a point asks of needs.
ghost use Rattle.std.specs.Prelude.{ℕ, ◌+◌, ◌<◌, ◌≤◌, ◌^◌, Contains, length, slice_index, min};
ghost use Rattle.frame_places.specs.RowNeeds.{MeetsRow};
ghost use Rattle.frame_places.specs.declared.needs.row.NeedRow.{NeedRow};

/// What the needs depend on at a point. Frames go by their numbers.
#[derive(Debug, Drop)]
pub struct NeedRow {
    /// The frame of the point.
    pub node: usize,
    /// The areas of its locals.
    pub held: u8,
    /// The frames that it enters.
    pub into: Vec<usize>,
}

/// Returns how many areas a point demands of its frame, at most `cap + 1`. These are its saved
/// lower contexts, plus 1 and the greatest need if the point enters frames.
pub(crate) fn need_by_row(needs: &[u32], row: &NeedRow, cap: u32) -> u32
    requires cap { cap < 2 ^ 16 }
    requires held { row.now.held < 2 ^ 8 }
    requires low { (k : ℕ) → slice_index needs.now k ≤ cap + 1 }
    requires nodes { length needs.now < 2 ^ 16 }
    requires into { (t : ℕ) → Contains row.now.into.items t → t < length needs.now }
    ensures held { min row.now.held (cap + 1) ≤ result }
    ensures into { (t : ℕ) → Contains row.now.into.items t
        → min (row.now.held + 1 + slice_index needs.now t) (cap + 1) ≤ result }
    ensures least { (other : ℕ → ℕ) → MeetsRow other row.now
        → ((t : ℕ) → t < length needs.now → slice_index needs.now t ≤ other t)
        → result ≤ other row.now.node }
    ensures capped { result ≤ cap + 1 }
{
    let mut need = u32::from(row.held);
    for t in &row.into {
        let asked = u32::from(row.held) + 1 + needs[*t];
        need = need.max(asked);
    }
    need.min(cap + 1)
}
