// Errors of a text of cells.

/// Why a text has no cells of a plan: the error of the first bad line, with the line's number from
/// 1. The errors are tried in this order.
#[derive(Clone, Copy, Debug, PartialEq, Eq)]
pub enum CellsErr {
    /// The line has another form, its address isn't a multiple of 4, or `hi` is below `lo`.
    BadLine(u32),
    /// Its word isn't inside one range of ram.
    NotRam(u32),
    /// An earlier line names the same word.
    Twice(u32),
    /// With it more than 16 ranges of ram are left, or there are more than 16 peripherals.
    TooMany(u32),
}
