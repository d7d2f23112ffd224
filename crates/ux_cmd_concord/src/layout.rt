//! How a concordance is laid out.

use ux_base::Sort;

/// The columns on both sides of a hit, and the order of the lines.
#[derive(Clone, Copy)]
pub struct Layout {
    /// How many columns what stands before a hit has.
    pub left: u32,
    /// How many columns what stands behind it has at most.
    pub right: u32,
    /// By what the lines are sorted.
    pub sort: Sort,
}
