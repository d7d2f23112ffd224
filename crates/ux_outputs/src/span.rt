//! The tokens of a hit.

/// The first and the last token of what is rendered, by their numbers in the text.
#[derive(Clone, Copy, PartialEq, Eq, PartialOrd, Ord)]
pub struct Span {
    /// The first token taken that is no space.
    pub first: usize,
    /// The last token taken.
    pub last: usize,
}
