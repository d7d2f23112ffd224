//! Where a sentence stands in a text.

/// The tokens of a sentence. Positions count tokens, from 0.
#[derive(Clone, Copy, Debug, PartialEq, Eq)]
pub struct Run {
    /// The first token.
    pub first: usize,
    /// The position after the last token.
    pub end: usize,
}
