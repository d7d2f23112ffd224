//! Where a grammar is found.

/// A stretch of a sentence's automaton that the main graph derives.
#[derive(Clone, Copy)]
pub struct Span {
    /// The number of the sentence.
    pub sentence: u32,
    /// The state from which the stretch leads.
    pub from: u64,
    /// The state to which it leads.
    pub to: u64,
}
