//! Sentences whose readings are told by numbers.

/// A link of a sentence, its reading told by its number.
#[derive(Clone, Copy)]
pub struct NumberedLink {
    /// The state that it leaves.
    pub from: u64,
    /// The state to which it leads.
    pub to: u64,
    /// The number of its reading, which is the place of its printed text in a table.
    pub reading: u32,
}

/// A sentence in these numbers. With no states it has no path.
#[derive(Drop)]
pub struct NumberedSentence {
    /// Its number in the text, from 1.
    pub number: u32,
    /// The number of its states.
    pub states: u64,
    /// Its links.
    pub links: Vec<NumberedLink>,
}
