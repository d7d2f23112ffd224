//! The automaton of a sentence: its states, and the readings on its links.

use ux_base::{Lst, Txt};
use ux_dela::Entry;

/// What one link of a sentence says: an entry, or a text that has none.
#[derive(Drop)]
pub enum Reading {
    /// An entry of a dictionary, or of a tag.
    Word(Entry),
    /// A text without an entry.
    Raw(Txt),
}

/// A link of a sentence, with its reading.
#[derive(Drop)]
pub struct Link {
    /// The state that it leaves.
    pub from: u64,
    /// The state to which it leads.
    pub to: u64,
    /// What is read on it.
    pub reading: Reading,
}

/// The automaton of a sentence. State 0 is the first, the greatest the last. With no states it has
/// no path.
#[derive(Drop)]
pub struct Sentence {
    /// Its number in the text, from 1.
    pub number: u32,
    /// The number of its states.
    pub states: u64,
    /// Its links.
    pub links: Lst<Link>,
}
