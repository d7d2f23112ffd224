//! The kinds of tokens.

/// What a token is. The manual, on tokenising.
#[derive(Clone, Copy, Debug, PartialEq, Eq)]
pub enum Kind {
    /// A longest run of letters, or one letter where the alphabet is single.
    Word,
    /// One space, in place of a run of white space.
    Space,
    /// One other character.
    Other,
    /// The mark of a sentence's end, `{S}`.
    Sentence,
    /// The mark `{STOP}`, which nothing matches.
    Stop,
    /// An entry in braces.
    Tag,
}
