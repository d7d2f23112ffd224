//! What is known of a variable, by the places where its texts stand.
//!
//! No text is copied when a variable begins or ends. A value of tokens is told by positions. What open
//! outputs collect is kept once for all of them, so a value of an output is told by bytes of that.

/// What is known of a variable.
#[derive(Clone, Copy)]
pub struct Known {
    /// The position that the last begin of an input noted.
    pub noted: Option<usize>,
    /// Where in the text collected begins what belongs to the open output.
    pub opened: Option<usize>,
    /// The value.
    pub value: Option<Place>,
}

/// Where the text of a value stands.
#[derive(Clone, Copy)]
pub enum Place {
    /// In the text, as tokens.
    Tokens {
        /// The position before the first.
        from: usize,
        /// The position after the last.
        to: usize,
    },
    /// In the text collected.
    Collected {
        /// The byte with which it begins.
        from: usize,
        /// The byte before which it ends.
        to: usize,
    },
}
