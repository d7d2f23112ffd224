//! Events as a few numbers, small and copied freely.
//!
//! In place of a text an event has its place in a table (`texts`), where each stands once. So equal
//! events are equal numbers, whichever edges give them.

/// An event, with the place of its text.
#[derive(Clone, Copy, PartialEq, Eq, Hash)]
pub enum Noted {
    /// The tokens from one position to another are taken.
    Take {
        /// The position before the first.
        from: usize,
        /// The position after the last.
        to: usize,
    },
    /// A text is put out.
    Put(usize),
    /// The value of a variable is put out, or it is tested.
    Value(usize),
    /// A variable begins.
    Begin(usize),
    /// A variable ends.
    End(usize),
    /// What stands on the left is cut off.
    Cut,
}
