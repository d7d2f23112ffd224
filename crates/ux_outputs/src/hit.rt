//! Hits.

use ux_base::Txt;

/// A place of a text, and what is shown for it.
#[derive(PartialEq, Eq, PartialOrd, Ord, Drop)]
pub struct Hit {
    /// The first token taken that is no space.
    pub first: u32,
    /// The last token taken.
    pub last: u32,
    /// The tokens taken, or what the grammar puts in their place.
    pub text: Txt,
}
