//! How a token is kept beside the text that it is a slice of.

use crate::kind::Kind;

/// A token, by where it ends in the text. It begins where the one before it ends.
#[derive(Clone, Copy)]
pub struct Piece {
    /// The place after the token, in bytes.
    pub end: usize,
    /// The token's number.
    pub number: u32,
    /// The token's kind.
    pub kind: Kind,
}
