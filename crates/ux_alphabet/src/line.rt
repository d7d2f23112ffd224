//! One line of an alphabet file.

/// What a line says of its characters.
#[derive(Clone, Copy)]
pub enum Line {
    /// `x`: a letter that is both upper-case and lower-case.
    Single(char),
    /// `Xy`: two letters, of which the first is an upper-case form of the second.
    Pair(char, char),
    /// `#XY`: each character from the first to the last is a letter, both upper-case and
    /// lower-case.
    Range(char, char),
}
