//! What is rendered so far, as a few numbers.
//!
//! Texts are lists of bytes, and what is known of the variables that count is a list too, one of each
//! name. Equal lists have equal numbers, so equal states are equal records.

ghost use Rattle.std.specs.Prelude.{◌≡◌};
ghost use Rattle.ux_folds.specs.Known.{NOTHING_KNOWN};

/// What is rendered so far.
#[derive(Clone, Copy, PartialEq, Eq, Hash)]
pub struct Kept {
    /// The position.
    pub position: usize,
    /// The number of the text.
    pub text: usize,
    /// The first token, once one was taken that is no space. The last one stands before the position.
    pub first: Option<usize>,
    /// The number of the list of what is known of variables, by the places of their names.
    pub variables: usize,
}

/// What is known of a variable. Texts are told by number.
#[derive(Clone, Copy, PartialEq, Eq, Hash)]
pub struct Known {
    /// The position that the last begin of an input noted.
    pub noted: Option<usize>,
    /// What the output that is open has collected.
    pub collected: Option<usize>,
    /// The value.
    pub value: Option<usize>,
}

/// Nothing is known of the variable.
pub fn nothing_known() -> Known
    ensures { result ≡ NOTHING_KNOWN }
{
    Known {
        noted: None,
        collected: None,
        value: None,
    }
}
