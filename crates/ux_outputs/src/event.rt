//! The events of a derivation.
//!
//! A walk gives them in the order of the text. Positions are counted in tokens; texts are names and
//! outputs of the grammar.

use ux_base::Txt;

/// What a derivation tells: tokens taken, outputs, and the places of variables.
#[derive(Clone, Debug, PartialEq, Eq, Hash, Drop)]
pub enum Event {
    /// The tokens from one position to another are taken, a space that was passed over among them.
    Take {
        /// The position before the first.
        from: usize,
        /// The position after the last.
        to: usize,
    },
    /// A text is put out.
    Put(Txt),
    /// The value of a variable is put out, or with `.SET` or `.UNSET` after the name, it is tested.
    Value(Txt),
    /// A variable begins. An output variable has a bar before its name.
    Begin(Txt),
    /// A variable ends, named in the same way.
    End(Txt),
    /// What stands to the left is no part of the hit.
    Cut,
}
