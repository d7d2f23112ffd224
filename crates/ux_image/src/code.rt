//! The code of an entry, and the codes of a form.
//!
//! Many entries have one code, and many forms one list of codes: a code says how the lemma is made
//! of the form, and not what it is.

use ux_base::Txt;
use ux_dawg::Items;

/// How a piece of a lemma is made of the piece of a form.
#[derive(Debug, Drop, PartialEq, Eq, Hash)]
pub struct Pair {
    /// How many characters are taken off the end.
    pub taken: u32,
    /// What is added there.
    pub added: Txt,
}

/// The code of an entry.
#[derive(Debug, Drop, PartialEq, Eq, Hash)]
pub struct Code {
    /// How the lemma is made of the form: a pair for each piece, or one pair for the whole.
    pub pairs: Items<Pair>,
    /// The grammatical, semantic and inflection codes, as they are printed.
    pub codes: Txt,
}

/// The codes of a form.
#[derive(Debug, Drop, PartialEq, Eq, Hash)]
pub struct CodeList {
    /// The codes, in the order of the form's lines.
    pub codes: Items<Code>,
}
