//! Codes of an image, read.

use ux_base::Lst;
use ux_dawg::Items;
use ux_dela::Codes;
use ux_image::Pair;

/// A code, with its printed codes read.
#[derive(Drop)]
pub struct ReadCode {
    /// How the lemma is made of the form.
    pub pairs: Items<Pair>,
    /// The grammatical, semantic and inflection codes.
    pub codes: Codes,
}

/// The codes of a form.
#[derive(Drop)]
pub struct ReadList {
    /// The codes, in order.
    pub codes: Lst<ReadCode>,
}
