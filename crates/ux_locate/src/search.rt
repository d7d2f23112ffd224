//! What is searched, what becomes of outputs, and which hits are kept.

use ux_base::{Mode, NoVar, Policy};
use ux_mask_table::MaskedText;

/// A text with what the masks of a grammar accept in it, how hits are rendered, and which are kept.
#[derive(Drop)]
pub struct Search<'a> {
    /// The text, the grammar and its masks.
    pub masked: &'a MaskedText<'a>,
    /// What becomes of outputs.
    pub mode: Mode,
    /// What an output does that names a variable without a value.
    pub novar: NoVar,
    /// Which hits are kept.
    pub policy: Policy,
}
