//! The spans that the masks of a net accept in a text, each mask tried once.
//!
//! A net, its masks and a text with its entries go in; a text with a table of its masks comes out (`MaskedText`),
//! which tells the ends of each mask's spans from each place and takes no step more.
//!
//! ```text
//! net_masks: the masks of a net      spans: what they accept, in flat lists
//!         \                           /
//!          rows: each mask is tried once at a place
//!                      |
//!          mask_table: one row for equal tokens
//!                      |
//!          masked_text: a text with its table
//! ```
//!
//! Where no span of several tokens begins, equal tokens have equal entries, and what a mask accepts there
//! is told by the token. So masks are tried once for each different token, and besides at each place at
//! which a compound entry or a digit begins.
//!
//! Begin with `masked_text`, and with `specs/MaskTables.antt`.
//!
//! ```text
//! let masks = NetMasks::of(alloc, &net)?;
//! let masked = MaskedText::of(alloc, &net, &masks, &text, &alphabet, &applied, &mut steps)?;
//! let ends = masked.mask_ends(alloc, mask, place)?;
//! ```
#![tactic(auto)]

pub mod alone;
pub mod mask_table;
pub mod masked_text;
pub mod net_masks;
pub mod rows;
pub mod spans;

pub use mask_table::MaskTable;
pub use masked_text::MaskedText;
pub use net_masks::NetMasks;
