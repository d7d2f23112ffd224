//! The contexts of a net and the calls that lead to an end, as a chart of a text tells them to a walk.
//!
//! A chart and a walk know nothing of each other. `ChartContexts` answers what a walk asks
//! (`Contexts` of `ux_walk`) by what a chart has (`TextChart` of `ux_text_chart`); that this is what is
//! meant stands in `proofs/ToldLemmas.antt`. Begin with `contexts`.
//!
//! ```text
//! let chart = TextChart::fill(alloc, &masked, &tables)?;
//! let found = walk(alloc, &masked, &ChartContexts::of(&chart), 0)?;
//! ```
#![tactic(auto)]

pub mod contexts;

pub use contexts::{ChartContexts, derives_some};
