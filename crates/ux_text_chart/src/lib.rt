//! A chart over a text: what the parts of a net reach from each position of it.
//!
//! ```text
//! leading: where each label leads      part_index: parts by their first tokens
//!          |              \             /          state_indexes: edges by the token at a position
//!          |               \           /          /
//!          |                \      net_tables: what is looked up of a net
//!          |                 \        |
//!          |                  beginning: parts worth a search at a position
//!           \                   /
//!            text_basis: a text as an input of charts
//!                        |
//!             text_chart: ends of graphs, closers of contexts, ends of masks
//! ```
//!
//! A text comes in with what the masks of the net accept in it (`ux_mask_table`), so no mask is tried
//! here. What is looked up of the net is made once, for one text or for any number of them. A part is searched at a position only where a label of its first state leads on there, or that
//! state is final or has many literals.
//!
//! Begin with `text_chart`, and with `specs/TextCharts.antt`.
//!
//! ```text
//! let tables = NetTables::of(alloc, &net, &text, &alphabet)?;
//! let chart = TextChart::fill(alloc, &masked, &tables)?;
//! let ends = chart.ends(1, at);
//! ```
#![tactic(auto)]

pub mod beginning;
pub mod leading;
pub mod net_tables;
pub mod part_index;
pub mod state_indexes;
pub mod text_basis;
pub mod text_chart;

pub use net_tables::NetTables;
pub use text_basis::TextBasis;
pub use text_chart::TextChart;
