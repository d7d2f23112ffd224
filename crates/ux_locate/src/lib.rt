//! The hits of a grammar in a text that a policy keeps, each once and by place, and their index.
//!
//! In go a net and a text with the entries that apply to it, and out come hits: `specs/Hits.antt` says
//! what a hit is, and `specs/Index.antt` how hits are listed and written. Positions are counted in
//! tokens, from 0.
//!
//! A policy keeps all hits, or of those with the same first token the longest or the shortest, one after
//! the other through the text (`specs/Policies.antt`). `keep` does that with any hits.
//!
//! `locate` renders the derivations from each start at which one ends (`from_start`). A net without cuts
//! it searches from start to start (`by_start`); behind a cut a hit begins after its start, so all hits
//! of a net with cuts are listed before some are kept (`by_chart`). Where outputs are ignored
//! `locate_spans` lists the hits of a net without cuts by their first and last token (`spans`), and
//! `span_index` takes their texts from the corpus as it writes: a text of millions of hits needs no copy
//! of each. Where derivations end is told by walks, or by a chart of the text where the net has contexts
//! or its calls stand for too many states for walks (`ends`, `expanding`).
//!
//! ```text
//! let (mode, novar, policy) = (Mode::Merge, NoVar::Nothing, Policy::Longest);
//! let hits = locate(alloc, &net, &text, &alphabet, &applied, mode, novar, policy, steps)?;
//! let index = index_text(alloc, mode, hits.as_slice())?;
//! ```
#![tactic(auto)]

mod best;
mod by_chart;
mod by_start;
mod ends;
mod expanding;
mod from_start;
mod index;
mod keeping;
mod locating;
mod search;
mod sorting;
mod spans;
mod walks;

pub use index::{index_text, span_index};
pub use keeping::keep;
pub use locating::locate;
pub use spans::locate_spans;
