//! Walks through compiled grammars: what the main graph of a net derives over a text's tokens.
//!
//! `specs/Leads.antt` says where walks lead, step by step, and the law `leads_meant` that these
//! are the ends of derivations, where contexts apply as they are meant. `walk` lists derivations
//! with their events. A graph is entered from a position once, however many ways lead there: that
//! is a *visit*, and what it derives is shared by all that call it, as in generalised LL parsing
//! (Scott and Johnstone). So nothing here calls itself, and calls that multiply cost no more than
//! the visits that they make.
//!
//! In a visit the walk goes from configuration to configuration, from each once: over each edge of
//! its state. Over a call the configuration waits for the visit of the called graph, which begins
//! unless it has begun. Where the state is final a derivation of the visit is found. Behind each
//! derivation each configuration that waits for it goes on (`joining`), with the derivation's
//! events after its own. What waits for a visit and what was found of it stand in its groups
//! (`groups`), so that this takes as many steps as there are pairs. Over an edge the events of its
//! output come first, then what its label gives. Events are lists that share their tails, named by
//! numbers (`lists`), and an event's text is named by its place in a table (`texts`). So a
//! configuration is a few numbers, and equal ones fall together. A net has ranks that fall along
//! each edge that may take nothing, so the walk comes to an end.
//!
//! Begin with `walking`; `reached` goes one step on, and `matching` alone tells how a label
//! applies. Which contexts apply, and where the walk goes on behind them, it is told by its
//! `Contexts`; of a net without any these are `NoContexts`. Where a state has many edges,
//! `edge_index` tells those that may apply at a token, by its number, and no others are tried
//! there.
//!
//! ```text
//! let masked = MaskedText::of(alloc, &net, &masks, &text, &alphabet, &applied, steps)?;
//! let found = walk(alloc, &masked, &NoContexts, start)?;
//! ```
#![tactic(auto)]

pub mod config;
pub mod contexts;
pub mod edge_index;
mod groups;
mod joining;
pub mod lists;
mod literals;
pub mod look_ups;
pub mod matching;
mod noted;
mod reached;
pub mod sets;
mod texts;
mod walking;
pub mod words;

pub use contexts::{Contexts, NoContexts};
pub use walking::{walk, walk_through};
