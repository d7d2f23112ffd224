//! Rules applied to the automata of sentences. The manual, on ELAG.
//!
//! A sentence goes in, and a sentence comes out that spells exactly those of its reading lists that
//! satisfy the rules, each by one path. All work is done on numbers: a reading is its place among
//! different readings. Texts are compared at the end alone, to put the links that lead from one
//! state to one other in the order in which they are printed.
//!
//! ```text
//! sentence --number--> readings, numbered sentence     (or read so from a file, beside a table)
//! numbered sentence --place_states--> links between places --keep_satisfying_each, or rule by rule
//! where that takes too many steps--> links that are left --in_text_order--> numbered sentence
//! --name--> sentence
//! ```
//!
//! The automaton that comes out is determinised from its end (Brzozowski's construction without its
//! last half): no two of its states go on alike, and no two but the last come alike.
//! `specs/Left.antt` says it whole. For the sentences of one file begin with `PreparedRules`, which
//! looks once at each of the file's different readings; for one sentence with `apply`.
//!
//! ```text
//! let rules = vec![in alloc; ReadyRule::of(alloc, Rule::of(alloc, &graph)?)?];
//! let mut prepared = PreparedRules::of(alloc, rules, &table)?;
//! let left = prepared.apply(alloc, &sentence)?;
//! ```
#![tactic(auto)]

pub mod applying;
mod codes_alone;
mod keeping;
mod naming;
mod numbering;
mod passing;
mod placing;
pub mod prepared;
mod prepared_rule;
mod ranks;
pub mod ready;
mod text_order;

pub use applying::{apply, has_path};
pub use prepared::PreparedRules;
pub use ready::ReadyRule;
