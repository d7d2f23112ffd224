//! A table of what the parts of a grammar reach from each position of an input.
//!
//! `Chart::fill` searches each part at each position once, from the last position back, and at one
//! position in the order of the parts (`ux_parts`). So a search asks of others only answers that
//! are finished: behind a token all are, and with nothing taken those of the parts before. That
//! holds for calls and for contexts of both signs alike, and nothing here calls itself.
//!
//! ```text
//! Basis: what labels take, which parts are likely      Net, PreparedNet
//!         \                                             /        \
//!          following: one edge --> reaching: a whole search       closing_states: where closers are
//!                                                   |            /
//!                                           gathering: ends and closers
//!                                                        |
//!                          filling: part by part, position by position --> Chart: ends, closers
//! ```
//!
//! An *end* of a part is a position at which a final state is reached, a *closer* the target of an
//! edge that closes a context. One search gives both. Most searches are small: their lists are kept
//! from one to the next, and what one has seen is hashed only where it is much (`seen`). The answers
//! stand in flat lists (`table`): a part that reaches nothing has none, and a position without
//! answers takes a stretch of two numbers, however many parts there are. Positions that the input
//! tells to be alike, as those before and behind a space, share a row (`sharing`): nothing is
//! searched for the earlier one.
//!
//! What a chart asks of the net alone (`prepared`) is made once for all charts of that net. Nothing
//! here knows of tokens: what is matched is a `Basis`. It also tells which parts are worth
//! a search at a position. Begin with `filling`, and with `specs/Rows.antt`, which says what a chart
//! tells.
#![tactic(auto)]

pub mod basis;
pub mod chart;
pub mod closing_states;
pub mod config;
pub mod filling;
pub mod following;
pub mod gathering;
pub mod ordering;
pub mod prepared;
pub mod reaching;
pub mod seen;
pub mod sharing;
pub mod table;

pub use basis::Basis;
pub use chart::Chart;
pub use prepared::PreparedNet;
