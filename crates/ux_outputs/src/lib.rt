//! What a derivation tells, and the hit that it gives.
//!
//! A walk through a grammar gives lists of events; `specs/Rendering.antt` says which hit such a list
//! renders. Positions stand before tokens, and are counted from 0.
#![tactic(auto)]

mod answering;
mod event;
mod hit;
mod known;
mod names;
mod rendered;
mod rendering;
mod span;
mod table;
mod taking;
mod variables;

pub use event::Event;
pub use hit::Hit;
pub use rendered::render;
pub use span::Span;
