//! The tokens of a text.
//!
//! `Text::read` cuts a text into words, spaces, the marks `{S}` and `{STOP}`, tags and other
//! characters. A word is a longest run of letters, or one letter where the alphabet is single. Which
//! list of tokens a text has stands in `specs/Tokens.antt`, as a condition on the finished list.
//! `token_file_of` writes the different tokens without keeping that list.
#![tactic(auto)]

mod block;
mod classes;
pub mod cutting;
pub mod ends;
pub mod entries;
pub mod first;
mod front;
pub mod kind;
pub mod known;
pub mod listing;
mod marks;
pub mod numbering;
pub mod piece;
pub mod pieces;
pub mod printing;
pub mod spaces;
pub mod tags;
pub mod tails;
pub mod text;
pub mod text_error;

pub use cutting::MAX_TOKENS;
pub use first::first_token;
pub use kind::Kind;
pub use listing::token_file_of;
pub use printing::print_tokens;
pub use spaces::{into_single_spaced, single_spaced};
pub use text::Text;
pub use text_error::TextError;
