//! The morphological mode: a grammar matched inside one word, letter by letter.
//!
//! The letters of a token are the tokens of a text, to which dictionaries are applied as to any other:
//! so their entries stand for parts of the token. What the main graph puts out for all letters stands
//! behind the token as a line of a dictionary. `analyse` gives the entries of these lines, or says that
//! one of them isn't a line of one entry. `specs/Analyses.antt` has the definitions.
//!
//! ```text
//! analyser: what is made of a grammar once
//!   |
//! analysing: a token in, the lines of its entries out
//!   |     \
//!   |      outputs: what the main graph puts out for all letters
//!   |
//!   lines: an output behind the token, as the line of its entry
//! ```
//!
//! A chart of the letters tells first whether the main graph takes them all, so a token that it doesn't
//! take costs no more than the chart, whatever the graph puts out for its beginning. What is made of the
//! net is made once, so a token costs nothing for the net by itself.
//!
//! ```text
//! let analyser = Analyser::of(alloc, &net, &alphabet, &letters)?;
//! let lines = analyser.analyse(alloc, "unhappy", &dics)?;      // unhappy,happy.A+neg
//! ```
#![tactic(auto)]

mod analyser;
mod analysing;
mod lines;
mod outputs;
mod sorting;

pub use analyser::Analyser;
pub use analysing::has_few_letters;
pub use sorting::sort_once;
