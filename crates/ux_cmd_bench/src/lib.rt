//! The command `bench`: a search in a text that is made up.
//!
//! A number of words goes in, and four lines come out: how many words and tokens were searched, how many
//! hits there are, and the length of the longest. No file is read, and nothing that is made up is
//! refused. `specs/MadeText.antt` says which words are drawn, `specs/Bench.antt` what else is made up
//! and what answers the command. Begin with `benching`: `made_text` draws the words, `phrases` reads
//! the letters, the dictionary and the graphs, and `summary` searches and counts.
//!
//! ```text
//! let lines = bench(alloc, 5)?;      // words 5, tokens 9, hits 1, longest 3
//! ```
#![tactic(auto)]

mod benching;
mod made_text;
mod phrases;
mod summary;

pub use benching::bench;
