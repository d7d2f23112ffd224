//! The command `elag`: the automata of sentences, after rules.
//!
//! The names of a file of sentence automata and of rules go in, and the automata come out with
//! exactly the reading lists that satisfy every rule, or the stop that names the first file that
//! isn't accepted. What is read and what answers it is the command `elag` of `specs/Elag.antt`; what
//! a rule says is in `ux_rules`, what stays of a sentence in `ux_elag`, and how readings are numbered
//! in `ux_reading_table`. Begin with `ruling`; `files` reads the automata and the rules.
//!
//! ```text
//! text --NumberedText::of--> table, sentences      table --PreparedRules::of, with the rules--> prepared
//! sentence --prepared.apply--> left --print_numbered--> answer
//!
//! let automata = elag(alloc, "text.tfst", &rules, folder)?;      // #TFST 1, S 1 3 2, ..
//! ```
#![tactic(auto)]

mod files;
pub mod ruling;

pub use ruling::elag;
