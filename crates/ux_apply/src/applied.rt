//! Dictionaries applied to a text.

ghost use Rattle.std.specs.Prelude.{IfOk};
ghost use Rattle.ux_lexical_tables.specs.Belonging.{Belongs};
ghost use Rattle.ux_apply.specs.Applying.{contents};
ghost use Rattle.ux_apply.specs.Applied.{AreApplied};

use crate::compounds::compounds;
use crate::numbered::{ask_each, first_places, word_numbers};
use crate::priority::Priority;
use crate::tagged::tagged;
use crate::unknown::unknown_numbers;
use std::alloc::Global;
use ux_alphabet::Alphabet;
use ux_base::Mem;
use ux_lexical_tables::LexicalTables;
use ux_lexicon::Lexicon;
use ux_tokens::Text;

/// The entries of the dictionaries that apply to the text, by the priorities of these.
pub fn apply<L: Lexicon>(
    alloc: Global,
    text: &Text,
    alphabet: &Alphabet,
    dics: &[(Priority, L)],
) -> Mem<LexicalTables>
    ensures applied { IfOk result
        (AreApplied alphabet.now (contents L.content dics.now) text.now) }
    ensures belongs { IfOk result (Belongs alphabet.now text.now) }
{
    let places = first_places(alloc, text)?;
    let asked = ask_each(alloc, text, &places, alphabet, dics)?;
    let compounds = compounds(alloc, text, &asked.starts, alphabet, dics)?;
    let words = word_numbers(alloc, text)?;
    let tags = tagged(alloc, text, alphabet)?;
    let unknown = unknown_numbers(alloc, &words, &asked.entries)?;
    Ok(LexicalTables::from_parts(words, asked.entries, tags, compounds, unknown))
}
