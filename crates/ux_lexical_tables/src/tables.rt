//! The entries that dictionaries have for a text.
//!
//! Simple entries are kept once for each different token, and compound ones only for the tokens at
//! which some begin.

ghost use Rattle.std.specs.Prelude.{◌≡◌, ◌<◌, ◌+◌, ◌↔◌, ℕ, Contains, IfOk, IsSomeAnd, length, slice_get};
ghost use Rattle.std.specs.List.Sorted.{IsStrictlyIncreasing};
ghost use Rattle.ux_lexical_tables.specs.Accepting.{Accepts};
ghost use Rattle.ux_lexical_tables.specs.Belonging.{Belongs};
ghost use Rattle.ux_lexical_tables.specs.Digits.{IsDigitRun};
ghost use Rattle.ux_lexical_tables.specs.Kept.{tables_of};

use crate::digits::DigitRun;
use crate::ends::accepted;
use crate::rows::{Rows, Tagged, own_at, row_of_number};
use crate::words::Words;
use std::alloc::Global;
use std::marker::Model;
use std::sync::ledger::Ledger;
use ux_alphabet::Alphabet;
use ux_base::{Mem, Steps};
use ux_dela::Entry;
use ux_masks::Mask;
use ux_tokens::Text;

/// The entries that apply to a text. Contracts see it as the tables of them, with one row a token.
#[derive(Drop)]
pub struct LexicalTables {
    /// The number of each token that is a word.
    words: Words,
    /// The entries of each different token, by its number.
    entries: Vec<Vec<Entry>>,
    /// The own entries of tags, by place.
    tags: Tagged,
    compounds: Rows,
    unknown: Vec<u32>,
}

impl Model for LexicalTables {
    ghost use Rattle.ux_lexical_tables.specs.Tables.{Tables};
    ghost use Rattle.ux_lexical_tables.specs.Kept.{tables_of};

    ghost Value = { Tables };

    ghost view = { λ a. tables_of a.words a.entries.items a.tags a.compounds a.unknown.items };
}

impl LexicalTables {
    /// The tables of a text, by the number of each token that is a word, the entries of each number,
    /// the own entries of tags, the compound entries, and the numbers of the unknown words. Takes no
    /// memory.
    pub fn from_parts(
        words: Words,
        entries: Vec<Vec<Entry>>,
        tags: Tagged,
        compounds: Rows,
        unknown: Vec<u32>,
    ) -> LexicalTables
        ensures { result ≡ tables_of words entries.items tags compounds unknown.items }
    {
        LexicalTables {
            words,
            entries,
            tags,
            compounds,
            unknown,
        }
    }

    /// The simple entries of a token. Takes no memory.
    pub fn simple(&self, i: usize) -> &[Entry]
        requires { i < length self.now.simple }
        ensures { IsSomeAnd (slice_get self.now.simple i) (λ row. result.now ≡ row) }
    {
        match self.words.at(i) {
            Some(number) => row_of_number(&self.entries, number),
            None => own_at(&self.tags, i),
        }
    }

    /// The compound entries that begin at a token, each with its last token, in order of last
    /// token. Takes no memory.
    pub fn compounds(&self, i: usize) -> &[(usize, Entry)]
        requires { i < length self.now.compounds }
        ensures { IsSomeAnd (slice_get self.now.compounds i) (λ row. result.now ≡ row) }
    {
        match self.compounds.get(&i) {
            Some(row) => row.as_slice(),
            None => &[],
        }
    }

    /// The numbers of the words without a simple entry, each once and ascending. Takes no memory.
    pub fn unknown(&self) -> &[u32]
        ensures { result.now ≡ self.now.unknown }
    {
        self.unknown.as_slice()
    }

    /// The positions after the spans that the mask accepts from a token on, ascending. Takes one
    /// step, also where memory runs out, and time in the entries that begin at the token; for `<NB>`
    /// in the digits from there, unless `run` has them. The run of digits that was found last is kept
    /// there, so that a text whose tokens are asked in order is gone along once.
    pub fn ends<L: Ledger>(
        &self,
        alloc: Global,
        text: &Text,
        alphabet: &Alphabet,
        mask: &Mask,
        i: usize,
        run: &mut DigitRun,
        steps: &mut Steps<L>,
    ) -> Mem<Vec<usize>>
        requires belongs { Belongs alphabet.now text.now self.now }
        requires inside { i < length text.now }
        requires run { IsDigitRun text.now run.old }
        ensures run { IsDigitRun text.now run.new }
        ensures step { steps.new ≡ steps.old + 1 }
        ensures exactly { IfOk result (λ ends. (k : ℕ) → Contains ends.items k
            ↔ Accepts alphabet.now text.now self.now mask.now i k) }
        ensures ascending { IfOk result (λ ends. IsStrictlyIncreasing ends.items) }
    {
        steps.tick();
        accepted(alloc, self, text, alphabet, mask, i, run)
    }
}
