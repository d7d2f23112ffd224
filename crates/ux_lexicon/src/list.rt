//! A dictionary of entries that were read.

use crate::lexicon::Lexicon;
use crate::reached::Reached;
use std::alloc::Global;
use ux_alphabet::Alphabet;
use ux_base::Mem;
use ux_dela::Entry;
use ux_dict::ListLexicon;

impl Lexicon for ListLexicon {
    ghost content = { λ lexicon. lexicon };

    /// Where the empty text leads: to all entries.
    fn begin(&self, alloc: Global) -> Mem<Reached<'_>> {
        Ok(Reached::List(ListLexicon::begin(self, alloc)?))
    }

    /// The entries whose form fits the text. Takes a copy of each, and a few binary searches for
    /// each character and each way to write the text with lower-case letters.
    fn fitting(&self, alloc: Global, text: &str, alphabet: &Alphabet) -> Mem<Vec<Entry>> {
        ListLexicon::fitting(self, alloc, text, alphabet)
    }

    /// Whether some form begins with characters that fit the text. Takes a few binary searches for
    /// each character and each way to write the text with lower-case letters.
    fn may_begin(&self, alloc: Global, text: &str, alphabet: &Alphabet) -> Mem<bool> {
        ListLexicon::may_begin(self, alloc, text, alphabet)
    }

    /// The number of entries of exactly this form. Takes two binary searches.
    fn exact(&self, form: &str) -> Option<usize> {
        ListLexicon::exact(self, form)
    }

    /// The length in characters of the longest form. Is kept.
    fn longest(&self) -> usize {
        ListLexicon::longest(self)
    }

    /// The number of entries. Is kept.
    fn count(&self) -> usize {
        ListLexicon::count(self)
    }
}
