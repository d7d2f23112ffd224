//! A dictionary that stays the automaton of its image.

use crate::lexicon::Lexicon;
use crate::reached::Reached;
use std::alloc::Global;
use ux_alphabet::Alphabet;
use ux_base::Mem;
use ux_dela::Entry;
use ux_image_lexicon::ImageLexicon;

impl Lexicon for ImageLexicon {
    ghost content = { λ lexicon. lexicon };

    /// Where the empty text leads: to the first state.
    fn begin(&self, alloc: Global) -> Mem<Reached<'_>> {
        Ok(Reached::Image(ImageLexicon::begin(self, alloc)?))
    }

    /// The entries whose form fits the text. Halves the edges of each state on the way, or takes a look
    /// at each where several letters fit the character, once for each state to which the text leads, and
    /// makes the entries that are found.
    fn fitting(&self, alloc: Global, text: &str, alphabet: &Alphabet) -> Mem<Vec<Entry>> {
        ImageLexicon::fitting(self, alloc, text, alphabet)
    }

    /// Whether some form begins with characters that fit the text. Halves the edges of each state on the
    /// way, or takes a look at each where several letters fit the character, once for each state to which
    /// the text leads.
    fn may_begin(&self, alloc: Global, text: &str, alphabet: &Alphabet) -> Mem<bool> {
        ImageLexicon::may_begin(self, alloc, text, alphabet)
    }

    /// The number of entries of exactly this form. Halves the edges of each state on the way, and takes
    /// no memory.
    fn exact(&self, form: &str) -> Option<usize> {
        ImageLexicon::exact(self, form)
    }

    /// The length in characters of the longest form. Is kept.
    fn longest(&self) -> usize {
        ImageLexicon::longest(self)
    }

    /// The number of entries. Is kept.
    fn count(&self) -> usize {
        ImageLexicon::count(self)
    }
}
