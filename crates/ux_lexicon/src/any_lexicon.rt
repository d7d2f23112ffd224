//! A dictionary of any kind.

use crate::lexicon::Lexicon;
use crate::reached::Reached;
use std::alloc::Global;
use ux_alphabet::Alphabet;
use ux_base::Mem;
use ux_dela::Entry;
use ux_dict::ListLexicon;
use ux_image_lexicon::ImageLexicon;

/// A dictionary of any kind.
#[derive(Drop)]
pub enum AnyLexicon {
    /// Entries that were read.
    List(ListLexicon),
    /// The automaton of an image.
    Image(ImageLexicon),
}

impl Lexicon for AnyLexicon {
    ghost use Rattle.ux_lexicon.specs.Any.{content_of};

    ghost content = { content_of };

    fn begin(&self, alloc: Global) -> Mem<Reached<'_>> {
        match self {
            AnyLexicon::List(lexicon) => Lexicon::begin(lexicon, alloc),
            AnyLexicon::Image(lexicon) => Lexicon::begin(lexicon, alloc),
        }
    }

    fn fitting(&self, alloc: Global, text: &str, alphabet: &Alphabet) -> Mem<Vec<Entry>> {
        match self {
            AnyLexicon::List(lexicon) => lexicon.fitting(alloc, text, alphabet),
            AnyLexicon::Image(lexicon) => lexicon.fitting(alloc, text, alphabet),
        }
    }

    fn may_begin(&self, alloc: Global, text: &str, alphabet: &Alphabet) -> Mem<bool> {
        match self {
            AnyLexicon::List(lexicon) => lexicon.may_begin(alloc, text, alphabet),
            AnyLexicon::Image(lexicon) => lexicon.may_begin(alloc, text, alphabet),
        }
    }

    fn exact(&self, form: &str) -> Option<usize> {
        match self {
            AnyLexicon::List(lexicon) => lexicon.exact(form),
            AnyLexicon::Image(lexicon) => lexicon.exact(form),
        }
    }

    fn longest(&self) -> usize {
        match self {
            AnyLexicon::List(lexicon) => lexicon.longest(),
            AnyLexicon::Image(lexicon) => lexicon.longest(),
        }
    }

    fn count(&self) -> usize {
        match self {
            AnyLexicon::List(lexicon) => lexicon.count(),
            AnyLexicon::Image(lexicon) => lexicon.count(),
        }
    }
}
