//! Places in a dictionary, to which texts lead.
//!
//! A text is gone along piece by piece: `Lexicon::begin` gives the place of the empty text, and each
//! piece leads from one place to the next. A place tells whether a longer text may have any entries,
//! with no second look at the text, and which entries fit the text so far, which it is given for those
//! that are made anew.

ghost use Rattle.std.specs.Prelude.{◌↔◌, ◌++◌, ℕ, List, All, IsTrue, IfOk};
ghost use Rattle.ux_alphabet.specs.Letters.{Letters};
ghost use Rattle.ux_dela.specs.Sound.{IsSound};
ghost use Rattle.ux_dela.specs.declared.entry.Entry.{Entry};
ghost use Rattle.ux_dict.specs.Forms.{IsFitting, MayBegin};
ghost use Rattle.ux_lexicon.specs.Reached.{IsReachedBy};

use std::alloc::Global;
use ux_alphabet::Alphabet;
use ux_base::Mem;
use ux_dela::Entry;
use ux_dict::ListReached;
use ux_image_lexicon::ImageReached;

/// A place in a dictionary, to which a text leads.
#[derive(Drop)]
pub enum Reached<'a> {
    /// In entries that were read.
    List(ListReached<'a>),
    /// In the automaton of an image.
    Image(ImageReached<'a>),
}

impl<'a> Reached<'a> {
    /// Where the text so far leads with this one behind it.
    pub fn go_on(&self, alloc: Global, text: &str, alphabet: &Alphabet) -> Mem<Reached<'a>>
        ensures { IfOk result (λ next. (content : List Entry) (front : List ℕ) →
            IsReachedBy alphabet.now content front self.now →
            IsReachedBy alphabet.now content (front ++ text.now) next) }
    {
        match self {
            Reached::List(place) => Ok(Reached::List(place.go_on(alloc, text, alphabet)?)),
            Reached::Image(place) => Ok(Reached::Image(place.go_on(alloc, text, alphabet)?)),
        }
    }

    /// Whether some form begins with characters that fit the text so far, one by one. Where none
    /// does, no longer text has a fitting form. Takes a step a part of a list, and one in an image.
    pub fn may_go_on(&self) -> bool
        ensures { (alphabet : Letters) (content : List Entry) (text : List ℕ) →
            IsReachedBy alphabet content text self.now →
            (IsTrue result ↔ MayBegin alphabet text content) }
    {
        match self {
            Reached::List(place) => place.may_go_on(),
            Reached::Image(place) => place.may_go_on(),
        }
    }

    /// The entries whose form fits the text that led here character by character, in the order of the
    /// content. Takes a copy of each, or makes each of its form and code, and no memory where no form
    /// ends here.
    pub fn ending(&self, alloc: Global, text: &str, alphabet: &Alphabet) -> Mem<Vec<Entry>>
        ensures found { IfOk result (λ found. (content : List Entry) →
            IsReachedBy alphabet.now content text.now self.now →
            IsFitting alphabet.now text.now content found.items) }
        ensures sound { IfOk result (λ found. (content : List Entry) →
            IsReachedBy alphabet.now content text.now self.now → All IsSound found.items) }
    {
        match self {
            Reached::List(place) => place.ending(alloc),
            Reached::Image(place) => place.ending(alloc, text, alphabet),
        }
    }
}
