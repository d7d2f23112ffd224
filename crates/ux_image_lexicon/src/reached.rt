//! Places in the automaton of an image.

ghost use Rattle.std.specs.Prelude.{◌≡◌, ◌↔◌, ◌++◌, ℕ, List, All, IsTrue, IfOk};
ghost use Rattle.ux_alphabet.specs.Letters.{Letters};
ghost use Rattle.ux_dela.specs.Sound.{IsSound};
ghost use Rattle.ux_dela.specs.declared.entry.Entry.{Entry};
ghost use Rattle.ux_dict.specs.Forms.{IsFitting, MayBegin};
ghost use Rattle.ux_image_lexicon.specs.Places.{IsReachedInImage};

use crate::coded::Coded;
use crate::entries::{each_once, entries_told};
use std::alloc::Global;
use ux_alphabet::Alphabet;
use ux_base::Mem;
use ux_dela::Entry;
use ux_image_look_ups as look_ups;
use ux_image_look_ups::Place;

/// A place in the automaton of an image.
#[derive(Drop)]
pub struct ImageReached<'a> {
    pub(crate) coded: &'a Coded,
    /// The states to which the text so far leads.
    pub(crate) states: Place,
}

impl<'a> ImageReached<'a> {
    /// Where the text so far leads with this one behind it. Halves the edges of each state on the way,
    /// or takes a look at each where several letters fit the character, once for each state to which
    /// the text leads. Takes memory where these are several.
    pub fn go_on(&self, alloc: Global, text: &str, alphabet: &Alphabet) -> Mem<ImageReached<'a>>
        ensures { IfOk result (λ next. (content : List Entry) (front : List ℕ) →
            IsReachedInImage alphabet.now content front self.now →
            IsReachedInImage alphabet.now content (front ++ text.now) next) }
    {
        let states = look_ups::go_on(alloc, self.coded.states(), &self.states, text, alphabet)?;
        Ok(ImageReached {
            coded: self.coded,
            states,
        })
    }

    /// Whether some form begins with characters that fit the text so far, one by one.
    pub fn may_go_on(&self) -> bool
        ensures { (alphabet : Letters) (content : List Entry) (text : List ℕ) →
            IsReachedInImage alphabet content text self.now →
            (IsTrue result ↔ MayBegin alphabet text content) }
    {
        look_ups::may_go_on(self.coded.states(), &self.states)
    }

    /// The entries whose form fits the text that led here character by character, in the order of the
    /// content. They are made of their forms and codes. Takes no memory where no form ends here. Where
    /// several letters fit a character, the text is gone along once more.
    pub fn ending(&self, alloc: Global, text: &str, alphabet: &Alphabet) -> Mem<Vec<Entry>>
        ensures found { IfOk result (λ found. (content : List Entry) →
            IsReachedInImage alphabet.now content text.now self.now →
            IsFitting alphabet.now text.now content found.items) }
        ensures sound { IfOk result (λ found. (content : List Entry) →
            IsReachedInImage alphabet.now content text.now self.now → All IsSound found.items) }
    {
        let states = self.coded.states();
        let forms = look_ups::ending(alloc, states, &self.states, text, alphabet)?;
        let entries = entries_told(alloc, self.coded.lists(), &forms)?;
        each_once(alloc, entries)
    }
}
