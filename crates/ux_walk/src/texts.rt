//! The texts of which events speak: names of variables, and what outputs put out.
//!
//! Each is lent by the net, and stands once. Its place tells it.

ghost use Rattle.std.specs.Prelude.{◌≡◌, ℕ, List, IfOk, Some, slice_get};
ghost use Rattle.ux_base.specs.Distinct.{StandOnce};
ghost use Rattle.ux_walk.specs.Noted.{IsPlacedIn, listed_in};

use indexmap::IndexSet;
use std::alloc::Global;
use ux_base::{Mem, Txt};

/// A table of texts.
#[derive(Drop)]
pub struct Texts<'t> {
    texts: IndexSet<&'t str>,
}

impl<'t> Texts<'t> {
    /// No text. Takes no memory.
    pub fn new(alloc: Global) -> Texts<'t> {
        Texts {
            texts: IndexSet::new(alloc),
        }
    }

    /// The place of a text, which is a new one where the text is new.
    pub fn place(&mut self, text: &'t str) -> Mem<usize>
        ensures { IfOk result (IsPlacedIn (listed_in self.old) (listed_in self.new) text.now) }
    {
        let (place, _is_new) = self.texts.insert_full(text)?;
        Ok(place)
    }

    /// A copy of the text at a place.
    pub fn text(&self, alloc: Global, place: usize) -> Mem<Txt>
        ensures { IfOk result (λ copy. (text : List ℕ) →
            slice_get (listed_in self.now) place ≡ Some text → copy ≡ text) }
    {
        match self.texts.get_index(place) {
            Some(text) => Ok(Txt::from_str(alloc, text)?),
            None => Ok(Txt::new(String::new(alloc))),
        }
    }

    /// No text stands at two places.
    pub fn texts_stand_once(&self)
        ensures { StandOnce (listed_in self.now) }
    {
        self.texts.len();
    }
}
