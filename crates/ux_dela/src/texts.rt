//! A list of texts that a public record owns, in little memory.
//!
//! Contracts see `Texts` as the list of them. A copy shares the texts with what it is a copy of.

ghost use Rattle.std.specs.Prelude.{◌≡◌, ◌<◌, [], ◌↔◌, IsTrue, Contains, length, slice_index_or, IfOk};

use crate::joined::Joined;
use std::alloc::{AllocError, Global};
use std::hash::{Hash, Hasher};
use std::marker::Model;
use std::rc::Rc;

/// A list of texts, which copies share. Takes four bytes a text beside its own, and nothing where
/// there is none.
#[derive(Drop)]
pub struct Texts {
    /// The texts, unless there is none.
    joined: Option<Rc<Joined>>,
}

impl Model for Texts {
    ghost use Rattle.std.specs.Prelude.{List, ℕ};
    ghost use Rattle.ux_dela.specs.Texts.{shared_texts};

    ghost Value = { List (List ℕ) };

    ghost view = { λ texts. shared_texts texts.joined };
}

impl Texts {
    /// The list of these texts. Gives back the room to spare.
    pub fn new(alloc: Global, joined: Joined) -> Result<Texts, AllocError>
        ensures { IfOk result (λ texts. texts ≡ joined) }
    {
        if joined.len() == 0 {
            return Ok(Texts { joined: None });
        }
        let mut joined = joined;
        joined.shrink_to_fit();
        Ok(Texts {
            joined: Some(Rc::new(alloc, joined)?),
        })
    }

    /// How many texts there are.
    pub fn len(&self) -> usize
        ensures { result ≡ length self.now }
    {
        match &self.joined {
            Some(joined) => joined.as_ref().len(),
            None => 0,
        }
    }

    /// The text of this number, counted from 0, lent.
    pub fn text(&self, number: usize) -> &str
        requires { number < length self.now }
        ensures { result.now ≡ slice_index_or self.now number [] }
    {
        match &self.joined {
            Some(joined) => joined.as_ref().text(number),
            None => "",
        }
    }

    /// Whether the text is one of them. Takes a step a text.
    pub fn contains(&self, text: &str) -> bool
        ensures { IsTrue result ↔ Contains self.now text.now }
    {
        for number in 0..self.len() {
            if self.text(number) == text {
                return true;
            }
        }
        false
    }
}

impl PartialEq for Texts {
    ghost use Rattle.std.specs.Prelude.{bytes_eq};
    ghost use Rattle.std.specs.Cmp.{partial_equiv_from_equiv};
    ghost use Rattle.std.specs.Cmp.Lexicographic.{lists_equiv};
    ghost use Rattle.std.proofs.lemmas.Cmp.{nat_list_eq_equiv};
    ghost use lib.Pointwise.{pointwise};

    ghost eq = { pointwise bytes_eq };

    ghost laws = { partial_equiv_from_equiv (lists_equiv nat_list_eq_equiv) };

    fn eq(&self, other: &Texts) -> bool {
        match (&self.joined, &other.joined) {
            (Some(joined), Some(others)) => joined.as_ref().same(others.as_ref()),
            (Some(joined), None) => joined.as_ref().len() == 0,
            (None, Some(others)) => others.as_ref().len() == 0,
            (None, None) => true,
        }
    }
}

impl Eq for Texts {
    ghost use Rattle.std.specs.Cmp.Lexicographic.{lists_equiv};
    ghost use Rattle.std.proofs.lemmas.Cmp.{nat_list_eq_equiv};

    ghost laws = { lists_equiv nat_list_eq_equiv };
}

impl Hash for Texts {
    ghost use Rattle.std.specs.Hash as fed;
    ghost use lib.Pointwise.{bytes_decides};

    ghost hash_input = { fed.slice fed.str };

    ghost respects_eq = { (fed.items_Alike (fed.same_Alike fed.str bytes_decides)).fed };

    fn hash<H: Hasher>(&self, state: &mut H) {
        self.len().hash(state);
        for number in 0..self.len() {
            self.text(number).hash(state);
        }
    }
}

impl Clone for Texts {
    ghost is_clone = { λ a b. b ≡ a };

    fn clone(&self) -> Result<Texts, AllocError> {
        match &self.joined {
            Some(joined) => Ok(Texts {
                joined: Some(joined.clone()?),
            }),
            None => Ok(Texts { joined: None }),
        }
    }
}
