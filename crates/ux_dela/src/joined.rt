//! Texts in one text, one behind the other, and where each of them ends.
//!
//! So each takes four bytes beside its own and no allocation. `texts` shares them.

ghost use Rattle.std.specs.Prelude.{◌≡◌, ◌+◌, ◌<◌, ◌++◌, ◌∷◌, [], ◌↔◌, IsTrue, length, slice_index, slice_index_or, IfOk, OnOk};

use std::alloc::{AllocError, Global};
use std::marker::Model;

/// Texts that are joined, seen as the list of them.
#[derive(Drop)]
pub struct Joined {
    /// All of them, one behind the other.
    text: String,
    /// Where each ends.
    ends: Vec<u32>,
}

impl Model for Joined {
    ghost use Rattle.std.specs.Prelude.{List, ℕ, string_bytes};
    ghost use Rattle.ux_dela.specs.Texts.{texts_from, AreEnds};

    ghost Value = { List (List ℕ) };

    ghost view = { λ joined. texts_from 0 joined.ends.items (string_bytes joined.text) };

    ghost invariant = { λ joined. AreEnds 0 joined.ends.items (string_bytes joined.text) };
}

impl Joined {
    /// No text.
    pub fn new(alloc: Global) -> Joined
        ensures { result ≡ [] }
    {
        Joined {
            text: String::new(alloc),
            ends: Vec::new(alloc),
        }
    }

    /// Puts the text behind the others. All together have less than 2^32 bytes, or it is as if
    /// memory ran out.
    pub fn push(&mut self, text: &str) -> Result<(), AllocError>
        ensures { OnOk result (self.new ≡ self.old ++ text.now ∷ []) }
    {
        let end = end_behind(self.text.as_str(), text)?;
        self.ends.reserve(1)?;
        self.text.push_str(text)?;
        self.ends.push(end)?;
        Ok(())
    }

    /// Gives back the room to spare.
    pub fn shrink_to_fit(&mut self)
        ensures { self.new ≡ self.old }
    {
        self.text.shrink_to_fit();
        self.ends.shrink_to_fit();
    }

    /// How many texts there are.
    pub fn len(&self) -> usize
        ensures { result ≡ length self.now }
    {
        self.ends.len()
    }

    /// The text of this number, counted from 0, lent.
    pub fn text(&self, number: usize) -> &str
        requires { number < length self.now }
        ensures { result.now ≡ slice_index_or self.now number [] }
    {
        let begin = begin_of(self.ends.as_slice(), number);
        let end = self.ends[number] as usize;
        &self.text.as_str()[begin..end]
    }

    /// Whether two lists of texts are equal.
    pub fn same(&self, other: &Joined) -> bool
        ensures { IsTrue result ↔ (self.now ≡ other.now) }
    {
        self.ends == other.ends && self.text == other.text
    }
}

/// Where the other text ends behind the text, if 32 bits have the number.
fn end_behind(text: &str, other: &str) -> Result<u32, AllocError>
    ensures { IfOk result (λ end. end ≡ length text.now + length other.now) }
{
    u32::try_from(text.len() + other.len()).map_err(|_| AllocError)
}

/// Where the text of this number begins: where the one before it ends.
fn begin_of(ends: &[u32], number: usize) -> usize
    requires { number < length ends.now }
    ensures { result ≡ slice_index (0 ∷ ends.now) number }
{
    if number == 0 {
        0
    } else {
        ends[number - 1] as usize
    }
}
