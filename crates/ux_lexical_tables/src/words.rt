//! The numbers of a text's words, as the tables keep them.

ghost use Rattle.std.specs.Prelude.{◌≡◌, ◌<◌, ◌++◌, ◌∷◌, [], IfSome, OnOk, Some, length, slice_get};

use std::alloc::{AllocError, Global};
use std::marker::Model;

/// Stands where no word does, since a text has fewer tokens.
pub const NO_WORD: u32 = u32::MAX;

/// The number of each token that is a word, in four bytes a token. Contracts see the list of them,
/// with nothing where no word stands.
#[derive(Drop)]
pub struct Words {
    numbers: Vec<u32>,
}

impl Model for Words {
    ghost use Rattle.std.specs.Prelude.{ℕ, List, Option, map};
    ghost use Rattle.ux_lexical_tables.specs.Words.{word_of};

    ghost Value = { List (Option ℕ) };

    ghost view = { λ words. map word_of words.numbers.items };
}

impl Words {
    /// No token.
    pub fn new(alloc: Global) -> Words
        ensures { result ≡ [] }
    {
        Words {
            numbers: Vec::new(alloc),
        }
    }

    /// How many tokens there are.
    pub fn len(&self) -> usize
        ensures { result ≡ length self.now }
    {
        self.numbers.len()
    }

    /// Puts a token last.
    pub fn push(&mut self, word: Option<u32>) -> Result<(), AllocError>
        requires { IfSome word (λ number. number < NO_WORD) }
        ensures { OnOk result (self.new ≡ self.old ++ word ∷ []) }
    {
        let number = word.unwrap_or(NO_WORD);
        self.numbers.push(number)?;
        Ok(())
    }

    /// The number of the token, if it is a word.
    pub fn at(&self, i: usize) -> Option<u32>
        requires { i < length self.now }
        ensures { slice_get self.now i ≡ Some result }
    {
        let number = self.numbers[i];
        if number == NO_WORD {
            return None;
        }
        Some(number)
    }
}
