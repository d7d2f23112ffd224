//! An alphabet, which tells letters and fitting characters.

ghost use Rattle.std.specs.Prelude.{◌≡◌, ◌↔◌, ◌⊎◌, true, false, IsTrue, IfOk, IfErr, []};
ghost use Rattle.ux_alphabet.specs.File.{AreLines, Refuses};
ghost use Rattle.ux_alphabet.specs.Letters.{letters_of, IsLetter, IsUpper, IsLower, Fits, FitsAlone};
ghost use Rattle.ux_alphabet.specs.declared.error.AlphabetError.{AlphabetError};
ghost use Rattle.ux_alphabet.specs.declared.error.AlphabetError.TheVariants.{NoMemory};

use crate::error::AlphabetError;
use crate::reading::read_lines;
use crate::tables::Tables;
use std::alloc::Global;
use std::marker::Model;

/// The letters of a language. Contracts see an alphabet as the lines of its file, and whether each
/// letter is a word of its own.
#[derive(Drop)]
pub struct Alphabet {
    tables: Option<Tables>,
    single: bool,
}

impl Model for Alphabet {
    ghost use Rattle.std.specs.Prelude.{unwrap_or, []};
    ghost use Rattle.ux_alphabet.specs.Letters.{Letters};

    ghost Value = { Letters };

    ghost view = { λ alphabet. record {
      lines = unwrap_or alphabet.tables [];
      single = alphabet.single;
    } };
}

impl Alphabet {
    /// Reads an alphabet file. Of several refused lines the first is named.
    pub fn read(alloc: Global, text: &str) -> Result<Alphabet, AlphabetError>
        ensures ok { IfOk result (λ alphabet. AreLines text.now alphabet.lines) }
        ensures words { IfOk result (λ alphabet. alphabet.single ≡ false) }
        ensures refused { IfErr result (λ error. (error ≡ NoMemory) ⊎ Refuses text.now error) }
        ensures exact { IfOk result (λ _. (error : AlphabetError) → Refuses text.now error → ⊥) }
    {
        let lines = read_lines(alloc, text)?;
        let tables = Tables::of(alloc, lines)?;
        Ok(Alphabet {
            tables: Some(tables),
            single: false,
        })
    }

    /// The alphabet without a letter. Takes no memory.
    pub fn empty() -> Alphabet
        ensures { result ≡ letters_of [] }
    {
        Alphabet {
            tables: None,
            single: false,
        }
    }

    /// The same letters, each of them a word of its own. Takes no memory.
    pub fn by_character(self) -> Alphabet
        ensures { result ≡ record { lines = self.lines; single = true } }
    {
        Alphabet {
            tables: self.tables,
            single: true,
        }
    }

    /// Whether each letter is a word of its own.
    pub fn single(&self) -> bool
        ensures { result ≡ self.now.single }
    {
        self.single
    }

    /// Whether the character is a letter.
    pub fn is_letter(&self, c: char) -> bool
        ensures { IsTrue result ↔ IsLetter self.now c }
    {
        match &self.tables {
            Some(tables) => tables.is_letter(c),
            None => false,
        }
    }

    /// Whether the character is an upper-case letter.
    pub fn is_upper(&self, c: char) -> bool
        ensures { IsTrue result ↔ IsUpper self.now c }
    {
        match &self.tables {
            Some(tables) => tables.is_upper(c),
            None => false,
        }
    }

    /// Whether the character is a lower-case letter.
    pub fn is_lower(&self, c: char) -> bool
        ensures { IsTrue result ↔ IsLower self.now c }
    {
        match &self.tables {
            Some(tables) => tables.is_lower(c),
            None => false,
        }
    }

    /// Whether a character of an entry fits one of the text: both are equal, or the text's is an
    /// upper-case form of the entry's.
    pub fn fits(&self, entry: char, text: char) -> bool
        ensures { IsTrue result ↔ Fits self.now entry text }
    {
        if entry == text {
            return true;
        }
        match &self.tables {
            Some(tables) => tables.has_pair(text, entry),
            None => false,
        }
    }

    /// Whether the character of a text is fitted by itself alone: no other character of an entry
    /// fits it.
    pub fn fits_alone(&self, c: char) -> bool
        ensures { IsTrue result ↔ FitsAlone self.now c }
    {
        match &self.tables {
            Some(tables) => tables.fits_alone(c),
            None => true,
        }
    }
}
