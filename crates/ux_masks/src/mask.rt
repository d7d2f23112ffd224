//! Masks, and what a mask text means.

ghost use Rattle.std.specs.Prelude.{◌≡◌, ◌↔◌, ◌++◌, ℕ, List, None, Some, IfErr, IfOk, IsTrue, MatchOption, length};
ghost use Rattle.std.specs.Str.{chars};
ghost use Rattle.ux_masks.specs.Equal.{number_of, asked_eq, parts_in};
ghost use Rattle.ux_masks.specs.Meets.{Meets};
ghost use Rattle.ux_masks.specs.Texts.{IsMaskText, Refuses};

use crate::error::MaskError;
use crate::lexical::Lexical;
use crate::named::{is_refused, named};
use crate::reader::{Fault, read_lexical};
use std::alloc::{AllocError, Global};
use std::hash::{Hash, Hasher};
use ux_dela::Entry;

/// What a mask asks for.
#[derive(Clone, Drop)]
pub enum Mask {
    /// A word.
    Word,
    /// A character that is no letter.
    NotWord,
    /// A word of lower-case letters.
    Lower,
    /// A word that isn't of lower-case letters alone.
    NotLower,
    /// A word of upper-case letters.
    Upper,
    /// A word that isn't of upper-case letters alone.
    NotUpper,
    /// A word that begins with an upper-case letter.
    First,
    /// A word that doesn't.
    NotFirst,
    /// A word, a tag or a span that has an entry.
    Dic,
    /// A word without a simple entry.
    NotDic,
    /// A word or a tag that has a simple entry.
    SDic,
    /// A word without a simple entry.
    NotSDic,
    /// A span or a tag that has a compound entry.
    CDic,
    /// A tag.
    TDic,
    /// All digits that follow each other.
    Nb,
    /// A token that is no space.
    Token,
    /// What has an entry that meets it.
    Lexical(Lexical),
    /// A word or a tag that has no simple entry that meets it.
    NotLexical(Lexical),
}

impl Mask {
    /// The mask of this text, which stands between `<` and `>`. Takes a step a character.
    pub fn read(alloc: Global, text: &str) -> Result<Mask, MaskError>
        ensures ok { IfOk result (IsMaskText text.now) }
        ensures err { IfErr result (Refuses text.now) }
    {
        if let Some(mask) = named(text) {
            return Ok(mask);
        }
        if is_refused(text) {
            return Err(MaskError::BadMask {
                place: count_chars(text),
            });
        }
        match read_lexical(alloc, text) {
            Ok(mask) => Ok(mask),
            Err(Fault::At(left)) => Err(MaskError::BadMask {
                place: count_before(text, left),
            }),
            Err(Fault::NoRoom) => Err(MaskError::NoMemory),
        }
    }

    /// Whether the entry meets the mask. A mask that isn't lexical asks for no entry. Takes no memory.
    pub fn meets(&self, entry: &Entry) -> bool
        ensures { IsTrue result ↔ Meets self.now entry.now }
    {
        match self {
            Mask::Lexical(lexical) => lexical.meets(entry),
            Mask::NotLexical(lexical) => !lexical.meets(entry),
            Mask::Word
            | Mask::NotWord
            | Mask::Lower
            | Mask::NotLower
            | Mask::Upper
            | Mask::NotUpper
            | Mask::First
            | Mask::NotFirst
            | Mask::Dic
            | Mask::NotDic
            | Mask::SDic
            | Mask::NotSDic
            | Mask::CDic
            | Mask::TDic
            | Mask::Nb
            | Mask::Token => false,
        }
    }

    /// Whether two masks are equal.
    pub fn same(&self, other: &Mask) -> bool
        ensures { IsTrue result ↔ (self.now ≡ other.now) }
    {
        self == other
    }

    /// A copy.
    pub fn copy(&self) -> Result<Mask, AllocError>
        ensures { IfOk result (λ mask. mask ≡ self.now) }
    {
        self.clone()
    }

    /// What a lexical mask asks for, negated or not.
    pub fn lexical(&self) -> Option<&Lexical>
        ensures { MatchOption result (parts_in self.now ≡ None)
            (λ lexical. parts_in self.now ≡ Some lexical.now) }
    {
        match self {
            Mask::Lexical(lexical) | Mask::NotLexical(lexical) => Some(lexical),
            Mask::Word
            | Mask::NotWord
            | Mask::Lower
            | Mask::NotLower
            | Mask::Upper
            | Mask::NotUpper
            | Mask::First
            | Mask::NotFirst
            | Mask::Dic
            | Mask::NotDic
            | Mask::SDic
            | Mask::NotSDic
            | Mask::CDic
            | Mask::TDic
            | Mask::Nb
            | Mask::Token => None,
        }
    }

    /// The number of the variant, in their order.
    fn number(&self) -> u8
        ensures { result ≡ number_of self.now }
    {
        match self {
            Mask::Word => 0,
            Mask::NotWord => 1,
            Mask::Lower => 2,
            Mask::NotLower => 3,
            Mask::Upper => 4,
            Mask::NotUpper => 5,
            Mask::First => 6,
            Mask::NotFirst => 7,
            Mask::Dic => 8,
            Mask::NotDic => 9,
            Mask::SDic => 10,
            Mask::NotSDic => 11,
            Mask::CDic => 12,
            Mask::TDic => 13,
            Mask::Nb => 14,
            Mask::Token => 15,
            Mask::Lexical(_) => 16,
            Mask::NotLexical(_) => 17,
        }
    }
}

/// Whether two masks ask for the same, where they are lexical.
fn same_asked(mask: &Mask, other: &Mask) -> bool
    ensures { result ≡ asked_eq (parts_in mask.now) (parts_in other.now) }
{
    match (mask.lexical(), other.lexical()) {
        (None, None) => true,
        (Some(lexical), Some(other)) => lexical == other,
        (None, Some(_)) | (Some(_), None) => false,
    }
}

/// How many characters of the text stand before what is left of it.
fn count_before(text: &str, left: &str) -> usize
    requires { (front : List ℕ) × (text.now ≡ front ++ left.now) }
    ensures { (front : List ℕ) → text.now ≡ front ++ left.now → result ≡ length (chars front) }
{
    count_chars(text) - count_chars(left)
}

/// How many characters the text has.
fn count_chars(text: &str) -> usize
    ensures { result ≡ length (chars text.now) }
{
    text.chars().count()
}

impl PartialEq for Mask {
    ghost use Rattle.std.specs.Cmp.{partial_equiv_from_equiv};
    ghost use Rattle.ux_masks.specs.Equal.{mask_eq, mask_equiv};

    ghost eq = { mask_eq };

    ghost laws = { partial_equiv_from_equiv mask_equiv };

    fn eq(&self, other: &Mask) -> bool {
        self.number() == other.number() && same_asked(self, other)
    }
}

impl Eq for Mask {
    ghost use Rattle.ux_masks.specs.Equal.{mask_equiv};

    ghost laws = { mask_equiv };
}

impl Hash for Mask {
    ghost use Rattle.std.specs.Hash as fed;
    ghost use Rattle.ux_masks.specs.Equal.{mask_writes, mask_eq-Decides};

    ghost hash_input = { mask_writes };

    ghost respects_eq = { (fed.same_Alike mask_writes mask_eq-Decides).fed };

    fn hash<H: Hasher>(&self, state: &mut H) {
        state.write_u8(self.number());
        if let Some(lexical) = self.lexical() {
            lexical.hash(state);
        }
    }
}
