//! Places in a dictionary of entries that were read.
//!
//! A place keeps the parts of the entries whose forms begin with characters that fit the text so
//! far: one for each way to write it with lower-case letters that some form has.

ghost use Rattle.std.specs.Prelude.{◌≡◌, ◌↔◌, ◌<◌, ◌++◌, ℕ, List, All, IsTrue, IfOk, OnOk, length};
ghost use Rattle.ux_alphabet.specs.Letters.{Letters};
ghost use Rattle.ux_dela.specs.Sound.{IsSound};
ghost use Rattle.ux_dela.specs.declared.entry.Entry.{Entry};
ghost use Rattle.ux_dict.specs.Forms.{IsFitting, MayBegin};
ghost use Rattle.ux_dict.specs.Parts.{AreWhole, entries_of};
ghost use Rattle.ux_dict.specs.Places.{IsReachedInList};

use crate::list_lexicon::ListLexicon;
use crate::parts::{Part, ending};
use crate::stored::Stored;
use std::alloc::{AllocError, Global};
use ux_alphabet::Alphabet;
use ux_base::Mem;
use ux_dela::Entry;

/// A place in entries that were read.
#[derive(Drop)]
pub struct ListReached<'a> {
    pub(crate) lexicon: &'a ListLexicon,
    /// The entries whose forms go on from here.
    pub(crate) parts: Vec<Part<'a>>,
}

impl<'a> ListReached<'a> {
    /// Where the text so far leads with this one behind it. Takes a few binary searches for each
    /// part, and for each character that others fit as well.
    pub fn go_on(&self, alloc: Global, text: &str, alphabet: &Alphabet) -> Mem<ListReached<'a>>
        ensures { IfOk result (λ next. (content : List Entry) (front : List ℕ) →
            IsReachedInList alphabet.now content front self.now →
            IsReachedInList alphabet.now content (front ++ text.now) next) }
    {
        let parts = self.lexicon.parts_on(alloc, &self.parts, text, alphabet)?;
        Ok(ListReached {
            lexicon: self.lexicon,
            parts,
        })
    }

    /// Whether some form begins with characters that fit the text so far, one by one. Where none
    /// does, no longer text has a fitting form. Takes a step a part.
    pub fn may_go_on(&self) -> bool
        ensures { (alphabet : Letters) (content : List Entry) (text : List ℕ) →
            IsReachedInList alphabet content text self.now →
            (IsTrue result ↔ MayBegin alphabet text content) }
    {
        has_entry(&self.parts)
    }

    /// The entries whose form fits the text so far character by character, in the order of the
    /// content. Takes a copy of each.
    pub fn ending(&self, alloc: Global) -> Mem<Vec<Entry>>
        ensures found { IfOk result (λ found. (alphabet : Letters) (content : List Entry)
            (text : List ℕ) → IsReachedInList alphabet content text self.now →
            IsFitting alphabet text content found.items) }
        ensures sound { IfOk result (λ found. (alphabet : Letters) (content : List Entry)
            (text : List ℕ) → IsReachedInList alphabet content text self.now →
            All IsSound found.items) }
    {
        Ok(whole_forms(alloc, &self.parts)?)
    }
}

/// Copies of the entries whose forms end where the bytes do that they have in common.
fn whole_forms(alloc: Global, parts: &[Part<'_>]) -> Result<Vec<Entry>, AllocError>
    ensures { IfOk result (λ found. AreWhole parts.now found.items) }
{
    let mut found = Vec::new(alloc);
    for part in parts {
        push_copies(&mut found, ending(part.entries, part.len))?;
    }
    Ok(found)
}

/// Puts copies of the entries last. The first ones take no more room than they need, since mostly
/// no others come.
fn push_copies(found: &mut Vec<Entry>, entries: &[Stored]) -> Result<(), AllocError>
    ensures { OnOk result (found.new.items ≡ found.old.items ++ entries.now) }
{
    if found.is_empty() {
        found.reserve_exact(entries.len())?;
    }
    for entry in entries {
        found.push(entry.to_entry()?)?;
    }
    Ok(())
}

/// Whether some part has an entry.
fn has_entry(parts: &[Part<'_>]) -> bool
    ensures { IsTrue result ↔ (0 < length (entries_of parts.now)) }
{
    for part in parts {
        if !part.entries.is_empty() {
            return true;
        }
    }
    false
}
