//! A dictionary of entries that were read.
//!
//! The entries stand in order of form, so that those of a form, and those whose forms begin alike,
//! are found by binary searches.

ghost use Rattle.std.specs.Prelude.{◌≡◌, ◌↔◌, ◌<◌, ◌++◌, ℕ, List, All, IfOk, IsTrue, MatchOption, [], length};
ghost use Rattle.std.specs.Str.{chars};
ghost use Rattle.ux_alphabet.specs.Letters.{Letters};
ghost use Rattle.ux_dela.specs.Sound.{IsSound};
ghost use Rattle.ux_dict.specs.Content.{IsContent, IsDictionary};
ghost use Rattle.ux_dict.specs.Forms.{IsFitting, MayBegin, count_of, longest_of};
ghost use Rattle.ux_dict.specs.Parts.{AreFittingParts, IsPart};
ghost use Rattle.ux_dict.specs.Places.{IsReachedInList};

use crate::continuing::{gone_on, one};
use crate::keys::keys_of;
use crate::list_reached::ListReached;
use crate::measures::{letters_of, longest_form};
use crate::parts::{Part, of_form};
use crate::sorting::in_order;
use crate::stored::Stored;
use crate::stored_table::store_all;
use std::alloc::{AllocError, Global};
use std::marker::Model;
use ux_alphabet::Alphabet;
use ux_base::Mem;
use ux_dela::Entry;

/// A dictionary of entries in memory, seen as its content.
#[derive(Drop)]
pub struct ListLexicon {
    entries: Vec<Stored>,
    /// The key of each entry.
    keys: Vec<u64>,
    /// The different characters of all forms, in order.
    letters: Vec<char>,
    /// The length in characters of the longest form.
    longest: usize,
}

impl Model for ListLexicon {
    ghost use Rattle.std.specs.Prelude.{List};
    ghost use Rattle.ux_dela.specs.declared.entry.Entry.{Entry};

    ghost Value = { List Entry };

    ghost view = { λ lexicon. lexicon.entries.items };

    ghost use Rattle.ux_dict.specs.Kept.{IsKept};

    ghost invariant = { λ lexicon. IsKept lexicon.entries.items lexicon.keys.items
        lexicon.letters.items lexicon.longest };
}

impl ListLexicon {
    /// The dictionary of these entries, of which each counts once, at its first place. Takes a step
    /// a character and sorts the entries.
    pub fn new(alloc: Global, entries: Vec<Entry>) -> Mem<ListLexicon>
        requires { All IsSound entries.items }
        ensures { IfOk result (IsContent entries.items) }
    {
        let content = content_of(alloc, entries)?;
        Ok(ListLexicon::of_content(alloc, content)?)
    }

    /// The dictionary of this content, with what is kept beside it.
    pub(crate) fn of_content(alloc: Global, entries: Vec<Stored>) -> Result<ListLexicon, AllocError>
        requires { IsDictionary entries.items }
        ensures { IfOk result (λ lexicon. lexicon ≡ entries.items) }
    {
        let keys = keys_of(alloc, &entries)?;
        let letters = letters_of(alloc, &entries)?;
        let longest = longest_form(&entries);
        Ok(ListLexicon {
            entries,
            keys,
            letters,
            longest,
        })
    }

    /// The parts that fit the text so far with this one behind it, by those that fit the text so
    /// far.
    pub(crate) fn parts_on<'a>(
        &'a self,
        alloc: Global,
        parts: &[Part<'a>],
        text: &str,
        alphabet: &Alphabet,
    ) -> Result<Vec<Part<'a>>, AllocError>
        ensures { IfOk result (λ next. (front : List ℕ) →
            AreFittingParts alphabet.now front self.now parts.now →
            AreFittingParts alphabet.now (front ++ chars text.now) self.now next.items) }
    {
        gone_on(alloc, parts, &self.letters, text, alphabet)
    }

    /// Where the empty text leads: to all entries.
    pub fn begin(&self, alloc: Global) -> Mem<ListReached<'_>>
        ensures { IfOk result (λ reached. (alphabet : Letters) →
            IsReachedInList alphabet self.now [] reached) }
    {
        let parts = one(alloc, self.whole())?;
        Ok(ListReached {
            lexicon: self,
            parts,
        })
    }

    /// Where the text leads.
    fn reached(&self, alloc: Global, text: &str, alphabet: &Alphabet) -> Mem<ListReached<'_>>
        ensures { IfOk result (λ reached.
            IsReachedInList alphabet.now self.now text.now reached) }
    {
        let start = self.begin(alloc)?;
        start.go_on(alloc, text, alphabet)
    }

    /// The entries whose form fits the text character by character, in the order of the content.
    /// Takes a copy of each, and a few binary searches for each character and each way to write the
    /// text with lower-case letters.
    pub fn fitting(&self, alloc: Global, text: &str, alphabet: &Alphabet) -> Mem<Vec<Entry>>
        ensures found { IfOk result (λ found.
            IsFitting alphabet.now text.now self.now found.items) }
        ensures sound { IfOk result (λ found. All IsSound found.items) }
    {
        self.reached(alloc, text, alphabet)?.ending(alloc)
    }

    /// Whether some form begins with characters that fit the text, one by one. Where none does, no
    /// longer text has a fitting form. Takes a few binary searches for each character and each way
    /// to write the text with lower-case letters.
    pub fn may_begin(&self, alloc: Global, text: &str, alphabet: &Alphabet) -> Mem<bool>
        ensures { IfOk result (λ may. IsTrue may ↔ MayBegin alphabet.now text.now self.now) }
    {
        let reached = self.reached(alloc, text, alphabet)?;
        Ok(reached.may_go_on())
    }

    /// The number of entries of exactly this form, if there is one. Takes two binary searches.
    pub fn exact(&self, form: &str) -> Option<usize>
        ensures { MatchOption result (count_of form.now self.now ≡ 0)
            (λ count. (count ≡ count_of form.now self.now) × (0 < count)) }
    {
        match of_form(&self.whole(), form).len() {
            0 => None,
            count => Some(count),
        }
    }

    /// The length in characters of the longest form, 0 where there is none. Is kept.
    pub fn longest(&self) -> usize
        ensures { result ≡ longest_of self.now }
    {
        self.longest
    }

    /// The number of entries. Is kept.
    pub fn count(&self) -> usize
        ensures number { result ≡ length self.now }
        ensures kept { IsDictionary self.now }
    {
        self.entries.len()
    }

    /// All entries as one part, whose forms begin with no character.
    fn whole(&self) -> Part<'_>
        ensures entries { result.entries.now ≡ self.now }
        ensures part { IsPart [] result }
        ensures sound { All IsSound self.now }
    {
        Part {
            entries: &self.entries,
            keys: &self.keys,
            len: 0,
        }
    }
}

/// The content of a list of entries. Takes a step an entry and sorts them.
pub fn content_of(alloc: Global, entries: Vec<Entry>) -> Mem<Vec<Stored>>
    ensures { IfOk result (λ content. IsContent entries.items content.items) }
{
    let kept = store_all(alloc, entries)?;
    Ok(in_order(alloc, kept)?)
}
