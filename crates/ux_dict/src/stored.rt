//! An entry as a dictionary keeps it.
//!
//! A dictionary has many entries and few different lists of codes, and most lemmas are the form
//! itself. So entries of the same codes share them, and a lemma that is the form takes no text.

ghost use Rattle.std.specs.Prelude.{◌≡◌, ◌↔◌, IsTrue, IfOk, MatchOption, Some, unwrap_or};
ghost use Rattle.ux_dela.specs.Printed.{printed_codes};
ghost use Rattle.ux_dict.specs.Stored.{entry_of};

use crate::codes_table::{CodesTable, SharedCodes};
use std::alloc::{AllocError, Global};
use std::hash::{Hash, Hasher};
use std::marker::Model;
use std::rc::Rc;
use ux_base::Txt;
use ux_dela::{Codes, Entry};

/// An entry, seen as what its line says. Takes a third of the memory of an `Entry`, and less where
/// the lemma is the form.
#[derive(Drop)]
pub struct Stored {
    form: Txt,
    /// The lemma, where it isn't the form.
    lemma: Option<Txt>,
    /// The codes, which all entries of equal ones share.
    codes: Rc<SharedCodes>,
}

impl Model for Stored {
    ghost use Rattle.ux_dela.specs.declared.entry.Entry.{Entry};
    ghost use Rattle.ux_dict.specs.Stored.{entry_of};

    ghost Value = { Entry };

    ghost view = { λ stored. entry_of stored.form stored.lemma stored.codes.value };
}

impl Stored {
    /// The entry to keep, with codes of the table. Its form and lemma are moved.
    pub(crate) fn of(
        alloc: Global,
        entry: Entry,
        table: &mut CodesTable,
    ) -> Result<Stored, AllocError>
        ensures { IfOk result (λ stored. stored ≡ entry) }
    {
        let Entry {
            form,
            lemma,
            gram,
            sem,
            infl,
        } = entry;
        let codes = table.shared(alloc, Codes { gram, sem, infl })?;
        let lemma = unless_form(&form, lemma);
        Ok(Stored { form, lemma, codes })
    }

    /// The entry to keep, of parts of a line and codes of the table. Copies the form, and the lemma
    /// where it isn't the form.
    pub(crate) fn of_parts(
        alloc: Global,
        form: &str,
        lemma: &str,
        codes: Rc<SharedCodes>,
    ) -> Result<Stored, AllocError>
        ensures { IfOk result (λ stored.
            stored ≡ entry_of form.now (Some lemma.now) codes.value) }
    {
        let lemma = copy_of_other(alloc, form, lemma)?;
        let form = Txt::from_str(alloc, form)?;
        Ok(Stored { form, lemma, codes })
    }

    /// The form, lent.
    pub fn form(&self) -> &str
        ensures { result.now ≡ self.now.form }
    {
        self.form.as_str()
    }

    /// The lemma, lent.
    pub fn lemma(&self) -> &str
        ensures { result.now ≡ self.now.lemma }
    {
        text_of(&self.form, &self.lemma)
    }

    /// The lemma, lent, where the line gave another one than the form. Takes one step.
    pub fn other_lemma(&self) -> Option<&str>
        ensures { MatchOption result (self.now.lemma ≡ self.now.form)
            (λ lemma. lemma.now ≡ self.now.lemma) }
    {
        match &self.lemma {
            Some(text) => Some(text.as_str()),
            None => None,
        }
    }

    /// The text that is printed for the codes, lent.
    pub fn printed_codes(&self) -> &str
        ensures { result.now ≡ printed_codes self.now }
    {
        self.codes.printed()
    }

    /// The entry, with copies of all of its parts.
    pub(crate) fn to_entry(&self) -> Result<Entry, AllocError>
        ensures { IfOk result (λ entry. entry ≡ self.now) }
    {
        let form = self.form.clone()?;
        let lemma = copy_of(&self.form, &self.lemma)?;
        let Codes { gram, sem, infl } = self.codes.codes().copy()?;
        Ok(Entry {
            form,
            lemma,
            gram,
            sem,
            infl,
        })
    }

    /// Whether two entries are equal.
    fn same(&self, other: &Stored) -> bool
        ensures { IsTrue result ↔ (self.now ≡ other.now) }
    {
        same_text(self.form(), other.form())
            && same_text(self.lemma(), other.lemma())
            && self.codes.codes().same(other.codes.codes())
    }
}

impl PartialEq for Stored {
    ghost use Rattle.std.specs.Cmp.{partial_equiv_from_equiv};
    ghost use Rattle.ux_dict.specs.Equal.{entry_eq, entry_equiv};

    ghost eq = { entry_eq };

    ghost laws = { partial_equiv_from_equiv entry_equiv };

    fn eq(&self, other: &Stored) -> bool {
        self.same(other)
    }
}

impl Eq for Stored {
    ghost use Rattle.ux_dict.specs.Equal.{entry_equiv};

    ghost laws = { entry_equiv };
}

impl Hash for Stored {
    ghost use Rattle.std.specs.Hash as fed;
    ghost use Rattle.ux_dict.specs.Equal.{stored_writes_of, entry_eq-Decides};

    ghost hash_input = { stored_writes_of };

    ghost respects_eq = { (fed.same_Alike stored_writes_of entry_eq-Decides).fed };

    fn hash<H: Hasher>(&self, state: &mut H) {
        self.form().hash(state);
        self.lemma().hash(state);
        self.printed_codes().hash(state);
    }
}

/// The lemma, unless it is the form.
fn unless_form(form: &Txt, lemma: Txt) -> Option<Txt>
    ensures { unwrap_or result form.now ≡ lemma }
{
    if *form == lemma { None } else { Some(lemma) }
}

/// A copy of the lemma, unless it is the form.
fn copy_of_other(alloc: Global, form: &str, lemma: &str) -> Result<Option<Txt>, AllocError>
    ensures { IfOk result (λ other. unwrap_or other form.now ≡ lemma.now) }
{
    if form == lemma {
        return Ok(None);
    }
    Ok(Some(Txt::from_str(alloc, lemma)?))
}

/// The lemma, which is the form where none is given.
fn text_of<'a>(form: &'a Txt, lemma: &'a Option<Txt>) -> &'a str
    ensures { result.now ≡ unwrap_or lemma.now form.now }
{
    match lemma {
        Some(text) => text.as_str(),
        None => form.as_str(),
    }
}

/// A copy of the lemma, which is the form where none is given.
fn copy_of(form: &Txt, lemma: &Option<Txt>) -> Result<Txt, AllocError>
    ensures { IfOk result (λ copy. copy ≡ unwrap_or lemma.now form.now) }
{
    match lemma {
        Some(text) => text.clone(),
        None => form.clone(),
    }
}

fn same_text(text: &str, other: &str) -> bool
    ensures { IsTrue result ↔ (text.now ≡ other.now) }
{
    text == other
}
