//! What a lexical mask asks of an entry.

ghost use Rattle.std.specs.Prelude.{◌≡◌, ◌↔◌, IsTrue, IfOk};
ghost use Rattle.ux_masks.specs.Meets.{MeetsParts};

use crate::meeting::meets_parts;
use std::alloc::{AllocError, Global};
use std::hash::{Hash, Hasher};
use std::marker::Model;
use ux_base::{Lst, Txt};
use ux_dela::Entry;

/// What a lexical mask asks of an entry, part by part.
#[derive(Clone, Drop)]
pub struct Parts {
    /// The form, if it is told.
    pub form: Option<Txt>,
    /// The lemma, if it is told.
    pub lemma: Option<Txt>,
    /// The grammatical and semantic codes that it has to have.
    pub need: Lst<Txt>,
    /// The grammatical and semantic codes that it must not have.
    pub forbid: Lst<Txt>,
    /// Alternatives, of which one has all its characters in one inflection code.
    pub infl: Lst<Txt>,
}

impl Parts {
    /// Whether two masks ask for the same.
    pub fn same(&self, other: &Parts) -> bool
        ensures { IsTrue result ↔ (self.now ≡ other.now) }
    {
        same_told(&self.form, &other.form)
            && same_told(&self.lemma, &other.lemma)
            && same_texts(&self.need, &other.need)
            && same_texts(&self.forbid, &other.forbid)
            && same_texts(&self.infl, &other.infl)
    }
}

/// Whether two texts that may be missing are equal.
fn same_told(told: &Option<Txt>, other: &Option<Txt>) -> bool
    ensures { IsTrue result ↔ (told.now ≡ other.now) }
{
    match (told, other) {
        (None, None) => true,
        (Some(text), Some(other)) => same_text(text, other),
        (None, Some(_)) | (Some(_), None) => false,
    }
}

/// Whether two texts are equal.
fn same_text(text: &Txt, other: &Txt) -> bool
    ensures { IsTrue result ↔ (text.now ≡ other.now) }
{
    text == other
}

/// Whether two lists of texts are equal.
fn same_texts(texts: &Lst<Txt>, others: &Lst<Txt>) -> bool
    ensures { IsTrue result ↔ (texts.now ≡ others.now) }
{
    texts == others
}

/// What a lexical mask asks of an entry. It is one pointer, since masks stand on edges; contracts
/// see it as its parts.
#[derive(Clone, Drop)]
pub struct Lexical {
    parts: Box<Parts>,
}

impl Model for Lexical {
    ghost use Rattle.ux_masks.specs.declared.lexical.Parts.{Parts};

    ghost Value = { Parts };

    ghost view = { λ lexical. lexical.parts.value };
}

impl Lexical {
    /// The mask that asks for these parts.
    pub fn new(alloc: Global, parts: Parts) -> Result<Lexical, AllocError>
        ensures { IfOk result (λ lexical. lexical ≡ parts) }
    {
        Ok(Lexical {
            parts: Box::new(alloc, parts)?,
        })
    }

    /// The parts.
    pub fn parts(&self) -> &Parts
        ensures { result.now ≡ self.now }
    {
        &self.parts
    }

    /// Whether the entry has what is asked. Takes no memory.
    pub fn meets(&self, entry: &Entry) -> bool
        ensures { IsTrue result ↔ MeetsParts self.now entry.now }
    {
        meets_parts(self.parts(), entry)
    }

    /// Whether two masks ask for the same.
    pub fn same(&self, other: &Lexical) -> bool
        ensures { IsTrue result ↔ (self.now ≡ other.now) }
    {
        self.parts().same(other.parts())
    }

    /// A copy.
    pub fn copy(&self) -> Result<Lexical, AllocError>
        ensures { IfOk result (λ lexical. lexical ≡ self.now) }
    {
        self.clone()
    }
}

impl PartialEq for Lexical {
    ghost use Rattle.std.specs.Cmp.{partial_equiv_from_equiv};
    ghost use Rattle.ux_masks.specs.Equal.{parts_eq, parts_equiv};

    ghost eq = { parts_eq };

    ghost laws = { partial_equiv_from_equiv parts_equiv };

    fn eq(&self, other: &Lexical) -> bool {
        self.same(other)
    }
}

impl Eq for Lexical {
    ghost use Rattle.ux_masks.specs.Equal.{parts_equiv};

    ghost laws = { parts_equiv };
}

impl Hash for Lexical {
    ghost use Rattle.std.specs.Hash as fed;
    ghost use Rattle.ux_masks.specs.Equal.{parts_writes, parts_eq-Decides};

    ghost hash_input = { parts_writes };

    ghost respects_eq = { (fed.same_Alike parts_writes parts_eq-Decides).fed };

    fn hash<H: Hasher>(&self, state: &mut H) {
        let parts = self.parts();
        parts.form.hash(state);
        parts.lemma.hash(state);
        parts.need.as_slice().hash(state);
        parts.forbid.as_slice().hash(state);
        parts.infl.as_slice().hash(state);
    }
}
