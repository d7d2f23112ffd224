//! What dictionary lines say: entries of forms, and lemmas with their classes.
//!
//! All are records of texts. Copies share the lists of codes.

ghost use Rattle.std.specs.Prelude.{◌≡◌, ◌↔◌, IsTrue, IfOk};

use crate::texts::Texts;
use std::alloc::AllocError;
use ux_base::Txt;

/// What a line of forms says of a form.
#[derive(Clone, Drop)]
pub struct Entry {
    /// The form, as it stands in a text.
    pub form: Txt,
    /// The lemma of which it is a form.
    pub lemma: Txt,
    /// The grammatical code.
    pub gram: Txt,
    /// The semantic codes.
    pub sem: Texts,
    /// The inflection codes.
    pub infl: Texts,
}

/// What a line of lemmas says of a lemma.
#[derive(Drop)]
pub struct Stem {
    /// The lemma.
    pub lemma: Txt,
    /// The whole code, which names the way in which the lemma is inflected.
    pub class: Txt,
    /// The grammatical code: the class without its digits.
    pub gram: Txt,
    /// The semantic codes.
    pub sem: Texts,
}

/// The codes of an entry.
#[derive(Clone, Drop)]
pub struct Codes {
    /// The grammatical code.
    pub gram: Txt,
    /// The semantic codes.
    pub sem: Texts,
    /// The inflection codes.
    pub infl: Texts,
}

/// Whether two texts are equal.
fn same_text(a: &Txt, b: &Txt) -> bool
    ensures { IsTrue result ↔ (a.now ≡ b.now) }
{
    a == b
}

/// Whether two lists of texts are equal.
fn same_texts(a: &Texts, b: &Texts) -> bool
    ensures { IsTrue result ↔ (a.now ≡ b.now) }
{
    a == b
}

impl Entry {
    /// Whether two entries are equal.
    pub fn same(&self, other: &Entry) -> bool
        ensures { IsTrue result ↔ (self.now ≡ other.now) }
    {
        same_text(&self.form, &other.form)
            && same_text(&self.lemma, &other.lemma)
            && same_text(&self.gram, &other.gram)
            && same_texts(&self.sem, &other.sem)
            && same_texts(&self.infl, &other.infl)
    }

    /// A copy.
    pub fn copy(&self) -> Result<Entry, AllocError>
        ensures { IfOk result (λ e. e ≡ self.now) }
    {
        self.clone()
    }
}

impl Codes {
    /// Whether two lists of codes are equal.
    pub fn same(&self, other: &Codes) -> bool
        ensures { IsTrue result ↔ (self.now ≡ other.now) }
    {
        same_text(&self.gram, &other.gram)
            && same_texts(&self.sem, &other.sem)
            && same_texts(&self.infl, &other.infl)
    }

    /// A copy.
    pub fn copy(&self) -> Result<Codes, AllocError>
        ensures { IfOk result (λ c. c ≡ self.now) }
    {
        self.clone()
    }
}
