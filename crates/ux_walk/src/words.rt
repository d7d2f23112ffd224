//! The different tokens of a text, and which of them a literal fits.
//!
//! A literal that has the text of a token fits it. Another literal fits it only where a character
//! of the token may be an upper-case form, so most tokens are found by the literal's text alone.

ghost use Rattle.std.specs.Prelude.{◌≡◌, ◌↔◌, ◌≤◌, ℕ, Some, Contains, IfOk, IfSome, IsTrue, List, All, slice_get, length};
ghost use Rattle.std.specs.Str.{IsUtf8, chars};
ghost use Rattle.ux_alphabet.specs.Letters.{Letters};
ghost use Rattle.ux_net.specs.declared.label.Label.{Label};
ghost use Rattle.ux_base.specs.Distinct.{StandOnce};
ghost use Rattle.ux_tokens.specs.Numbers.{different_texts, texts_in};
ghost use Rattle.ux_walk.specs.Literals.{AreCounted, AreRaised, AreReady, AreUtf8, FitsText, IsFitted, IsOf, IsPlainChar, count_of as count_of_label};

use crate::matching::fits_text;
use indexmap::IndexSet;
use std::alloc::Global;
use ux_alphabet::Alphabet;
use ux_base::Mem;
use ux_net::Label;
use ux_tokens::Text;
use ux_tokens::numbering::number_of;

/// The different tokens of a text.
#[derive(Drop)]
pub struct Words<'t> {
    /// Their texts, by number.
    texts: IndexSet<&'t str>,
    /// How many characters each has, by number.
    counts: Vec<usize>,
    /// The numbers of those that a literal of another text may fit.
    raised: Vec<u32>,
}

impl<'t> Words<'t> {
    /// The different tokens of the text. Takes a step a token, and one a character of the different
    /// ones.
    pub fn of(alloc: Global, text: &'t Text, alphabet: &Alphabet) -> Mem<Words<'t>>
        ensures { IfOk result (AreReady alphabet.now (different_texts text.now)) }
    {
        text.different();
        let texts = texts_of(alloc, text)?;
        let counts = counts_of(alloc, &texts)?;
        let raised = raised_of(alloc, alphabet, &texts)?;
        Ok(Words {
            texts,
            counts,
            raised,
        })
    }

    /// The number of the token of this text, if it is one of them. Takes one look-up.
    pub fn number(&self, text: &str) -> Option<u32>
        ensures { (alphabet : Letters) (texts : List (List ℕ)) → AreReady alphabet texts self.now →
            IfSome result (λ number. slice_get texts number ≡ Some text.now) }
    {
        number_at(&self.texts, text)
    }

    /// The numbers of the tokens that the label fits, if it is a literal.
    pub fn numbers(&self, alloc: Global, alphabet: &Alphabet, label: &Label) -> Mem<Vec<u32>>
        ensures { (texts : List (List ℕ)) → AreReady alphabet.now texts self.now →
            IfOk result (λ numbers. (n : ℕ) →
            Contains numbers.items n ↔ IsFitted alphabet.now texts label.now n) }
    {
        let mut numbers = Vec::new(alloc);
        if let Some(number) = number_by(&self.texts, label) {
            numbers.push(number)?;
        }
        let count = count_of(label);
        for number in &self.raised {
            if self.is_fitted(alphabet, label, count, *number) {
                numbers.push(*number)?;
            }
        }
        Ok(numbers)
    }

    /// Whether the label is a literal of so many characters and fits the token of this number. Most
    /// tokens have another number of characters.
    fn is_fitted(&self, alphabet: &Alphabet, label: &Label, count: usize, number: u32) -> bool
        ensures fits { IsTrue result →
            IsFitted alphabet.now (texts_in self.now.texts) label.now number }
        ensures all { AreCounted (texts_in self.now.texts) self.now.counts.items →
            count ≡ count_of_label label.now →
            IsFitted alphabet.now (texts_in self.now.texts) label.now number → IsTrue result }
    {
        has_count(&self.counts, number, count) && is_fitted(&self.texts, alphabet, label, number)
    }

    /// How many comparisons it takes at most to find the numbers for so many labels.
    pub fn cost(&self, labels: usize) -> usize {
        labels.saturating_mul(self.raised.len() + 1)
    }
}

/// The different texts of the tokens, in the order of their numbers.
fn texts_of(alloc: Global, text: &Text) -> Mem<IndexSet<&str>>
    ensures texts { IfOk result (λ texts. texts_in texts ≡ different_texts text.now) }
    ensures few { IfOk result (λ texts. length (texts_in texts) ≤ 4294967296) }
    ensures utf8 { IfOk result (λ texts. AreUtf8 (texts_in texts)) }
{
    let mut texts = IndexSet::new(alloc);
    for i in 0..text.len() {
        let number = text.number(i);
        if texts.len() <= number as usize {
            number_of(&mut texts, text.token(i))?;
        }
    }
    Ok(texts)
}

/// How many characters each text has.
fn counts_of(alloc: Global, texts: &IndexSet<&str>) -> Mem<Vec<usize>>
    ensures { IfOk result (λ counts. AreCounted (texts_in texts.now) counts.items) }
{
    Ok(texts.as_slice().iter().map(char_count).collect(alloc)?)
}

/// How many characters a text has.
fn char_count(text: &&str) -> usize
    ensures { result ≡ length (chars text.now.now) }
{
    text.chars().count()
}

/// How many characters a literal has.
fn count_of(label: &Label) -> usize
    ensures { result ≡ count_of_label label.now }
{
    if let Label::CaseFolded(literal) | Label::CaseExact(literal) = label {
        char_count(&literal.as_str())
    } else {
        0
    }
}

/// Whether the token of this number has so many characters.
fn has_count(counts: &[usize], number: u32, count: usize) -> bool
    ensures { IsTrue result ↔ (slice_get counts.now number ≡ Some count) }
{
    counts.get(number as usize) == Some(&count)
}

/// The numbers of the texts that a literal of another text may fit.
fn raised_of(alloc: Global, alphabet: &Alphabet, texts: &IndexSet<&str>) -> Mem<Vec<u32>>
    requires { length (texts_in texts.now) ≤ 4294967296 }
    ensures { IfOk result (λ raised. AreRaised alphabet.now (texts_in texts.now) raised.items) }
{
    let texts = texts.as_slice();
    let mut raised = Vec::new(alloc);
    for (number, text) in texts.iter().enumerate() {
        if !is_plain(alphabet, text) {
            raised.push(number as u32)?;
        }
    }
    Ok(raised)
}

/// Whether no other characters fit those of the text.
fn is_plain(alphabet: &Alphabet, text: &str) -> bool
    ensures { IsTrue result → All (IsPlainChar alphabet.now) (chars text.now) }
{
    for c in text.chars() {
        if !is_plain_char(alphabet, c) {
            return false;
        }
    }
    true
}

/// Whether no other character fits this one.
fn is_plain_char(alphabet: &Alphabet, c: char) -> bool
    ensures { IsTrue result → IsPlainChar alphabet.now c }
{
    !alphabet.is_upper(c) && !matches!(c, ' ' | '\t' | '\r' | '\n' | '{' | '}')
}

/// The number of the token that has the text of the label, if it is a literal.
fn number_by(texts: &IndexSet<&str>, label: &Label) -> Option<u32>
    ensures number { StandOnce (texts_in texts.now) → length (texts_in texts.now) ≤ 4294967296 →
        (n : ℕ) → (result ≡ Some n) ↔ IsOf (texts_in texts.now) label.now n }
    ensures utf8 { (entry : List ℕ) → label.now ≡ Label.CaseFolded entry → IsUtf8 entry }
{
    if let Label::CaseFolded(literal) | Label::CaseExact(literal) = label {
        number_at(texts, literal.as_str())
    } else {
        None
    }
}

/// The number of this text.
fn number_at(texts: &IndexSet<&str>, text: &str) -> Option<u32>
    ensures { StandOnce (texts_in texts.now) → length (texts_in texts.now) ≤ 4294967296 →
        (n : ℕ) → (result ≡ Some n) ↔ (slice_get (texts_in texts.now) n ≡ Some text.now) }
{
    let number = texts.get_index_of(text)?;
    u32::try_from(number).ok()
}

/// Whether the label is a literal and fits the token of this number.
fn is_fitted(texts: &IndexSet<&str>, alphabet: &Alphabet, label: &Label, number: u32) -> bool
    ensures { IsTrue result ↔ IsFitted alphabet.now (texts_in texts.now) label.now number }
{
    match texts.get_index(number as usize) {
        Some(text) => fits(alphabet, label, text),
        None => false,
    }
}

/// Whether the label is a literal and fits the text.
pub fn fits(alphabet: &Alphabet, label: &Label, text: &str) -> bool
    ensures { IsTrue result ↔ FitsText alphabet.now label.now text.now }
{
    match label {
        Label::CaseFolded(entry) => fits_text(alphabet, entry.as_str(), text),
        Label::CaseExact(exact) => text == exact.as_str(),
        Label::Empty
        | Label::Mask(_)
        | Label::Brace(_)
        | Label::Space
        | Label::NoSpace
        | Label::Begin(_)
        | Label::End(_)
        | Label::Positive
        | Label::Negative
        | Label::ContextEnd
        | Label::Cut
        | Label::Call(_) => false,
    }
}
