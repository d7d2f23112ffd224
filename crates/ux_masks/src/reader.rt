//! Texts of lexical masks: names, each behind its sign, read one after the other.
//!
//! A draft holds what the names so far ask for. `read_lexical` reads a whole text, and where it stops,
//! gives back what is left of it.

ghost use Rattle.std.specs.Prelude.{◌≡◌, ◌∷◌, ℕ, List, true, Some, IfOk, IfErr, OnOk, MatchOption};
ghost use Rattle.ux_dela.specs.Reading.{characters};
ghost use Rattle.ux_masks.specs.Pieces.{begun, with_piece, sign_at, may_follow, IsOver};
ghost use Rattle.ux_masks.specs.Reading.{stop_at, IsBodyText, FailsBody, FailsLexical};
ghost use Rattle.ux_masks.specs.Signs.{EXCLAMATION};
ghost use Rattle.ux_masks.specs.Texts.{IsLexicalText};
ghost use Rattle.ux_masks.specs.declared.reader.Fault.TheVariants.{NoRoom};

use crate::lexical::{Lexical, Parts};
use crate::mask::Mask;
use crate::name::{is_code, meaning, split_name};
use crate::sign::Sign;
use std::alloc::{AllocError, AllocFailed, Global};
use std::marker::Model;
use ux_base::{Lst, Txt};

/// Why a text isn't read.
#[derive(Clone, Copy)]
pub enum Fault<'a> {
    /// No text of a lexical mask goes on with what is left here, or ends here.
    At(&'a str),
    /// Memory ran out.
    NoRoom,
}

impl<'a> From<AllocError> for Fault<'a> {
    ghost from_gives = { λ _ e. e ≡ NoRoom };

    fn from(_error: AllocError) -> Fault<'a> {
        Fault::NoRoom
    }
}

impl<'a, T: Drop> From<AllocFailed<T>> for Fault<'a> {
    ghost from_gives = { λ _ e. e ≡ NoRoom };

    fn from(_error: AllocFailed<T>) -> Fault<'a> {
        Fault::NoRoom
    }
}

/// What the names so far ask for.
#[derive(Drop)]
struct Draft {
    form: Option<Txt>,
    lemma: Option<Txt>,
    need: Vec<Txt>,
    forbid: Vec<Txt>,
    infl: Vec<Txt>,
}

impl Model for Draft {
    ghost use Rattle.ux_masks.specs.declared.lexical.Parts.{Parts};

    ghost Value = { Parts };

    ghost view = { λ draft. record {
      form = draft.form;
      lemma = draft.lemma;
      need = draft.need.items;
      forbid = draft.forbid.items;
      infl = draft.infl.items;
    } };
}

impl Draft {
    /// What the first name asks for, where this sign comes next, or none.
    fn begin(alloc: Global, name: &str, next: Option<Sign>) -> Result<Draft, AllocError>
        ensures { IfOk result (λ draft. draft ≡ begun (characters name.now) next) }
    {
        let mut draft = Draft {
            form: None,
            lemma: None,
            need: Vec::new(alloc),
            forbid: Vec::new(alloc),
            infl: Vec::new(alloc),
        };
        match next {
            Some(Sign::Comma) => {
                draft.form = Some(meaning(alloc, name)?);
                draft.lemma = Some(meaning(alloc, name)?);
            }
            Some(Sign::Dot) => draft.lemma = Some(meaning(alloc, name)?),
            None | Some(Sign::Plus | Sign::Tilde | Sign::Colon) => {
                if is_code(name) {
                    draft.need.push(meaning(alloc, name)?)?;
                } else {
                    draft.lemma = Some(meaning(alloc, name)?);
                }
            }
        }
        Ok(draft)
    }

    /// Adds what the name behind the sign asks for. An empty lemma means the form, and an empty code
    /// nothing.
    fn put(&mut self, alloc: Global, sign: Sign, name: &str) -> Result<(), AllocError>
        ensures { OnOk result (self.new ≡ with_piece self.old sign (characters name.now)) }
    {
        if name.is_empty() && !sign.needs_name() {
            return Ok(());
        }
        let text = meaning(alloc, name)?;
        match sign {
            Sign::Comma => self.lemma = Some(text),
            Sign::Dot | Sign::Plus => self.need.push(text)?,
            Sign::Tilde => self.forbid.push(text)?,
            Sign::Colon => self.infl.push(text)?,
        }
        Ok(())
    }

    /// The parts. Their memory has no room to spare.
    fn into_parts(self) -> Parts
        ensures { result ≡ self }
    {
        let Draft {
            form,
            lemma,
            mut need,
            mut forbid,
            mut infl,
        } = self;
        need.shrink_to_fit();
        forbid.shrink_to_fit();
        infl.shrink_to_fit();
        Parts {
            form,
            lemma,
            need: Lst::new(need),
            forbid: Lst::new(forbid),
            infl: Lst::new(infl),
        }
    }
}

/// The lexical mask of this text, which is none of the names. Takes a step a character.
pub fn read_lexical<'a>(alloc: Global, text: &'a str) -> Result<Mask, Fault<'a>>
    ensures ok { IfOk result (IsLexicalText text.now) }
    ensures err { IfErr result (FailsLexical text.now) }
{
    match behind_mark(text) {
        Some(body) => Ok(Mask::NotLexical(read_body(alloc, body)?)),
        None => Ok(Mask::Lexical(read_body(alloc, text)?)),
    }
}

/// What stands behind an exclamation mark in front.
fn behind_mark(text: &str) -> Option<&str>
    ensures { MatchOption result ((rest : List ℕ) → text.now ≡ EXCLAMATION ∷ rest → ⊥)
        (λ rest. text.now ≡ EXCLAMATION ∷ rest.now) }
{
    text.strip_prefix('!')
}

/// What the text asks of an entry.
fn read_body<'a>(alloc: Global, text: &'a str) -> Result<Lexical, Fault<'a>>
    ensures ok { IfOk result (IsBodyText text.now) }
    ensures err { IfErr result (FailsBody text.now) }
{
    let (first, behind) = split_name(text);
    if first.is_empty() {
        return Err(Fault::At(stop_at(behind)));
    }
    let mut draft = Draft::begin(alloc, first, Sign::at(behind))?;
    let mut last = None;
    let mut rest = behind;
    while let Some(sign) = next_sign(last, rest) {
        let (name, left) = split_name(&rest[1..]);
        if name.is_empty() && sign.needs_name() {
            return Err(Fault::At(stop_at(left)));
        }
        draft.put(alloc, sign, name)?;
        last = Some(sign);
        rest = left;
    }
    if !rest.is_empty() {
        return Err(Fault::At(stop_at(rest)));
    }
    Ok(Lexical::new(alloc, draft.into_parts())?)
}

/// The sign at the front of the text, if it may come next.
fn next_sign(last: Option<Sign>, text: &str) -> Option<Sign>
    ensures { MatchOption result (IsOver last text.now)
        (λ sign. (sign_at text.now ≡ Some sign) × (may_follow last sign ≡ true)) }
{
    Sign::at(text).filter(|sign| sign.may_follow(last))
}

/// Where reading stops at what is left. A backslash at the text's end may protect a character that
/// isn't there, so reading stops behind it.
fn stop_at(left: &str) -> &str
    ensures { result.now ≡ stop_at left.now }
{
    if left == "\\" { "" } else { left }
}
