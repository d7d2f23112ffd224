//! A text as the list of its tokens.
//!
//! The tokens are neighbouring slices of the text in which each run of white space is one space, so
//! a text keeps that and the places where tokens end.

ghost use Rattle.std.specs.Prelude.{◌≡◌, ◌≢◌, IfSome, MatchOption, ◌+◌, ◌<◌, ◌≤◌, Some, IfOk, IfErr, OnOk, IsSomeAnd, length, take, slice_get, slice_range, string_bytes};
ghost use Rattle.ux_tokens.specs.Tokens.{AreTokens, IsTag, joined};
ghost use Rattle.ux_tokens.specs.declared.kind.Kind.TheVariants.{Tag};
ghost use Rattle.ux_dela.specs.Sound.{IsSound};
ghost use Rattle.ux_base.specs.Distinct.{StandOnce};
ghost use Rattle.ux_tokens.specs.Numbers.{different_texts};
ghost use Rattle.ux_tokens.specs.Reading.{HasTooManyTokens, Refuses};

use crate::cutting::{Cut, MAX_TOKENS, cut_text};
use crate::entries::{Entries, is_tag, tag_entries};
use crate::kind::Kind;
use crate::pieces::{Pieces, part};
use crate::spaces::into_single_spaced;
use crate::text_error::TextError;
use std::alloc::Global;
use std::marker::Model;
use ux_alphabet::Alphabet;
use ux_dela::Entry;

/// The tokens of a text. Contracts see a text as their list.
#[derive(Drop)]
pub struct Text {
    text: String,
    pieces: Pieces,
    different: usize,
    entries: Entries,
}

impl Model for Text {
    ghost use Rattle.std.specs.Prelude.{List, string_bytes};
    ghost use Rattle.ux_tokens.specs.Tokens.{Token};
    ghost use Rattle.ux_tokens.specs.Pieces.{tokens_from};
    ghost use Rattle.ux_tokens.specs.Columns.{pieces_of};
    ghost use Rattle.ux_tokens.specs.Kept.{IsKept};

    ghost Value = { List Token };

    ghost view = { λ t. tokens_from (string_bytes t.text) 0 (pieces_of t.pieces) };

    ghost invariant = { λ t. IsKept (string_bytes t.text) t.pieces t.different t.entries };
}

impl Text {
    /// The tokens of the text, by the letters of the alphabet.
    pub fn read(alloc: Global, text: String, alphabet: &Alphabet) -> Result<Text, TextError>
        ensures tokens { IfOk result (λ tokens. AreTokens alphabet.now (string_bytes text) tokens) }
        ensures few { IfOk result (λ tokens. length tokens ≤ MAX_TOKENS) }
        ensures not_too_many { OnOk result (HasTooManyTokens alphabet.now (string_bytes text) → ⊥) }
        ensures refused { IfErr result (Refuses alphabet.now (string_bytes text)) }
    {
        let text = into_single_spaced(text);
        let cut = cut_text(alloc, alphabet, text.as_str())?;
        let entries = tag_entries(alloc, text.as_str(), &cut)?;
        let Cut { pieces, different } = cut;
        Ok(Text {
            text,
            pieces,
            different,
            entries,
        })
    }

    /// How many tokens there are.
    pub fn len(&self) -> usize
        ensures len { result ≡ length self.now }
        ensures few { result ≤ MAX_TOKENS }
    {
        self.pieces.len()
    }

    /// The text of the token at a place. Takes one step.
    pub fn token(&self, i: usize) -> &str
        requires { i < length self.now }
        ensures { IsSomeAnd (slice_get self.now i) (λ token. result.now ≡ token.text) }
    {
        part(self.text.as_str(), &self.pieces, i, i)
    }

    /// The texts of neighbouring tokens, joined, from the first to the last. Takes one step.
    pub fn slice(&self, first: usize, last: usize) -> &str
        requires in_order { first ≤ last }
        requires within { last < length self.now }
        ensures { result.now ≡ joined (slice_range self.now first (last + 1)) }
    {
        part(self.text.as_str(), &self.pieces, first, last)
    }

    /// The kind of the token at a place.
    pub fn kind(&self, i: usize) -> Kind
        requires { i < length self.now }
        ensures { IsSomeAnd (slice_get self.now i) (λ token. result ≡ token.kind) }
    {
        self.pieces.at(i).kind
    }

    /// The entry of the token at a place, if that is a tag. Takes one look-up.
    pub fn tag(&self, i: usize) -> Option<&Entry>
        requires { i < length self.now }
        ensures entry { IsSomeAnd (slice_get self.now i) (λ token. MatchOption result
            (token.kind ≢ Tag) (λ entry. (token.kind ≡ Tag) × IsTag token.text entry.now)) }
        ensures sound { IfSome result (λ entry. IsSound entry.now) }
    {
        let piece = self.pieces.at(i);
        if !is_tag(piece) {
            return None;
        }
        self.entries.get(&piece.number)
    }

    /// The number of the token at a place, which is the place of its text among the different ones.
    pub fn number(&self, i: usize) -> u32
        requires { i < length self.now }
        ensures place { IsSomeAnd (slice_get self.now i) (λ token. slice_get (different_texts self.now) result ≡ Some token.text) }
        ensures below { result < length (different_texts self.now) }
    {
        self.pieces.at(i).number
    }

    /// How many different tokens there are. Each number is below, and equal texts have one number.
    pub fn different(&self) -> usize
        ensures count { result ≡ length (different_texts self.now) }
        ensures once { StandOnce (different_texts self.now) }
    {
        self.different
    }
}
