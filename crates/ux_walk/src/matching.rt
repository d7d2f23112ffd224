//! How a label applies at a position of the text.

ghost use Rattle.std.specs.Prelude.{◌≡◌, ◌+◌, ◌^◌, ◌<◌, ◌↔◌, ℕ, Contains, IfOk, IsTrue, IsSome, IsSomeAnd, Some, length, slice_get};
ghost use Rattle.ux_mask_table.specs.MaskedTexts.{HasTable, IsKnown, accepts_in};
ghost use Rattle.ux_net.specs.declared.label.Label.{Label};
ghost use Rattle.ux_net.specs.Masks.{masks_of};
ghost use Rattle.ux_outputs.specs.Rendering.{kind_of, skip as skip_of};
ghost use Rattle.ux_meaning.specs.Texts.{Folds, FoldsTo, IsBraced, IsSpaceAt, MayStandFor, TakesOne, TakesToken};
ghost use Rattle.ux_walk.specs.Contexts.{Opens};
ghost use Rattle.ux_walk.specs.Courses.{Passes, TakesPlainly};
ghost use Rattle.ux_walk.specs.LabelMatches.{TakesUpTo};

use std::alloc::Global;
use ux_alphabet::Alphabet;
use ux_base::Mem;
use ux_mask_table::MaskedText;
use ux_masks::Mask;
use ux_net::Label;
use ux_tokens::{Kind, Text};

/// How a label applies at a position.
#[derive(Drop)]
pub enum LabelMatch {
    /// It takes the tokens up to this position.
    Takes(usize),
    /// It takes the tokens up to each of these positions, in different ways.
    Spans(Vec<usize>),
    /// It takes nothing.
    Stays,
    /// It calls this graph.
    Calls(u32),
    /// It opens a context.
    Opens,
    /// It doesn't apply.
    Closed,
}

impl LabelMatch {
    /// Whether the label doesn't apply.
    pub fn is_closed(&self) -> bool
        ensures { IsTrue result ↔ (self.now ≡ LabelMatch.Closed) }
    {
        matches!(self, LabelMatch::Closed)
    }
}

/// How the label applies at the position. One that closes a context doesn't apply by itself. A mask
/// has to stand in the net: it is looked up in the table, and takes memory for the positions up to
/// which it takes tokens.
pub fn label_match_at(
    alloc: Global,
    masked: &MaskedText,
    label: &Label,
    position: usize,
) -> Mem<LabelMatch>
    requires known { IsKnown masked.now label.now }
    ensures takes { IfOk result (λ matched. (k : ℕ) → TakesUpTo matched k
        ↔ TakesPlainly masked.now.alphabet.now masked.now.text.now masked.now.applied.now
        label.now position k) }
    ensures stays { IfOk result (λ matched.
        (matched ≡ LabelMatch.Stays) ↔ Passes masked.now.text.now label.now position) }
    ensures calls { IfOk result (λ matched. (graph : ℕ) →
        (matched ≡ LabelMatch.Calls graph) ↔ (label.now ≡ Label.Call graph)) }
    ensures opens { IfOk result (λ matched. (matched ≡ LabelMatch.Opens) ↔ Opens label.now) }
{
    let text = masked.text;
    let alphabet = masked.alphabet;
    match label {
        Label::Empty | Label::Begin(_) | Label::End(_) | Label::Cut => Ok(LabelMatch::Stays),
        Label::CaseFolded(entry) => Ok(taking(after_fold(
            text,
            alphabet,
            entry.as_str(),
            position,
        ))),
        Label::CaseExact(exact) => Ok(taking(after_exact(text, exact.as_str(), position))),
        Label::Brace(brace) => Ok(taking(after_brace(text, brace.as_str(), position))),
        Label::Mask(mask) => {
            let ends = after_mask(alloc, masked, mask, position)?;
            Ok(LabelMatch::Spans(ends))
        },
        Label::Space => Ok(taking(after_space(text, position))),
        Label::NoSpace => Ok(staying(!is_space(text, position))),
        Label::Call(graph) => Ok(LabelMatch::Calls(*graph)),
        Label::Positive | Label::Negative => Ok(LabelMatch::Opens),
        Label::ContextEnd => Ok(LabelMatch::Closed),
    }
}

/// The label match to an end, where there is one.
fn taking(end: Option<usize>) -> LabelMatch
    ensures takes { (k : ℕ) → TakesUpTo result k ↔ (end ≡ Some k) }
    ensures stays { result ≡ LabelMatch.Stays → ⊥ }
    ensures calls { (graph : ℕ) → result ≡ LabelMatch.Calls graph → ⊥ }
    ensures opens { result ≡ LabelMatch.Opens → ⊥ }
{
    match end {
        Some(end) => LabelMatch::Takes(end),
        None => LabelMatch::Closed,
    }
}

/// The label match that takes nothing, where it is open.
fn staying(is_open: bool) -> LabelMatch
    ensures takes { (k : ℕ) → TakesUpTo result k → ⊥ }
    ensures stays { (result ≡ LabelMatch.Stays) ↔ IsTrue is_open }
    ensures calls { (graph : ℕ) → result ≡ LabelMatch.Calls graph → ⊥ }
    ensures opens { result ≡ LabelMatch.Opens → ⊥ }
{
    if is_open {
        LabelMatch::Stays
    } else {
        LabelMatch::Closed
    }
}

/// The positions after the spans that the mask accepts, which may stand after a space.
fn after_mask(alloc: Global, masked: &MaskedText, mask: &Mask, position: usize) -> Mem<Vec<usize>>
    requires table { HasTable masked.now }
    requires mask { Contains (masks_of masked.now.net.now) mask.now }
    ensures { IfOk result (λ ends. (k : ℕ) → Contains ends.items k
        ↔ accepts_in masked.now mask.now (skip_of masked.now.text.now position) k) }
{
    masked.mask_ends(alloc, mask, skip(masked.text, position))
}

/// The position after the token whose characters the entry fits, which may stand after a space.
pub fn after_fold(text: &Text, alphabet: &Alphabet, entry: &str, position: usize) -> Option<usize>
    ensures { (k : ℕ) → (result ≡ Some k)
        ↔ TakesToken text.now (FoldsTo alphabet.now entry.now) position k }
{
    let position = skip(text, position);
    if may_stand_for(text, position) && fits_text(alphabet, entry, text.token(position)) {
        Some(position + 1)
    } else {
        None
    }
}

/// The position after the token of exactly this text, which may stand after a space.
pub fn after_exact(text: &Text, exact: &str, position: usize) -> Option<usize>
    ensures { (k : ℕ) → (result ≡ Some k)
        ↔ TakesToken text.now (λ token. token.text ≡ exact.now) position k }
{
    let position = skip(text, position);
    if may_stand_for(text, position) && text.token(position) == exact {
        Some(position + 1)
    } else {
        None
    }
}

/// The position after the sentence mark or tag of exactly this text, which may stand after a space.
pub fn after_brace(text: &Text, brace: &str, position: usize) -> Option<usize>
    ensures { (k : ℕ) → (result ≡ Some k)
        ↔ TakesOne text.now (λ token. IsBraced token.kind × (token.text ≡ brace.now)) position k }
{
    let position = skip(text, position);
    if is_braced(text, position) && text.token(position) == brace {
        Some(position + 1)
    } else {
        None
    }
}

/// The position after a space that stands at this one.
pub fn after_space(text: &Text, position: usize) -> Option<usize>
    ensures { (k : ℕ) → (result ≡ Some k)
        ↔ (IsSpaceAt text.now position × (k ≡ position + 1)) }
{
    if is_space(text, position) {
        Some(position + 1)
    } else {
        None
    }
}

/// The position after a space that stands at this one, or this one.
pub fn skip(text: &Text, position: usize) -> usize
    ensures { result ≡ skip_of text.now position }
{
    if is_space(text, position) {
        position + 1
    } else {
        position
    }
}

/// Whether a space stands at the position.
pub fn is_space(text: &Text, position: usize) -> bool
    ensures space { IsTrue result ↔ IsSpaceAt text.now position }
    ensures room { IsTrue result → position + 1 < 2 ^ 64 }
{
    kind_at(text, position) == Some(Kind::Space)
}

/// Whether a word or another character stands at the position.
pub fn may_stand_for(text: &Text, position: usize) -> bool
    ensures within { IsTrue result → position < length text.now }
    ensures room { IsTrue result → position + 1 < 2 ^ 64 }
    ensures kind { IsTrue result
        ↔ IsSomeAnd (slice_get text.now position) (λ token. MayStandFor token.kind) }
{
    match kind_at(text, position) {
        Some(Kind::Word | Kind::Other) => true,
        Some(Kind::Space | Kind::Sentence | Kind::Stop | Kind::Tag) | None => false,
    }
}

/// Whether a sentence mark or a tag stands at the position.
fn is_braced(text: &Text, position: usize) -> bool
    ensures within { IsTrue result → position < length text.now }
    ensures room { IsTrue result → position + 1 < 2 ^ 64 }
    ensures kind { IsTrue result
        ↔ IsSomeAnd (slice_get text.now position) (λ token. IsBraced token.kind) }
{
    match kind_at(text, position) {
        Some(Kind::Sentence | Kind::Tag) => true,
        Some(Kind::Word | Kind::Space | Kind::Other | Kind::Stop) | None => false,
    }
}

/// The kind of the token at a position, if one stands there.
fn kind_at(text: &Text, position: usize) -> Option<Kind>
    ensures kind { result ≡ kind_of (slice_get text.now position) }
    ensures within { IsSome result → position < length text.now }
    ensures room { IsSome result → position + 1 < 2 ^ 64 }
{
    if position < text.len() {
        Some(text.kind(position))
    } else {
        None
    }
}

/// Whether a text has as many characters as the entry, and each of the entry's fits.
pub fn fits_text(alphabet: &Alphabet, entry: &str, text: &str) -> bool
    ensures { IsTrue result ↔ Folds alphabet.now entry.now text.now }
{
    let mut rest = entry.chars();
    for c in text.chars() {
        let Some(first) = rest.next() else {
            return false;
        };
        if !alphabet.fits(first, c) {
            return false;
        }
    }
    match rest.next() {
        Some(_) => false,
        None => true,
    }
}
