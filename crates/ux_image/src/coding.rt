//! From entries to their codes.

ghost use Rattle.std.specs.Prelude.{◌≡◌, ℕ, ◌<◌, ◌^◌, ◌∷◌, ◌↔◌, IsTrue, IfOk, MatchOption, length, drop, nat_eq};
ghost use Rattle.std.specs.List.{common_prefix_len};
ghost use Rattle.std.specs.Str.{chars, encode_utf8_all};
ghost use Rattle.ux_image.specs.Pieces.{separators};
ghost use Rattle.ux_image.specs.Codes.{entry_code, pairs_between, pairs_of_pieces, pair_between, shared_len, behind_chars};

use crate::characters::{count_chars, split_first_char};
use crate::code::{Code, Pair};
use crate::pieces::{have_same_separators, split_both};
use std::alloc::Global;
use ux_base::{Mem, Txt};
use ux_dawg::Items;
use ux_dict::Stored;

/// Whether the form has fewer than 2^32 bytes.
pub fn is_short(entry: &Stored) -> bool
    ensures { IsTrue result ↔ (length entry.now.form < 2 ^ 32) }
{
    entry.form().len() <= u32::MAX as usize
}

/// The code of an entry. Takes a step a byte. `is_short` tells what it asks.
pub fn code_of(alloc: Global, entry: &Stored) -> Mem<Code>
    requires { length entry.now.form < 2 ^ 32 }
    ensures { IfOk result (λ code. code ≡ entry_code entry.now) }
{
    Ok(Code {
        pairs: pairs_of(alloc, entry.form(), entry.lemma())?,
        codes: Txt::from_str(alloc, entry.printed_codes())?,
    })
}

/// How the lemma is made of the form.
fn pairs_of(alloc: Global, form: &str, lemma: &str) -> Mem<Items<Pair>>
    requires { length form.now < 2 ^ 32 }
    ensures { IfOk result (λ pairs. pairs ≡ pairs_between form.now lemma.now) }
{
    if have_same_separators(form, lemma) {
        return pairs_of_pieces(alloc, form, lemma);
    }
    let mut pairs = Items::empty(alloc);
    pairs.push(pair_of(alloc, form, lemma)?)?;
    Ok(pairs)
}

/// How each piece of the lemma is made of that of the form.
fn pairs_of_pieces(alloc: Global, form: &str, lemma: &str) -> Mem<Items<Pair>>
    requires short { length form.now < 2 ^ 32 }
    requires same { separators form.now ≡ separators lemma.now }
    ensures { IfOk result (λ pairs. pairs ≡ pairs_of_pieces form.now lemma.now) }
{
    let mut pairs = Items::empty(alloc);
    let mut form_rest = form;
    let mut lemma_rest = lemma;
    while let Some((in_form, in_lemma)) = split_both(form_rest, lemma_rest) {
        pairs.push(pair_of(alloc, in_form.piece, in_lemma.piece)?)?;
        form_rest = in_form.behind;
        lemma_rest = in_lemma.behind;
    }
    pairs.push(pair_of(alloc, form_rest, lemma_rest)?)?;
    Ok(pairs)
}

/// How the lemma's part is made of the form's.
fn pair_of(alloc: Global, form: &str, lemma: &str) -> Mem<Pair>
    requires { length form.now < 2 ^ 32 }
    ensures { IfOk result (λ pair. pair ≡ pair_between form.now lemma.now) }
{
    let (form_end, lemma_end) = behind_shared(form, lemma);
    Ok(Pair {
        taken: count_chars(form_end) as u32,
        added: Txt::from_str(alloc, lemma_end)?,
    })
}

/// Both texts without the characters that they have in common at the front.
pub(crate) fn behind_shared<'a>(form: &'a str, lemma: &'a str) -> (&'a str, &'a str)
    ensures form { chars result.0.now ≡ behind_chars (shared_len form.now lemma.now) form.now }
    ensures lemma { result.1.now
        ≡ encode_utf8_all (behind_chars (shared_len form.now lemma.now) lemma.now) }
{
    if form == lemma {
        return ("", "");
    }
    let mut form_rest = form;
    let mut lemma_rest = lemma;
    while let Some((form_behind, lemma_behind)) = behind_same_char(form_rest, lemma_rest) {
        form_rest = form_behind;
        lemma_rest = lemma_behind;
    }
    (form_rest, lemma_rest)
}

/// What stands behind the character that begins both texts, if one does.
fn behind_same_char<'a>(form: &'a str, lemma: &'a str) -> Option<(&'a str, &'a str)>
    ensures { MatchOption result (shared_len form.now lemma.now ≡ 0)
        (λ (form_rest, lemma_rest). (c : ℕ) × (chars form.now ≡ c ∷ chars form_rest.now)
        × (chars lemma.now ≡ c ∷ chars lemma_rest.now)) }
{
    let (form_first, form_rest) = split_first_char(form)?;
    let (lemma_first, lemma_rest) = split_first_char(lemma)?;
    if form_first == lemma_first {
        return Some((form_rest, lemma_rest));
    }
    None
}
