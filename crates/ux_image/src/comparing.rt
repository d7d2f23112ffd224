//! Whether a list of codes is that of a form's entries, without making their codes.

ghost use Rattle.std.specs.Prelude.{◌≡◌, ◌≢◌, List, [], ◌∷◌, ◌↔◌, All, IsTrue, MatchOption, map};
ghost use Rattle.ux_image.specs.Codes.{entry_code, pair_between, pairs_between, pairs_of_pieces};
ghost use Rattle.ux_image.specs.Contents.{code_list};
ghost use Rattle.ux_image.specs.Cutting.{UNCHANGED};
ghost use Rattle.ux_image.specs.Pieces.{separators};
ghost use Rattle.ux_image.specs.declared.code.Code.{Code as CodeRecord};
ghost use Rattle.ux_image.specs.declared.code.Pair.{Pair as PairRecord};

use crate::characters::count_chars;
use crate::code::{Code, CodeList, Pair};
use crate::coding::behind_shared;
use crate::pieces::{count_separators, have_same_separators, split_both, split_piece};
use ux_dict::Stored;

/// Whether the list is that of the entries. Takes a step a byte, and no memory.
pub(crate) fn is_list_of(list: &CodeList, entries: &[Stored]) -> bool
    ensures { IsTrue result ↔ (list.now ≡ code_list entries.now) }
{
    are_codes_of(list.codes.as_slice(), entries)
}

/// Whether the codes are those of the entries.
fn are_codes_of(codes: &[Code], entries: &[Stored]) -> bool
    ensures { IsTrue result ↔ (codes.now ≡ map entry_code entries.now) }
{
    let mut codes_left = codes;
    for entry in entries {
        let Some(later) = behind_code(codes_left, entry) else {
            return false;
        };
        codes_left = later;
    }
    codes_left.is_empty()
}

/// The codes behind the first one, if that is the code of the entry.
fn behind_code<'a>(codes: &'a [Code], entry: &Stored) -> Option<&'a [Code]>
    ensures { MatchOption result
        ((later : List CodeRecord) → codes.now ≢ entry_code entry.now ∷ later)
        (λ later. codes.now ≡ entry_code entry.now ∷ later.now) }
{
    let (code, later) = codes.split_first()?;
    if is_code_of(code, entry) {
        return Some(later);
    }
    None
}

/// Whether the code is that of the entry.
fn is_code_of(code: &Code, entry: &Stored) -> bool
    ensures { IsTrue result ↔ (code.now ≡ entry_code entry.now) }
{
    code.codes.as_str() == entry.printed_codes() && make_lemma_of(code.pairs.as_slice(), entry)
}

/// Whether the pairs make the lemma of the entry's form as its code does.
fn make_lemma_of(pairs: &[Pair], entry: &Stored) -> bool
    ensures { IsTrue result ↔ (pairs.now ≡ pairs_between entry.now.form entry.now.lemma) }
{
    match entry.other_lemma() {
        Some(lemma) => are_pairs_of(pairs, entry.form(), lemma),
        None => are_unchanged(pairs, entry.form()),
    }
}

/// Whether the pairs leave each piece of the form as it is. Compares no letters.
fn are_unchanged(pairs: &[Pair], form: &str) -> bool
    ensures { IsTrue result ↔ (pairs.now ≡ pairs_between form.now form.now) }
{
    let Some((_, later)) = pairs.split_first() else {
        return false;
    };
    if later.len() != count_separators(form) {
        return false;
    }
    change_nothing(pairs)
}

/// Whether each pair takes nothing off, and adds nothing.
fn change_nothing(pairs: &[Pair]) -> bool
    ensures { IsTrue result ↔ All (λ (pair : PairRecord). pair ≡ UNCHANGED) pairs.now }
{
    pairs.iter().all(|pair| is_unchanged(pair))
}

/// Whether the pair takes nothing off, and adds nothing.
fn is_unchanged(pair: &Pair) -> bool
    ensures { IsTrue result ↔ (pair.now ≡ UNCHANGED) }
{
    pair.taken == 0 && pair.added.as_str().is_empty()
}

/// Whether the pairs make the lemma of the form as its code does.
fn are_pairs_of(pairs: &[Pair], form: &str, lemma: &str) -> bool
    ensures { IsTrue result ↔ (pairs.now ≡ pairs_between form.now lemma.now) }
{
    if split_piece(form).is_some() && have_same_separators(form, lemma) {
        return are_pairs_of_pieces(pairs, form, lemma);
    }
    is_pair_of_whole(pairs, form, lemma)
}

/// Whether the pairs are those of the pieces.
fn are_pairs_of_pieces(pairs: &[Pair], form: &str, lemma: &str) -> bool
    requires { separators form.now ≡ separators lemma.now }
    ensures { IsTrue result ↔ (pairs.now ≡ pairs_of_pieces form.now lemma.now) }
{
    let mut pairs_left = pairs;
    let mut form_rest = form;
    let mut lemma_rest = lemma;
    while let Some((in_form, in_lemma)) = split_both(form_rest, lemma_rest) {
        let Some(later) = behind_pair(pairs_left, in_form.piece, in_lemma.piece) else {
            return false;
        };
        pairs_left = later;
        form_rest = in_form.behind;
        lemma_rest = in_lemma.behind;
    }
    is_pair_of_whole(pairs_left, form_rest, lemma_rest)
}

/// Whether there is one pair, that of form and lemma.
fn is_pair_of_whole(pairs: &[Pair], form: &str, lemma: &str) -> bool
    ensures { IsTrue result ↔ (pairs.now ≡ pair_between form.now lemma.now ∷ []) }
{
    match behind_pair(pairs, form, lemma) {
        Some(later) => later.is_empty(),
        None => false,
    }
}

/// The pairs behind the first one, if that is the pair of form and lemma.
fn behind_pair<'a>(pairs: &'a [Pair], form: &str, lemma: &str) -> Option<&'a [Pair]>
    ensures { MatchOption result
        ((later : List PairRecord) → pairs.now ≢ pair_between form.now lemma.now ∷ later)
        (λ later. pairs.now ≡ pair_between form.now lemma.now ∷ later.now) }
{
    let (pair, later) = pairs.split_first()?;
    if is_pair_of(pair, form, lemma) {
        return Some(later);
    }
    None
}

/// Whether the pair is that of form and lemma.
fn is_pair_of(pair: &Pair, form: &str, lemma: &str) -> bool
    ensures { IsTrue result ↔ (pair.now ≡ pair_between form.now lemma.now) }
{
    let (form_end, lemma_end) = behind_shared(form, lemma);
    pair.taken as usize == count_chars(form_end) && pair.added.as_str() == lemma_end
}
