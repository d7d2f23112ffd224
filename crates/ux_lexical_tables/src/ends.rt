//! The positions after the spans that a mask accepts from a token on.
//!
//! A mask of one token accepts the position after it or nothing. Masks that ask for entries may
//! accept several positions, one for each span that has such an entry, and `<NB>` accepts the one
//! after all digits from the token on.

ghost use Rattle.std.specs.Prelude.{◌≡◌, ◌⊎◌, ◌↔◌, ◌+◌, ◌<◌, ◌≤◌, ◌∷◌, [], ℕ, All, AllPairs, IfOk, IsTrue, length};
ghost use Rattle.std.specs.Str.{chars};
ghost use Rattle.ux_masks.specs.Meets.{MeetsParts};
ghost use Rattle.ux_tokens.specs.declared.kind.Kind.TheVariants.{Word, Tag};
ghost use Rattle.ux_lexical_tables.specs.Accepting.{Accepts, AreDigits, IsTokenKind, IsWordSo};
ghost use Rattle.ux_lexical_tables.specs.Belonging.{Belongs};
ghost use Rattle.ux_lexical_tables.specs.Digits.{IsDigitRun};
ghost use Rattle.ux_lexical_tables.specs.Ends.{AreEnds, Asks, EndsSo, HasSo, IsOfCase, IsPut, IsThere};

use crate::digits::DigitRun;
use crate::spelling::{Case, is_of_case};
use crate::tables::LexicalTables;
use std::alloc::Global;
use ux_alphabet::Alphabet;
use ux_base::Mem;
use ux_dela::Entry;
use ux_masks::{Lexical, Mask};
use ux_tokens::Text;
use ux_tokens::kind::Kind;

/// The positions after the spans that the mask accepts from a token on, ascending.
pub(crate) fn accepted(
    alloc: Global,
    tables: &LexicalTables,
    text: &Text,
    alphabet: &Alphabet,
    mask: &Mask,
    i: usize,
    run: &mut DigitRun,
) -> Mem<Vec<usize>>
    requires belongs { Belongs alphabet.now text.now tables.now }
    requires inside { i < length text.now }
    requires run { IsDigitRun text.now run.old }
    ensures run { IsDigitRun text.now run.new }
    ensures ends { IfOk result (λ ends.
        AreEnds (Accepts alphabet.now text.now tables.now mask.now i) ends.items) }
{
    let simple = tables.simple(i);
    let compounds = tables.compounds(i);
    match mask {
        Mask::Word => one(alloc, text, i, is_kind(text, i, Kind::Word)),
        Mask::NotWord => one(alloc, text, i, is_kind(text, i, Kind::Other)),
        Mask::Lower => one(alloc, text, i, is_word_of(text, i, alphabet, Case::Lower)),
        Mask::NotLower => one(
            alloc,
            text,
            i,
            is_word_beyond(text, i, alphabet, Case::Lower),
        ),
        Mask::Upper => one(alloc, text, i, is_word_of(text, i, alphabet, Case::Upper)),
        Mask::NotUpper => one(
            alloc,
            text,
            i,
            is_word_beyond(text, i, alphabet, Case::Upper),
        ),
        Mask::First => one(alloc, text, i, is_word_of(text, i, alphabet, Case::First)),
        Mask::NotFirst => one(
            alloc,
            text,
            i,
            is_word_beyond(text, i, alphabet, Case::First),
        ),
        Mask::Dic => entry_ends(alloc, text, i, simple, compounds, None),
        Mask::NotDic => one(alloc, text, i, is_word_without(text, i, simple, None)),
        Mask::SDic => one(alloc, text, i, has_entry(simple, None)),
        Mask::NotSDic => one(alloc, text, i, is_word_without(text, i, simple, None)),
        Mask::CDic => entry_ends(alloc, text, i, &[], compounds, None),
        Mask::TDic => one(alloc, text, i, is_kind(text, i, Kind::Tag)),
        Mask::Nb => digit_ends(alloc, text, i, run),
        Mask::Token => one(alloc, text, i, is_token(text, i)),
        Mask::Lexical(lexical) => entry_ends(alloc, text, i, simple, compounds, Some(lexical)),
        Mask::NotLexical(lexical) => {
            one(alloc, text, i, refuses(text, i, simple, compounds, lexical))
        }
    }
}

/// The position after the token, if it is accepted.
fn one(alloc: Global, text: &Text, i: usize, accepts: bool) -> Mem<Vec<usize>>
    requires { i < length text.now }
    ensures { IfOk result (λ ends.
        AreEnds (λ k. IsTrue accepts × (k ≡ i + 1)) ends.items) }
{
    let mut ends = Vec::new(alloc);
    if accepts {
        ends.push(position_after(text, i))?;
    }
    Ok(ends)
}

/// The position after the token, if it has a simple entry that has what is asked, and those after
/// the spans that have a compound one. A span's entries are tried until one has it.
fn entry_ends(
    alloc: Global,
    text: &Text,
    i: usize,
    simple: &[Entry],
    compounds: &[(usize, Entry)],
    asked: Option<&Lexical>,
) -> Mem<Vec<usize>>
    requires inside { i < length text.now }
    requires within { All (λ member. (i ≤ member.0) × (member.0 < length text.now)) compounds.now }
    requires ordered { AllPairs (λ a b. b.0 < a.0 → ⊥) compounds.now }
    ensures { IfOk result (λ ends. AreEnds
        (λ k. (HasSo (Asks asked.entry) simple.now × (k ≡ i + 1)) ⊎ EndsSo (Asks asked.entry) compounds.now k)
        ends.items) }
{
    let accepts = has_entry(simple, asked);
    let mut ends = one(alloc, text, i, accepts)?;
    let mut told = if accepts { position_after(text, i) } else { i };
    for (last, entry) in compounds {
        let end = position_after(text, *last);
        told = put_end(&mut ends, told, end, entry, asked)?;
    }
    Ok(ends)
}

/// Puts the position last, if it is behind the one told last and the entry has what is asked. Gives
/// the one told last.
fn put_end(
    ends: &mut Vec<usize>,
    told: usize,
    end: usize,
    entry: &Entry,
    asked: Option<&Lexical>,
) -> Mem<usize>
    ensures { IfOk result
        (IsPut told end (Asks asked.entry entry.now) ends.old.items ends.new.items) }
{
    if end <= told || !has_asked(entry, asked) {
        return Ok(told);
    }
    ends.push(end)?;
    Ok(end)
}

/// The position after all digits that follow each other from the token on.
fn digit_ends(alloc: Global, text: &Text, i: usize, run: &mut DigitRun) -> Mem<Vec<usize>>
    requires inside { i < length text.now }
    requires run { IsDigitRun text.now run.old }
    ensures run { IsDigitRun text.now run.new }
    ensures ends { IfOk result (λ ends. AreEnds (AreDigits text.now i) ends.items) }
{
    let end = run.end(text, i);
    let mut ends = Vec::new(alloc);
    if i < end {
        ends.push(end)?;
    }
    Ok(ends)
}

/// Whether the token is of the kind.
fn is_kind(text: &Text, i: usize, kind: Kind) -> bool
    requires { i < length text.now }
    ensures { IsTrue result ↔ IsThere text.now i (λ token. token.kind ≡ kind) }
{
    text.kind(i) == kind
}

/// Whether `<TOKEN>` accepts the token.
fn is_token(text: &Text, i: usize) -> bool
    requires { i < length text.now }
    ensures { IsTrue result ↔ IsThere text.now i (λ token. IsTokenKind token.kind) }
{
    match text.kind(i) {
        Kind::Word | Kind::Other | Kind::Sentence | Kind::Tag => true,
        Kind::Space | Kind::Stop => false,
    }
}

/// Whether the token is a word of the case.
fn is_word_of(text: &Text, i: usize, alphabet: &Alphabet, case: Case) -> bool
    requires { i < length text.now }
    ensures { IsTrue result ↔ IsThere text.now i (IsWordSo (IsOfCase alphabet.now case)) }
{
    is_kind(text, i, Kind::Word) && is_of_case(text.token(i), alphabet, case)
}

/// Whether the token is a word that isn't of the case.
fn is_word_beyond(text: &Text, i: usize, alphabet: &Alphabet, case: Case) -> bool
    requires { i < length text.now }
    ensures { IsTrue result
        ↔ IsThere text.now i (IsWordSo (λ word. IsOfCase alphabet.now case word → ⊥)) }
{
    is_kind(text, i, Kind::Word) && !is_of_case(text.token(i), alphabet, case)
}

/// Whether the token is a word, and none of its simple entries has what is asked.
fn is_word_without(text: &Text, i: usize, simple: &[Entry], asked: Option<&Lexical>) -> bool
    requires { i < length text.now }
    ensures { IsTrue result ↔ (IsThere text.now i (λ token. token.kind ≡ Word)
        × (HasSo (Asks asked.entry) simple.now → ⊥)) }
{
    is_kind(text, i, Kind::Word) && !has_entry(simple, asked)
}

/// Whether the token is a tag, and its entry hasn't what is asked.
fn is_tag_without(
    text: &Text,
    i: usize,
    simple: &[Entry],
    compounds: &[(usize, Entry)],
    asked: Option<&Lexical>,
) -> bool
    requires { i < length text.now }
    ensures { IsTrue result ↔ (IsThere text.now i (λ token. token.kind ≡ Tag)
        × (HasSo (Asks asked.entry) simple.now ⊎ EndsSo (Asks asked.entry) compounds.now (i + 1) → ⊥)) }
{
    is_kind(text, i, Kind::Tag) && !has_entry(simple, asked) && !has_own(compounds, i, asked)
}

/// Whether the negation of the mask accepts the token.
fn refuses(
    text: &Text,
    i: usize,
    simple: &[Entry],
    compounds: &[(usize, Entry)],
    lexical: &Lexical,
) -> bool
    requires { i < length text.now }
    ensures { IsTrue result ↔ ((IsThere text.now i (λ token. token.kind ≡ Word)
        × (HasSo (MeetsParts lexical.now) simple.now → ⊥))
        ⊎ (IsThere text.now i (λ token. token.kind ≡ Tag)
        × (HasSo (MeetsParts lexical.now) simple.now
        ⊎ EndsSo (MeetsParts lexical.now) compounds.now (i + 1) → ⊥))) }
{
    is_word_without(text, i, simple, Some(lexical))
        || is_tag_without(text, i, simple, compounds, Some(lexical))
}

/// Whether some entry of the row has what is asked.
fn has_entry(row: &[Entry], asked: Option<&Lexical>) -> bool
    ensures { IsTrue result ↔ HasSo (Asks asked.entry) row.now }
{
    row.iter().any(|entry| has_asked(entry, asked))
}

/// Whether some compound entry of the token alone has what is asked.
fn has_own(row: &[(usize, Entry)], i: usize, asked: Option<&Lexical>) -> bool
    ensures { IsTrue result ↔ EndsSo (Asks asked.entry) row.now (i + 1) }
{
    row.iter()
        .any(|(last, entry)| *last == i && has_asked(entry, asked))
}

/// Whether the entry has what is asked, if anything is.
fn has_asked(entry: &Entry, asked: Option<&Lexical>) -> bool
    ensures { IsTrue result ↔ Asks asked.entry entry.now }
{
    match asked {
        Some(lexical) => lexical.meets(entry),
        None => true,
    }
}

/// The position after a token.
fn position_after(text: &Text, place: usize) -> usize
    requires { place < length text.now }
    ensures { result ≡ place + 1 }
{
    // A text has fewer tokens than there are positions.
    let count = text.len();
    prove!(place < count);
    place + 1
}
