//! What is asked once for each different token of a text, in the order of their numbers.

ghost use Rattle.std.specs.Prelude.{◌<◌, All, IfOk, IfSome, IsSomeAnd, length, slice_get};
ghost use Rattle.std.specs.List.{AllZip};
ghost use Rattle.ux_dela.specs.Sound.{IsSound};
ghost use Rattle.ux_tokens.specs.Numbers.{different_texts};
ghost use Rattle.ux_apply.specs.Applying.{AreApplying, contents};
ghost use Rattle.ux_apply.specs.Kept.{HasText, IsStart, IsWordNumber};

use crate::applying::applying_there;
use crate::cursors::{may_go_on, reach};
use crate::priority::Priority;
use crate::starts::{Start, start_there};
use std::alloc::Global;
use ux_alphabet::Alphabet;
use ux_base::Mem;
use ux_dela::Entry;
use ux_lexical_tables::Words;
use ux_lexicon::Lexicon;
use ux_tokens::Text;
use ux_tokens::kind::Kind;

/// What the dictionaries have for the different tokens of a text, by their numbers.
#[derive(Drop)]
pub(crate) struct Asked {
    /// The entries that apply to each.
    pub(crate) entries: Vec<Vec<Entry>>,
    /// How spans with entries may begin with each.
    pub(crate) starts: Vec<Start>,
}

/// What the dictionaries have for one token.
#[derive(Drop)]
struct Answer {
    entries: Vec<Entry>,
    start: Start,
}

/// The places where the different tokens first appear.
pub(crate) fn first_places(alloc: Global, text: &Text) -> Mem<Vec<usize>>
    ensures { IfOk result (λ places.
        AllZip (HasText text.now) (different_texts text.now) places.items) }
{
    let mut places = Vec::new(alloc);
    for place in 0..text.len() {
        let number = text.number(place);
        if places.len() <= number as usize {
            places.push(place)?;
        }
    }
    Ok(places)
}

/// What the dictionaries have for each different token. Asks them once for each.
pub(crate) fn ask_each<L: Lexicon>(
    alloc: Global,
    text: &Text,
    places: &[usize],
    alphabet: &Alphabet,
    dics: &[(Priority, L)],
) -> Mem<Asked>
    requires { AllZip (HasText text.now) (different_texts text.now) places.now }
    ensures applying { IfOk result (λ asked. AllZip
        (λ text row. AreApplying alphabet.now (contents L.content dics.now) text row.items)
        (different_texts text.now) asked.entries.items) }
    ensures sound { IfOk result (λ asked. All (λ row. All IsSound row.items) asked.entries.items) }
    ensures starts { IfOk result (λ asked. AllZip
        (IsStart alphabet.now (contents L.content dics.now)) (different_texts text.now)
        asked.starts.items) }
{
    let mut entries = Vec::new(alloc);
    let mut starts = Vec::new(alloc);
    for place in places {
        let answer = ask(alloc, text.token(*place), alphabet, dics)?;
        entries.push(answer.entries)?;
        starts.push(answer.start)?;
    }
    Ok(Asked { entries, starts })
}

/// What the dictionaries have for a token of this text. Goes along each of them once.
fn ask<L: Lexicon>(
    alloc: Global,
    token: &str,
    alphabet: &Alphabet,
    dics: &[(Priority, L)],
) -> Mem<Answer>
    ensures applying { IfOk result (λ answer. AreApplying alphabet.now
        (contents L.content dics.now) token.now answer.entries.items) }
    ensures sound { IfOk result (λ answer. All IsSound answer.entries.items) }
    ensures start { IfOk result (λ answer.
        IsStart alphabet.now (contents L.content dics.now) token.now answer.start) }
{
    let cursors = reach(alloc, token, alphabet, dics)?;
    if !may_go_on(&cursors) {
        return Ok(Answer {
            entries: Vec::new(alloc),
            start: Start::Never,
        });
    }
    let entries = applying_there(alloc, &cursors, token, alphabet)?;
    let start = start_there(alloc, &cursors, alphabet)?;
    Ok(Answer { entries, start })
}

/// The number of each token that is a word.
pub(crate) fn word_numbers(alloc: Global, text: &Text) -> Mem<Words>
    ensures { IfOk result (λ words. AllZip (IsWordNumber text.now) text.now words) }
{
    let mut words = Words::new(alloc);
    for place in 0..text.len() {
        words.push(word_number(text, place))?;
    }
    Ok(words)
}

/// The number of the token at the place, if it is a word.
fn word_number(text: &Text, place: usize) -> Option<u32>
    requires { place < length text.now }
    ensures number { IsSomeAnd (slice_get text.now place)
        (λ token. IsWordNumber text.now token result) }
    ensures below { IfSome result (λ number. number < length (different_texts text.now)) }
{
    match text.kind(place) {
        Kind::Word => Some(text.number(place)),
        Kind::Space | Kind::Other | Kind::Sentence | Kind::Stop | Kind::Tag => None,
    }
}
