//! The token file of a text that keeps none of its tokens: only the different ones.

ghost use Rattle.std.specs.Prelude.{◌≡◌, [], IfOk, IfErr, OnOk, string_bytes};
ghost use Rattle.ux_tokens.specs.Cutting.{IsListing, RefusesCut};
ghost use Rattle.ux_tokens.specs.Known.{AreKnown};
ghost use Rattle.ux_tokens.specs.Numbers.{texts_in};
ghost use Rattle.ux_tokens.specs.Reading.{HasTooManyTokens, Refuses};
ghost use Rattle.ux_tokens.specs.TokenFile.{IsTokenFileOf, file_of};

use crate::cutting::MAX_TOKENS;
use crate::front::number_front;
use crate::known::Known;
use crate::printing::push_line;
use crate::spaces::into_single_spaced;
use crate::text_error::TextError;
use indexmap::IndexSet;
use std::alloc::{AllocError, Global};
use ux_alphabet::Alphabet;

/// The token file of a text: the number of its different tokens, and then each of them on a line,
/// in order of first appearance. Takes a step a character, and keeps the different tokens alone.
pub fn token_file_of(alloc: Global, text: String, alphabet: &Alphabet) -> Result<String, TextError>
    ensures ok { IfOk result (λ file.
        IsTokenFileOf alphabet.now (string_bytes text) (string_bytes file)) }
    ensures not_too_many { OnOk result (HasTooManyTokens alphabet.now (string_bytes text) → ⊥) }
    ensures refused { IfErr result (Refuses alphabet.now (string_bytes text)) }
{
    let text = into_single_spaced(text);
    let texts = different_tokens(alloc, alphabet, text.as_str())?;
    Ok(print_texts(alloc, &texts)?)
}

/// The texts of the different tokens, in order of first appearance.
fn different_tokens<'a>(
    alloc: Global,
    alphabet: &Alphabet,
    text: &'a str,
) -> Result<IndexSet<&'a str>, TextError>
    ensures ok { IfOk result (λ texts. IsListing alphabet.now text.now (texts_in texts)) }
    ensures err { IfErr result (RefusesCut alphabet.now text.now) }
{
    let mut texts: IndexSet<&str> = IndexSet::new(alloc);
    let mut known = Known::new(alloc, text.len())?;
    add_tokens(alphabet, &mut texts, &mut known, text)?;
    Ok(texts)
}

/// Adds the texts of the tokens, each once.
fn add_tokens<'a>(
    alphabet: &Alphabet,
    texts: &mut IndexSet<&'a str>,
    known: &mut Known,
    text: &'a str,
) -> Result<(), TextError>
    requires none { texts_in texts.now ≡ [] }
    requires known { AreKnown [] known.now }
    ensures ok { OnOk result (IsListing alphabet.now text.now (texts_in texts.new)) }
    ensures err { IfErr result (RefusesCut alphabet.now text.now) }
{
    let mut free = 0;
    let mut count = 0;
    let mut end = 0;
    while end < text.len() {
        if count == MAX_TOKENS {
            return Err(TextError::TooManyTokens);
        }
        let front = number_front(alphabet, texts, known, &mut free, text, end)?;
        end += front.end;
        count += 1;
    }
    Ok(())
}

/// The number of the texts, and then each of them on a line.
fn print_texts(alloc: Global, texts: &IndexSet<&str>) -> Result<String, AllocError>
    ensures { IfOk result (λ file. string_bytes file ≡ file_of (texts_in texts.now)) }
{
    let mut file = format!(in alloc; "{}\n", texts.len())?;
    for text in texts.iter() {
        push_line(&mut file, text)?;
    }
    Ok(file)
}
