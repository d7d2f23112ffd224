//! The token at the front of a text.

ghost use Rattle.std.specs.Prelude.{◌≡◌, ℕ, ◌<◌, ◌≤◌, ◌∷◌, All, length, take, drop};
ghost use Rattle.std.specs.Str.{IsCharBoundary, chars};
ghost use Rattle.ux_alphabet.specs.Letters.{IsLetter};
ghost use Rattle.ux_tokens.specs.First.{BeginsWithNoLetter, IsFirstToken};
ghost use Rattle.ux_tokens.specs.Tokens.{IsPlain, IsWord};
ghost use Rattle.ux_tokens.specs.declared.kind.Kind.TheVariants.{Word};

use crate::kind::Kind;
use ux_alphabet::Alphabet;

/// The length in bytes of the word at the front, or 0 where no letter stands there. The word is one
/// letter where the alphabet is single, and else the longest run of letters.
fn word_len(alphabet: &Alphabet, text: &str) -> usize
    ensures cut { IsCharBoundary text.now result }
    ensures word { 0 < result → IsFirstToken alphabet.now text.now Word result }
    ensures none { result ≡ 0 → BeginsWithNoLetter alphabet.now text.now }
{
    if alphabet.single() {
        return letter_len(alphabet, text);
    }
    run_len(alphabet, text)
}

/// The length in bytes of the letter at the front, or 0 where none stands there.
fn letter_len(alphabet: &Alphabet, text: &str) -> usize
    ensures cut { IsCharBoundary text.now result }
    ensures word { 0 < result → IsWord alphabet.now (take result text.now) }
    ensures none { result ≡ 0 → BeginsWithNoLetter alphabet.now text.now }
{
    let Some(c) = text.chars().next() else {
        return 0;
    };
    if alphabet.is_letter(c) {
        return c.len_utf8();
    }
    0
}

/// The length in bytes of the longest run of letters at the front. Most letters are ASCII, and are
/// looked at as bytes: characters are decoded only from the first other one on.
fn run_len(alphabet: &Alphabet, text: &str) -> usize
    ensures cut { IsCharBoundary text.now result }
    ensures letters { All (IsLetter alphabet.now) (chars (take result text.now)) }
    ensures ends { BeginsWithNoLetter alphabet.now (drop result text.now) }
{
    let bytes = text.as_bytes();
    for place in 0..bytes.len() {
        let byte = bytes[place];
        if byte >= 128 {
            return place + decoded_run_len(alphabet, &text[place..]);
        }
        if !alphabet.is_letter(byte as char) {
            return place;
        }
    }
    text.len()
}

/// The same, by characters.
fn decoded_run_len(alphabet: &Alphabet, text: &str) -> usize
    ensures cut { IsCharBoundary text.now result }
    ensures letters { All (IsLetter alphabet.now) (chars (take result text.now)) }
    ensures ends { BeginsWithNoLetter alphabet.now (drop result text.now) }
{
    for (place, c) in text.char_indices() {
        if !alphabet.is_letter(c) {
            return place;
        }
    }
    text.len()
}

/// The kind and the length in bytes of the token at the front.
pub fn first_token(alphabet: &Alphabet, text: &str) -> (Kind, usize)
    requires { 0 < length text.now }
    ensures cut { IsCharBoundary text.now result.1 }
    ensures some { 0 < result.1 }
    ensures is { IsFirstToken alphabet.now text.now result.0 result.1 }
    ensures plain { IsPlain result.0 }
{
    let word = word_len(alphabet, text);
    if word > 0 {
        return (Kind::Word, word);
    }
    match text.chars().next() {
        Some(' ') => (Kind::Space, 1),
        Some(c) => (Kind::Other, c.len_utf8()),
        None => unreachable!(),
    }
}
