//! The codes of an output: each has a colon before it.

ghost use Rattle.std.specs.Prelude.{◌≡◌, ◌∷◌, ◌++◌, ℕ, List, IfOk, OnOk};
ghost use Rattle.ux_dela.specs.Signs.{COLON};
ghost use Rattle.ux_inflect.specs.Inflected.{HasCodes};
ghost use Rattle.ux_inflect.specs.Places.{after_byte, after_text};

use std::alloc::Global;
use ux_base::Mem;
use ux_dela::{Joined, Texts};

/// How far the codes of an output are read.
#[derive(Clone, Copy, PartialEq, Eq, Hash, Drop)]
pub(crate) enum CodeState {
    /// Nothing was put out.
    Nothing,
    /// A colon was the last.
    AtColon,
    /// A character of a code was the last.
    InCode,
    /// The output isn't codes with a colon before each.
    Broken,
}

/// How far the codes are read after the text.
#[tactic(auto, using(crate::proofs::ListLemmas::after_text_more))]
pub(crate) fn after_put(codes: CodeState, text: &str) -> CodeState
    ensures { result ≡ after_text codes text.now }
{
    let mut codes = codes;
    for byte in text.as_bytes() {
        codes = after(codes, *byte);
    }
    codes
}

/// How far they are read after the byte.
fn after(codes: CodeState, byte: u8) -> CodeState
    ensures { result ≡ after_byte codes byte }
{
    match codes {
        CodeState::Nothing => {
            if byte == b':' {
                return CodeState::AtColon;
            }
            CodeState::Broken
        },
        CodeState::AtColon => {
            if byte == b':' {
                return CodeState::Broken;
            }
            CodeState::InCode
        },
        CodeState::InCode => {
            if byte == b':' {
                return CodeState::AtColon;
            }
            CodeState::InCode
        },
        CodeState::Broken => CodeState::Broken,
    }
}

/// The codes of an output that has codes.
pub(crate) fn codes_of(alloc: Global, output: &str) -> Mem<Texts>
    ensures { IfOk result (λ texts. (codes : List (List ℕ)) → HasCodes output.now codes →
        texts ≡ codes) }
{
    let joined = all_codes(alloc, output)?;
    let texts = Texts::new(alloc, joined)?;
    Ok(texts)
}

/// The same, as they are joined.
fn all_codes(alloc: Global, output: &str) -> Mem<Joined>
    ensures { IfOk result (λ joined. (codes : List (List ℕ)) → HasCodes output.now codes →
        joined ≡ codes) }
{
    let mut codes = Joined::new(alloc);
    match output.split_once(':') {
        Some((_front, behind)) => {
            put_codes(&mut codes, behind)?;
            Ok(codes)
        },
        None => Ok(codes),
    }
}

/// Puts the codes that colons part.
fn put_codes(codes: &mut Joined, text: &str) -> Mem<()>
    ensures { OnOk result ((more : List (List ℕ)) → (code : List ℕ) → HasCodes (COLON ∷ text.now) (code ∷ more) →
        codes.new ≡ codes.old ++ code ∷ more) }
{
    let mut rest = text;
    while let Some((code, behind)) = rest.split_once(':') {
        codes.push(code)?;
        rest = behind;
    }
    codes.push(rest)?;
    Ok(())
}
