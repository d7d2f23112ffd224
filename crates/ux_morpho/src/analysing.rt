//! The entries that a grammar gives to a token.

ghost use Rattle.std.specs.Prelude.{◌≡◌, ◌⊎◌, IfErr, IfOk, OnOk, IsTrue};
ghost use Rattle.ux_apply.specs.Applying.{contents};
ghost use Rattle.ux_net.specs.Nets.{net_grammar};
ghost use Rattle.ux_tokens.specs.Reading.{HasTooManyTokens};
ghost use Rattle.ux_tokens.specs.Tokens.{AreTokens};
ghost use Rattle.ux_morpho.specs.Analysers.{IsAnalyser};
ghost use Rattle.ux_morpho.specs.Analyses.{AreEntryLines, GivesBadLine};

use crate::analyser::Analyser;
use crate::lines::entry_lines;
use crate::outputs::outputs_of;
use std::alloc::Global;
use ux_alphabet::Alphabet;
use ux_apply::{Priority, apply};
use ux_base::{Mem, NoMemory, Txt};
use ux_lexicon::Lexicon;
use ux_marks::MorphError;
use ux_tokens::{Text, TextError};

/// As many letters a token may have.
const MOST_LETTERS: usize = 67_108_864;

impl<'a> Analyser<'a> {
    /// The lines of the entries that the grammar gives to the token, by bytes, each once. The alphabet
    /// cuts the token into its letters. The dictionaries stand for parts of it.
    ///
    /// Takes a step for each letter and each different mask of the net, a chart of the letters, and a
    /// step for each derivation from the first letter if the main graph takes all letters.
    pub fn analyse<L: Lexicon>(
        &self,
        alloc: Global,
        token: &str,
        dics: &[(Priority, L)],
    ) -> Result<Vec<Txt>, MorphError>
        requires ready { IsAnalyser self.now }
        requires few { HasTooManyTokens self.now.alphabet.now token.now → ⊥ }
        ensures ok { IfOk result (λ lines. AreEntryLines self.now.alphabet.now
            (contents L.content dics.now) (net_grammar self.now.net.now) token.now lines.items) }
        ensures accepted { OnOk result (GivesBadLine self.now.alphabet.now
            (contents L.content dics.now) (net_grammar self.now.net.now) token.now → ⊥) }
        ensures err { IfErr result (λ error. (error ≡ MorphError.NoMemory)
            ⊎ ((error ≡ MorphError.BadOutput token.now)
            × GivesBadLine self.now.alphabet.now (contents L.content dics.now)
            (net_grammar self.now.net.now) token.now)) }
    {
        let letters = letters_of(alloc, token, self.alphabet)?;
        let applied = apply(alloc, &letters, self.alphabet, dics)?;
        let outputs = outputs_of(alloc, self, &letters, &applied)?;
        entry_lines(alloc, token, &outputs)
    }
}

/// The letters of a token, as the tokens of a text.
fn letters_of(alloc: Global, token: &str, alphabet: &Alphabet) -> Mem<Text>
    requires few { HasTooManyTokens alphabet.now token.now → ⊥ }
    ensures { IfOk result (λ letters. AreTokens alphabet.now token.now letters) }
{
    let token = String::from_str(alloc, token)?;
    match Text::read(alloc, token, alphabet) {
        Ok(letters) => Ok(letters),
        Err(TextError::NoMemory) => Err(NoMemory),
        Err(TextError::TooManyTokens) => unreachable!(),
    }
}

/// Whether the token has no more letters than a text may have tokens. A token of fewer bytes isn't looked
/// at.
pub fn has_few_letters(alloc: Global, token: &str, alphabet: &Alphabet) -> Mem<bool>
    ensures few { IfOk result (λ few. IsTrue few → HasTooManyTokens alphabet.now token.now → ⊥) }
    ensures many { IfOk result (λ few. (IsTrue few → ⊥) → HasTooManyTokens alphabet.now token.now) }
{
    if token.len() <= MOST_LETTERS {
        return Ok(true);
    }
    let token = String::from_str(alloc, token)?;
    match Text::read(alloc, token, alphabet) {
        Ok(_letters) => Ok(true),
        Err(TextError::NoMemory) => Err(NoMemory),
        Err(TextError::TooManyTokens) => Ok(false),
    }
}
