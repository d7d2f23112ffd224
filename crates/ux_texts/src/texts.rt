//! A text in the letters of an alphabet, and the two files in their order.

ghost use Rattle.std.specs.Prelude.{IfOk, IfErr, string_bytes};
ghost use Rattle.ux_base.specs.Outside.{IsLater};
ghost use Rattle.ux_plan.specs.Plans.{Comes, Halts, Reads, StopsFile};
ghost use Rattle.ux_tokens.specs.Reading.{Refuses};
ghost use Rattle.ux_texts.specs.Texts.{ReadsTokenFile, StopsTokens, letters_and_text, text_format};

use crate::alphabets::read_alphabet;
use std::alloc::Global;
use ux_alphabet::Alphabet;
use ux_base::Folder;
use ux_plan::{Stop, read_decoded, too_large};
use ux_reasons::Reason;
use ux_tokens::{Text, TextError, token_file_of};

/// Reads the letters, and then the text in them.
#[tactic(auto, using(ux_plan::proofs::PlanSteps::plan_steps))]
pub fn read_letters_and_text<F: Folder>(
    alloc: Global,
    text: &str,
    alphabet: &str,
    chars: bool,
    folder: &mut F,
) -> Result<(Alphabet, Text), Stop<Reason>>
    ensures later { IsLater (F.seen folder.old) (F.seen folder.new) }
    ensures ok { IfOk result (λ read.
        Comes (letters_and_text text.now alphabet.now chars)
        (F.seen folder.old).files (read.0, read.1)) }
    ensures err { IfErr result
        (Halts (letters_and_text text.now alphabet.now chars)
        (F.seen folder.old) (F.seen folder.new)) }
{
    let alphabet = read_alphabet(alloc, alphabet, chars, folder)?;
    let text = read_text(alloc, text, &alphabet, folder)?;
    Ok((alphabet, text))
}

/// Reads a text, as the list of its tokens.
#[tactic(auto, using(ux_plan::proofs::Decoded::decoding))]
pub fn read_text<F: Folder>(
    alloc: Global,
    name: &str,
    alphabet: &Alphabet,
    folder: &mut F,
) -> Result<Text, Stop<Reason>>
    ensures later { IsLater (F.seen folder.old) (F.seen folder.new) }
    ensures ok { IfOk result (Reads (text_format alphabet.now) name.now
        (F.seen folder.old).files) }
    ensures err { IfErr result (StopsFile (text_format alphabet.now) name.now
        (F.seen folder.old) (F.seen folder.new)) }
{
    let text = read_decoded(alloc, name, folder)?;
    match Text::read(alloc, text, alphabet) {
        Ok(text) => Ok(text),
        Err(error) => Err(no_tokens(alloc, name, error)),
    }
}

/// Reads a text, and gives the token file of its tokens, which aren't kept.
#[tactic(auto, using(ux_plan::proofs::Decoded::decoding))]
pub fn read_token_file<F: Folder>(
    alloc: Global,
    name: &str,
    alphabet: &Alphabet,
    folder: &mut F,
) -> Result<String, Stop<Reason>>
    ensures later { IsLater (F.seen folder.old) (F.seen folder.new) }
    ensures ok { IfOk result (λ file. ReadsTokenFile alphabet.now name.now
        (F.seen folder.old).files (string_bytes file)) }
    ensures err { IfErr result (StopsFile (text_format alphabet.now) name.now
        (F.seen folder.old) (F.seen folder.new)) }
{
    let text = read_decoded(alloc, name, folder)?;
    match token_file_of(alloc, text, alphabet) {
        Ok(file) => Ok(file),
        Err(error) => Err(no_tokens(alloc, name, error)),
    }
}

/// The stop that names a text with too many tokens, if memory didn't run out.
fn no_tokens(alloc: Global, name: &str, error: TextError) -> Stop<Reason>
    ensures { StopsTokens name.now error result }
{
    match error {
        TextError::NoMemory => Stop::NoMemory,
        TextError::TooManyTokens => too_large(alloc, name),
    }
}
