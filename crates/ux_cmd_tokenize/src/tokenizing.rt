//! The token file of a text.

ghost use Rattle.std.specs.Prelude.{IfErr, IfOk};
ghost use Rattle.ux_base.specs.Outside.{IsLater};
ghost use Rattle.ux_plan.specs.Commands.{Answers};
ghost use Rattle.ux_plan.specs.Plans.{Halts};
ghost use Rattle.ux_cmd_tokenize.specs.Tokenize.{tokenize as tokenize_command};

use std::alloc::Global;
use ux_base::Folder;
use ux_plan::Stop;
use ux_reasons::Reason;
use ux_texts::{read_alphabet, read_token_file};

/// Reads an alphabet and a text in its letters, and gives the token file of the text. With `chars`
/// each letter is a word of its own. The tokens aren't kept.
#[tactic(auto, using(ux_plan::proofs::PlanSteps::plan_steps))]
pub fn tokenize<F: Folder>(
    alloc: Global,
    text: &str,
    alphabet: &str,
    chars: bool,
    folder: &mut F,
) -> Result<Vec<u8>, Stop<Reason>>
    ensures later { IsLater (F.seen folder.old) (F.seen folder.new) }
    ensures ok { IfOk result (λ answer.
        Answers (tokenize_command text.now alphabet.now chars) (F.seen folder.old).files
        answer.items) }
    ensures err { IfErr result (Halts (tokenize_command text.now alphabet.now chars).plan
        (F.seen folder.old) (F.seen folder.new)) }
{
    let alphabet = read_alphabet(alloc, alphabet, chars, folder)?;
    let file = read_token_file(alloc, text, &alphabet, folder)?;
    Ok(file.into_bytes())
}
