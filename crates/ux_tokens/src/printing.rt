//! The token file: the different tokens of a text, each on a line.

ghost use Rattle.std.specs.Prelude.{◌≡◌, ◌++◌, IfOk, OnOk, string_bytes};
ghost use Rattle.ux_tokens.specs.TokenFile.{line_of, token_file};

use crate::text::Text;
use std::alloc::{AllocError, Global};
use ux_base::Mem;

/// The token file of a text: the number of its different tokens, and then each of them on a line,
/// in order of number. Takes a step a token.
pub fn print_tokens(alloc: Global, text: &Text) -> Mem<String>
    ensures { IfOk result (λ file. string_bytes file ≡ token_file text.now) }
{
    let mut file = format!(in alloc; "{}\n", text.different())?;
    let mut printed = 0;
    for i in 0..text.len() {
        if text.number(i) as usize == printed {
            push_line(&mut file, text.token(i))?;
            printed += 1;
        }
    }
    Ok(file)
}

/// Puts the text on a line of its own.
pub(crate) fn push_line(file: &mut String, text: &str) -> Result<(), AllocError>
    ensures { OnOk result (string_bytes file.new ≡ string_bytes file.old ++ line_of text.now) }
{
    file.push_str(text)?;
    file.push('\n')
}
