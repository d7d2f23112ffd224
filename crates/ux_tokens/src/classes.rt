//! The kinds of tokens that ASCII bytes are, in a table.

ghost use Rattle.std.specs.Prelude.{◌<◌, IfOk};
ghost use Rattle.ux_tokens.specs.Blocks.{AreClasses, IsClass};

use crate::kind::Kind;
use std::alloc::{AllocError, Global};
use ux_alphabet::Alphabet;

/// How many bytes are ASCII.
const ASCII: u8 = 128;

/// The kind of each ASCII byte, by its value.
pub(crate) fn classes(alloc: Global, alphabet: &Alphabet) -> Result<Vec<Kind>, AllocError>
    ensures { IfOk result (λ kinds. AreClasses alphabet.now kinds.items) }
{
    let mut kinds = Vec::new(alloc);
    for byte in 0..ASCII {
        kinds.push(class_of(alphabet, byte))?;
    }
    Ok(kinds)
}

/// The kind of the token that an ASCII byte is, or is a letter of.
fn class_of(alphabet: &Alphabet, byte: u8) -> Kind
    requires { byte < ASCII }
    ensures { IsClass alphabet.now byte result }
{
    if byte == b' ' {
        return Kind::Space;
    }
    if alphabet.is_letter(byte as char) {
        return Kind::Word;
    }
    Kind::Other
}
