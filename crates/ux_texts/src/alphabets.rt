//! The alphabet of a command.

ghost use Rattle.std.specs.Prelude.{◌≡◌, false, IfOk, IfErr};
ghost use Rattle.ux_base.specs.Outside.{IsLater};
ghost use Rattle.ux_plan.specs.Plans.{Reads, StopsFile};
ghost use Rattle.ux_texts.specs.Texts.{alphabet_format};

use std::alloc::Global;
use ux_alphabet::{Alphabet, AlphabetError};
use ux_base::Folder;
use ux_plan::{Stop, read_decoded, refused};
use ux_reasons::Reason;

/// Reads a file of letters, each a word of its own exactly where `chars` says so.
#[tactic(auto, using(ux_plan::proofs::Decoded::decoding))]
pub fn read_alphabet<F: Folder>(
    alloc: Global,
    name: &str,
    chars: bool,
    folder: &mut F,
) -> Result<Alphabet, Stop<Reason>>
    ensures later { IsLater (F.seen folder.old) (F.seen folder.new) }
    ensures ok { IfOk result (Reads (alphabet_format chars) name.now
        (F.seen folder.old).files) }
    ensures err { IfErr result (StopsFile (alphabet_format chars) name.now
        (F.seen folder.old) (F.seen folder.new)) }
{
    let text = read_decoded(alloc, name, folder)?;
    match Alphabet::read(alloc, text.as_str()) {
        Ok(alphabet) => Ok(with_words(alphabet, chars)),
        Err(AlphabetError::NoMemory) => Err(Stop::NoMemory),
        Err(error) => Err(refused(alloc, name, Reason::Alphabet(error))),
    }
}

/// The same letters, each a word of its own exactly where `chars` says so.
fn with_words(alphabet: Alphabet, chars: bool) -> Alphabet
    requires { alphabet.single ≡ false }
    ensures lines { result.lines ≡ alphabet.lines }
    ensures single { result.single ≡ chars }
{
    if chars {
        alphabet.by_character()
    } else {
        alphabet
    }
}
