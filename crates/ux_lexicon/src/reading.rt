//! Dictionaries of files of forms.
//!
//! The forms become an automaton, which shares what they have in common. A letter of a form that shares
//! nothing is a state of its own, and takes many times the memory that it takes in the file. So a file
//! with a line that no word fills stays a list.

ghost use Rattle.std.specs.Prelude.{◌≡◌, ◌⊎◌, IfErr, IfOk};
ghost use Rattle.ux_dela.specs.Files.{Refuses};
ghost use Rattle.ux_dela.specs.declared.error.DelaError.{DelaError};
ghost use Rattle.ux_dela.specs.declared.error.DelaError.TheVariants.{NoMemory};
ghost use Rattle.ux_dict.specs.FileContent.{IsFileContent};
ghost use Rattle.ux_lexicon.specs.Any.{content_of};

use crate::any_lexicon::AnyLexicon;
use std::alloc::Global;
use ux_base::lines;
use ux_dela::DelaError;
use ux_dict::ListLexicon;
use ux_image_lexicon::read_text;

/// How many bytes a line has at most in a file whose forms become an automaton.
const LONGEST_LINE: usize = 65_536;

/// The dictionary of a file of forms, or why the file's first bad line is refused: the automaton of the
/// forms, and a list of the entries where a line has more than 65,536 bytes. Takes a step a byte and
/// sorts the entries.
pub fn read_dictionary(alloc: Global, text: &str) -> Result<AnyLexicon, DelaError>
    ensures ok { IfOk result (λ lexicon. IsFileContent text.now (content_of lexicon)) }
    ensures refused { IfErr result (λ error. (error ≡ NoMemory) ⊎ Refuses text.now error) }
    ensures exact { IfOk result (λ _. (error : DelaError) → Refuses text.now error → ⊥) }
{
    if has_long_line(text) {
        return Ok(AnyLexicon::List(ListLexicon::read(alloc, text)?));
    }
    Ok(AnyLexicon::Image(read_text(alloc, text)?))
}

/// Whether a line has more bytes than the forms of an automaton may.
fn has_long_line(text: &str) -> bool {
    lines(text).any(|line| line.len() > LONGEST_LINE)
}
