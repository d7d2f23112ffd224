//! The fields of a link's line: two states, and the text of a reading.

ghost use Rattle.std.specs.Prelude.{MatchOption};
ghost use Rattle.ux_sentence.specs.Files.{IsLinkLine};
ghost use Rattle.ux_sentence.specs.declared.sentence.Link.{Link as LinkRecord};
ghost use Rattle.ux_reading_table.specs.Noting.{HasFields};

use ux_sentence::number::number_field;

/// What stands in the line of a link, whatever its text says.
#[derive(Clone, Copy)]
pub(crate) struct Fields<'a> {
    /// The state that the link leaves.
    pub from: u64,
    /// The state to which it leads.
    pub to: u64,
    /// The text of its reading.
    pub text: &'a str,
}

/// The fields of the line of a link in a sentence of so many states, or nothing where its states
/// aren't told. Takes time in the two numbers.
pub(crate) fn fields_of(line: &str, states: u64) -> Option<Fields<'_>>
    ensures { MatchOption result ((link : LinkRecord) → IsLinkLine states line.now link → ⊥)
        (HasFields states line.now) }
{
    let (from, behind) = number_field(line)?;
    let (to, text) = number_field(behind)?;
    if from >= states || to >= states {
        return None;
    }
    Some(Fields { from, to, text })
}
