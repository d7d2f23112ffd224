//! The line of a link.

ghost use Rattle.std.specs.Prelude.{◌≡◌, ◌⊎◌, IfOk, IfErr, MatchOption};
ghost use Rattle.ux_sentence.specs.Files.{IsLinkLine, LinkSays, RefusesLink};
ghost use Rattle.ux_sentence.specs.declared.error.SentenceError.TheVariants.{NoMemory};
ghost use Rattle.ux_sentence.specs.declared.sentence.Link.{Link as LinkRecord};

use crate::error::SentenceError;
use crate::number::number_field;
use crate::reading::read_reading;
use crate::sentence::Link;
use std::alloc::Global;
use ux_base::Mem;

/// The link that the line of this number says, in a sentence of so many states.
pub fn read_link(
    alloc: Global,
    line: &str,
    number: usize,
    states: u64,
) -> Result<Link, SentenceError>
    ensures ok { IfOk result (LinkSays states line.now) }
    ensures err { IfErr result (λ error.
        (error ≡ NoMemory) ⊎ RefusesLink states line.now number error) }
{
    let Some(link) = link_of(alloc, line, states)? else {
        return Err(SentenceError::BadEdge { line: number });
    };
    if link.to <= link.from {
        return Err(SentenceError::Backward { line: number });
    }
    Ok(link)
}

/// The link of a line, wherever it leads in a sentence of so many states.
fn link_of(alloc: Global, line: &str, states: u64) -> Mem<Option<Link>>
    ensures { IfOk result (λ found. MatchOption found
        ((link : LinkRecord) → IsLinkLine states line.now link → ⊥) (IsLinkLine states line.now)) }
{
    let Some((from, behind)) = number_field(line) else {
        return Ok(None);
    };
    let Some((to, text)) = number_field(behind) else {
        return Ok(None);
    };
    if from >= states || to >= states {
        return Ok(None);
    }
    let Some(reading) = read_reading(alloc, text)? else {
        return Ok(None);
    };
    Ok(Some(Link { from, to, reading }))
}
