//! What the text of a reading says: an entry between braces, or the text itself.

ghost use Rattle.std.specs.Prelude.{◌≡◌, ◌≢◌, ◌↔◌, [], IsTrue, IfOk, MatchOption};
ghost use Rattle.std.specs.List.{list_any};
ghost use Rattle.ux_dela.specs.Delaf.{DelafParts, DelafSays, IsDelafLine};
ghost use Rattle.ux_dela.specs.Signs.{is_slash};
ghost use Rattle.ux_dela.specs.declared.entry.Entry.{Entry as EntryRecord};
ghost use Rattle.ux_sentence.specs.Readings.{IsBraced, IsEntryBody, IsReading, is_separator};
ghost use Rattle.ux_sentence.specs.declared.sentence.Reading.{Reading as ReadingRecord};
ghost use Rattle.std.specs.Prelude.{List, ℕ};

use crate::sentence::Reading;
use std::alloc::Global;
use ux_base::{Mem, NoMemory, Txt};
use ux_dela::{DelaError, Entry, read_delaf_line};

/// The reading that the text says, or nothing where it says none. The time is linear in the text.
pub fn read_reading(alloc: Global, text: &str) -> Mem<Option<Reading>>
    ensures { IfOk result (λ found. MatchOption found
        ((reading : ReadingRecord) → IsReading text.now reading → ⊥) (IsReading text.now)) }
{
    if let Some(body) = braced(text) {
        return match read_entry(alloc, body)? {
            Some(entry) => Ok(Some(Reading::Word(entry))),
            None => Ok(None),
        };
    }
    if text.is_empty() || has_separator(text) {
        return Ok(None);
    }
    Ok(Some(Reading::Raw(Txt::from_str(alloc, text)?)))
}

/// What stands between the braces of a text, unless it is empty.
fn braced(text: &str) -> Option<&str>
    ensures { MatchOption result ((body : List ℕ) → IsBraced text.now body → ⊥)
        (λ body. IsBraced text.now body.now) }
{
    let body = text.strip_prefix('{')?.strip_suffix('}')?;
    if body.is_empty() { None } else { Some(body) }
}

/// Whether a separator stands in the text.
fn has_separator(text: &str) -> bool
    ensures { result ≡ list_any is_separator text.now }
{
    text.as_bytes().iter().any(|byte| is_separator_byte(*byte))
}

fn is_separator_byte(byte: u8) -> bool
    ensures { result ≡ is_separator byte }
{
    matches!(byte, b' ' | b'\t' | b'\r' | b'\n')
}

/// The one entry of a line of forms without a comment, or nothing where the body is no such line.
fn read_entry(alloc: Global, body: &str) -> Mem<Option<Entry>>
    ensures { IfOk result (λ found. MatchOption found
        ((entry : EntryRecord) → IsEntryBody body.now entry → ⊥) (IsEntryBody body.now)) }
{
    let Some(mut entries) = said_by(alloc, body)? else {
        return Ok(None);
    };
    if entries.len() != 1 {
        return Ok(None);
    }
    if has_comment(alloc, body)? {
        return Ok(None);
    }
    Ok(entries.pop())
}

/// Whether a line that says entries has a comment. A backslash at a line's end is refused but in a
/// comment, so the line with one more tells.
fn has_comment(alloc: Global, line: &str) -> Mem<bool>
    ensures { IfOk result (λ has. (parts : DelafParts) → IsDelafLine line.now parts →
        IsTrue has ↔ (parts.comment ≢ [])) }
{
    if !has_slash(line) {
        return Ok(false);
    }
    let open = format!(in alloc; "{line}\\")?;
    let said = said_by(alloc, open.as_str())?;
    Ok(said.is_some())
}

/// The entries that a line of forms says, or nothing where it is refused.
fn said_by(alloc: Global, line: &str) -> Mem<Option<Vec<Entry>>>
    ensures { IfOk result (λ found. MatchOption found
        ((said : List EntryRecord) → DelafSays line.now said → ⊥)
        (λ said. DelafSays line.now said.items)) }
{
    match read_delaf_line(alloc, line, 1) {
        Ok(entries) => Ok(Some(entries)),
        Err(error) => match error {
            DelaError::NoMemory => Err(NoMemory),
            _ => Ok(None),
        },
    }
}

/// Whether a slash stands in the text.
fn has_slash(text: &str) -> bool
    ensures { result ≡ list_any is_slash text.now }
{
    text.as_bytes().iter().any(|byte| *byte == b'/')
}
