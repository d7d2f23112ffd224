//! The outputs for a token as dictionary lines.

ghost use Rattle.std.specs.Prelude.{◌≡◌, ◌++◌, ◌∷◌, [], ◌⊎◌, ◌↔◌, ℕ, List, Contains, IfErr, IfOk, IsTrue, MatchOption, OnOk, string_bytes};
ghost use Rattle.std.specs.List.Sorted.{IsStrictlySortedBy};
ghost use Rattle.std.specs.Cmp.Lexicographic.{slice_cmp};
ghost use Rattle.std.specs.Ordering.{nat_cmp};
ghost use Rattle.ux_dela.specs.Delaf.{DelafSays};
ghost use Rattle.ux_dela.specs.Printed.{printed};
ghost use Rattle.ux_dela.specs.declared.entry.Entry.{Entry as TheEntry};
ghost use Rattle.ux_walk.specs.Noting.{Includes};
ghost use Rattle.ux_morpho.specs.Analyses.{IsLineOf, SaysOne};
ghost use Rattle.ux_morpho.specs.Putting.{AreLinesOf, HasBadAmong, bare, front_of};

use crate::sorting::sort_once;
use std::alloc::Global;
use ux_base::{Mem, NoMemory, Txt};
use ux_dela::{DelaError, Entry, Joined, Texts, print_delaf, read_delaf_line};
use ux_marks::MorphError;

/// The lines of the entries that the outputs say behind the token, by bytes, each once; or that one of them
/// says no single entry.
pub(crate) fn entry_lines(
    alloc: Global,
    token: &str,
    outputs: &[Txt],
) -> Result<Vec<Txt>, MorphError>
    ensures lines { IfOk result (λ lines. AreLinesOf token.now outputs.now lines.items) }
    ensures ordered { IfOk result (λ lines. IsStrictlySortedBy (slice_cmp nat_cmp) lines.items) }
    ensures err { IfErr result (λ error. (error ≡ MorphError.NoMemory)
        ⊎ ((error ≡ MorphError.BadOutput token.now) × HasBadAmong token.now outputs.now)) }
{
    let mut lines = lines_of(alloc, token, outputs)?;
    sort_once(&mut lines);
    Ok(lines)
}

/// The same in no order. Equal lines may stand there twice.
fn lines_of(alloc: Global, token: &str, outputs: &[Txt]) -> Result<Vec<Txt>, MorphError>
    ensures lines { IfOk result (λ lines. AreLinesOf token.now outputs.now lines.items) }
    ensures err { IfErr result (λ error. (error ≡ MorphError.NoMemory)
        ⊎ ((error ≡ MorphError.BadOutput token.now) × HasBadAmong token.now outputs.now)) }
{
    let front = line_front(alloc, token)?;
    let mut lines = Vec::new(alloc);
    for output in outputs {
        add_line(alloc, token, front.as_str(), output.as_str(), &mut lines)?;
    }
    Ok(lines)
}

/// Adds the line of the entry that an output says behind the token.
fn add_line(
    alloc: Global,
    token: &str,
    front: &str,
    output: &str,
    lines: &mut Vec<Txt>,
) -> Result<(), MorphError>
    requires front { front.now ≡ front_of token.now }
    ensures lines { OnOk result
        (Includes (IsLineOf token.now output.now) lines.old.items lines.new.items) }
    ensures says { OnOk result ((entry : TheEntry) × SaysOne token.now output.now entry) }
    ensures err { IfErr result (λ error. (error ≡ MorphError.NoMemory)
        ⊎ ((error ≡ MorphError.BadOutput token.now)
        × ((entry : TheEntry) → SaysOne token.now output.now entry → ⊥))) }
{
    match entry_line(alloc, front, output)? {
        Some(line) => {
            lines.push(line)?;
            Ok(())
        },
        None => Err(bad_output(alloc, token)),
    }
}

/// The error that names the token.
fn bad_output(alloc: Global, token: &str) -> MorphError
    ensures { (result ≡ MorphError.NoMemory) ⊎ (result ≡ MorphError.BadOutput token.now) }
{
    match Txt::from_str(alloc, token) {
        Ok(token) => MorphError::BadOutput { token },
        Err(_) => MorphError::NoMemory,
    }
}

/// The line of the one entry that an output says behind the front of a line, if it says one alone.
fn entry_line(alloc: Global, front: &str, output: &str) -> Mem<Option<Txt>>
    ensures { IfOk result (λ found. MatchOption found
        ((entry : TheEntry) → DelafSays (front.now ++ output.now) (entry ∷ []) → ⊥)
        (λ line. (entry : TheEntry) × DelafSays (front.now ++ output.now) (entry ∷ [])
        × (line ≡ printed entry))) }
{
    let mut line = String::from_str(alloc, front)?;
    line.push_str(output)?;
    said_line(alloc, line.as_str())
}

/// The line of the one entry that a line says, if it says one alone.
fn said_line(alloc: Global, line: &str) -> Mem<Option<Txt>>
    ensures { IfOk result (λ found. MatchOption found
        ((entry : TheEntry) → DelafSays line.now (entry ∷ []) → ⊥)
        (λ same. (entry : TheEntry) × DelafSays line.now (entry ∷ []) × (same ≡ printed entry))) }
{
    match read_delaf_line(alloc, line, 1) {
        Ok(entries) => only_line(alloc, &entries),
        Err(error) => {
            if is_memory(error) {
                return Err(NoMemory);
            }
            Ok(None)
        },
    }
}

/// Whether memory ran out.
fn is_memory(error: DelaError) -> bool
    ensures { IsTrue result ↔ (error ≡ DelaError.NoMemory) }
{
    matches!(error, DelaError::NoMemory)
}

/// The line of the only one of the entries.
fn only_line(alloc: Global, entries: &[Entry]) -> Mem<Option<Txt>>
    ensures { IfOk result (λ found. MatchOption found
        ((entry : TheEntry) → entries.now ≡ entry ∷ [] → ⊥)
        (λ line. (entry : TheEntry) × (entries.now ≡ entry ∷ []) × (line ≡ printed entry))) }
{
    match entries {
        [entry] => {
            let line = print_delaf(alloc, entry)?;
            Ok(Some(Txt::new(line)))
        },
        _ => Ok(None),
    }
}

/// The token as a form of a dictionary line, and the comma.
fn line_front(alloc: Global, token: &str) -> Mem<String>
    ensures { IfOk result (λ front. string_bytes front ≡ front_of token.now) }
{
    let entry = bare_entry(alloc, token)?;
    let mut line = print_delaf(alloc, &entry)?;
    // A line without codes of a form that is its own lemma ends in a comma and a dot.
    line.truncate(line.len() - 1);
    Ok(line)
}

/// The entry of a form that is its own lemma, without codes.
fn bare_entry(alloc: Global, form: &str) -> Mem<Entry>
    ensures { IfOk result (λ entry. entry ≡ bare form.now) }
{
    Ok(Entry {
        form: Txt::from_str(alloc, form)?,
        lemma: Txt::from_str(alloc, form)?,
        gram: no_text(alloc),
        sem: no_codes(alloc)?,
        infl: no_codes(alloc)?,
    })
}

/// The empty text.
fn no_text(alloc: Global) -> Txt
    ensures { result ≡ [] }
{
    Txt::new(String::new(alloc))
}

/// No codes.
fn no_codes(alloc: Global) -> Mem<Texts>
    ensures { IfOk result (λ texts. texts ≡ []) }
{
    let texts = Texts::new(alloc, Joined::new(alloc))?;
    Ok(texts)
}
