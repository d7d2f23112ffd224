//! Dictionaries that are read from files.
//!
//! The entries of a file are taken over line by line, so that no list of them is there beside the
//! dictionary's own. Most lines mean what is written and have codes that came before: such a line is
//! cut, and only its texts are copied. Any other line is read part by part.

ghost use Rattle.std.specs.Prelude.{◌≡◌, ◌⊎◌, ◌∷◌, [], IfOk, IfErr, IfSome, OnOk};
ghost use Rattle.ux_dela.specs.Delaf.{DelafSays, RefusesDelaf};
ghost use Rattle.ux_dela.specs.Files.{AreEntries, Refuses};
ghost use Rattle.ux_dela.specs.declared.error.DelaError.{DelaError};
ghost use Rattle.ux_dela.specs.declared.error.DelaError.TheVariants.{NoMemory};
ghost use Rattle.ux_dict.specs.FileContent.{IsFileContent};
ghost use Rattle.ux_dict.specs.Lines.{IsPutBehind};

use crate::codes_table::CodesTable;
use crate::list_lexicon::ListLexicon;
use crate::sorting::in_order;
use crate::stored::Stored;
use crate::stored_table::put_all;
use std::alloc::{AllocError, Global};
use ux_base::lines;
use ux_dela::{DelaError, bare_line, read_delaf_line};

impl ListLexicon {
    /// The dictionary of a file of forms, or why its first bad line is refused. Keeps the entries
    /// of one line at a time beside the dictionary's own. Takes a step a byte and sorts the entries.
    pub fn read(alloc: Global, text: &str) -> Result<ListLexicon, DelaError>
        ensures ok { IfOk result (IsFileContent text.now) }
        ensures refused { IfErr result (λ error. (error ≡ NoMemory) ⊎ Refuses text.now error) }
        ensures exact { IfOk result (λ _. (error : DelaError) → Refuses text.now error → ⊥) }
    {
        let content = content_in(alloc, text)?;
        Ok(ListLexicon::of_content(alloc, content)?)
    }
}

/// The content of a file of forms, or why its first bad line is refused. Keeps the entries of one
/// line at a time beside those of the content. Takes a step a byte and sorts the entries.
pub fn content_in(alloc: Global, text: &str) -> Result<Vec<Stored>, DelaError>
    ensures ok { IfOk result (λ content. IsFileContent text.now content.items) }
    ensures refused { IfErr result (λ error. (error ≡ NoMemory) ⊎ Refuses text.now error) }
{
    let entries = entries_of(alloc, text)?;
    Ok(in_order(alloc, entries)?)
}

/// The file's entries.
fn entries_of(alloc: Global, text: &str) -> Result<Vec<Stored>, DelaError>
    ensures ok { IfOk result (λ entries. AreEntries text.now entries.items) }
    ensures refused { IfErr result (λ error. (error ≡ NoMemory) ⊎ Refuses text.now error) }
{
    // A text has at most as many lines as bytes, so that a line's number fits.
    let _bytes = text.len();
    let mut codes = CodesTable::new(alloc);
    let mut kept = Vec::new(alloc);
    let mut number = 0;
    for line in lines(text) {
        number += 1;
        put_line(alloc, line, number, &mut codes, &mut kept)?;
    }
    Ok(kept)
}

/// Puts the entries of a line behind the others.
fn put_line(
    alloc: Global,
    line: &str,
    number: usize,
    codes: &mut CodesTable,
    kept: &mut Vec<Stored>,
) -> Result<(), DelaError>
    ensures put { OnOk result (IsPutBehind line.now kept.old.items kept.new.items) }
    ensures refused { IfErr result (λ error.
        (error ≡ NoMemory) ⊎ RefusesDelaf line.now number error) }
{
    if let Some(entry) = entry_of_bare(alloc, line, codes)? {
        kept.push(entry)?;
        return Ok(());
    }
    let entries = read_delaf_line(alloc, line, number)?;
    put_all(alloc, entries, codes, kept)?;
    Ok(())
}

/// The entry of a line that means what is written, where its codes are found by their text.
fn entry_of_bare(
    alloc: Global,
    line: &str,
    codes: &mut CodesTable,
) -> Result<Option<Stored>, AllocError>
    ensures { IfOk result (λ found. IfSome found (λ entry. DelafSays line.now (entry ∷ []))) }
{
    let Some(bare) = bare_line(line) else {
        return Ok(None);
    };
    let Some(shared) = codes.printed_as(alloc, bare.codes)? else {
        return Ok(None);
    };
    Ok(Some(Stored::of_parts(alloc, bare.form, bare.lemma, shared)?))
}
