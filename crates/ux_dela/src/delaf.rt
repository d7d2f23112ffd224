//! Files of inflected forms, in the format DELAF.
//!
//! Each line is cut at its comma, its dot and the slash before its comment, and then its codes are
//! read. Where a backslash ends a line, no other fault is named; `specs/Delaf.antt` has the faults.

ghost use Rattle.std.specs.Prelude.{◌≡◌, ◌≢◌, ◌↔◌, ◌⊎◌, ◌++◌, ◌∷◌, [], ◌≤◌, All, IsTrue, IfOk, IfErr, OnOk, length};
ghost use Rattle.ux_dela.specs.Delaf.{IsSkipped, IsCut, HasFault, DelafSays, RefusesDelaf, lemma_of};
ghost use Rattle.ux_dela.specs.Files.{AreEntries, Refuses};
ghost use Rattle.ux_dela.specs.Reading.{characters, mark_sign, IsCutOf, IsListed, has_mark_in, entry_in, entries_in, AddsSaid, HasList, SaysSoMany, StopsList};
ghost use Rattle.ux_dela.specs.Signs.{COMMA, DOT, is_comma, is_dot};
ghost use Rattle.ux_dela.specs.Sound.{IsSound};
ghost use Rattle.ux_dela.specs.Written.{IsPart, meant_as};
ghost use Rattle.ux_dela.specs.declared.entry.Codes.{Codes as CodesRecord};
ghost use Rattle.ux_dela.specs.declared.error.DelaError.{DelaError};
ghost use Rattle.ux_dela.specs.declared.error.DelaError.TheVariants.{NoMemory};

use crate::codes::{CodeFault, check_list, read_list};
use crate::entry::{Codes, Entry};
use crate::error::DelaError;
use crate::part::{Split, Stop, first_part, has_bare_sign, is_backslash, split_part};
use crate::plain::{Mark, plain};
use std::alloc::{AllocError, Global};
use ux_base::{Txt, lines};

/// A line, cut into its parts.
#[derive(Clone, Copy)]
pub(crate) struct Cut<'a> {
    /// The form, as it is written.
    pub form: &'a str,
    /// The lemma, as it is written.
    pub lemma: &'a str,
    /// The codes, with their signs.
    pub codes: &'a str,
    /// The comment, with the slash in front, or nothing.
    pub comment: &'a str,
}

/// The entries of a file of forms, or why its first bad line is refused. The time is linear in the
/// text.
pub fn read_delaf(alloc: Global, text: &str) -> Result<Vec<Entry>, DelaError>
    ensures ok { IfOk result (λ entries. AreEntries text.now entries.items) }
    ensures sound { IfOk result (λ entries. All IsSound entries.items) }
    ensures refused { IfErr result (λ error. (error ≡ NoMemory) ⊎ Refuses text.now error) }
    ensures exact { IfOk result (λ _. (error : DelaError) → Refuses text.now error → ⊥) }
{
    read_entries(alloc, text)
}

/// The entries of one line of a file of forms, or why this line of that number is refused. So a
/// file can be read with no list of all of its entries. The time is linear in the line.
pub fn read_delaf_line(alloc: Global, line: &str, number: usize) -> Result<Vec<Entry>, DelaError>
    ensures ok { IfOk result (λ entries. DelafSays line.now entries.items) }
    ensures refused { IfErr result (λ error.
        (error ≡ NoMemory) ⊎ RefusesDelaf line.now number error) }
{
    let mut entries = Vec::new(alloc);
    read_line(alloc, line, number, &mut entries)?;
    Ok(entries)
}

/// The entries of a file of forms.
fn read_entries(alloc: Global, text: &str) -> Result<Vec<Entry>, DelaError>
    ensures ok { IfOk result (λ entries. AreEntries text.now entries.items) }
    ensures refused { IfErr result (λ error. (error ≡ NoMemory) ⊎ Refuses text.now error) }
{
    // A text has at most as many lines as bytes, so that a line's number fits.
    let _bytes = text.len();
    let mut entries = Vec::new(alloc);
    let mut number = 0;
    for line in lines(text) {
        number += 1;
        read_line(alloc, line, number, &mut entries)?;
    }
    Ok(entries)
}

/// Puts the entries of the line behind the others.
pub(crate) fn read_line(
    alloc: Global,
    line: &str,
    number: usize,
    entries: &mut Vec<Entry>,
) -> Result<(), DelaError>
    ensures ok { OnOk result (AddsSaid line.now entries.old.items entries.new.items) }
    ensures err { IfErr result (λ error. (error ≡ NoMemory) ⊎ RefusesDelaf line.now number error) }
{
    if is_skipped(line) {
        return Ok(());
    }
    let cut = cut_line(line, number)?;
    let codes = list_of(alloc, line, number, &cut)?;
    put_entries(alloc, &cut, codes, entries)?;
    Ok(())
}

/// How many entries the line says, or why it is refused. Takes no memory.
pub(crate) fn count_line(line: &str, number: usize) -> Result<usize, DelaError>
    ensures ok { IfOk result (SaysSoMany line.now) }
    ensures few { IfOk result (λ count. count ≤ 2) }
    ensures err { IfErr result (λ error. RefusesDelaf line.now number error) }
{
    if is_skipped(line) {
        return Ok(0);
    }
    let cut = cut_line(line, number)?;
    check_codes(line, number, &cut)?;
    Ok(said_by(&cut))
}

/// How many entries these parts say: two where a mark stands in form or lemma.
fn said_by(cut: &Cut<'_>) -> usize
    ensures many { (codes : CodesRecord) → result ≡ length (entries_in cut.now codes) }
    ensures few { result ≤ 2 }
{
    if has_mark(cut) { 2 } else { 1 }
}

/// Whether the line says nothing.
pub(crate) fn is_skipped(line: &str) -> bool
    ensures { IsTrue result ↔ IsSkipped line.now }
{
    match line.as_bytes().first() {
        None | Some(b'/') => true,
        Some(_) => false,
    }
}

/// The parts of the line.
pub(crate) fn cut_line(line: &str, number: usize) -> Result<Cut<'_>, DelaError>
    ensures ok { IfOk result (IsCutOf line.now) }
    ensures err { IfErr result (HasFault line.now number) }
{
    match first_part(Stop::Comma, line) {
        Split::Ended { part, behind } => cut_behind_form(line, number, part, behind),
        Split::Last { .. } => Err(DelaError::NoComma {
            line: number,
            place: line.len(),
        }),
        Split::Open => Err(DelaError::BadEscape {
            line: number,
            place: line.len() - 1,
        }),
    }
}

/// The parts of a line with this form.
fn cut_behind_form<'a>(
    line: &'a str,
    number: usize,
    form: &'a str,
    behind: &'a str,
) -> Result<Cut<'a>, DelaError>
    requires whole { line.now ≡ form.now ++ COMMA ∷ behind.now }
    requires form { IsPart is_comma (characters form.now) }
    ensures ok { IfOk result (IsCutOf line.now) }
    ensures err { IfErr result (HasFault line.now number) }
{
    match first_part(Stop::Dot, behind) {
        Split::Ended { part, behind } => cut_behind_lemma(line, number, form, part, behind),
        Split::Last { .. } if form.is_empty() => Err(DelaError::EmptyForm {
            line: number,
            place: 0,
        }),
        Split::Last { .. } => Err(DelaError::NoDot {
            line: number,
            place: line.len(),
        }),
        Split::Open => Err(DelaError::BadEscape {
            line: number,
            place: line.len() - 1,
        }),
    }
}

/// The parts of a line with this form and this lemma.
fn cut_behind_lemma<'a>(
    line: &'a str,
    number: usize,
    form: &'a str,
    lemma: &'a str,
    behind: &'a str,
) -> Result<Cut<'a>, DelaError>
    requires whole { line.now ≡ form.now ++ COMMA ∷ (lemma.now ++ DOT ∷ behind.now) }
    requires form { IsPart is_comma (characters form.now) }
    requires lemma { IsPart is_dot (characters lemma.now) }
    ensures ok { IfOk result (IsCutOf line.now) }
    ensures err { IfErr result (HasFault line.now number) }
{
    let (codes, comment) = split_part(Stop::Slash, behind);
    if is_backslash(comment) {
        return Err(DelaError::BadEscape {
            line: number,
            place: line.len() - 1,
        });
    }
    if form.is_empty() {
        return Err(DelaError::EmptyForm {
            line: number,
            place: 0,
        });
    }
    Ok(Cut {
        form,
        lemma,
        codes,
        comment,
    })
}

/// The codes of a line that is cut so.
fn list_of(alloc: Global, line: &str, number: usize, cut: &Cut<'_>) -> Result<Codes, DelaError>
    requires { IsCutOf line.now cut.now }
    ensures ok { IfOk result (IsListed cut.now.codes.now) }
    ensures err { IfErr result (λ error. (error ≡ NoMemory) ⊎ HasFault line.now number error) }
{
    match read_list(alloc, cut.codes) {
        Ok(codes) => Ok(codes),
        Err(CodeFault::Empty(rest)) => Err(code_error(line, number, cut, rest)),
        Err(CodeFault::NoRoom) => Err(DelaError::NoMemory),
    }
}

/// Looks through the codes of a line that is cut so. Takes no memory.
fn check_codes(line: &str, number: usize, cut: &Cut<'_>) -> Result<(), DelaError>
    requires { IsCutOf line.now cut.now }
    ensures ok { IfOk result (λ _. HasList cut.now.codes.now) }
    ensures err { IfErr result (HasFault line.now number) }
{
    match check_list(cut.codes) {
        Ok(()) => Ok(()),
        Err(empty) => Err(code_error(line, number, cut, empty.rest)),
    }
}

/// The fault of a line that is cut so, where no code stands in front of this rest of its codes.
fn code_error(line: &str, number: usize, cut: &Cut<'_>, rest: &str) -> DelaError
    requires cut { IsCutOf line.now cut.now }
    requires stops { StopsList cut.now.codes.now rest.now }
    ensures { HasFault line.now number result }
{
    DelaError::EmptyCode {
        line: number,
        place: line.len() - cut.comment.len() - rest.len(),
    }
}

/// Puts the entries of these parts behind the others: two where a mark stands in form or lemma.
fn put_entries(
    alloc: Global,
    cut: &Cut<'_>,
    codes: Codes,
    entries: &mut Vec<Entry>,
) -> Result<(), AllocError>
    ensures { OnOk result (entries.new.items ≡ entries.old.items ++ entries_in cut.now codes) }
{
    if has_mark(cut) {
        put_entry(alloc, cut, codes.copy()?, Mark::AsSpace, entries)?;
        return put_entry(alloc, cut, codes, Mark::AsHyphen, entries);
    }
    put_entry(alloc, cut, codes, Mark::AsItself, entries)
}

/// Puts the entry of these parts behind the others, where each mark of form and lemma means this.
fn put_entry(
    alloc: Global,
    cut: &Cut<'_>,
    codes: Codes,
    mark: Mark,
    entries: &mut Vec<Entry>,
) -> Result<(), AllocError>
    ensures { OnOk result (entries.new.items ≡ entries.old.items
        ++ entry_in (mark_sign mark) cut.now codes ∷ []) }
{
    entries.push(entry_of(alloc, cut, codes, mark)?)?;
    Ok(())
}

/// Whether a mark stands in form or lemma.
pub(crate) fn has_mark(cut: &Cut<'_>) -> bool
    ensures { result ≡ has_mark_in cut.now }
{
    has_bare_sign(Stop::Equals, cut.form) || has_bare_sign(Stop::Equals, cut.lemma)
}

/// The entry of these parts, where each mark of form and lemma means this.
pub(crate) fn entry_of(
    alloc: Global,
    cut: &Cut<'_>,
    codes: Codes,
    mark: Mark,
) -> Result<Entry, AllocError>
    ensures { IfOk result (λ entry. entry ≡ entry_in (mark_sign mark) cut.now codes) }
{
    let form = plain(alloc, mark, cut.form)?;
    let lemma = plain(alloc, mark, written_lemma(cut))?;
    let Codes { gram, sem, infl } = codes;
    Ok(Entry {
        form,
        lemma,
        gram,
        sem,
        infl,
    })
}

/// The lemma as it is written, which is the form where it is empty.
pub(crate) fn written_lemma<'a>(cut: &Cut<'a>) -> &'a str
    ensures { characters result.now
        ≡ lemma_of (characters cut.now.form.now) (characters cut.now.lemma.now) }
{
    if cut.lemma.is_empty() {
        cut.form
    } else {
        cut.lemma
    }
}
