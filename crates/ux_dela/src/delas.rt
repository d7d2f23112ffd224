//! Files of lemmas, in the format DELAS.
//!
//! Each line is cut at its comma and the slash before its comment, and then its class and its codes
//! are read. Where a backslash ends a line, no other fault is named; `specs/Delas.antt` has them.

ghost use Rattle.std.specs.Prelude.{◌≡◌, ◌⊎◌, ◌++◌, ◌∷◌, All, IfOk, IfErr, OnOk, MatchOption, IsTrue, ◌↔◌, ◌<◌, ◌≤◌, true, ℕ, List, length, drop};
ghost use Rattle.std.specs.List.{list_all, prefix_len};
ghost use Rattle.ux_dela.specs.Delas.{HasStemFault, RefusesDelas, IsClass};
ghost use Rattle.ux_dela.specs.Files.{AreStems, RefusesStems};
ghost use Rattle.ux_dela.specs.Reading.{characters, IsStemCutOf, IsStemListed, HasStemList, OrNoRoom, StopsStemList, SaysStem, SaysSoManyStems, AddsStem};
ghost use Rattle.ux_dela.specs.Signs.{COMMA, is_comma, is_upper, is_digit};
ghost use Rattle.ux_dela.specs.Sound.{IsSoundStem};
ghost use Rattle.ux_dela.specs.Written.{IsPart};
ghost use Rattle.ux_dela.specs.declared.entry.Stem.{Stem as StemRecord};
ghost use Rattle.ux_dela.specs.declared.error.DelaError.{DelaError};
ghost use Rattle.ux_dela.specs.declared.error.DelaError.TheVariants.{NoMemory};

use crate::codes::{CodeFault, StemCodes, check_stem_list, read_stem_list};
use crate::delaf::is_skipped;
use crate::entry::Stem;
use crate::error::DelaError;
use crate::part::{Split, Stop, first_part, is_backslash, split_part};
use crate::plain::{Mark, plain};
use std::alloc::Global;
use ux_base::{Txt, lines};

/// A line, cut into its parts.
#[derive(Clone, Copy)]
pub(crate) struct StemCut<'a> {
    /// The lemma, as it is written.
    pub lemma: &'a str,
    /// The codes, with their signs.
    pub codes: &'a str,
    /// The comment, with the slash in front, or nothing.
    pub comment: &'a str,
}

/// The stems of a file of lemmas, or why its first bad line is refused. The time is linear in the
/// text.
pub fn read_delas(alloc: Global, text: &str) -> Result<Vec<Stem>, DelaError>
    ensures ok { IfOk result (λ stems. AreStems text.now stems.items) }
    ensures sound { IfOk result (λ stems. All IsSoundStem stems.items) }
    ensures refused { IfErr result (λ error. (error ≡ NoMemory) ⊎ RefusesStems text.now error) }
    ensures exact { IfOk result (λ _. (error : DelaError) → RefusesStems text.now error → ⊥) }
{
    read_stems(alloc, text)
}

/// The stems of a file of lemmas.
fn read_stems(alloc: Global, text: &str) -> Result<Vec<Stem>, DelaError>
    ensures ok { IfOk result (λ stems. AreStems text.now stems.items) }
    ensures refused { IfErr result (λ error. (error ≡ NoMemory) ⊎ RefusesStems text.now error) }
{
    // A text has at most as many lines as bytes, so that a line's number fits.
    let _bytes = text.len();
    let mut stems = Vec::new(alloc);
    let mut number = 0;
    for line in lines(text) {
        number += 1;
        read_line(alloc, line, number, &mut stems)?;
    }
    Ok(stems)
}

/// Puts the stem of the line behind the others.
pub(crate) fn read_line(
    alloc: Global,
    line: &str,
    number: usize,
    stems: &mut Vec<Stem>,
) -> Result<(), DelaError>
    ensures ok { OnOk result (AddsStem line.now stems.old.items stems.new.items) }
    ensures err { IfErr result (λ error. (error ≡ NoMemory) ⊎ RefusesDelas line.now number error) }
{
    if is_skipped(line) {
        return Ok(());
    }
    stems.push(read_stem(alloc, line, number)?)?;
    Ok(())
}

/// How many stems the line says, or why it is refused. Keeps none of its semantic codes.
pub(crate) fn count_line(alloc: Global, line: &str, number: usize) -> Result<usize, DelaError>
    ensures ok { IfOk result (SaysSoManyStems line.now) }
    ensures few { IfOk result (λ count. count ≤ 1) }
    ensures err { IfErr result (λ error. (error ≡ NoMemory) ⊎ RefusesDelas line.now number error) }
{
    if is_skipped(line) {
        return Ok(0);
    }
    check_stem(alloc, line, number)?;
    Ok(1)
}

/// Looks through a line that isn't skipped.
fn check_stem(alloc: Global, line: &str, number: usize) -> Result<(), DelaError>
    ensures ok { IfOk result (λ _. (stem : StemRecord) × SaysStem line.now stem) }
    ensures err { IfErr result (λ error. (error ≡ NoMemory) ⊎ HasStemFault line.now number error) }
{
    let cut = cut_stem(line, number)?;
    let class = class_of(alloc, line, number, &cut)?;
    match letters_of(class.as_str()) {
        Some(_) => Ok(()),
        None => Err(DelaError::BadClass {
            line: number,
            place: cut.lemma.len() + 1,
        }),
    }
}

/// The stem of a line that isn't skipped.
fn read_stem(alloc: Global, line: &str, number: usize) -> Result<Stem, DelaError>
    ensures ok { IfOk result (SaysStem line.now) }
    ensures err { IfErr result (λ error. (error ≡ NoMemory) ⊎ HasStemFault line.now number error) }
{
    let cut = cut_stem(line, number)?;
    let codes = list_of(alloc, line, number, &cut)?;
    stem_of(alloc, line, number, &cut, codes)
}

/// The parts of the line.
fn cut_stem(line: &str, number: usize) -> Result<StemCut<'_>, DelaError>
    ensures ok { IfOk result (IsStemCutOf line.now) }
    ensures err { IfErr result (HasStemFault line.now number) }
{
    match first_part(Stop::Comma, line) {
        Split::Ended { part, behind } => cut_behind_lemma(line, number, part, behind),
        Split::Last { .. } => Err(DelaError::NoComma {
            line: number,
            place: line.len(),
        }),
        Split::Open => Err(DelaError::BadEscape {
            line: number,
            place: line.len() - 1,
        }),
    }
}

/// The parts of a line with this lemma.
fn cut_behind_lemma<'a>(
    line: &'a str,
    number: usize,
    lemma: &'a str,
    behind: &'a str,
) -> Result<StemCut<'a>, DelaError>
    requires whole { line.now ≡ lemma.now ++ COMMA ∷ behind.now }
    requires lemma { IsPart is_comma (characters lemma.now) }
    ensures ok { IfOk result (IsStemCutOf line.now) }
    ensures err { IfErr result (HasStemFault line.now number) }
{
    let (codes, comment) = split_part(Stop::Slash, behind);
    if is_backslash(comment) {
        return Err(DelaError::BadEscape {
            line: number,
            place: line.len() - 1,
        });
    }
    if lemma.is_empty() {
        return Err(DelaError::EmptyForm {
            line: number,
            place: 0,
        });
    }
    Ok(StemCut {
        lemma,
        codes,
        comment,
    })
}

/// The codes of a line that is cut so.
fn list_of(
    alloc: Global,
    line: &str,
    number: usize,
    cut: &StemCut<'_>,
) -> Result<StemCodes, DelaError>
    requires { IsStemCutOf line.now cut.now }
    ensures ok { IfOk result (IsStemListed cut.now.codes.now) }
    ensures err { IfErr result (λ error. (error ≡ NoMemory) ⊎ HasStemFault line.now number error) }
{
    match read_stem_list(alloc, cut.codes) {
        Ok(codes) => Ok(codes),
        Err(fault) => Err(code_error(line, number, cut, fault)),
    }
}

/// The class of a line that is cut so. Keeps none of its semantic codes.
fn class_of(alloc: Global, line: &str, number: usize, cut: &StemCut<'_>) -> Result<Txt, DelaError>
    requires { IsStemCutOf line.now cut.now }
    ensures ok { IfOk result (λ class. HasStemList cut.now.codes.now class) }
    ensures err { IfErr result (λ error. (error ≡ NoMemory) ⊎ HasStemFault line.now number error) }
{
    match check_stem_list(alloc, cut.codes) {
        Ok(class) => Ok(class),
        Err(fault) => Err(code_error(line, number, cut, fault)),
    }
}

/// Why the codes of a line that is cut so aren't read.
fn code_error(line: &str, number: usize, cut: &StemCut<'_>, fault: CodeFault<'_>) -> DelaError
    requires cut { IsStemCutOf line.now cut.now }
    requires stops { OrNoRoom (StopsStemList cut.now.codes.now) fault }
    ensures { (result ≡ NoMemory) ⊎ HasStemFault line.now number result }
{
    match fault {
        CodeFault::Empty(rest) => DelaError::EmptyCode {
            line: number,
            place: line.len() - cut.comment.len() - rest.len(),
        },
        CodeFault::NoRoom => DelaError::NoMemory,
    }
}

/// The stem of these parts and codes.
fn stem_of(
    alloc: Global,
    line: &str,
    number: usize,
    cut: &StemCut<'_>,
    codes: StemCodes,
) -> Result<Stem, DelaError>
    requires cut { IsStemCutOf line.now cut.now }
    requires listed { IsStemListed cut.now.codes.now codes }
    ensures ok { IfOk result (SaysStem line.now) }
    ensures err { IfErr result (λ error. (error ≡ NoMemory) ⊎ HasStemFault line.now number error) }
{
    let letters = match letters_of(codes.class.as_str()) {
        Some(letters) => letters,
        None => {
            return Err(DelaError::BadClass {
                line: number,
                place: cut.lemma.len() + 1,
            });
        }
    };
    let gram = Txt::from_str(alloc, letters)?;
    let lemma = plain(alloc, Mark::AsItself, cut.lemma)?;
    let StemCodes { class, sem } = codes;
    Ok(Stem {
        lemma,
        class,
        gram,
        sem,
    })
}

/// The letters of a class, or nothing where the text is none.
fn letters_of(text: &str) -> Option<&str>
    ensures { MatchOption result ((letters : List ℕ) → IsClass text.now letters → ⊥)
        (λ letters. IsClass text.now letters.now) }
{
    let bytes = text.as_bytes();
    let end = letters_len(bytes);
    if is_class_behind(bytes, end) {
        return Some(&text[..end]);
    }
    None
}

/// Whether letters stand before the place and digits behind it.
fn is_class_behind(text: &[u8], end: usize) -> bool
    requires { end ≤ length text.now }
    ensures { IsTrue result ↔ ((0 < end) × (list_all is_digit (drop end text.now) ≡ true)) }
{
    end > 0 && are_digits(&text[end..])
}

/// How many of the first bytes are letters of a class.
fn letters_len(text: &[u8]) -> usize
    ensures len { result ≡ prefix_len is_upper text.now }
    ensures within { result ≤ length text.now }
{
    for place in 0..text.len() {
        if !is_letter(text[place]) {
            return place;
        }
    }
    text.len()
}

/// Whether a class may begin with the byte.
fn is_letter(byte: u8) -> bool
    ensures { result ≡ is_upper byte }
{
    byte.is_ascii_uppercase()
}

/// Whether each byte is a digit.
fn are_digits(text: &[u8]) -> bool
    ensures { result ≡ list_all is_digit text.now }
{
    text.iter().all(|byte| byte.is_ascii_digit())
}
