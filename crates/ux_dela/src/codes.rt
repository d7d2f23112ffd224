//! Lists of codes: a code in front, and then codes behind signs.
//!
//! A code that is empty stops the reading, and what is left of the text tells where.

ghost use Rattle.std.specs.Prelude.{◌≡◌, ℕ, List, ◌∷◌, IfOk, IfErr, MatchOption};
ghost use Rattle.ux_dela.specs.Codes.{EndsCode};
ghost use Rattle.ux_dela.specs.Reading.{characters, is_stop, ends_kind, sign_before, IsRun, IsBehindRun, IsNextCode, OrNoRoom, StopsAtSign, StopsRun, HasList, IsListed, StopsList, HasStemList, IsStemListed, StopsStemList};
ghost use Rattle.ux_dela.specs.Signs.{is_slash};
ghost use Rattle.ux_dela.specs.Written.{IsPart};
ghost use Rattle.ux_dela.specs.declared.codes.CodeFault.TheVariants.{Empty, NoRoom};

use crate::entry::Codes;
use crate::joined::Joined;
use crate::part::{Stop, begins_with, split_part};
use crate::plain::{Mark, plain, push_plain};
use crate::texts::Texts;
use std::alloc::{AllocError, AllocFailed, Global};
use ux_base::Txt;

/// No code stands where one should begin.
#[derive(Clone, Copy)]
pub struct EmptyCode<'a> {
    /// What stands from there on.
    pub rest: &'a str,
}

/// Why codes aren't read.
#[derive(Clone, Copy)]
pub enum CodeFault<'a> {
    /// No code stands where one should begin, at the front of this rest of the text.
    Empty(&'a str),
    /// Memory ran out.
    NoRoom,
}

impl<'a> From<EmptyCode<'a>> for CodeFault<'a> {
    ghost from_gives = { λ empty e. e ≡ Empty empty.rest };

    fn from(empty: EmptyCode<'a>) -> CodeFault<'a> {
        CodeFault::Empty(empty.rest)
    }
}

impl<'a> From<AllocError> for CodeFault<'a> {
    ghost from_gives = { λ _ e. e ≡ NoRoom };

    fn from(_error: AllocError) -> CodeFault<'a> {
        CodeFault::NoRoom
    }
}

impl<'a, T: Drop> From<AllocFailed<T>> for CodeFault<'a> {
    ghost from_gives = { λ _ e. e ≡ NoRoom };

    fn from(_error: AllocFailed<T>) -> CodeFault<'a> {
        CodeFault::NoRoom
    }
}

/// Which codes stand behind signs.
#[derive(Clone, Copy)]
pub enum Kind {
    /// The semantic codes of an entry, each behind a `+`.
    Sem,
    /// The inflection codes of an entry, each behind a `:`.
    Infl,
    /// The semantic codes of a stem, each behind a `+`.
    StemSem,
}

/// Codes of one kind.
#[derive(Drop)]
pub struct Run<'a> {
    /// What the codes mean.
    pub codes: Texts,
    /// What stands behind them.
    pub rest: &'a str,
}

/// A code behind its sign.
#[derive(Clone, Copy)]
pub struct NextCode<'a> {
    /// The code as it is written.
    pub code: &'a str,
    /// What stands behind it.
    pub rest: &'a str,
}

/// The class and the semantic codes of a stem.
#[derive(Drop)]
pub struct StemCodes {
    /// The class.
    pub class: Txt,
    /// The semantic codes.
    pub sem: Texts,
}

/// The codes of an entry.
pub fn read_list<'a>(alloc: Global, text: &'a str) -> Result<Codes, CodeFault<'a>>
    requires { IsPart is_slash (characters text.now) }
    ensures ok { IfOk result (IsListed text.now) }
    ensures err { IfErr result (OrNoRoom (StopsList text.now)) }
{
    let (gram, behind) = split_part(Stop::Code, text);
    if gram.is_empty() {
        return Err(CodeFault::Empty(text));
    }
    let sem = read_run(alloc, Kind::Sem, behind)?;
    let infl = read_run(alloc, Kind::Infl, sem.rest)?;
    Ok(Codes {
        gram: plain(alloc, Mark::AsItself, gram)?,
        sem: sem.codes,
        infl: infl.codes,
    })
}

/// The codes of a stem.
pub fn read_stem_list<'a>(alloc: Global, text: &'a str) -> Result<StemCodes, CodeFault<'a>>
    requires { IsPart is_slash (characters text.now) }
    ensures ok { IfOk result (IsStemListed text.now) }
    ensures err { IfErr result (OrNoRoom (StopsStemList text.now)) }
{
    let (class, behind) = split_part(Stop::Plus, text);
    if class.is_empty() {
        return Err(CodeFault::Empty(text));
    }
    let sem = read_run(alloc, Kind::StemSem, behind)?;
    Ok(StemCodes {
        class: plain(alloc, Mark::AsItself, class)?,
        sem: sem.codes,
    })
}

/// Looks through the codes of an entry, and keeps none of them. Takes no memory.
pub fn check_list(text: &str) -> Result<(), EmptyCode<'_>>
    requires { IsPart is_slash (characters text.now) }
    ensures ok { IfOk result (λ _. HasList text.now) }
    ensures err { IfErr result (λ empty. StopsList text.now empty.rest.now) }
{
    let (gram, behind) = split_part(Stop::Code, text);
    if gram.is_empty() {
        return Err(EmptyCode { rest: text });
    }
    let rest = behind_run(Kind::Sem, behind)?;
    behind_run(Kind::Infl, rest)?;
    Ok(())
}

/// The class of a stem. Looks through its semantic codes, and keeps none of them.
pub fn check_stem_list<'a>(alloc: Global, text: &'a str) -> Result<Txt, CodeFault<'a>>
    requires { IsPart is_slash (characters text.now) }
    ensures ok { IfOk result (λ class. HasStemList text.now class) }
    ensures err { IfErr result (OrNoRoom (StopsStemList text.now)) }
{
    let (class, behind) = split_part(Stop::Plus, text);
    if class.is_empty() {
        return Err(CodeFault::Empty(text));
    }
    behind_run(Kind::StemSem, behind)?;
    Ok(plain(alloc, Mark::AsItself, class)?)
}

/// The codes of the kind at the front of the text.
fn read_run<'a>(alloc: Global, kind: Kind, text: &'a str) -> Result<Run<'a>, CodeFault<'a>>
    requires closed { IsPart is_slash (characters text.now) }
    requires ends { EndsCode (ends_kind kind) (characters text.now) }
    ensures ok { IfOk result (IsRun kind text.now) }
    ensures err { IfErr result (OrNoRoom (StopsRun kind text.now)) }
{
    let mut codes = Joined::new(alloc);
    let mut rest = text;
    while let Some(next) = next_code(kind, rest)? {
        push_plain(alloc, Mark::AsItself, next.code, &mut codes)?;
        rest = next.rest;
    }
    Ok(Run {
        codes: Texts::new(alloc, codes)?,
        rest,
    })
}

/// What stands behind the codes of the kind at the front of the text. Takes no memory.
fn behind_run<'a>(kind: Kind, text: &'a str) -> Result<&'a str, EmptyCode<'a>>
    requires closed { IsPart is_slash (characters text.now) }
    requires ends { EndsCode (ends_kind kind) (characters text.now) }
    ensures ok { IfOk result (λ rest. IsBehindRun kind text.now rest.now) }
    ensures err { IfErr result (λ empty. StopsRun kind text.now empty.rest.now) }
{
    let mut rest = text;
    while let Some(next) = next_code(kind, rest)? {
        rest = next.rest;
    }
    Ok(rest)
}

/// The next code of the kind, where its sign begins the text.
fn next_code<'a>(kind: Kind, text: &'a str) -> Result<Option<NextCode<'a>>, EmptyCode<'a>>
    ensures ok { IfOk result (λ next. MatchOption next
        ((rest : List ℕ) → text.now ≡ sign_before kind ∷ rest → ⊥)
        (λ next. IsNextCode kind text.now next.code.now next.rest.now)) }
    ensures err { IfErr result (λ empty. StopsAtSign kind text.now empty.rest.now) }
{
    let Some(behind) = behind_sign(kind, text) else {
        return Ok(None);
    };
    let (code, rest) = split_part(stop_of(kind), behind);
    if code.is_empty() {
        return Err(EmptyCode { rest: behind });
    }
    Ok(Some(NextCode { code, rest }))
}

/// What stands behind the sign of the kind, where it begins the text.
fn behind_sign(kind: Kind, text: &str) -> Option<&str>
    ensures { MatchOption result ((rest : List ℕ) → text.now ≡ sign_before kind ∷ rest → ⊥)
        (λ rest. text.now ≡ sign_before kind ∷ rest.now) }
{
    if begins_with(text, sign_of(kind)) {
        return Some(&text[1..]);
    }
    None
}

/// The sign before each code of the kind.
fn sign_of(kind: Kind) -> u8
    ensures { result ≡ sign_before kind }
{
    match kind {
        Kind::Sem | Kind::StemSem => b'+',
        Kind::Infl => b':',
    }
}

/// Where a code of the kind ends.
fn stop_of(kind: Kind) -> Stop
    ensures { is_stop result ≡ ends_kind kind }
{
    match kind {
        Kind::Sem => Stop::Code,
        Kind::Infl => Stop::Colon,
        Kind::StemSem => Stop::Plus,
    }
}
