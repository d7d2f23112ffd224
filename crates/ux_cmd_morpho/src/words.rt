//! The entries of the words of a text, each different word once.

ghost use Rattle.std.specs.Prelude.{◌≡◌, ◌↔◌, ◌+◌, ◌<◌, ◌⊎◌, ℕ, List, [], Contains, IfErr, IfOk, IsTrue, OnOk, Some, false, true, length, slice_get, string_bytes};
ghost use Rattle.std.specs.List.{flat_map};
ghost use Rattle.ux_dictionaries.specs.Dictionaries.{contents_of};
ghost use Rattle.ux_morpho.specs.Analyses.{GivesBadLine, IsEntryLine};
ghost use Rattle.ux_net.specs.Nets.{net_grammar};
ghost use Rattle.ux_plan.specs.Plans.{StopsTest, refusing};
ghost use Rattle.ux_tokens.specs.Numbers.{different_texts};
ghost use Rattle.ux_tokens.specs.Reading.{HasTooManyTokens};
ghost use Rattle.ux_tokens.specs.Tokens.{Token};
ghost use Rattle.ux_cmd_morpho.specs.Answering.{IsFileOfWords, IsWordAt, NoneIsBad, RefusesWords, line_with_feed};
ghost use Rattle.ux_cmd_morpho.specs.Files.{IsAnalyserOf, IsBadIn, IsLineIn};
ghost use Rattle.ux_cmd_morpho.specs.Going.{Adds, AreSoFar, IsSeen, RefusesWord};
ghost use Rattle.ux_cmd_morpho.specs.Reading.{HasLongWord};

use crate::files::Files;
use std::alloc::Global;
use ux_base::{Mem, NoMemory, Txt};
use ux_marks::MorphError;
use ux_morpho::{Analyser, sort_once};
use ux_plan::{Stop, refused};
use ux_reasons::Reason;
use ux_tokens::{Kind, Text, TextError};

/// The lines of the entries of the words, each with its line feed. The stop names the graph's file, and the
/// first word that is refused.
pub(crate) fn word_lines(alloc: Global, graph: &str, files: &Files) -> Result<String, Stop<Reason>>
    requires short { HasLongWord files.now.alphabet files.now.text → ⊥ }
    ensures ok { IfOk result (λ lines.
        IsFileOfWords files.now.text (IsLineIn files.now) (string_bytes lines)) }
    ensures accepted { OnOk result (NoneIsBad files.now.text (IsBadIn files.now)) }
    ensures err { IfErr result (StopsTest (refusing
        (RefusesWords files.now.text (IsBadIn files.now) graph.now))) }
{
    let letters = letters_of(alloc, files)?;
    // Too many letters tell no text; the words of the text serve as well.
    let known = match &letters {
        Some(letters) => letters,
        None => &files.text,
    };
    let analyser = Analyser::of(alloc, &files.net, &files.alphabet, known)?;
    lines_by(alloc, graph, files, &analyser)
}

/// The same, by what was made of the grammar.
fn lines_by(
    alloc: Global,
    graph: &str,
    files: &Files,
    analyser: &Analyser,
) -> Result<String, Stop<Reason>>
    requires short { HasLongWord files.now.alphabet files.now.text → ⊥ }
    requires analyser { IsAnalyserOf files.now analyser.now }
    ensures ok { IfOk result (λ lines.
        IsFileOfWords files.now.text (IsLineIn files.now) (string_bytes lines)) }
    ensures accepted { OnOk result (NoneIsBad files.now.text (IsBadIn files.now)) }
    ensures err { IfErr result (StopsTest (refusing
        (RefusesWords files.now.text (IsBadIn files.now) graph.now))) }
{
    let mut seen = none_seen(alloc, files.text.different())?;
    let mut lines = Vec::new(alloc);
    for place in 0..files.text.len() {
        go_on(alloc, graph, files, analyser, place, &mut seen, &mut lines)?;
    }
    sort_once(&mut lines);
    let file = joined(alloc, &lines)?;
    Ok(file)
}

/// The letters of the different words, as the tokens of a text, unless there are too many for one.
fn letters_of(alloc: Global, files: &Files) -> Mem<Option<Text>> {
    let mut seen = none_seen(alloc, files.text.different())?;
    let mut words = String::new(alloc);
    for place in 0..files.text.len() {
        if is_next(files, place, &seen) {
            words.push_str(files.text.token(place))?;
            see(files, place, &mut seen);
        }
    }
    match Text::read(alloc, words, &files.alphabet) {
        Ok(letters) => Ok(Some(letters)),
        Err(TextError::TooManyTokens) => Ok(None),
        Err(TextError::NoMemory) => Err(NoMemory),
    }
}

/// None of so many words was seen.
fn none_seen(alloc: Global, different: usize) -> Mem<Vec<bool>>
    ensures { IfOk result (λ seen. (n : ℕ) → slice_get seen.items n ≡ Some true → ⊥) }
{
    let seen = vec![in alloc; false; different]?;
    Ok(seen)
}

/// Goes on past the token at a place: a word that wasn't seen before has its lines added.
fn go_on(
    alloc: Global,
    graph: &str,
    files: &Files,
    analyser: &Analyser,
    place: usize,
    seen: &mut Vec<bool>,
    lines: &mut Vec<Txt>,
) -> Result<(), Stop<Reason>>
    requires short { HasLongWord files.now.alphabet files.now.text → ⊥ }
    requires analyser { IsAnalyserOf files.now analyser.now }
    requires inside { place < length files.now.text }
    requires so_far { AreSoFar files.now.text (IsLineIn files.now) (IsBadIn files.now) place
        seen.old.items lines.old.items }
    ensures so_far { OnOk result (AreSoFar files.now.text (IsLineIn files.now) (IsBadIn files.now)
        (place + 1) seen.new.items lines.new.items) }
    ensures err { IfErr result (StopsTest (refusing
        (RefusesWords files.now.text (IsBadIn files.now) graph.now))) }
{
    if !is_next(files, place, seen) {
        return Ok(());
    }
    add_lines(alloc, graph, files, analyser, place, lines)?;
    see(files, place, seen);
    Ok(())
}

/// Whether a word stands at the place that wasn't seen before.
fn is_next(files: &Files, place: usize, seen: &[bool]) -> bool
    requires inside { place < length files.now.text }
    ensures word { IsTrue result → (word : List ℕ) × IsWordAt files.now.text place word }
    ensures passed { result ≡ false → (word : List ℕ) → IsWordAt files.now.text place word →
        IsSeen files.now.text seen.now word }
{
    is_word(files.text.kind(place)) && !is_seen(files, place, seen)
}

/// Whether it is the kind of words.
fn is_word(kind: Kind) -> bool
    ensures { IsTrue result ↔ (kind ≡ Kind.Word) }
{
    matches!(kind, Kind::Word)
}

/// Whether the token at the place was seen before.
fn is_seen(files: &Files, place: usize, seen: &[bool]) -> bool
    requires inside { place < length files.now.text }
    ensures { IsTrue result → (word : List ℕ) → IsWordAt files.now.text place word →
        IsSeen files.now.text seen.now word }
{
    match seen.get(files.text.number(place) as usize) {
        Some(is_seen) => *is_seen,
        None => false,
    }
}

/// Notes that the word at the place was seen.
fn see(files: &Files, place: usize, seen: &mut Vec<bool>)
    requires inside { place < length files.now.text }
    ensures { (n : ℕ) → slice_get seen.new.items n ≡ Some true →
        (slice_get seen.old.items n ≡ Some true) ⊎ ((word : List ℕ) →
        slice_get (different_texts files.now.text) n ≡ Some word →
        (token : Token)
        × (slice_get files.now.text place ≡ Some token) × (token.text ≡ word)) }
{
    let number = files.text.number(place) as usize;
    if number < seen.len() {
        seen[number] = true;
    }
}

/// Adds the lines of the word at the place. The stop names the word, and the graph's file.
fn add_lines(
    alloc: Global,
    graph: &str,
    files: &Files,
    analyser: &Analyser,
    place: usize,
    lines: &mut Vec<Txt>,
) -> Result<(), Stop<Reason>>
    requires short { HasLongWord files.now.alphabet files.now.text → ⊥ }
    requires analyser { IsAnalyserOf files.now analyser.now }
    requires word { (word : List ℕ) × IsWordAt files.now.text place word }
    ensures lines { OnOk result ((word : List ℕ) → IsWordAt files.now.text place word →
        Adds (IsLineIn files.now word) lines.old.items lines.new.items) }
    ensures good { OnOk result ((word : List ℕ) → IsWordAt files.now.text place word →
        IsBadIn files.now word → ⊥) }
    ensures err { IfErr result (StopsTest (refusing
        (RefusesWord files.now.text (IsBadIn files.now) graph.now place))) }
{
    let mut more = lines_of(alloc, graph, files, analyser, files.text.token(place))?;
    lines.append(&mut more)?;
    Ok(())
}

/// The lines of a word.
fn lines_of(
    alloc: Global,
    graph: &str,
    files: &Files,
    analyser: &Analyser,
    word: &str,
) -> Result<Vec<Txt>, Stop<Reason>>
    requires analyser { IsAnalyserOf files.now analyser.now }
    requires few { HasTooManyTokens files.now.alphabet word.now → ⊥ }
    ensures lines { IfOk result (λ lines. (line : List ℕ) → Contains lines.items line
        ↔ IsLineIn files.now word.now line) }
    ensures good { OnOk result (IsBadIn files.now word.now → ⊥) }
    ensures err { IfErr result (StopsTest (refusing (λ file reason. (file ≡ graph.now)
        × (reason ≡ Reason.Morph (MorphError.BadOutput word.now)) × IsBadIn files.now word.now))) }
{
    match analyser.analyse(alloc, word, &files.dics) {
        Ok(lines) => Ok(lines),
        Err(error) => Err(refused_word(alloc, graph, error)),
    }
}

/// The stop that names the graph's file, where a token is named.
fn refused_word(alloc: Global, graph: &str, error: MorphError) -> Stop<Reason>
    ensures { (result ≡ Stop.NoMemory) ⊎ ((token : List ℕ)
        × (error ≡ MorphError.BadOutput token)
        × (result ≡ Stop.Refused graph.now (Reason.Morph error))) }
{
    match error {
        MorphError::BadOutput { token } => {
            refused(alloc, graph, Reason::Morph(MorphError::BadOutput { token }))
        }
        // An analysis names no state.
        MorphError::BadMarks { .. } => Stop::NoMemory,
        MorphError::NoMemory => Stop::NoMemory,
    }
}

/// The lines, each with its line feed.
fn joined(alloc: Global, lines: &[Txt]) -> Mem<String>
    ensures { IfOk result (λ file. string_bytes file ≡ flat_map line_with_feed lines.now) }
{
    let mut file = String::new(alloc);
    for line in lines {
        file.push_str(line.as_str())?;
        file.push('\n')?;
    }
    Ok(file)
}
