//! What dictionaries answer: the list of the entries, their automaton, and their image.
//!
//! Which entries are found, and in which order they are kept, is shown by rows of `unitex_rows`, for
//! dictionaries of each kind. Whether longer texts may be found, the longest form and the number of
//! entries of one form show in no command.

use crate::comparing::compare;
use std::alloc::Global;
use ux_alphabet::Alphabet;
use ux_base::Mem;
use ux_dela::{Entry, print_delaf, read_delaf};
use ux_dict::{ListLexicon, content_in, different};
use ux_image::{image_of, is_content};
use ux_image_lexicon::{read_image, read_text};
use ux_lexicon::{AnyLexicon, Lexicon};

/// The pairs of letters in all rows.
const PAIRS: &str = "Tt\nHh\nEe\nCc\nAa\nÉé\n";

/// The entries as lines, each before a space.
fn printed(alloc: Global, entries: &[Entry]) -> Mem<String> {
    let mut out = String::new(alloc);
    for entry in entries {
        out.push_str(print_delaf(alloc, entry)?.as_str())?;
        out.push(' ')?;
    }
    Ok(out)
}

/// The entries that fit the text.
fn fitting(alloc: Global, lexicon: &AnyLexicon, text: &str, alphabet: &Alphabet) -> Mem<String> {
    let entries = lexicon.fitting(alloc, text, alphabet)?;
    printed(alloc, &entries)
}

/// The entries that fit the text, whether a form may begin with it, how many entries have just this
/// form, the longest form's length, and how many entries there are.
fn answers(alloc: Global, lexicon: &AnyLexicon, text: &str, alphabet: &Alphabet) -> Mem<String> {
    let begins = lexicon.may_begin(alloc, text, alphabet)?;
    let entries = fitting(alloc, lexicon, text, alphabet)?;
    let exact = lexicon.exact(text).unwrap_or(0);
    let longest = lexicon.longest();
    let count = lexicon.count();
    Ok(format!(in alloc; "{entries}{begins} {exact} {longest} {count}")?)
}

/// The image of the lines, where their entries are a content.
fn image(alloc: Global, lines: &str) -> Option<Vec<u8>> {
    let content = content_in(alloc, lines).ok()?;
    if !is_content(&content) {
        return None;
    }
    image_of(alloc, content).ok()
}

/// The dictionary of the image of the lines.
fn by_image(alloc: Global, lines: &str) -> Option<AnyLexicon> {
    let bytes = image(alloc, lines)?;
    if bytes.len() >= 1_000_000 {
        return None;
    }
    let lexicon = read_image(alloc, &bytes).ok()?;
    Some(AnyLexicon::Image(lexicon))
}

/// What a dictionary is read as.
enum Kind {
    List,
    Automaton,
    Image,
}

/// The dictionary of the lines, of this kind.
fn dictionary(alloc: Global, kind: &Kind, lines: &str) -> Option<AnyLexicon> {
    match kind {
        Kind::List => Some(AnyLexicon::List(ListLexicon::read(alloc, lines).ok()?)),
        Kind::Automaton => Some(AnyLexicon::Image(read_text(alloc, lines).ok()?)),
        Kind::Image => by_image(alloc, lines),
    }
}

/// What the dictionary of the lines answers.
fn answers_of(alloc: Global, kind: &Kind, lines: &str, text: &str) -> Option<String> {
    let alphabet = Alphabet::read(alloc, PAIRS).ok()?;
    let lexicon = dictionary(alloc, kind, lines)?;
    answers(alloc, &lexicon, text, &alphabet).ok()
}

/// A name, a dictionary's lines, a text, and what is answered.
type Row = (&'static str, &'static str, &'static str, &'static str);

#[test]
fn dictionaries_of_each_kind_answer_the_same(rt: HostRuntime) {
    const LINES: &str = "THE,.c\nThe,.b\nthe,.a\nthe,.d";
    const ROWS: &[Row] = &[
        (
            "two entries of a form",
            LINES,
            "the",
            "the,.a the,.d true 2 3 4",
        ),
        ("a capital", LINES, "The", "The,.b the,.a the,.d true 1 3 4"),
        (
            "capitals",
            LINES,
            "THE",
            "THE,.c The,.b the,.a the,.d true 1 3 4",
        ),
        ("another case", LINES, "tHE", "the,.a the,.d true 0 3 4"),
        ("a front", LINES, "th", "true 0 3 4"),
        (
            "an entry twice",
            "cat,.N\ncat,.N",
            "cat",
            "cat,.N true 1 3 1",
        ),
        (
            "two entries, as they come",
            "cat,.V\ncat,.N",
            "cat",
            "cat,.V cat,.N true 2 3 2",
        ),
        ("an accent", "été,.N\nat,.N", "été", "été,.N true 1 3 2"),
        ("an accented capital", "Été,.N", "été", "false 0 3 1"),
        ("the front of a form", "the cat,.N", "The c", "true 0 7 1"),
        (
            "a whole form",
            "the cat,.N",
            "the cat",
            "the cat,.N true 1 7 1",
        ),
        ("more than a form", "the cat,.N", "the cats", "false 0 7 1"),
        ("a capital of the form", "The,.N", "the", "false 0 3 1"),
        ("no text", "cat,.N", "", "true 0 3 1"),
        ("no entry", "", "", "false 0 0 0"),
    ];
    const KINDS: &[Kind] = &[Kind::List, Kind::Automaton, Kind::Image];
    for row in ROWS {
        for kind in KINDS {
            let got = answers_of(rt.alloc(), kind, row.1, row.2);
            compare(&rt, row.0, got.as_deref(), Some(row.3));
        }
    }
}

/// The lines of a list of entries.
const LINES: &str = "b,.V\nab,a.N+x:y:z\nb,.V\nb,.N\nab,a.N+x:y:z";

/// The different entries of the lines.
fn once(alloc: Global) -> Option<String> {
    let entries = read_delaf(alloc, LINES).ok()?;
    let entries = different(alloc, entries).ok()?;
    printed(alloc, &entries).ok()
}

/// How many entries a list made of all of them has.
fn count(alloc: Global) -> Option<usize> {
    let entries = read_delaf(alloc, LINES).ok()?;
    let list = ListLexicon::new(alloc, entries).ok()?;
    Some(list.count())
}

#[test]
fn equal_entries_stand_once_at_their_first_place(rt: HostRuntime) {
    let lines = once(rt.alloc());
    compare(
        &rt,
        "the lines",
        lines.as_deref(),
        Some("b,.V ab,a.N+x:y:z b,.N "),
    );
    compare(&rt, "in a list", count(rt.alloc()), Some(3));
}
