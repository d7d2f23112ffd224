//! Runs over files that are made, since no row could hold them: each front of an image, thousands
//! of graphs, all words of four letters.

use crate::tests::rows::{LETTERS, Outcome, compare_given, file, files_of, given, given_by, sink};
use std::alloc::{AllocError, Global};
use std::process::Abort;
use std::test::Fail;
use ux_base::{Mem, MemFolder};

/// The image of a dictionary of two forms.
const IMAGE: &[u8] = b"UXUDI\x02\r\n\x05\0\0\0\x02\0\0\0\
    \x01\0\0\0\0\0\0\0\
    \x02\0\0\0\x01\0\0\0s\0\0\0\0\0\0\0\
    \0\0\0\0\x01\0\0\0t\0\0\0\x01\0\0\0\
    \0\0\0\0\x01\0\0\0a\0\0\0\x02\0\0\0\
    \0\0\0\0\x01\0\0\0c\0\0\0\x03\0\0\0\
    \x01\0\0\0\x01\0\0\0\x01\0\0\0\0\0\0\0\x03\0\0\0N:p\
    \x01\0\0\0\x01\0\0\0\0\0\0\0\0\0\0\0\x03\0\0\0N:s";

/// Its image of the first version.
const FIRST_VERSION: &[u8] = b"UXUDI\x01\r\n\x05\0\0\0\x02\0\0\0\
    \x01\0\0\0\0\0\0\0\
    \x02\0\0\0\x01\0\0\0s\0\0\0\0\0\0\0\
    \0\0\0\0\x01\0\0\0t\0\0\0\x01\0\0\0\
    \0\0\0\0\x01\0\0\0a\0\0\0\x02\0\0\0\
    \0\0\0\0\x01\0\0\0c\0\0\0\x03\0\0\0\
    \x01\0\0\0\x01\0\0\0\0\0\0\0\x03\0\0\0N:p\
    \x01\0\0\0\0\0\0\0\0\0\0\0\x03\0\0\0N:s";

/// Compares the line on `err` of an image that is refused.
fn compare_refused<R: Abort + AllocGlobal>(rt: &R, image: &[u8], reason: &str) -> Result<(), Fail> {
    let files = files_of(rt.alloc(), &[("d.udi", image)])?;
    let got = given(rt.alloc(), &["check", "d.udi"], files)?;
    let line = format!(in rt.alloc(); "refused: d.udi: {reason}\n")?;
    compare_given(rt, reason, &got, ("", line.as_str(), 3));
    Ok(())
}

/// Compares each front of an image, and the image with a byte more.
fn compare_lengths<R: Abort + AllocGlobal>(rt: &R, image: &[u8]) -> Result<(), Fail> {
    for end in 0..image.len() {
        compare_refused(rt, &image[..end], "Short")?;
    }
    let mut long = Vec::from_slice(rt.alloc(), image)?;
    long.push(0)?;
    compare_refused(rt, &long, "Trailing")
}

#[test]
fn refuses_images_of_another_length(rt: HostRuntime) -> Result<(), Fail> {
    compare_lengths(&rt, IMAGE)?;
    compare_lengths(&rt, FIRST_VERSION)
}

/// A graph of one box.
fn one_box(alloc: Global, content: &str) -> Result<String, AllocError> {
    format!(in alloc; "#Unigraph\n#\n3\n\"\" 0 0 1 2 \n\"\" 0 0 0 \n\"{content}\" 0 0 1 1 \n")
}

/// A graph that calls the next.
fn link(alloc: Global, number: u32) -> Mem<(String, Vec<u8>)> {
    let name = format!(in alloc; "g{number}.grf")?;
    let content = format!(in alloc; ":g{}", number.saturating_add(1))?;
    let graph = one_box(alloc, content.as_str())?;
    file(alloc, name.as_str(), graph.as_str().as_bytes())
}

/// Graphs of which each calls the next, and the last takes `a`.
fn chain(alloc: Global) -> Mem<Vec<(String, Vec<u8>)>> {
    let mut files = files_of(alloc, &[("a.txt", LETTERS.as_bytes()), ("t.txt", b"a")])?;
    for number in 0..3000u32 {
        files.push(link(alloc, number)?)?;
    }
    let last = one_box(alloc, "a")?;
    files.push(file(alloc, "g3000.grf", last.as_str().as_bytes())?)?;
    Ok(files)
}

#[test]
fn reads_a_chain_of_graphs(rt: HostRuntime) -> Result<(), Fail> {
    const WORDS: &[&str] = &["locate", "g0.grf", "t.txt", "a.txt"];
    let alloc = rt.alloc();
    let got = given(alloc, WORDS, chain(alloc)?)?;
    compare_given(&rt, "a chain", &got, ("#I\n0 0 a\n", "", 0));
    Ok(())
}

/// The letters of the words of four letters.
const TWENTY: &str = "abcdefghijklmnopqrst";

/// All words of four letters in order, each with this behind it.
fn words_of_four(alloc: Global, behind: &str) -> Result<String, AllocError> {
    let mut words = String::new(alloc);
    for first in TWENTY.chars() {
        for second in TWENTY.chars() {
            push_words(&mut words, first, second, behind)?;
        }
    }
    Ok(words)
}

/// Puts those that begin so last.
fn push_words(
    words: &mut String,
    first: char,
    second: char,
    behind: &str,
) -> Result<(), AllocError> {
    for third in TWENTY.chars() {
        for fourth in TWENTY.chars() {
            words.push(first)?;
            words.push(second)?;
            words.push(third)?;
            words.push(fourth)?;
            words.push_str(behind)?;
        }
    }
    Ok(())
}

/// Reports on a long text with one dictionary.
fn reported<'a>(alloc: Global, text: &'a str, dic: &'a str) -> Mem<Outcome> {
    let files = [
        ("a.txt", LETTERS.as_bytes()),
        ("t.txt", text.as_bytes()),
        ("d.dic", dic.as_bytes()),
    ];
    let mut folder = MemFolder::new(files_of(alloc, &files)?, Vec::new(alloc));
    let sinks = (sink(alloc, 2_000_000)?, sink(alloc, 64)?);
    given_by(
        alloc,
        &["dico", "t.txt", "a.txt", "d.dic"],
        &mut folder,
        sinks,
    )
}

/// Each word has one entry, a line of the dictionary.
#[test]
fn ends_soon_on_a_large_dictionary(rt: HostRuntime) -> Result<(), Fail> {
    let alloc = rt.alloc();
    let text = words_of_four(alloc, " ")?;
    let dic = words_of_four(alloc, ",.N\n")?;
    let got = reported(alloc, text.as_str(), dic.as_str())?;
    let report = format!(in alloc; "#DLF 160000\n{dic}#DLC 0\n#ERR 0\n")?;
    compare_given(
        &rt,
        "all words of four letters",
        &got,
        (report.as_str(), "", 0),
    );
    Ok(())
}
