//! Folders and sinks that fail: what the run answers, and what was written.

use crate::tests::rows::{
    CATS, FOUND, GRAPH, LETTERS, Outcome, SEARCH, TOKEN_FILE, TOKENS, compare_given, files_of,
    given_by, sink,
};
use std::alloc::Global;
use std::test::Fail;
use ux_base::{Mem, MemFolder, MemSink};

/// A graph of two boxes, `the` and then `<N>/[N]`.
const NOUNS: &str =
    "#Unigraph\n#\n4\n\"<E>\" 0 0 1 2 \n\"\" 0 0 0 \n\"the\" 0 0 1 3 \n\"<N>/[N]\" 0 0 1 1 \n";

/// A graph of that name which begins with itself: `:X` then `a`, or `a`.
const LEFT: &str =
    "#Unigraph\n#\n5\n\"<E>\" 0 0 2 2 4 \n\"\" 0 0 0 \n\":X\" 0 0 1 3 \n\"a\" 0 0 1 1 \n\"a\" 0 0 1 1 \n";

/// The words of a search that merges outputs.
const MERGED: &[&str] = &[
    "locate", "--mode", "merge", "n.grf", "t.txt", "a.txt", "d.dic",
];

/// What that search finds.
const NAMED: &str = "#M\n0 2 The[N] cat\n7 9 The[N] cats\n";

/// The files that all these runs have.
const FILES: &[(&str, &str)] = &[
    ("a.txt", LETTERS),
    ("g.grf", GRAPH),
    ("n.grf", NOUNS),
    ("X.grf", LEFT),
    ("t.txt", CATS),
    ("d.dic", "cat,.N:s\ncats,cat.N:p\n"),
];

/// A folder in memory with these files, whose reads of these numbers fail.
fn folder(alloc: Global, failing: Vec<u64>) -> Mem<MemFolder> {
    let mut files = Vec::new(alloc);
    for row in FILES {
        files.push((row.0, row.1.as_bytes()))?;
    }
    Ok(MemFolder::new(files_of(alloc, files.as_slice())?, failing))
}

/// Gives the words where the first write takes so many bytes, and fails.
fn given_cut(alloc: Global, words: &[&str], taken: usize) -> Mem<Outcome> {
    let mut failing = Vec::new(alloc);
    failing.push((0, taken))?;
    let out = MemSink::new(alloc, 64, failing)?;
    let sinks = (out, sink(alloc, 64)?);
    given_by(alloc, words, &mut folder(alloc, Vec::new(alloc))?, sinks)
}

#[test]
fn cuts_the_result_where_a_write_fails(rt: HostRuntime) -> Result<(), Fail> {
    const ROWS: &[(&[&str], &str)] = &[(SEARCH, FOUND), (TOKENS, TOKEN_FILE), (MERGED, NAMED)];
    for row in ROWS {
        for taken in 0..=row.1.len() {
            let got = given_cut(rt.alloc(), row.0, taken)?;
            let prefix = row.1.get(..taken).unwrap_or("");
            compare_given(&rt, prefix, &got, (prefix, "write fault\n", 5));
        }
    }
    Ok(())
}

/// Gives the words where so many bytes of a line on standard error can be written.
fn given_room(alloc: Global, words: &[&str], room: usize) -> Mem<Outcome> {
    let sinks = (sink(alloc, 64)?, sink(alloc, room)?);
    given_by(alloc, words, &mut folder(alloc, Vec::new(alloc))?, sinks)
}

#[test]
fn cuts_the_line_where_a_write_fails(rt: HostRuntime) -> Result<(), Fail> {
    const ROWS: &[(&[&str], &str)] = &[
        (&["locate", "g.grf", "no.txt", "a.txt"], "absent: no.txt\n"),
        (&["locate", "g.grf"], "usage: unitex COMMAND ARGUMENTS\n"),
        (
            &["locate", "X.grf", "t.txt", "a.txt"],
            "refused: X.grf: LeftRecursion graph=X node=2\n",
        ),
    ];
    for row in ROWS {
        for room in 0..row.1.len() {
            let got = given_room(rt.alloc(), row.0, room)?;
            let prefix = row.1.get(..room).unwrap_or("");
            compare_given(&rt, prefix, &got, ("", prefix, 5));
        }
    }
    Ok(())
}

#[test]
fn names_the_file_whose_read_fails(rt: HostRuntime) -> Result<(), Fail> {
    const LINES: &[&str] = &[
        "read fault: a.txt\n",
        "read fault: n.grf\n",
        "read fault: t.txt\n",
        "read fault: d.dic\n",
    ];
    for number in 0..LINES.len() {
        let mut failing = Vec::new(rt.alloc());
        failing.push(number as u64)?;
        let sinks = (sink(rt.alloc(), 64)?, sink(rt.alloc(), 64)?);
        let got = given_by(rt.alloc(), MERGED, &mut folder(rt.alloc(), failing)?, sinks)?;
        let line = LINES[number];
        compare_given(&rt, line, &got, ("", line, 4));
    }
    Ok(())
}
