//! Each command at each of its files, where the file can't be read or is too long.

ghost use Rattle.std.specs.Prelude.{◌≤◌, None, IfOk, length};
ghost use Rattle.ux_base.specs.Outside.{MAX, seen_with};

use crate::tests::rows::{compare_given, files_of, given_by, sink, usual};
use std::alloc::Global;
use std::process::Abort;
use std::test::Fail;
use ux_base::{Counts, Folder, FolderError, MemFolder};

/// What is wrong with a file.
#[derive(Clone, Copy)]
enum Wrong {
    /// It can't be read.
    Fault,
    /// It is too long.
    TooLong,
}

/// A folder of the usual files, of which one is wrong.
#[derive(Drop)]
struct OneWrong {
    name: &'static str,
    wrong: Wrong,
    counts: Counts,
}

impl Folder for OneWrong {
    ghost seen = { λ f. seen_with None f.counts };

    fn read(&mut self, alloc: Global, name: &str) -> Result<Vec<u8>, FolderError> {
        let result = answer(alloc, self.name, self.wrong, name);
        self.counts = self.counts.after(&result);
        result
    }
}

/// What the read of the file of this name answers, where another one is wrong.
fn answer(alloc: Global, other: &str, wrong: Wrong, name: &str) -> Result<Vec<u8>, FolderError>
    ensures { IfOk result (λ bytes. length bytes.items ≤ MAX) }
{
    if name != other {
        return short_copy(alloc, usual(name).as_bytes());
    }
    match wrong {
        Wrong::Fault => Err(FolderError::Fault),
        Wrong::TooLong => Err(FolderError::TooLong),
    }
}

/// A copy of the first bytes.
fn short_copy(alloc: Global, bytes: &[u8]) -> Result<Vec<u8>, FolderError>
    ensures { IfOk result (λ bytes. length bytes.items ≤ MAX) }
{
    match Vec::from_slice(alloc, &bytes[..bytes.len().min(4096)]) {
        Ok(bytes) => Ok(bytes),
        Err(_) => Err(FolderError::NoMemory),
    }
}

/// The words, and one of the files.
type Row = (&'static [&'static str], &'static str);

const SEARCH: &[&str] = &["locate", "m.grf", "t.txt", "a.txt", "d.dic", "e.dic"];

const CASCADE: &[&str] = &[
    "cascade",
    "t.txt",
    "a.txt",
    "dic:d.dic",
    "merge:m.grf",
    "dic:e.dic",
];

const TOKENS: &[&str] = &["tokenize", "t.txt", "a.txt"];

const CHECK: &[&str] = &["check", "d.dic"];

const CHECK_IMAGE: &[&str] = &["check", "d.udi"];

const COMPRESS: &[&str] = &["compress", "d.dic"];

const COMPRESS_IMAGE: &[&str] = &["compress", "d.udi"];

const CHECK_STEMS: &[&str] = &["check", "--delas", "s.dic"];

const FLATTEN: &[&str] = &["flatten", "m.grf", "a.txt"];

const INFLECT: &[&str] = &["inflect", "s.dic"];

const REPORT: &[&str] = &["dico", "t.txt", "a.txt", "d.dic", "e.dic"];

const CONCORDANCE: &[&str] = &["concord", "m.grf", "t.txt", "a.txt", "d.dic", "e.dic"];

const COMPILED: &[&str] = &["fst2", "m.grf", "a.txt"];

const SENTENCES: &[&str] = &["txt2tfst", "t.txt", "a.txt", "d.dic", "e.dic"];

const RULES: &[&str] = &["elag", "t.tfst", "r.grf", "s.grf"];

const FOUND_READINGS: &[&str] = &["tfind", "m.grf", "t.tfst", "a.txt"];

const ANALYSES: &[&str] = &["morpho", "k.grf", "t.txt", "a.txt", "d.dic", "e.dic"];

/// Each command, and each of its files in the order of reading.
const ROWS: &[Row] = &[
    (SEARCH, "a.txt"),
    (SEARCH, "m.grf"),
    (SEARCH, "g.grf"),
    (SEARCH, "t.txt"),
    (SEARCH, "d.dic"),
    (SEARCH, "e.dic"),
    (CASCADE, "a.txt"),
    (CASCADE, "m.grf"),
    (CASCADE, "g.grf"),
    (CASCADE, "t.txt"),
    (CASCADE, "d.dic"),
    (CASCADE, "e.dic"),
    (TOKENS, "a.txt"),
    (TOKENS, "t.txt"),
    (CHECK, "d.dic"),
    (CHECK_STEMS, "s.dic"),
    (CHECK_IMAGE, "d.udi"),
    (COMPRESS, "d.dic"),
    (COMPRESS_IMAGE, "d.udi"),
    (REPORT, "a.txt"),
    (REPORT, "t.txt"),
    (REPORT, "d.dic"),
    (REPORT, "e.dic"),
    (CONCORDANCE, "a.txt"),
    (CONCORDANCE, "m.grf"),
    (CONCORDANCE, "g.grf"),
    (CONCORDANCE, "t.txt"),
    (CONCORDANCE, "d.dic"),
    (CONCORDANCE, "e.dic"),
    (COMPILED, "a.txt"),
    (COMPILED, "m.grf"),
    (COMPILED, "g.grf"),
    (SENTENCES, "a.txt"),
    (SENTENCES, "t.txt"),
    (SENTENCES, "d.dic"),
    (SENTENCES, "e.dic"),
    (RULES, "t.tfst"),
    (RULES, "r.grf"),
    (RULES, "s.grf"),
    (FOUND_READINGS, "a.txt"),
    (FOUND_READINGS, "m.grf"),
    (FOUND_READINGS, "g.grf"),
    (FOUND_READINGS, "t.tfst"),
    (ANALYSES, "a.txt"),
    (ANALYSES, "k.grf"),
    (ANALYSES, "t.txt"),
    (ANALYSES, "d.dic"),
    (ANALYSES, "e.dic"),
    (FLATTEN, "a.txt"),
    (FLATTEN, "m.grf"),
    (FLATTEN, "g.grf"),
    (INFLECT, "s.dic"),
    (INFLECT, "N1.grf"),
    (INFLECT, "g.grf"),
];

/// Gives the row's words where its file is wrong, and compares the line on `err` and the status.
fn compare_stop<R: Abort + AllocGlobal>(
    rt: &R,
    row: &Row,
    wrong: Wrong,
    want: (&str, u8),
) -> Result<(), Fail> {
    let mut folder = OneWrong {
        name: row.1,
        wrong,
        counts: Counts::zero(),
    };
    let sinks = (sink(rt.alloc(), 64)?, sink(rt.alloc(), 64)?);
    let got = given_by(rt.alloc(), row.0, &mut folder, sinks)?;
    compare_given(rt, want.0, &got, ("", want.0, want.1));
    Ok(())
}

#[test]
fn names_the_file_that_stops_a_command(rt: HostRuntime) -> Result<(), Fail> {
    for row in ROWS {
        let name = row.1;
        let fault = format!(in rt.alloc(); "read fault: {name}\n")?;
        compare_stop(&rt, row, Wrong::Fault, (fault.as_str(), 4))?;
        let long = format!(in rt.alloc(); "too large: {name}\n")?;
        compare_stop(&rt, row, Wrong::TooLong, (long.as_str(), 6))?;
    }
    Ok(())
}

/// The graph of a class: a plural in `s`.
const PLURAL: &[u8] = b"#Unigraph\n#\n3\n\"\" 0 0 1 2 \n\"\" 0 0 0 \n\"s/:p\" 0 0 1 1 \n";

/// Four lemmas of two classes.
const LEMMAS: &[u8] = b"a,N1\nb,N1\nc,N2\nd,N1\n";

#[test]
fn reads_the_graph_of_a_class_once(rt: HostRuntime) -> Result<(), Fail> {
    let files = files_of(
        rt.alloc(),
        &[("s.dic", LEMMAS), ("N1.grf", PLURAL), ("N2.grf", PLURAL)],
    )?;
    // A fourth read would fail.
    let mut failing = Vec::new(rt.alloc());
    failing.push(3)?;
    let mut folder = MemFolder::new(files, failing);
    let sinks = (sink(rt.alloc(), 64)?, sink(rt.alloc(), 64)?);
    let got = given_by(rt.alloc(), INFLECT, &mut folder, sinks)?;
    let forms = "as,a.N:p\nbs,b.N:p\ncs,c.N:p\nds,d.N:p\n";
    compare_given(&rt, "lemmas", &got, (forms, "", 0));
    Ok(())
}
