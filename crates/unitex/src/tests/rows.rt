//! How the top call is run over files in memory, and what it gives is compared.

use std::alloc::Global;
use std::process::Abort;
use ux_base::{Folder, Mem, MemFolder, MemSink};
use ux_run::run;

/// The letters `Aa` to `Zz`.
pub const LETTERS: &str =
    "Aa\nBb\nCc\nDd\nEe\nFf\nGg\nHh\nIi\nJj\nKk\nLl\nMm\nNn\nOo\nPp\nQq\nRr\nSs\nTt\nUu\nVv\nWw\nXx\nYy\nZz\n";

/// A graph of one box, `the cat`.
pub const GRAPH: &str = "#Unigraph\n#\n3\n\"<E>\" 0 0 1 2 \n\"\" 0 0 0 \n\"the cat\" 0 0 1 1 \n";

/// A graph of one box, which calls the graph `g`.
const CALL: &str = "#Unigraph\n#\n3\n\"<E>\" 0 0 1 2 \n\"\" 0 0 0 \n\":g\" 0 0 1 1 \n";

/// A graph that calls the graph `g` inside a word.
const MARKED: &str =
    "#Unigraph\n#\n5\n\"<E>\" 0 0 1 2 \n\"\" 0 0 0 \n\"$<\" 0 0 1 3 \n\":g\" 0 0 1 4 \n\"$>\" 0 0 1 1 \n";

/// A dictionary of forms.
const DICTIONARY: &str = "cat,.N:s\n";

/// A dictionary of lemmas with their classes.
const STEMS: &str = "cat,N1\n";

/// The automaton of one sentence.
const AUTOMATA: &str = "#TFST 1\nS 1 2 1\n0 1 {cat,.N:s}\n";

/// A rule that asks for a verb wherever it stands.
const RULE: &str =
    "#Unigraph\n#\n6\n\"<E>\" 0 0 1 2 \n\"\" 0 0 0 \n\"<!>\" 0 0 1 3 \n\"<!>\" 0 0 1 4 \n\"<V>\" 0 0 1 5 \n\"<!>\" 0 0 1 1 \n";

/// A text in which the graph has one hit.
pub const CATS: &str = "The cat sat. The cats sat.";

/// The index of that hit.
pub const FOUND: &str = "#I\n0 2 The cat\n";

/// The token file of the text.
pub const TOKEN_FILE: &str = "6\nThe\n \ncat\nsat\n.\ncats\n";

/// The words that list the tokens of the text with the usual name.
pub const TOKENS: &[&str] = &["tokenize", "t.txt", "a.txt"];

/// The words of a search with the usual names.
pub const SEARCH: &[&str] = &["locate", "g.grf", "t.txt", "a.txt"];

/// What a run gives: the bytes of both sinks, and the status.
#[derive(Drop)]
pub struct Outcome {
    pub out: MemSink,
    pub err: MemSink,
    pub status: u8,
}

/// Runs over a folder and these sinks.
pub fn given_by<F: Folder>(
    alloc: Global,
    words: &[&str],
    folder: &mut F,
    sinks: (MemSink, MemSink),
) -> Mem<Outcome> {
    let words = words_of(alloc, words)?;
    let (mut out, mut err) = sinks;
    let status = run(alloc, words.as_slice(), folder, &mut out, &mut err).number();
    Ok(Outcome { out, err, status })
}

/// Runs over these files.
pub fn given(alloc: Global, words: &[&str], files: Vec<(String, Vec<u8>)>) -> Mem<Outcome> {
    let mut folder = MemFolder::new(files, Vec::new(alloc));
    let out = sink(alloc, 262_144)?;
    given_by(alloc, words, &mut folder, (out, sink(alloc, 4096)?))
}

/// A sink that fails at no write for which it has room.
pub fn sink(alloc: Global, capacity: usize) -> Mem<MemSink> {
    MemSink::new(alloc, capacity, Vec::new(alloc))
}

/// Compares what was written to a sink.
pub fn compare(rt: &impl Abort, name: &str, got: &MemSink, want: &str) {
    assert_eq!(rt; got.bytes(), want.as_bytes(), "{name}");
}

pub fn compare_status(rt: &impl Abort, name: &str, got: u8, want: u8) {
    assert_eq!(rt; got, want, "{name}");
}

/// Compares all that a run gave with the index, the line on `err` and the status.
pub fn compare_given(rt: &impl Abort, name: &str, got: &Outcome, want: (&str, &str, u8)) {
    compare(rt, name, &got.err, want.1);
    compare(rt, name, &got.out, want.0);
    compare_status(rt, name, got.status, want.2);
}

/// The words, owned.
pub fn words_of(alloc: Global, words: &[&str]) -> Mem<Vec<String>> {
    let mut all = Vec::new(alloc);
    for word in words {
        all.push(String::from_str(alloc, word)?)?;
    }
    Ok(all)
}

/// A file, owned.
pub fn file(alloc: Global, name: &str, bytes: &[u8]) -> Mem<(String, Vec<u8>)> {
    let name = String::from_str(alloc, name)?;
    Ok((name, Vec::from_slice(alloc, bytes)?))
}

/// The files, owned.
pub fn files_of(alloc: Global, files: &[(&str, &[u8])]) -> Mem<Vec<(String, Vec<u8>)>> {
    let mut all = Vec::new(alloc);
    for row in files {
        all.push(file(alloc, row.0, row.1)?)?;
    }
    Ok(all)
}

/// What stands in the file of a usual name.
pub fn usual(name: &str) -> &'static str {
    match name {
        "a.txt" => LETTERS,
        "g.grf" => GRAPH,
        "m.grf" | "N1.grf" => CALL,
        "k.grf" => MARKED,
        "d.dic" | "e.dic" => DICTIONARY,
        "s.dic" => STEMS,
        "t.tfst" => AUTOMATA,
        "r.grf" | "s.grf" => RULE,
        _ => CATS,
    }
}

/// The files of a search with the usual names.
pub fn usual_files(
    alloc: Global,
    alphabet: &[u8],
    graph: &[u8],
    text: &[u8],
) -> Mem<Vec<(String, Vec<u8>)>> {
    let mut all = Vec::new(alloc);
    all.push(file(alloc, "a.txt", alphabet)?)?;
    all.push(file(alloc, "g.grf", graph)?)?;
    all.push(file(alloc, "t.txt", text)?)?;
    Ok(all)
}

/// Searches with the usual names.
pub fn searched(alloc: Global, alphabet: &str, graph: &str, text: &str) -> Mem<Outcome> {
    let files = usual_files(
        alloc,
        alphabet.as_bytes(),
        graph.as_bytes(),
        text.as_bytes(),
    )?;
    given(alloc, SEARCH, files)
}
