//! Rows of words, with `|` between them. Words that are no request of a command that is built are
//! rows of `unitex_rows`.
//!
//! A request is a large type, and a function that holds one where it may fail or stop is dear to
//! prove. So requests are compared as they are debugged, which tells them apart.

use crate::comparing::compare;
use std::alloc::{AllocError, Global};
use std::process::Abort;
use std::test::Fail;
use ux_command_line::{Request, WordsError};

fn words_of(alloc: Global, line: &str) -> Result<Vec<String>, AllocError> {
    let mut words = Vec::new(alloc);
    for word in line.split('|') {
        words.push(String::from_str(alloc, word)?)?;
    }
    Ok(words)
}

fn debugged(alloc: Global, request: &Request) -> Result<String, AllocError> {
    format!(in alloc; "{request:?}")
}

/// What the words of a line ask for, as it is debugged.
fn asked(alloc: Global, line: &str) -> Result<String, WordsError> {
    let words = words_of(alloc, line)?;
    let request = Request::of(alloc, &words)?;
    let text = debugged(alloc, &request);
    drop(request);
    Ok(text?)
}

/// Words, and others that ask for the same; none where they are no request.
type Row = (&'static str, &'static str);

#[test]
fn reads_each_command(rt: HostRuntime) -> Result<(), Fail> {
    // Words, and what they ask for as it is debugged.
    const ROWS: &[Row] = &[
        (
            "locate|g|t|a",
            "Locate(Search { graph: Txt { text: \"g\" }, text: Txt { text: \"t\" }, alphabet: Txt { text: \"a\" }, dics: Lst { items: [] }, mode: Ignore, policy: All, novar: Nothing, chars: false })",
        ),
        (
            "locate|--novar|--mode=replace|g|t|--policy|shortest|a|d|e",
            "Locate(Search { graph: Txt { text: \"g\" }, text: Txt { text: \"t\" }, alphabet: Txt { text: \"a\" }, dics: Lst { items: [Txt { text: \"d\" }, Txt { text: \"e\" }] }, mode: Replace, policy: Shortest, novar: Drop, chars: false })",
        ),
        (
            "concord|g|t|a|--right|0007|--chars|--sort=RL",
            "Concord { search: Search { graph: Txt { text: \"g\" }, text: Txt { text: \"t\" }, alphabet: Txt { text: \"a\" }, dics: Lst { items: [] }, mode: Ignore, policy: All, novar: Nothing, chars: true }, left: 40, right: 7, sort: RL }",
        ),
        (
            "tokenize|t|a",
            "Tokenize { text: Txt { text: \"t\" }, alphabet: Txt { text: \"a\" }, chars: false }",
        ),
        (
            "tokenize|--|--chars|a",
            "Tokenize { text: Txt { text: \"--chars\" }, alphabet: Txt { text: \"a\" }, chars: false }",
        ),
        (
            "check|d.udi|--delas",
            "Check { delas: true, file: Txt { text: \"d.udi\" } }",
        ),
        (
            "dico|t|--chars|a|d",
            "Dico { text: Txt { text: \"t\" }, alphabet: Txt { text: \"a\" }, dics: Lst { items: [Txt { text: \"d\" }] }, chars: true }",
        ),
        (
            "fst2|g|a",
            "Fst2 { graph: Txt { text: \"g\" }, alphabet: Txt { text: \"a\" }, chars: false }",
        ),
        ("inflect|s", "Inflect { stems: Txt { text: \"s\" } }"),
        ("compress|d", "Compress { dic: Txt { text: \"d\" } }"),
        (
            "txt2tfst|t|a|--chars",
            "Tfst { text: Txt { text: \"t\" }, alphabet: Txt { text: \"a\" }, dics: Lst { items: [] }, chars: true }",
        ),
        (
            "elag|f|r|s",
            "Elag { tfst: Txt { text: \"f\" }, rules: Lst { items: [Txt { text: \"r\" }, Txt { text: \"s\" }] } }",
        ),
        ("bench|200000", "Bench { n: 200000 }"),
        (
            "cascade|--trace|t|a|dic:e|replace07:h:i|dic:d|merge:g",
            "Cascade { text: Txt { text: \"t\" }, alphabet: Txt { text: \"a\" }, steps: Lst { items: [CascadeStep { graph: Txt { text: \"h:i\" }, mode: Replace, times: 7 }, CascadeStep { graph: Txt { text: \"g\" }, mode: Merge, times: 1 }] }, dics: Lst { items: [Txt { text: \"e\" }, Txt { text: \"d\" }] }, trace: true }",
        ),
        (
            "flatten|g|a",
            "Flatten { graph: Txt { text: \"g\" }, alphabet: Txt { text: \"a\" }, depth: 10 }",
        ),
        (
            "tfind|g|f|a",
            "Tfind { graph: Txt { text: \"g\" }, tfst: Txt { text: \"f\" }, alphabet: Txt { text: \"a\" } }",
        ),
        (
            "morpho|g|t|a|d",
            "Morpho { graph: Txt { text: \"g\" }, text: Txt { text: \"t\" }, alphabet: Txt { text: \"a\" }, dics: Lst { items: [Txt { text: \"d\" }] } }",
        ),
        ("--help", "Help"),
        ("--version", "Version"),
    ];
    for (words, want) in ROWS {
        compare(&rt, words, asked(rt.alloc(), words)?.as_str(), want);
    }
    Ok(())
}

fn check<R: Abort + AllocGlobal>(rt: &R, rows: &[Row]) -> Result<(), Fail> {
    for (words, same) in rows {
        let got = asked(rt.alloc(), words);
        let want = if same.is_empty() {
            Err(WordsError::Usage)
        } else {
            Ok(asked(rt.alloc(), same)?)
        };
        compare(rt, words, got.as_deref(), want.as_deref());
    }
    Ok(())
}

#[test]
fn reads_words(rt: HostRuntime) -> Result<(), Fail> {
    const ROWS: &[Row] = &[
        // An option with a value.
        ("locate|--mode=merge|g|t|a", "locate|g|t|a|--mode|merge"),
        (
            "locate|--policy=longest|g|t|a",
            "locate|g|t|--policy|longest|a",
        ),
        ("locate|--mode=ignore|--policy=all|g|t|a", "locate|g|t|a"),
        // A flag.
        ("locate|g|t|a|--novar", "locate|--novar|g|t|a"),
        ("check|--delas|d", "check|d|--delas"),
        // Numbers.
        ("concord|--left=40|--right=0040|g|t|a", "concord|g|t|a"),
        ("concord|--left|0|g|t|a", "concord|g|t|a|--left=0000"),
        ("concord|--left=1000|g|t|a", "concord|--left|1000|g|t|a"),
        ("concord|--sort=TO|g|t|a", "concord|g|t|a"),
        (
            "concord|--mode=merge|g|t|a|--novar",
            "concord|--novar|--mode|merge|g|t|a",
        ),
        ("bench|000005", "bench|5"),
        ("bench|--|5", "bench|5"),
        ("locate|--chars|g|t|a", "locate|g|t|a|--chars"),
        ("concord|--chars|g|t|a", "concord|g|t|a|--chars"),
        ("tokenize|--chars|t|a", "tokenize|t|a|--chars"),
        ("dico|--chars|t|a|d", "dico|t|a|d|--chars"),
        ("txt2tfst|--chars|t|a", "txt2tfst|t|a|--chars"),
        ("fst2|--chars|g|a", "fst2|g|a|--chars"),
        ("fst2|--chars=x|g|a", ""),
        ("txt2tfst|--char|t|a", ""),
        // Commands that lack it, and aren't built.
        ("inflect|--chars|s", ""),
        ("elag|--chars|f|r", ""),
        ("cascade|--chars|t|a|merge:g", ""),
        ("flatten|--chars|g|a", ""),
        ("tfind|--chars|g|f|a", ""),
        ("morpho|--chars|g|t|a", ""),
        // How often a step is applied.
        ("cascade|t|a|merge:g", "cascade|t|a|merge1:g"),
        ("cascade|t|a|merge01:g", "cascade|t|a|merge:g"),
        ("cascade|t|a|merge07:g", "cascade|t|a|merge7:g"),
        ("cascade|t|a|replace99:g", "cascade|--|t|a|replace99:g"),
        ("cascade|t|a|merge0:g", ""),
        ("cascade|t|a|merge00:g", ""),
        ("cascade|t|a|merge100:g", ""),
        ("cascade|t|a|replace007:g", ""),
        ("cascade|t|a|mergex:g", ""),
        ("cascade|t|a|merge+1:g", ""),
        ("cascade|t|a|replace 1:g", ""),
        // Kinds of steps.
        ("cascade|t|a|merge", ""),
        ("cascade|t|a|merge:", ""),
        ("cascade|t|a|merge7:", ""),
        ("cascade|t|a|replace:", ""),
        ("cascade|t|a|:g", ""),
        ("cascade|t|a|Merge:g", ""),
        ("cascade|t|a|ignore:g", ""),
        ("cascade|t|a|remerge:g", ""),
        ("cascade|t|a|merge:g|h", ""),
        // Dictionaries, which stand among the steps.
        ("cascade|t|a|dic:d|merge:g", "cascade|t|a|merge:g|dic:d"),
        ("cascade|t|a|dic:f", ""),
        ("cascade|t|a|merge:g|dic:", ""),
        ("cascade|t|a|merge:g|dic2:f", ""),
        ("cascade|t|a|merge:g|dics:f", ""),
        // Counts and options.
        ("cascade", ""),
        ("cascade|t", ""),
        ("cascade|t|a", ""),
        ("cascade|merge:g|t|a", ""),
        ("cascade|--trace|t|a|merge:g", "cascade|t|a|merge:g|--trace"),
        ("cascade|--trace|--trace|t|a|merge:g", ""),
        ("cascade|--trace=|t|a|merge:g", ""),
        ("cascade|--trace=x|t|a|merge:g", ""),
        ("cascade|t|a|merge:g|--|--trace", ""),
        ("cascade|--mode=merge|t|a|merge:g", ""),
        // How deep calls are written out.
        ("flatten|g|a|--depth=10", "flatten|g|a"),
        ("flatten|--depth|010|g|a", "flatten|--|g|a"),
        ("flatten|--depth=0|g|a", "flatten|g|a|--depth|000"),
        ("flatten|--depth=100|g|a", "flatten|g|--depth|100|a"),
        ("flatten|--depth=101|g|a", ""),
        ("flatten|--depth=0010|g|a", ""),
        ("flatten|--depth=|g|a", ""),
        ("flatten|--depth||g|a", ""),
        ("flatten|--depth=x|g|a", ""),
        ("flatten|--depth=-1|g|a", ""),
        ("flatten|--depth|-1|g|a", ""),
        ("flatten|--depth|+1|g|a", ""),
        ("flatten|--depth=1|--depth=1|g|a", ""),
        ("flatten|g|a|--depth", ""),
        ("flatten|g", ""),
        ("flatten|g|a|x", ""),
        ("fst2|--depth=1|g|a", ""),
        // Searches in automata and inside words.
        ("tfind|g|f|a", "tfind|--|g|f|a"),
        ("tfind|g|f", ""),
        ("tfind|g|f|a|d", ""),
        ("tfind|--mode=merge|g|f|a", ""),
        ("tfind|--depth=1|g|f|a", ""),
        ("morpho|g|t|a", "morpho|--|g|t|a"),
        ("morpho|g|t|a|d|e", "morpho|g|t|a|--|d|e"),
        ("morpho|g|t", ""),
        ("morpho|g.fst2|t|a", ""),
        ("morpho|--|g.fst2|t|a|d", ""),
        ("morpho|.fst2|t|a", ""),
        ("morpho|g.fst2.grf|t|a", "morpho|--|g.fst2.grf|t|a"),
        ("morpho|g|t.fst2|a", "morpho|--|g|t.fst2|a"),
        ("morpho|--trace|g|t|a", ""),
        // `--`, `-` and the empty word.
        ("locate|--|g|t|a", "locate|g|t|a"),
        ("locate|g|--|t|a", "locate|g|t|a"),
        ("locate|g|t|a|--", "locate|g|t|a"),
        (
            "locate|--mode=merge|--|--mode|--novar|--",
            "locate|--mode|merge|--|--mode|--novar|--",
        ),
        ("locate|-|-|-", "locate|--|-|-|-"),
        ("tokenize|--|-x|--", "tokenize|--|-x|--"),
        // Counts.
        ("dico|t|a", "dico|--|t|a"),
        ("fst2|g", ""),
        ("fst2|g|a|x", ""),
        ("txt2tfst|t", ""),
        ("inflect|s|t", ""),
        ("elag|f", ""),
        ("fst2|--policy|all|g|a", ""),
        ("inflect|--delas|s", ""),
        ("txt2tfst|--sort=TO|t|a", ""),
        ("elag|--left=5|f|r", ""),
    ];
    check(&rt, ROWS)
}
