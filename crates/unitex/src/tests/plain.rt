//! A second, plain computation of the hits: all words of the graph, each tried at each token.
//!
//! It follows the definition word for word, at a cost that small inputs alone allow, and is compared
//! with what the run writes.

use crate::tests::rows::{LETTERS, compare_given, searched};
use std::alloc::{AllocError, Global};
use std::process::Abort;
use std::test::Fail;
use ux_alphabet::Alphabet;
use ux_grf::{Graph, GrfBox, Item, read_grf};
use ux_tokens::{Kind, Text};

/// Graphs in which boxes branch, join, are empty, or hold punctuation and spaces.
const GRAPHS: &[&str] = &[
    "#Unigraph\n#\n5\n\"<E>\" 0 0 3 2 3 4 \n\"\" 0 0 0 \n\"the cat\" 0 0 1 1 \n\"cat\" 0 0 1 1 \n\"the\" 0 0 1 1 \n",
    "#Unigraph\n#\n5\n\"<E>\" 0 0 2 2 3 \n\"\" 0 0 0 \n\"the\" 0 0 2 3 4 \n\"cat\" 0 0 2 1 4 \n\"sat\" 0 0 1 1 \n",
    "#Unigraph\n#\n5\n\"<E>\" 0 0 2 2 3 \n\"\" 0 0 0 \n\"\" 0 0 2 1 3 \n\"the\" 0 0 2 1 4 \n\"cat\" 0 0 1 1 \n",
    "#Unigraph\n#\n4\n\"<E>\" 0 0 2 2 3 \n\"\" 0 0 0 \n\"cat,\" 0 0 2 1 3 \n\"the\" 0 0 1 1 \n",
    "#Unigraph\n#\n5\n\"<E>\" 0 0 2 2 3 \n\"\" 0 0 0 \n\"The\" 0 0 1 4 \n\"cat\" 0 0 1 4 \n\", the\" 0 0 1 1 \n",
    "#Unigraph\n#\n5\n\"<E>\" 0 0 2 2 3 \n\"\" 0 0 0 \n\"\" 0 0 2 4 1 \n\"a\" 0 0 2 1 4 \n\"cat a\" 0 0 1 1 \n",
    "#Unigraph\n#\n6\n\"<E>\" 0 0 3 2 3 4 \n\"\" 0 0 0 \n\"the\" 0 0 1 5 \n\"the\" 0 0 1 5 \n\"the cat\" 0 0 1 1 \n\"cat\" 0 0 1 1 \n",
    "#Unigraph\n#\n2\n\"<E>\" 0 0 1 1 \n\"\" 0 0 0 \n",
];

const TEXTS: &[&str] = &[
    "",
    " , ",
    "The cat sat, the cat.",
    "thecat THE CAT  the\ncat,the , cat",
    "a a cat a cat sat cat,",
    "cat cat cat sat sat a the",
    ",,The cat ,the,cat , a",
];

#[test]
fn agrees_with_the_plain_computation(rt: HostRuntime) -> Result<(), Fail> {
    for graph in GRAPHS {
        compare_texts(&rt, graph)?;
    }
    Ok(())
}

/// Compares the run over each text with the plain computation.
fn compare_texts<R: Abort + AllocGlobal>(rt: &R, graph: &str) -> Result<(), Fail> {
    for text in TEXTS {
        let index = plain_index(rt.alloc(), graph, text)?;
        let got = searched(rt.alloc(), LETTERS, graph, text)?;
        compare_given(rt, text, &got, (index.as_str(), "", 0));
    }
    Ok(())
}

/// The index of a graph over a text, by the definition.
fn index_of_graph(
    alloc: Global,
    alphabet: &Alphabet,
    text: &Text,
    graph: &Graph,
) -> Result<String, Fail> {
    let words = words_of_graph(alloc, graph)?;
    let mut index = String::from_str(alloc, "#I\n")?;
    for first in 0..text.len() {
        if text.kind(first) != Kind::Space {
            push_hits(alloc, alphabet, text, words.as_slice(), first, &mut index)?;
        }
    }
    Ok(index)
}

/// The index of a graph's file over a text, by the definition.
fn plain_index(alloc: Global, grf: &str, text: &str) -> Result<String, Fail> {
    let alphabet = Alphabet::read(alloc, LETTERS)?;
    let text = Text::read(alloc, String::from_str(alloc, text)?, &alphabet)?;
    index_of_graph(alloc, &alphabet, &text, &read_grf(alloc, grf)?)
}

/// Adds the line of each hit from a token.
fn push_hits(
    alloc: Global,
    alphabet: &Alphabet,
    text: &Text,
    words: &[Word<'_>],
    first: usize,
    index: &mut String,
) -> Result<(), Fail> {
    for last in first..text.len() {
        if any_takes(alloc, alphabet, text, words, first, last + 1)? {
            let line = format!(in alloc; "{} {} {}\n", first, last, text.slice(first, last))?;
            index.push_str(line.as_str())?;
        }
    }
    Ok(())
}

/// A list of literals, one for each box line with a literal on a run.
type Word<'a> = Vec<&'a str>;

/// All words of a graph, run by run. No run of a graph without loops passes more boxes than there are.
fn words_of_graph<'a>(alloc: Global, graph: &'a Graph) -> Result<Vec<Word<'a>>, AllocError> {
    let mut words = Vec::new(alloc);
    let mut runs: Vec<(usize, Word<'a>)> = Vec::new(alloc);
    runs.push((0, Vec::new(alloc)))?;
    for _ in 0..graph.boxes.as_slice().len() {
        let mut longer = Vec::new(alloc);
        for (node, word) in &runs {
            extend_run(
                alloc,
                graph,
                *node,
                word.as_slice(),
                &mut longer,
                &mut words,
            )?;
        }
        runs = longer;
    }
    Ok(words)
}

/// Adds a run's continuations by one box, and its word where it may end.
fn extend_run<'a>(
    alloc: Global,
    graph: &'a Graph,
    node: usize,
    word: &[&'a str],
    longer: &mut Vec<(usize, Word<'a>)>,
    words: &mut Vec<Word<'a>>,
) -> Result<(), AllocError> {
    let Some(grf_box) = graph.boxes.as_slice().get(node) else {
        return Ok(());
    };
    for target in grf_box.targets.as_slice() {
        if *target == 1 {
            words.push(Vec::from_slice(alloc, word)?)?;
        } else if let Some(next) = graph.boxes.as_slice().get(*target as usize) {
            push_lines(alloc, next, *target as usize, word, longer)?;
        }
    }
    Ok(())
}

/// Adds a run's continuation by each line of a box.
fn push_lines<'a>(
    alloc: Global,
    next: &'a GrfBox,
    node: usize,
    word: &[&'a str],
    longer: &mut Vec<(usize, Word<'a>)>,
) -> Result<(), AllocError> {
    for line in next.lines.as_slice() {
        let extended = extended(alloc, word, line.as_slice())?;
        longer.push((node, extended))?;
    }
    Ok(())
}

/// A word, and the literals of a line behind it.
fn extended<'a>(alloc: Global, word: &[&'a str], line: &'a [Item]) -> Result<Word<'a>, AllocError> {
    let mut all = Vec::from_slice(alloc, word)?;
    for item in line {
        // No graph of these rows has an item that is neither a literal nor empty.
        if let Item::Literal(text) = item {
            all.push(text.as_str())?;
        }
    }
    Ok(all)
}

/// Whether some word takes exactly the tokens from a position to another.
fn any_takes(
    alloc: Global,
    alphabet: &Alphabet,
    text: &Text,
    words: &[Word<'_>],
    from: usize,
    to: usize,
) -> Result<bool, Fail> {
    for word in words {
        if behind_word(alloc, alphabet, text, word.as_slice(), from)? == Some(to) {
            return Ok(true);
        }
    }
    Ok(false)
}

/// The position behind the literals of a word.
fn behind_word(
    alloc: Global,
    alphabet: &Alphabet,
    text: &Text,
    word: &[&str],
    from: usize,
) -> Result<Option<usize>, Fail> {
    let mut position = from;
    for literal in word {
        match behind_literal(alloc, alphabet, text, literal, position)? {
            Some(behind) => position = behind,
            None => return Ok(None),
        }
    }
    Ok(Some(position))
}

/// The position behind a literal: its tokens, one after another.
fn behind_literal(
    alloc: Global,
    alphabet: &Alphabet,
    text: &Text,
    literal: &str,
    from: usize,
) -> Result<Option<usize>, Fail> {
    let literal = Text::read(alloc, String::from_str(alloc, literal)?, alphabet)?;
    let mut position = from;
    for number in 0..literal.len() {
        let (kind, token) = (literal.kind(number), literal.token(number));
        match behind_token(alphabet, text, kind, token, position) {
            Some(behind) => position = behind,
            None => return Ok(None),
        }
    }
    Ok(Some(position))
}

/// The position behind a token of a literal, where it applies.
fn behind_token(
    alphabet: &Alphabet,
    text: &Text,
    kind: Kind,
    token: &str,
    from: usize,
) -> Option<usize> {
    let behind = behind_space(text, from);
    if kind == Kind::Space {
        return behind;
    }
    let position = behind.unwrap_or(from);
    if position < text.len() && fits(alphabet, token, text.token(position)) {
        Some(position + 1)
    } else {
        None
    }
}

/// The position behind a space that stands at this one.
fn behind_space(text: &Text, position: usize) -> Option<usize> {
    if position < text.len() && text.kind(position) == Kind::Space {
        Some(position + 1)
    } else {
        None
    }
}

/// Whether the characters fit those of a token, one by one.
fn fits(alphabet: &Alphabet, entry: &str, token: &str) -> bool {
    entry.chars().count() == token.chars().count()
        && entry
            .chars()
            .zip(token.chars())
            .all(|(e, c)| alphabet.fits(e, c))
}
