//! The letters, the dictionary and the graphs, read from texts that are there. None of them is refused:
//! each says what its kind of files says.

ghost use Rattle.std.specs.Prelude.{◌≡◌, ◌≢◌, ◌≤◌, ◌∷◌, List, [], All, AllPairs, IfOk, length, string_bytes};
ghost use Rattle.ux_apply.specs.declared.priority.Priority.TheVariants.{Normal};
ghost use Rattle.ux_dela.specs.declared.entry.Entry.{Entry};
ghost use Rattle.ux_dict.specs.FileContent.{IsFileContent};
ghost use Rattle.ux_grammars.specs.Reading.{IsGiven, IsGivenGraph};
ghost use Rattle.ux_grf.specs.declared.graph.GraphKind.TheVariants.{Plain};
ghost use Rattle.ux_grf.specs.File.{IsGraphOf};
ghost use Rattle.ux_boxes.specs.Refusing.{drawn};
ghost use Rattle.ux_cmd_bench.specs.Bench.{AreGraphs, AreLetters, DICTIONARY, grammar_of};
ghost use Rattle.ux_cmd_bench.specs.Compiled.{DrawsGraph, IsPhraseNet};

use std::alloc::Global;
use ux_alphabet::{Alphabet, AlphabetError};
use ux_apply::Priority;
use ux_base::{Mem, NoMemory};
use ux_boxes::NetError;
use ux_dela::DelaError;
use ux_dict::ListLexicon;
use ux_grf::{Graph, GrfError, read_grf};
use ux_net::Net;

/// The letters, upper and lower.
const LETTERS: &str =
    "Aa\nBb\nCc\nDd\nEe\nFf\nGg\nHh\nIi\nJj\nKk\nLl\nMm\nNn\nOo\nPp\nQq\nRr\nSs\nTt\nUu\nVv\nWw\nXx\nYy\nZz\n";

/// The words, as a dictionary of forms.
const WORDS: &str =
    "the,.DET\na,.DET\nold,.A\nsmall,.A\ncat,.N:s\ndog,.N:s\nsees,see.V:P3s\nsleeps,sleep.V:P3s\n";

/// A noun phrase, as a graph.
const NOUN_PHRASE: &str =
    "#Unigraph\n#\n5\n\"<E>\" 0 0 1 2\n\"\" 0 0 0\n\"<DET>\" 0 0 2 3 4\n\"<N>\" 0 0 1 1\n\":AP\" 0 0 1 3\n";

/// An adjective phrase, as a graph.
const ADJECTIVE_PHRASE: &str =
    "#Unigraph\n#\n4\n\"<E>\" 0 0 1 2\n\"\" 0 0 0\n\"<A>\" 0 0 2 1 3\n\":AP\" 0 0 1 1\n";

/// The letters.
pub(crate) fn letters(alloc: Global) -> Mem<Alphabet>
    ensures { IfOk result AreLetters }
{
    match Alphabet::read(alloc, LETTERS) {
        Ok(alphabet) => Ok(alphabet),
        Err(AlphabetError::NoMemory) => Err(NoMemory),
        // Each line is a pair of letters.
        Err(_) => unreachable!(),
    }
}

/// The one dictionary, of normal priority.
pub(crate) fn dictionaries(alloc: Global) -> Mem<Vec<(Priority, ListLexicon)>>
    ensures { IfOk result (λ dics. (content : List Entry) × IsFileContent DICTIONARY content
        × (dics.items ≡ (Normal, content) ∷ [])) }
{
    let lexicon = lexicon(alloc)?;
    Ok(vec![in alloc; (Priority::Normal, lexicon)]?)
}

/// The net of the graphs.
pub(crate) fn net(alloc: Global, alphabet: &Alphabet) -> Mem<Net>
    ensures { IfOk result (IsPhraseNet alphabet.now) }
{
    let graphs = graphs(alloc)?;
    match ux_compile::compile(alloc, graphs, alphabet) {
        Ok(net) => Ok(net),
        Err(NetError::NoMemory) => Err(NoMemory),
        // No graph calls another before it takes a token.
        Err(_) => unreachable!(),
    }
}

/// The dictionary.
fn lexicon(alloc: Global) -> Mem<ListLexicon>
    ensures { IfOk result (IsFileContent DICTIONARY) }
{
    match ListLexicon::read(alloc, WORDS) {
        Ok(lexicon) => Ok(lexicon),
        Err(DelaError::NoMemory) => Err(NoMemory),
        // Each line is an entry's.
        Err(_) => unreachable!(),
    }
}

/// The graphs with their names, of which the first is the main graph.
fn graphs(alloc: Global) -> Mem<Vec<(String, Graph)>>
    ensures are { IfOk result (λ graphs. AreGraphs (drawn graphs.items)) }
    ensures two { IfOk result (λ graphs. length graphs.items ≡ 2) }
    ensures given { IfOk result (λ graphs. All IsGiven graphs.items) }
    ensures distinct { IfOk result (λ graphs.
        AllPairs (λ a b. string_bytes a.0 ≢ string_bytes b.0) graphs.items) }
{
    let np = graph(alloc, NOUN_PHRASE)?;
    let ap = graph(alloc, ADJECTIVE_PHRASE)?;
    named(alloc, np, ap)
}

/// The same graphs with their names.
fn named(alloc: Global, np: Graph, ap: Graph) -> Mem<Vec<(String, Graph)>>
    requires np { IsGivenGraph np }
    requires ap { IsGivenGraph ap }
    ensures are { IfOk result (λ graphs. drawn graphs.items ≡ grammar_of np ap) }
    ensures two { IfOk result (λ graphs. length graphs.items ≡ 2) }
    ensures given { IfOk result (λ graphs. All IsGiven graphs.items) }
    ensures distinct { IfOk result (λ graphs.
        AllPairs (λ a b. string_bytes a.0 ≢ string_bytes b.0) graphs.items) }
{
    let (np_name, ap_name) = (
        String::from_str(alloc, "NP")?,
        String::from_str(alloc, "AP")?,
    );
    Ok(vec![in alloc; (np_name, np), (ap_name, ap)]?)
}

/// The graph that a short text draws.
fn graph(alloc: Global, text: &str) -> Mem<Graph>
    requires short { length text.now ≤ 1000 }
    requires draws { DrawsGraph text.now }
    ensures draws { IfOk result (IsGraphOf Plain text.now) }
    ensures given { IfOk result IsGivenGraph }
{
    match read_grf(alloc, text) {
        Ok(graph) => Ok(graph),
        Err(GrfError::NoMemory) => Err(NoMemory),
        Err(_) => unreachable!(),
    }
}
