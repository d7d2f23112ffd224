//! What `tfind` refuses: a grammar that can't be searched, and a file that says no sentences.

ghost use Rattle.std.specs.Prelude.{IfErr, IfOk, OnOk};
ghost use Rattle.ux_plan.specs.Plans.{StopsTest, refusing};
ghost use Rattle.ux_reading_match.specs.Usable.{IsUsable};
ghost use Rattle.ux_reading_table.specs.Numbered.{IsNumberedText};
ghost use Rattle.ux_cmd_tfind.specs.Files.{StopsSentences, StopsText, StopsUsable};
ghost use Rattle.ux_cmd_tfind.specs.Refusing.{RefusesNet};

use std::alloc::Global;
use ux_base::Txt;
use ux_grammars::graph_file;
use ux_net::Net;
use ux_plan::{Stop, refused};
use ux_reading_match::{TfstError, usable};
use ux_reading_table::NumberedText;
use ux_reasons::Reason;
use ux_sentence::SentenceError;

/// Refuses the net of the grammar that the word names, where it can't be searched in automata.
pub(crate) fn check_usable(alloc: Global, word: &str, net: &Net) -> Result<(), Stop<Reason>>
    ensures usable { OnOk result (IsUsable net.now) }
    ensures err { IfErr result (StopsTest (refusing (RefusesNet word.now net.now))) }
{
    match usable(alloc, net) {
        Ok(()) => Ok(()),
        Err(error) => Err(refused_net(alloc, word, error)),
    }
}

/// The stop that names the file of the graph at which the grammar is refused.
fn refused_net(alloc: Global, word: &str, error: TfstError) -> Stop<Reason>
    ensures { StopsUsable word.now error result }
{
    match error {
        TfstError::BadItem { graph, node } => {
            match graph_file(alloc, word, graph.as_str()) {
                Ok(file) => Stop::Refused {
                    name: Txt::new(file),
                    reason: Reason::Tfst(TfstError::BadItem { graph, node }),
                },
                Err(_) => Stop::NoMemory,
            }
        },
        TfstError::NoMemory => Stop::NoMemory,
    }
}

/// A file of sentence automata, in numbers. The file has this name and this text.
pub(crate) fn read_text<'a>(
    alloc: Global,
    name: &str,
    text: &'a str,
) -> Result<NumberedText<'a>, Stop<Reason>>
    ensures ok { IfOk result (λ read. IsNumberedText text.now read.table read.sentences.items) }
    ensures err { IfErr result (StopsText name.now text.now) }
{
    match NumberedText::of(alloc, text) {
        Ok(read) => Ok(read),
        Err(error) => Err(no_sentences(alloc, name, error)),
    }
}

/// The stop that names the file of automata that is refused by the error.
fn no_sentences(alloc: Global, name: &str, error: SentenceError) -> Stop<Reason>
    ensures { StopsSentences name.now error result }
{
    match error {
        SentenceError::BadLine { line } => {
            refused(
                alloc,
                name,
                Reason::Sentence(SentenceError::BadLine { line }),
            )
        },
        SentenceError::BadEdge { line } => {
            refused(
                alloc,
                name,
                Reason::Sentence(SentenceError::BadEdge { line }),
            )
        },
        SentenceError::Backward { line } => {
            refused(
                alloc,
                name,
                Reason::Sentence(SentenceError::Backward { line }),
            )
        },
        SentenceError::NoMemory => Stop::NoMemory,
    }
}
