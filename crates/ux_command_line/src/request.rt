//! What is asked for.

ghost use Rattle.std.specs.Prelude.{◌≡◌, map, string_bytes, Some, None, IfOk, IsErrOf};
ghost use Rattle.ux_command_line.specs.Requests.{request_of, command_request, question_of};
ghost use Rattle.ux_command_line.specs.Writing.{IsWritten};
ghost use Rattle.ux_command_line.specs.declared.request.Request.{Request};
ghost use Rattle.ux_command_line.specs.declared.error.WordsError.TheVariants.{Usage};

use crate::arguments::read;
use crate::building::build;
use crate::command::Command;
use crate::error::WordsError;
use std::alloc::Global;
use ux_base::{Lst, Mode, NoVar, Policy, Sort, Txt};

/// A search: the names of its files, and how it is done.
#[derive(Debug, Drop)]
pub struct Search {
    /// The graph's file.
    pub graph: Txt,
    /// The text's file.
    pub text: Txt,
    /// The alphabet's file.
    pub alphabet: Txt,
    /// The dictionaries' files, in the order of the words.
    pub dics: Lst<Txt>,
    /// What becomes of outputs.
    pub mode: Mode,
    /// Which hits are kept.
    pub policy: Policy,
    /// What an output does without its variable.
    pub novar: NoVar,
    /// Whether each letter is a token of its own.
    pub chars: bool,
}

/// A step of a cascade: the graph by which the text is rewritten, and how.
#[derive(Debug, Drop)]
pub struct CascadeStep {
    /// The graph's file.
    pub graph: Txt,
    /// Whether outputs stand among the tokens taken, or in their place.
    pub mode: Mode,
    /// How often the step is applied, from 1 to 99.
    pub times: u32,
}

/// What the words ask for.
#[derive(Debug, Drop)]
pub enum Request {
    /// The places where a graph is found.
    Locate(Search),
    /// These places, with so many columns of what stands before and behind each.
    Concord {
        search: Search,
        left: u32,
        right: u32,
        sort: Sort,
    },
    /// The tokens of a text.
    Tokenize {
        text: Txt,
        alphabet: Txt,
        chars: bool,
    },
    /// The number of entries of a dictionary, or of stems.
    Check {
        delas: bool,
        file: Txt,
    },
    /// The entries that dictionaries give the words of a text.
    Dico {
        text: Txt,
        alphabet: Txt,
        dics: Lst<Txt>,
        chars: bool,
    },
    /// A compiled grammar.
    Fst2 {
        graph: Txt,
        alphabet: Txt,
        chars: bool,
    },
    /// The inflected forms of stems.
    Inflect {
        stems: Txt,
    },
    /// The image of a dictionary.
    Compress {
        dic: Txt,
    },
    /// The automata of a text's sentences.
    Tfst {
        text: Txt,
        alphabet: Txt,
        dics: Lst<Txt>,
        chars: bool,
    },
    /// Such automata, thinned by at least one rule.
    Elag {
        tfst: Txt,
        rules: Lst<Txt>,
    },
    /// A search in a text of so many words that is made up.
    Bench {
        n: u32,
    },
    /// A text, rewritten by steps with all of the dictionaries.
    Cascade {
        text: Txt,
        alphabet: Txt,
        steps: Lst<CascadeStep>,
        dics: Lst<Txt>,
        trace: bool,
    },
    /// A compiled grammar, its calls written out so deep.
    Flatten {
        graph: Txt,
        alphabet: Txt,
        depth: u32,
    },
    /// The places in the automata of sentences where a graph is found.
    Tfind {
        graph: Txt,
        tfst: Txt,
        alphabet: Txt,
    },
    /// The entries that a graph makes of the words of a text.
    Morpho {
        graph: Txt,
        text: Txt,
        alphabet: Txt,
        dics: Lst<Txt>,
    },
    /// What the program can do.
    Help,
    /// Which program it is.
    Version,
}

impl Request {
    /// The request of the words after the program's name.
    pub fn of(alloc: Global, words: &[String]) -> Result<Request, WordsError>
        ensures ok { IfOk result (λ request.
            request_of (map string_bytes words.now) ≡ Some request) }
        ensures usage { IsErrOf result Usage → request_of (map string_bytes words.now) ≡ None }
        // What is read was written so, and what is refused is written for no request.
        ensures written { IfOk result (λ request.
            IsWritten (map string_bytes words.now) request) }
        ensures unwritten { IsErrOf result Usage →
            (request : Request) → IsWritten (map string_bytes words.now) request → ⊥ }
    {
        asked(alloc, words)
    }
}

/// The question that one word asks, or the request of a command.
fn asked(alloc: Global, words: &[String]) -> Result<Request, WordsError>
    ensures ok { IfOk result (λ request.
        request_of (map string_bytes words.now) ≡ Some request) }
    ensures usage { IsErrOf result Usage → request_of (map string_bytes words.now) ≡ None }
{
    match words {
        [] => Err(WordsError::Usage),
        [word] => match question(word.as_str()) {
            Some(request) => Ok(request),
            None => command_request(alloc, word.as_str(), &[]),
        },
        [word, rest @ ..] => command_request(alloc, word.as_str(), rest),
    }
}

/// The question about the program itself that the word is.
fn question(word: &str) -> Option<Request>
    ensures { result ≡ question_of word.now }
{
    match word {
        "--help" => Some(Request::Help),
        "--version" => Some(Request::Version),
        _ => None,
    }
}

/// The request of a command and the words after it.
fn command_request(alloc: Global, name: &str, words: &[String]) -> Result<Request, WordsError>
    ensures ok { IfOk result (λ request.
        command_request name.now (map string_bytes words.now) ≡ Some request) }
    ensures usage { IsErrOf result Usage →
        command_request name.now (map string_bytes words.now) ≡ None }
{
    let command = Command::named(name).ok_or(WordsError::Usage)?;
    let (options, names) = read(alloc, command, words)?;
    build(alloc, command, &options, names)
}
