//! The request of a command, from its options and the names of its files.
//!
//! Each name that is missing, or is one too many, is refused where it is looked for.

ghost use Rattle.std.specs.Prelude.{◌≡◌, Some, None, IfOk, IsErrOf};
ghost use Rattle.ux_command_line.specs.Matching.{values_with};
ghost use Rattle.ux_command_line.specs.Requests.{Values, request_by, search_by};
ghost use Rattle.ux_command_line.specs.declared.command.Command.TheVariants.{Locate, Concord, Tokenize, Check, Dico, Fst2, Inflect, Compress, Tfst, Elag, Bench, Cascade, Flatten, Tfind, Morpho};
ghost use Rattle.ux_command_line.specs.declared.error.WordsError.TheVariants.{Usage};

use crate::command::Command;
use crate::error::WordsError;
use crate::names::Names;
use crate::number::number;
use crate::options::Options;
use crate::request::{Request, Search};
use crate::steps::Steps;
use std::alloc::Global;
use ux_base::{Lst, NoVar};

/// The request of a command with these options and names of files.
pub(crate) fn build(
    alloc: Global,
    command: Command,
    options: &Options<'_>,
    names: Names,
) -> Result<Request, WordsError>
    ensures ok { IfOk result (λ request.
        request_by command (values_with options.now) names ≡ Some request) }
    ensures usage { IsErrOf result Usage →
        request_by command (values_with options.now) names ≡ None }
{
    match command {
        Command::Locate => locate(alloc, options, names),
        Command::Concord => concord(alloc, options, names),
        Command::Tokenize => tokenize(options, names),
        Command::Check => check(options, names),
        Command::Dico => dico(alloc, options, names),
        Command::Fst2 => fst2(options, names),
        Command::Inflect => inflect(names),
        Command::Compress => compress(names),
        Command::Tfst => tfst(alloc, options, names),
        Command::Elag => elag(alloc, names),
        Command::Bench => bench(names),
        Command::Cascade => cascade(alloc, options, names),
        Command::Flatten => flatten(options, names),
        Command::Tfind => tfind(names),
        Command::Morpho => morpho(alloc, names),
    }
}

/// A search, by three names and those of its dictionaries.
fn search(alloc: Global, options: &Options<'_>, mut names: Names) -> Result<Search, WordsError>
    ensures ok { IfOk result (λ search. search_by (values_with options.now) names ≡ Some search) }
    ensures usage { IsErrOf result Usage → search_by (values_with options.now) names ≡ None }
{
    let graph = names.take()?;
    let text = names.take()?;
    let alphabet = names.take()?;
    Ok(Search {
        graph,
        text,
        alphabet,
        dics: names.rest(alloc)?,
        mode: options.mode(),
        policy: options.policy(),
        novar: if options.novar() {
            NoVar::Drop
        } else {
            NoVar::Nothing
        },
        chars: options.chars(),
    })
}

fn locate(alloc: Global, options: &Options<'_>, names: Names) -> Result<Request, WordsError>
    ensures ok { IfOk result (λ request.
        request_by Locate (values_with options.now) names ≡ Some request) }
    ensures usage { IsErrOf result Usage →
        request_by Locate (values_with options.now) names ≡ None }
{
    Ok(Request::Locate(search(alloc, options, names)?))
}

fn concord(alloc: Global, options: &Options<'_>, names: Names) -> Result<Request, WordsError>
    ensures ok { IfOk result (λ request.
        request_by Concord (values_with options.now) names ≡ Some request) }
    ensures usage { IsErrOf result Usage →
        request_by Concord (values_with options.now) names ≡ None }
{
    Ok(Request::Concord {
        search: search(alloc, options, names)?,
        left: options.left(),
        right: options.right(),
        sort: options.sort(),
    })
}

fn tokenize(options: &Options<'_>, mut names: Names) -> Result<Request, WordsError>
    ensures ok { IfOk result (λ request.
        request_by Tokenize (values_with options.now) names ≡ Some request) }
    ensures usage { IsErrOf result Usage →
        request_by Tokenize (values_with options.now) names ≡ None }
{
    let text = names.take()?;
    let alphabet = names.take()?;
    names.end()?;
    Ok(Request::Tokenize {
        text,
        alphabet,
        chars: options.chars(),
    })
}

fn check(options: &Options<'_>, mut names: Names) -> Result<Request, WordsError>
    ensures ok { IfOk result (λ request.
        request_by Check (values_with options.now) names ≡ Some request) }
    ensures usage { IsErrOf result Usage → request_by Check (values_with options.now) names ≡ None }
{
    let file = names.take()?;
    names.end()?;
    Ok(Request::Check {
        delas: options.delas(),
        file,
    })
}

fn dico(alloc: Global, options: &Options<'_>, mut names: Names) -> Result<Request, WordsError>
    ensures ok { IfOk result (λ request.
        request_by Dico (values_with options.now) names ≡ Some request) }
    ensures usage { IsErrOf result Usage → request_by Dico (values_with options.now) names ≡ None }
{
    let text = names.take()?;
    let alphabet = names.take()?;
    let dics = names.rest(alloc)?;
    Ok(Request::Dico {
        text,
        alphabet,
        dics,
        chars: options.chars(),
    })
}

fn fst2(options: &Options<'_>, mut names: Names) -> Result<Request, WordsError>
    ensures ok { IfOk result (λ request.
        request_by Fst2 (values_with options.now) names ≡ Some request) }
    ensures usage { IsErrOf result Usage → request_by Fst2 (values_with options.now) names ≡ None }
{
    let graph = names.take()?;
    let alphabet = names.take()?;
    names.end()?;
    Ok(Request::Fst2 {
        graph,
        alphabet,
        chars: options.chars(),
    })
}

fn inflect(mut names: Names) -> Result<Request, WordsError>
    ensures ok { (o : Values) → IfOk result (λ request.
        request_by Inflect o names ≡ Some request) }
    ensures usage { (o : Values) → IsErrOf result Usage → request_by Inflect o names ≡ None }
{
    let stems = names.take()?;
    names.end()?;
    Ok(Request::Inflect { stems })
}

fn compress(mut names: Names) -> Result<Request, WordsError>
    ensures ok { (o : Values) → IfOk result (λ request.
        request_by Compress o names ≡ Some request) }
    ensures usage { (o : Values) → IsErrOf result Usage → request_by Compress o names ≡ None }
{
    let dic = names.take()?;
    names.end()?;
    Ok(Request::Compress { dic })
}

fn tfst(alloc: Global, options: &Options<'_>, mut names: Names) -> Result<Request, WordsError>
    ensures ok { IfOk result (λ request.
        request_by Tfst (values_with options.now) names ≡ Some request) }
    ensures usage { IsErrOf result Usage → request_by Tfst (values_with options.now) names ≡ None }
{
    let text = names.take()?;
    let alphabet = names.take()?;
    let dics = names.rest(alloc)?;
    Ok(Request::Tfst {
        text,
        alphabet,
        dics,
        chars: options.chars(),
    })
}

fn elag(alloc: Global, mut names: Names) -> Result<Request, WordsError>
    ensures ok { (o : Values) → IfOk result (λ request.
        request_by Elag o names ≡ Some request) }
    ensures usage { (o : Values) → IsErrOf result Usage → request_by Elag o names ≡ None }
{
    let tfst = names.take()?;
    if names.is_empty() {
        return Err(WordsError::Usage);
    }
    let rules = names.rest(alloc)?;
    Ok(Request::Elag { tfst, rules })
}

/// The one word after `bench` is a number.
fn bench(mut names: Names) -> Result<Request, WordsError>
    ensures ok { (o : Values) → IfOk result (λ request.
        request_by Bench o names ≡ Some request) }
    ensures usage { (o : Values) → IsErrOf result Usage → request_by Bench o names ≡ None }
{
    let word = names.take()?;
    names.end()?;
    let n = number(word.as_str(), 6, 1, 200_000).ok_or(WordsError::Usage)?;
    Ok(Request::Bench { n })
}

fn cascade(alloc: Global, options: &Options<'_>, mut names: Names) -> Result<Request, WordsError>
    ensures ok { IfOk result (λ request.
        request_by Cascade (values_with options.now) names ≡ Some request) }
    ensures usage { IsErrOf result Usage →
        request_by Cascade (values_with options.now) names ≡ None }
{
    let text = names.take()?;
    let alphabet = names.take()?;
    let words = names.rest(alloc)?;
    let read = Steps::of(alloc, words.as_slice())?;
    if read.steps.is_empty() {
        return Err(WordsError::Usage);
    }
    Ok(Request::Cascade {
        text,
        alphabet,
        steps: Lst::new(read.steps),
        dics: Lst::new(read.dics),
        trace: options.trace(),
    })
}

fn flatten(options: &Options<'_>, mut names: Names) -> Result<Request, WordsError>
    ensures ok { IfOk result (λ request.
        request_by Flatten (values_with options.now) names ≡ Some request) }
    ensures usage { IsErrOf result Usage →
        request_by Flatten (values_with options.now) names ≡ None }
{
    let graph = names.take()?;
    let alphabet = names.take()?;
    names.end()?;
    Ok(Request::Flatten {
        graph,
        alphabet,
        depth: options.depth(),
    })
}

fn tfind(mut names: Names) -> Result<Request, WordsError>
    ensures ok { (o : Values) → IfOk result (λ request.
        request_by Tfind o names ≡ Some request) }
    ensures usage { (o : Values) → IsErrOf result Usage → request_by Tfind o names ≡ None }
{
    let graph = names.take()?;
    let tfst = names.take()?;
    let alphabet = names.take()?;
    names.end()?;
    Ok(Request::Tfind {
        graph,
        tfst,
        alphabet,
    })
}

/// Marks stand in drawn graphs alone, so no compiled grammar serves.
fn morpho(alloc: Global, mut names: Names) -> Result<Request, WordsError>
    ensures ok { (o : Values) → IfOk result (λ request.
        request_by Morpho o names ≡ Some request) }
    ensures usage { (o : Values) → IsErrOf result Usage → request_by Morpho o names ≡ None }
{
    let graph = names.take()?;
    let text = names.take()?;
    let alphabet = names.take()?;
    if graph.as_str().as_bytes().ends_with(b".fst2") {
        return Err(WordsError::Usage);
    }
    let dics = names.rest(alloc)?;
    Ok(Request::Morpho {
        graph,
        text,
        alphabet,
        dics,
    })
}
