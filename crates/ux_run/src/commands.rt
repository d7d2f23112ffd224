//! The commands: for each request the crate that answers it.

ghost use Rattle.std.specs.Prelude.{◌≡◌, IfOk, IfErr};
ghost use Rattle.ux_base.specs.Outside.{IsLater};
ghost use Rattle.ux_plan.specs.Commands.{Answers};
ghost use Rattle.ux_plan.specs.Plans.{Halts};
ghost use Rattle.ux_cmd_bench.specs.Bench.{IsSummaryOf};
ghost use Rattle.ux_run.specs.Running.{Denies, IsAnswer, asked_of, concordance_command, index_command};

use crate::stops::by_command;
use std::alloc::Global;
use ux_base::{Folder, Sort};
use ux_cmd_bench::bench;
use ux_cmd_cascade::cascade;
use ux_cmd_check::{check_entries, check_stems};
use ux_cmd_compress::compress;
use ux_cmd_concord::{Layout, concord};
use ux_cmd_dico::dico;
use ux_cmd_elag::elag;
use ux_cmd_flatten::flatten;
use ux_cmd_fst2::fst2;
use ux_cmd_inflect::inflect;
use ux_cmd_locate::locate;
use ux_cmd_morpho::morpho;
use ux_cmd_tfind::tfind;
use ux_cmd_tokenize::tokenize;
use ux_cmd_txt2tfst::txt2tfst;
use ux_command_line::{HELP, Request, Search, VERSION};
use ux_plan::Stop;
use ux_reasons::Reason;
use ux_status::Status;

/// The answer to a request, or how the run ends without one.
pub fn answer_to<F: Folder>(
    alloc: Global,
    request: &Request,
    folder: &mut F,
) -> Result<Vec<u8>, Status>
    ensures later { IsLater (F.seen folder.old) (F.seen folder.new) }
    ensures ok { IfOk result (λ answer.
        IsAnswer (asked_of request.now) (F.seen folder.old).files answer.items) }
    ensures err { IfErr result
        (Denies (asked_of request.now) (F.seen folder.old) (F.seen folder.new)) }
{
    match request {
        Request::Locate(search) => by_command(index_of(alloc, search, folder)),
        Request::Concord {
            search,
            left,
            right,
            sort,
        } => by_command(concordance_of(alloc, search, *left, *right, *sort, folder)),
        Request::Tokenize {
            text,
            alphabet,
            chars,
        } => { by_command(tokenize(alloc, text.as_str(), alphabet.as_str(), *chars, folder)) }
        Request::Check { delas: false, file } => {
            by_command(check_entries(alloc, file.as_str(), folder))
        }
        Request::Check { delas: true, file } => {
            by_command(check_stems(alloc, file.as_str(), folder))
        }
        Request::Compress { dic } => by_command(compress(alloc, dic.as_str(), folder)),
        Request::Dico {
            text,
            alphabet,
            dics,
            chars,
        } => {
            let (text, alphabet) = (text.as_str(), alphabet.as_str());
            by_command(dico(alloc, text, alphabet, dics.as_slice(), *chars, folder))
        }
        Request::Fst2 {
            graph,
            alphabet,
            chars,
        } => by_command(fst2(alloc, graph.as_str(), alphabet.as_str(), *chars, folder)),
        Request::Flatten {
            graph,
            alphabet,
            depth,
        } => by_command(flatten(alloc, graph.as_str(), alphabet.as_str(), *depth, folder)),
        Request::Inflect { stems } => by_command(inflect(alloc, stems.as_str(), folder)),
        Request::Morpho {
            graph,
            text,
            alphabet,
            dics,
        } => {
            let (graph, text) = (graph.as_str(), text.as_str());
            let (alphabet, dics) = (alphabet.as_str(), dics.as_slice());
            by_command(morpho(alloc, graph, text, alphabet, dics, folder))
        }
        Request::Tfst {
            text,
            alphabet,
            dics,
            chars,
        } => {
            let (text, alphabet) = (text.as_str(), alphabet.as_str());
            by_command(txt2tfst(alloc, text, alphabet, dics.as_slice(), *chars, folder))
        }
        Request::Elag { tfst, rules } => {
            by_command(elag(alloc, tfst.as_str(), rules.as_slice(), folder))
        }
        Request::Cascade {
            text,
            alphabet,
            steps,
            dics,
            trace,
        } => {
            let (text, alphabet) = (text.as_str(), alphabet.as_str());
            let (steps, dics) = (steps.as_slice(), dics.as_slice());
            by_command(cascade(alloc, text, alphabet, steps, dics, *trace, folder))
        }
        Request::Bench { n } => summary_of(alloc, *n),
        Request::Help => text_of(alloc, HELP),
        Request::Version => text_of(alloc, VERSION),
        Request::Tfind {
            graph,
            tfst,
            alphabet,
        } => {
            let (graph, tfst, alphabet) = (graph.as_str(), tfst.as_str(), alphabet.as_str());
            by_command(tfind(alloc, graph, tfst, alphabet, folder))
        }
    }
}

/// `locate`: the index of a search.
fn index_of<F: Folder>(
    alloc: Global,
    search: &Search,
    folder: &mut F,
) -> Result<Vec<u8>, Stop<Reason>>
    ensures later { IsLater (F.seen folder.old) (F.seen folder.new) }
    ensures ok { IfOk result (λ answer.
        Answers (index_command search.now) (F.seen folder.old).files answer.items) }
    ensures err { IfErr result
        (Halts (index_command search.now).plan (F.seen folder.old) (F.seen folder.new)) }
{
    let (graph, text) = (search.graph.as_str(), search.text.as_str());
    locate(
        alloc,
        graph,
        text,
        search.alphabet.as_str(),
        search.dics.as_slice(),
        search.mode,
        search.policy,
        search.novar,
        search.chars,
        folder,
    )
}

/// `concord`: the concordance of a search.
fn concordance_of<F: Folder>(
    alloc: Global,
    search: &Search,
    left: u32,
    right: u32,
    sort: Sort,
    folder: &mut F,
) -> Result<Vec<u8>, Stop<Reason>>
    ensures later { IsLater (F.seen folder.old) (F.seen folder.new) }
    ensures ok { IfOk result (λ answer. Answers (concordance_command search.now left right sort)
        (F.seen folder.old).files answer.items) }
    ensures err { IfErr result (Halts (concordance_command search.now left right sort).plan
        (F.seen folder.old) (F.seen folder.new)) }
{
    let dics = search.dics.as_slice();
    concord(
        alloc,
        search.graph.as_str(),
        search.text.as_str(),
        search.alphabet.as_str(),
        dics,
        search.mode,
        search.policy,
        search.novar,
        search.chars,
        Layout { left, right, sort },
        folder,
    )
}

/// `bench`: what is told of a search in a text that is made up. It reads no file, and nothing that is
/// made up is refused.
fn summary_of(alloc: Global, n: u32) -> Result<Vec<u8>, Status>
    ensures ok { IfOk result (λ answer. IsSummaryOf n answer.items) }
    ensures err { IfErr result (λ status. status ≡ Status.NoMemory) }
{
    match bench(alloc, n) {
        Ok(summary) => Ok(summary),
        Err(_) => Err(Status::NoMemory),
    }
}

/// `--help` and `--version`: a text that is there.
fn text_of(alloc: Global, text: &str) -> Result<Vec<u8>, Status>
    ensures ok { IfOk result (λ answer. answer.items ≡ text.now) }
    ensures err { IfErr result (λ status. status ≡ Status.NoMemory) }
{
    match text.as_bytes().to_vec(alloc) {
        Ok(text) => Ok(text),
        Err(_) => Err(Status::NoMemory),
    }
}
