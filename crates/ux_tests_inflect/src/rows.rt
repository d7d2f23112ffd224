//! A stem and the graph of its class: the entries, or the error and what it names.

ghost use Rattle.std.specs.Prelude.{◌<◌, IfOk};
ghost use Rattle.ux_grf.specs.Size.{size_of};
ghost use Rattle.ux_grf.specs.WellFormed.{IsWellFormed};

use crate::comparing::compare;
use std::alloc::{AllocError, Global};
use std::test::Fail;
use ux_alphabet::Alphabet;
use ux_boxes::NetError;
use ux_dela::{Entry, print_delaf, read_delas};
use ux_grf::{Graph, read_grf};
use ux_inflect::{InflectError, inflect};
use ux_net::Net;

/// A name, the content of the one box, its targets, and the answer.
type Row = (&'static str, &'static str, &'static str, &'static str);

/// The graph of a box behind the first one.
fn graph(alloc: Global, content: &str, targets: &str) -> Result<Graph, NetError>
    ensures formed { IfOk result IsWellFormed }
    ensures small { IfOk result (λ graph. size_of graph < 4294967296) }
{
    let front = "#Unigraph\n#\n3\n\"<E>\" 0 0 1 2 \n\"\" 0 0 0 \n";
    let text = format!(in alloc; "{front}\"{content}\" 0 0 {targets} \n")?;
    if text.len() > 1000 {
        return Err(NetError::NoMemory);
    }
    match read_grf(alloc, text.as_str()) {
        Ok(graph) => Ok(graph),
        Err(_) => Err(NetError::NoMemory),
    }
}

/// Its net, by the name `N1`.
fn net(alloc: Global, content: &str, targets: &str) -> Result<Net, NetError> {
    let graph = graph(alloc, content, targets)?;
    let graphs = vec![in alloc; (String::from_str(alloc, "N1")?, graph)]?;
    ux_compile::compile(alloc, graphs, &Alphabet::empty())
}

/// The entries as lines, each before a space.
fn printed(alloc: Global, entries: &[Entry]) -> Result<String, InflectError> {
    let mut lines = String::new(alloc);
    for entry in entries {
        lines.push_str(print_delaf(alloc, entry)?.as_str())?;
        lines.push(' ')?;
    }
    Ok(lines)
}

/// The error and what it names.
fn told(alloc: Global, error: &InflectError) -> Result<String, AllocError> {
    match error {
        InflectError::Cyclic { graph } => format!(in alloc; "Cyclic {}", graph.as_str()),
        InflectError::BadItem { graph, node } => {
            format!(in alloc; "BadItem {} {node}", graph.as_str())
        },
        InflectError::StackEnd { path } => format!(in alloc; "StackEnd {}", path.as_str()),
        InflectError::BadCodes { path } => format!(in alloc; "BadCodes {}", path.as_str()),
        InflectError::NoMemory => String::from_str(alloc, "NoMemory"),
    }
}

/// What the stem `cat` of the class gives.
fn answer(alloc: Global, content: &str, targets: &str) -> Result<String, Fail> {
    let net = net(alloc, content, targets)?;
    let stems = read_delas(alloc, "cat,N1+Anl\n")?;
    let Some(stem) = stems.first() else {
        return Ok(String::new(alloc));
    };
    match inflect(alloc, stem, &net) {
        Ok(entries) => Ok(printed(alloc, &entries)?),
        Err(error) => Ok(told(alloc, &error)?),
    }
}

#[test]
fn stems_are_inflected(rt: HostRuntime) -> Result<(), Fail> {
    const ROWS: &[Row] = &[
        ("a form", "DDies/:p:q", "1 1", "cies,cat.N+Anl:p:q "),
        (
            "two ways to one line",
            "s+\\\"s\\\"/:p",
            "1 1",
            "cats,cat.N+Anl:p ",
        ),
        ("a loop", "s/:p", "2 1 2", "Cyclic N1"),
        ("a mask", "<N>/:p", "1 1", "BadItem N1 0"),
        ("past the left end", "LLLL/:p", "1 1", "StackEnd LLLL"),
        ("no colon", "s/p", "1 1", "BadCodes s"),
    ];
    for row in ROWS {
        let got = answer(rt.alloc(), row.1, row.2)?;
        compare(&rt, row.0, got.as_str(), row.3);
    }
    Ok(())
}
