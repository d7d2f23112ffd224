//! Printing a compiled grammar. `specs/Printed.antt` has the format.

ghost use Rattle.std.specs.Prelude.{◌≡◌, ◌-◌, ◌++◌, decimal, IfOk, OnOk, string_bytes};
ghost use Rattle.std.specs.List.{flat_map};
ghost use Rattle.ux_fst2_file.specs.Printed.{edge_text, ended, file_text, graph_lines, graphs_lines, head_text, label_text, state_line_text, state_text, ten_digits, zeros};

use crate::file::{Fst2Edge, Fst2File, Fst2Graph, Fst2Label, Fst2State};
use itoa::Buffer;
use std::alloc::{AllocError, Global};
use ux_base::{Mem, Txt};

/// The text of a compiled grammar. Takes time in the bytes that it writes.
pub fn print(alloc: Global, file: &Fst2File) -> Mem<String>
    ensures { IfOk result (λ text. string_bytes text ≡ file_text file.now) }
{
    let mut text = String::new(alloc);
    put_count(&mut text, file.graphs.as_slice().len())?;
    put_graphs(&mut text, file.graphs.as_slice())?;
    put_tags(&mut text, file.tags.as_slice())?;
    text.push_str("f\n")?;
    Ok(text)
}

/// Puts the line with the number of graphs.
fn put_count(text: &mut String, count: usize) -> Result<(), AllocError>
    ensures { OnOk result (string_bytes text.new
        ≡ string_bytes text.old ++ ended (ten_digits count)) }
{
    let mut buffer = Buffer::new();
    let digits = buffer.format(count);
    put_zeros(text, digits.len())?;
    text.push_str(digits)?;
    text.push('\n')
}

/// Puts the zeros before so many digits.
fn put_zeros(text: &mut String, digits: usize) -> Result<(), AllocError>
    ensures { OnOk result (string_bytes text.new ≡ string_bytes text.old ++ zeros (10 - digits)) }
{
    for _place in digits..10 {
        text.push_str("0")?;
    }
    Ok(())
}

/// Puts the number.
fn put_number(text: &mut String, number: u64) -> Result<(), AllocError>
    ensures { OnOk result (string_bytes text.new ≡ string_bytes text.old ++ decimal number) }
{
    let mut buffer = Buffer::new();
    text.push_str(buffer.format(number))
}

/// Puts the label.
fn put_label(text: &mut String, label: Fst2Label) -> Result<(), AllocError>
    ensures { OnOk result (string_bytes text.new ≡ string_bytes text.old ++ label_text label) }
{
    match label {
        Fst2Label::Tag(tag) => put_number(text, u64::from(tag)),
        Fst2Label::Call(graph) => {
            text.push('-')?;
            put_number(text, u64::from(graph))
        }
    }
}

/// Puts the edge.
fn put_edge(text: &mut String, edge: Fst2Edge) -> Result<(), AllocError>
    ensures { OnOk result (string_bytes text.new ≡ string_bytes text.old ++ edge_text edge) }
{
    put_label(text, edge.label)?;
    text.push(' ')?;
    put_number(text, u64::from(edge.target))?;
    text.push(' ')
}

/// Puts the edges.
fn put_edges(text: &mut String, edges: &[Fst2Edge]) -> Result<(), AllocError>
    ensures { OnOk result (string_bytes text.new
        ≡ string_bytes text.old ++ flat_map edge_text edges.now) }
{
    for edge in edges {
        put_edge(text, *edge)?;
    }
    Ok(())
}

/// Puts the line of a state.
fn put_state(text: &mut String, state: &Fst2State) -> Result<(), AllocError>
    ensures { OnOk result (string_bytes text.new
        ≡ string_bytes text.old ++ state_line_text state.now) }
{
    text.push_str(if state.is_final { "t " } else { ": " })?;
    put_edges(text, state.edges.as_slice())?;
    text.push('\n')
}

/// Puts the lines of the states.
fn put_states(text: &mut String, states: &[Fst2State]) -> Result<(), AllocError>
    ensures { OnOk result (string_bytes text.new
        ≡ string_bytes text.old ++ flat_map state_line_text states.now) }
{
    for state in states {
        put_state(text, state)?;
    }
    Ok(())
}

/// Puts the line with the number and the name of a graph.
fn put_head(text: &mut String, number: usize, name: &str) -> Result<(), AllocError>
    ensures { OnOk result (string_bytes text.new
        ≡ string_bytes text.old ++ ended (head_text number name.now)) }
{
    text.push('-')?;
    put_number(text, number as u64)?;
    text.push(' ')?;
    text.push_str(name)?;
    text.push('\n')
}

/// Puts the lines of the graph of this number.
fn put_graph(text: &mut String, number: usize, graph: &Fst2Graph) -> Result<(), AllocError>
    ensures { OnOk result (string_bytes text.new
        ≡ string_bytes text.old ++ flat_map ended (graph_lines number graph.now)) }
{
    put_head(text, number, graph.name.as_str())?;
    put_states(text, graph.states.as_slice())?;
    text.push_str("f \n")?;
    Ok(())
}

/// Puts the lines of the graphs.
fn put_graphs(text: &mut String, graphs: &[Fst2Graph]) -> Result<(), AllocError>
    ensures { OnOk result (string_bytes text.new
        ≡ string_bytes text.old ++ flat_map ended (graphs_lines 1 graphs.now)) }
{
    let mut number = 0;
    for graph in graphs {
        number += 1;
        put_graph(text, number, graph)?;
    }
    Ok(())
}

/// Puts a line for each tag.
fn put_tags(text: &mut String, tags: &[Txt]) -> Result<(), AllocError>
    ensures { OnOk result (string_bytes text.new
        ≡ string_bytes text.old ++ flat_map ended tags.now) }
{
    for tag in tags {
        text.push_str(tag.as_str())?;
        text.push('\n')?;
    }
    Ok(())
}
