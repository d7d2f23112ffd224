//! The names of the graphs that a graph calls.
//!
//! `specs/Needs.antt` has the definition. A set of names keeps their first order, so the time is
//! linear in the graph.

ghost use Rattle.std.specs.Prelude.{◌≡◌, [], ◌∷◌, map, string_bytes, IfOk, OnOk};
ghost use Rattle.std.specs.List.{flat_map};
ghost use Rattle.ux_grf.specs.WellFormed.{IsWellFormed};
ghost use Rattle.ux_grf.specs.Needs.{calls_of, calls_of_item, calls_of_line, calls_of_box, names_in};
ghost use Rattle.ux_base.specs.Distinct.{AreFirsts, GrowsBy};

use crate::graph::{Graph, GrfBox};
use crate::item::Item;
use indexmap::IndexSet;
use std::alloc::{AllocError, Global};
use ux_base::Mem;

/// The names called in the boxes that are reached, each once, in order of box and line.
pub fn needs(alloc: Global, graph: &Graph) -> Mem<Vec<String>>
    requires { IsWellFormed graph.now }
    ensures { IfOk result (λ names. AreFirsts (calls_of graph.now) (map string_bytes names.items)) }
{
    let mut names: IndexSet<&str> = IndexSet::new(alloc);
    Ok(noted(alloc, &mut names, graph.boxes.as_slice())?)
}

/// Notes the names that the boxes call, and copies all that were noted.
fn noted<'a>(
    alloc: Global,
    names: &mut IndexSet<&'a str>,
    boxes: &'a [GrfBox],
) -> Result<Vec<String>, AllocError>
    ensures { IfOk result (λ copies. GrowsBy (flat_map calls_of_box boxes.now)
        (names_in names.old) (map string_bytes copies.items)) }
{
    note_boxes(names, boxes)?;
    copies(alloc, names.as_slice())
}

/// Notes the names that the boxes call.
fn note_boxes<'a>(names: &mut IndexSet<&'a str>, boxes: &'a [GrfBox]) -> Result<(), AllocError>
    ensures { OnOk result (GrowsBy (flat_map calls_of_box boxes.now)
        (names_in names.old) (names_in names.new)) }
{
    for drawn in boxes {
        note_box(names, drawn)?;
    }
    Ok(())
}

/// Notes the names that the box calls.
fn note_box<'a>(names: &mut IndexSet<&'a str>, drawn: &'a GrfBox) -> Result<(), AllocError>
    ensures { OnOk result (GrowsBy (calls_of_box drawn.now) (names_in names.old) (names_in names.new)) }
{
    for line in drawn.lines.as_slice() {
        note_line(names, line.as_slice())?;
    }
    Ok(())
}

/// Notes the names that the line calls.
fn note_line<'a>(names: &mut IndexSet<&'a str>, line: &'a [Item]) -> Result<(), AllocError>
    ensures { OnOk result (GrowsBy (calls_of_line line.now) (names_in names.old) (names_in names.new)) }
{
    for item in line {
        note_item(names, item)?;
    }
    Ok(())
}

/// Notes the name that the item calls, where it is a call.
fn note_item<'a>(names: &mut IndexSet<&'a str>, item: &'a Item) -> Result<(), AllocError>
    ensures { OnOk result (GrowsBy (calls_of_item item.now) (names_in names.old) (names_in names.new)) }
{
    match item {
        Item::Call(name) => note_name(names, name.as_str()),
        Item::Literal(_)
        | Item::Quoted(_)
        | Item::Mask(_)
        | Item::Brace(_)
        | Item::NoSpace
        | Item::Empty
        | Item::Begin(_)
        | Item::End(_)
        | Item::Positive
        | Item::Negative
        | Item::ContextEnd
        | Item::Cut => Ok(()),
    }
}

/// Notes the name, unless it was noted.
fn note_name<'a>(names: &mut IndexSet<&'a str>, name: &'a str) -> Result<(), AllocError>
    ensures { OnOk result (GrowsBy (name.now ∷ []) (names_in names.old) (names_in names.new)) }
{
    names.insert_full(name)?;
    Ok(())
}

/// A copy of each name.
fn copies(alloc: Global, names: &[&str]) -> Result<Vec<String>, AllocError>
    ensures { IfOk result (λ copies. map string_bytes copies.items ≡ map (λ n. n.now) names.now) }
{
    let mut copies = Vec::new(alloc);
    for name in names {
        copies.push(String::from_str(alloc, name)?)?;
    }
    Ok(copies)
}
