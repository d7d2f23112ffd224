//! How many different masks stand on the edges of a net.
//!
//! `specs/Masks.antt` has the definition. A set of masks keeps each once, so the time is linear in
//! the net.

ghost use Rattle.std.specs.Prelude.{[], ◌∷◌, IfOk, OnOk};
ghost use Rattle.std.specs.List.{flat_map};
ghost use Rattle.ux_base.specs.Distinct.{GrowsBy};
ghost use Rattle.ux_net.specs.Masks.{IsMaskCount, masks_of_edge, masks_of_state, masks_of_graph, masks_in};

use crate::label::Label;
use crate::net_graph::NetGraph;
use crate::state::{Edge, State};
use indexmap::IndexSet;
use std::alloc::{AllocError, Global};
use ux_base::Mem;
use ux_masks::Mask;

/// How many different masks stand on the edges of these graphs.
pub fn count_masks(alloc: Global, graphs: &[NetGraph]) -> Mem<usize>
    ensures { IfOk result (IsMaskCount graphs.now) }
{
    let mut masks: IndexSet<&Mask> = IndexSet::new(alloc);
    note_graphs(&mut masks, graphs)?;
    Ok(masks.len())
}

/// Notes the masks on the edges of the graphs.
fn note_graphs<'a>(masks: &mut IndexSet<&'a Mask>, graphs: &'a [NetGraph]) -> Result<(), AllocError>
    ensures { OnOk result (GrowsBy (flat_map masks_of_graph graphs.now)
        (masks_in masks.old) (masks_in masks.new)) }
{
    for graph in graphs {
        note_graph(masks, graph)?;
    }
    Ok(())
}

/// Notes the masks on the edges of the graph.
fn note_graph<'a>(masks: &mut IndexSet<&'a Mask>, graph: &'a NetGraph) -> Result<(), AllocError>
    ensures { OnOk result (GrowsBy (masks_of_graph graph.now)
        (masks_in masks.old) (masks_in masks.new)) }
{
    for state in graph.states.as_slice() {
        note_state(masks, state)?;
    }
    Ok(())
}

/// Notes the masks on the edges of the state.
fn note_state<'a>(masks: &mut IndexSet<&'a Mask>, state: &'a State) -> Result<(), AllocError>
    ensures { OnOk result (GrowsBy (masks_of_state state.now)
        (masks_in masks.old) (masks_in masks.new)) }
{
    for edge in state.edges.as_slice() {
        note_edge(masks, edge)?;
    }
    Ok(())
}

/// Notes the mask on the edge, if it has one.
fn note_edge<'a>(masks: &mut IndexSet<&'a Mask>, edge: &'a Edge) -> Result<(), AllocError>
    ensures { OnOk result (GrowsBy (masks_of_edge edge.now)
        (masks_in masks.old) (masks_in masks.new)) }
{
    match &edge.label {
        Label::Mask(mask) => note_mask(masks, mask),
        Label::Empty
        | Label::CaseFolded(_)
        | Label::CaseExact(_)
        | Label::Brace(_)
        | Label::Space
        | Label::NoSpace
        | Label::Begin(_)
        | Label::End(_)
        | Label::Positive
        | Label::Negative
        | Label::ContextEnd
        | Label::Cut
        | Label::Call(_) => Ok(()),
    }
}

/// Notes the mask, unless it was noted.
fn note_mask<'a>(masks: &mut IndexSet<&'a Mask>, mask: &'a Mask) -> Result<(), AllocError>
    ensures { OnOk result (GrowsBy (mask.now ∷ []) (masks_in masks.old) (masks_in masks.new)) }
{
    masks.insert_full(mask)?;
    Ok(())
}
