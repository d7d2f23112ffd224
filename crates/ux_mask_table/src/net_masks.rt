//! The different masks of a net.

ghost use Rattle.std.specs.Prelude.{◌≤◌, [], ◌∷◌, IfOk, OnOk, length};
ghost use Rattle.std.specs.List.{flat_map};
ghost use Rattle.ux_base.specs.Distinct.{GrowsBy};
ghost use Rattle.ux_mask_table.specs.NetMasks.{AreNetMasks};
ghost use Rattle.ux_net.specs.Masks.{masks_of_edge, masks_of_state, masks_in};
ghost use Rattle.ux_net.specs.Nets.{states_of};

use indexmap::IndexSet;
use std::alloc::Global;
use ux_base::Mem;
use ux_masks::Mask;
use ux_net::{Edge, Label, Net};

/// The masks on the edges of a net, each once. They are found once, and serve any number of texts.
#[derive(Drop)]
pub struct NetMasks<'n> {
    /// The masks, in the order of their first edges. The place of each is its number.
    pub set: IndexSet<&'n Mask>,
}

impl<'n> NetMasks<'n> {
    /// The masks of a net. Looks at each edge once.
    pub fn of(alloc: Global, net: &'n Net) -> Mem<NetMasks<'n>>
        ensures { IfOk result (λ masks. AreNetMasks net.now masks) }
    {
        let mut set = IndexSet::new(alloc);
        for before in 0..net.graphs() {
            note_graph(&mut set, net, before + 1)?;
        }
        Ok(NetMasks { set })
    }
}

/// Notes the masks on the edges of the graph.
fn note_graph<'n>(masks: &mut IndexSet<&'n Mask>, net: &'n Net, graph: u32) -> Mem<()>
    requires from { 1 ≤ graph }
    requires to { graph ≤ length net.now }
    ensures { OnOk result (GrowsBy (flat_map masks_of_state (states_of net.now graph))
        (masks_in masks.old) (masks_in masks.new)) }
{
    for state in 0..net.states(graph) {
        note_edges(masks, net.edges(graph, state))?;
    }
    Ok(())
}

/// Notes the masks on the edges.
fn note_edges<'n>(masks: &mut IndexSet<&'n Mask>, edges: &'n [Edge]) -> Mem<()>
    ensures { OnOk result (GrowsBy (flat_map masks_of_edge edges.now)
        (masks_in masks.old) (masks_in masks.new)) }
{
    for edge in edges {
        note_edge(masks, edge)?;
    }
    Ok(())
}

/// Notes the mask on the edge, if it has one.
fn note_edge<'n>(masks: &mut IndexSet<&'n Mask>, edge: &'n Edge) -> Mem<()>
    ensures { OnOk result (GrowsBy (masks_of_edge edge.now)
        (masks_in masks.old) (masks_in masks.new)) }
{
    match &edge.label {
        Label::Mask(mask) => note_mask(masks, mask),
        Label::Empty
        | Label::CaseFolded(_)
        | Label::CaseExact(_)
        | Label::Brace(_)
        | Label::Space
        | Label::NoSpace
        | Label::Begin(_)
        | Label::End(_)
        | Label::Positive
        | Label::Negative
        | Label::ContextEnd
        | Label::Cut
        | Label::Call(_) => Ok(()),
    }
}

/// Notes the mask, unless it was noted.
fn note_mask<'n>(masks: &mut IndexSet<&'n Mask>, mask: &'n Mask) -> Mem<()>
    ensures { OnOk result (GrowsBy (mask.now ∷ []) (masks_in masks.old) (masks_in masks.new)) }
{
    masks.insert_full(mask)?;
    Ok(())
}
