//! The test that every mask text is a mask's.
//!
//! The texts are looked at in order of graph, box, line and item, so that the first bad one is
//! named. A mask that is read here is let go: `split` reads it anew, where it is kept.

ghost use Rattle.std.specs.Prelude.{◌≤◌, All, IfErr, IfOk, MatchOption, OnOk, length};
ghost use Rattle.std.specs.List.{flat_map};
ghost use Rattle.ux_masks.specs.Texts.{IsBadAt};
ghost use Rattle.ux_boxes.specs.BadMasks.{Checks, ChecksBoxes, RefusesMasks};
ghost use Rattle.ux_boxes.specs.MaskTexts.{IsMask, mask_texts_of_item, mask_texts_of_line};
ghost use Rattle.ux_boxes.specs.Refusing.{drawn, AreMasked};

use crate::error::NetError;
use std::alloc::Global;
use ux_base::{Lst, Mem, NoMemory, Txt};
use ux_grf::{Graph, GrfBox, Item};
use ux_masks::{Mask, MaskError};

/// Where the first bad mask text of a graph stands, and where it is bad.
#[derive(Clone, Copy)]
pub struct BadText {
    /// The box.
    pub node: usize,
    /// The character of the text.
    pub place: usize,
}

/// Refuses the first mask text that is no mask's.
pub fn refuse_bad_masks(alloc: Global, graphs: &[(String, Graph)]) -> Result<(), NetError>
    requires few { All (λ graph. length graph.1.boxes ≤ 65535) graphs.now }
    ensures ok { OnOk result (AreMasked (drawn graphs.now)) }
    ensures err { IfErr result (RefusesMasks (drawn graphs.now)) }
{
    for (name, graph) in graphs {
        if let Some(bad) = first_bad_box(alloc, graph.boxes.as_slice())? {
            return Err(NetError::BadMask {
                graph: Txt::from_str(alloc, name.as_str())?,
                node: bad.node as u32,
                place: bad.place,
            });
        }
    }
    Ok(())
}

/// The first box with a mask text that is no mask's, and the place of the first such text.
fn first_bad_box(alloc: Global, boxes: &[GrfBox]) -> Mem<Option<BadText>>
    ensures { IfOk result (ChecksBoxes boxes.now) }
{
    for (node, grf_box) in boxes.iter().enumerate() {
        if let Some(place) = first_bad_line(alloc, grf_box.lines.as_slice())? {
            return Ok(Some(BadText { node, place }));
        }
    }
    Ok(None)
}

/// The place of the first mask text of the lines that is no mask's.
fn first_bad_line(alloc: Global, lines: &[Lst<Item>]) -> Mem<Option<usize>>
    ensures { IfOk result (Checks (flat_map mask_texts_of_line lines.now)) }
{
    for line in lines {
        if let Some(place) = first_bad_item(alloc, line.as_slice())? {
            return Ok(Some(place));
        }
    }
    Ok(None)
}

/// The place of the first mask text of the line that is no mask's.
fn first_bad_item(alloc: Global, line: &[Item]) -> Mem<Option<usize>>
    ensures { IfOk result (Checks (mask_texts_of_line line.now)) }
{
    for item in line {
        if let Some(place) = bad_item(alloc, item)? {
            return Ok(Some(place));
        }
    }
    Ok(None)
}

/// The place at which the item is a bad mask text.
fn bad_item(alloc: Global, item: &Item) -> Mem<Option<usize>>
    ensures { IfOk result (Checks (mask_texts_of_item item.now)) }
{
    match item {
        Item::Mask(text) => bad_place(alloc, text.as_str()),
        Item::Literal(_)
        | Item::Quoted(_)
        | Item::Brace(_)
        | Item::NoSpace
        | Item::Empty
        | Item::Call(_)
        | Item::Begin(_)
        | Item::End(_)
        | Item::Positive
        | Item::Negative
        | Item::ContextEnd
        | Item::Cut => Ok(None),
    }
}

/// The place at which a mask text is bad.
fn bad_place(alloc: Global, text: &str) -> Mem<Option<usize>>
    ensures { IfOk result (λ place. MatchOption place (IsMask text.now) (IsBadAt text.now)) }
{
    match Mask::read(alloc, text) {
        Ok(_) => Ok(None),
        Err(MaskError::BadMask { place }) => Ok(Some(place)),
        Err(MaskError::NoMemory) => Err(NoMemory),
    }
}
