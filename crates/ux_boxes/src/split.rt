//! A graph's boxes with their lines split into labels.
//!
//! A literal, or a text between quotation marks, is cut as a corpus is cut into tokens, so that
//! each label finds one token. A mask text becomes its mask, and a call the number of its graph. What
//! the box puts out is copied as it is.

ghost use Rattle.std.specs.Prelude.{◌≡◌, ◌<◌, ◌≤◌, [], ◌∷◌, ◌++◌, IfOk, IfSome, OnOk, All, Contains, length};
ghost use Rattle.ux_tokens.specs.Numbers.{texts_in};
ghost use Rattle.ux_net.specs.declared.label.Label.TheVariants.{Begin, Brace, Empty, End};
ghost use Rattle.ux_masks.specs.Texts.{IsMaskText};
ghost use Rattle.ux_boxes.specs.Boxes.{IsSplitLine};
ghost use Rattle.ux_boxes.specs.MaskTexts.{IsMask};
ghost use Rattle.ux_boxes.specs.Places.{ArePlaces};
ghost use Rattle.ux_boxes.specs.Splitting.{AreSplitLines, IsBehind, IsCutBehind, IsMaskBehind, IsNumberOf, IsNumbered, IsPlaceOf, IsSplittable, IsSplittableBox, numbered_output, label_by as label_by_of, text_label as text_label_of};

use crate::output::copied_output;
use crate::place::Place;
use indexmap::IndexSet;
use std::alloc::{AllocError, Global};
use ux_alphabet::Alphabet;
use ux_base::{Lst, Mem, NoMemory, Txt};
use ux_grf::{Graph, GrfBox, Item, Piece};
use ux_masks::{Mask, MaskError};
use ux_net::Label;
use ux_tokens::{Kind, first_token, single_spaced};

/// How a piece of a text is compared with a token.
#[derive(Clone, Copy)]
pub enum Comparison {
    /// Each character has to fit.
    Folded,
    /// The texts have to be equal.
    CaseExact,
}

/// The places of a graph's boxes, in order. Box 0 has one empty line, box 1 none; neither has an
/// output.
pub fn split_graph(
    alloc: Global,
    alphabet: &Alphabet,
    names: &IndexSet<&str>,
    graph: &Graph,
) -> Mem<Vec<Place>>
    requires some { 0 < length graph.now.boxes }
    requires few { length (texts_in names.now) ≤ 65535 }
    requires splittable { All (IsSplittableBox (texts_in names.now)) graph.now.boxes }
    ensures { IfOk result (λ places.
        ArePlaces alphabet.now (texts_in names.now) graph.now.boxes places.items) }
{
    let boxes = graph.boxes.as_slice();
    let mut places = Vec::with_capacity(alloc, boxes.len())?;
    for (number, grf_box) in boxes.iter().enumerate() {
        places.push(split_box(alloc, alphabet, names, number, grf_box)?)?;
    }
    Ok(places)
}

/// The place of the box of this number.
fn split_box(
    alloc: Global,
    alphabet: &Alphabet,
    names: &IndexSet<&str>,
    number: usize,
    grf_box: &GrfBox,
) -> Mem<Place>
    requires few { length (texts_in names.now) ≤ 65535 }
    requires splittable { IsSplittableBox (texts_in names.now) grf_box.now }
    ensures { IfOk result (IsPlaceOf alphabet.now (texts_in names.now) number grf_box.now) }
{
    let lines = match number {
        0 => one_empty_line(alloc)?,
        1 => Vec::new(alloc),
        _ => split_lines(alloc, alphabet, names, grf_box.lines.as_slice())?,
    };
    Ok(Place {
        reached: grf_box.reached,
        output: split_output(alloc, number, grf_box)?,
        lines: Lst::new(lines),
        targets: Lst::new(Vec::from_slice(alloc, grf_box.targets.as_slice())?),
    })
}

/// What the place of the box of this number puts out.
fn split_output(alloc: Global, number: usize, grf_box: &GrfBox) -> Mem<Lst<Piece>>
    ensures { IfOk result (λ output. output ≡ numbered_output number grf_box.now) }
{
    match number {
        0 | 1 => Ok(Lst::new(Vec::new(alloc))),
        _ => copied_output(alloc, grf_box.output.as_slice()),
    }
}

/// One line of the empty word.
fn one_empty_line(alloc: Global) -> Mem<Vec<Lst<Label>>>
    ensures { IfOk result (λ lines. lines.items ≡ (Empty ∷ []) ∷ []) }
{
    let mut line = Vec::new(alloc);
    line.push(Label::Empty)?;
    let mut lines = Vec::new(alloc);
    lines.push(Lst::new(line))?;
    Ok(lines)
}

/// The lines as labels.
fn split_lines(
    alloc: Global,
    alphabet: &Alphabet,
    names: &IndexSet<&str>,
    lines: &[Lst<Item>],
) -> Mem<Vec<Lst<Label>>>
    requires few { length (texts_in names.now) ≤ 65535 }
    requires splittable { All (All (IsSplittable (texts_in names.now))) lines.now }
    ensures { IfOk result (λ split.
        AreSplitLines alphabet.now (texts_in names.now) lines.now split.items) }
{
    let mut all = Vec::with_capacity(alloc, lines.len())?;
    for line in lines {
        all.push(split_line(alloc, alphabet, names, line.as_slice())?)?;
    }
    Ok(all)
}

/// One line as labels.
fn split_line(
    alloc: Global,
    alphabet: &Alphabet,
    names: &IndexSet<&str>,
    line: &[Item],
) -> Mem<Lst<Label>>
    requires few { length (texts_in names.now) ≤ 65535 }
    requires splittable { All (IsSplittable (texts_in names.now)) line.now }
    ensures { IfOk result (IsSplitLine alphabet.now (texts_in names.now) line.now) }
{
    // Most lines have one label: room for four, given back later, leaves a hole for each line.
    let mut labels = Vec::with_capacity(alloc, line.len())?;
    for item in line {
        split_item(alloc, alphabet, names, item, &mut labels)?;
    }
    Ok(fitted(labels))
}

/// The labels, with no room to spare: most lines have one, and a box may have many lines.
fn fitted(labels: Vec<Label>) -> Lst<Label>
    ensures { result ≡ labels.items }
{
    let mut labels = labels;
    labels.shrink_to_fit();
    Lst::new(labels)
}

/// Adds the labels of an item.
fn split_item(
    alloc: Global,
    alphabet: &Alphabet,
    names: &IndexSet<&str>,
    item: &Item,
    labels: &mut Vec<Label>,
) -> Mem<()>
    requires few { length (texts_in names.now) ≤ 65535 }
    requires splittable { IsSplittable (texts_in names.now) item.now }
    ensures { OnOk result
        (IsBehind alphabet.now (texts_in names.now) item.now labels.old.items labels.new.items) }
{
    match item {
        Item::Literal(text) => {
            return split_text(alloc, alphabet, Comparison::Folded, text.as_str(), labels);
        },
        Item::Quoted(text) => {
            return split_text(
                alloc,
                alphabet,
                Comparison::CaseExact,
                text.as_str(),
                labels,
            );
        },
        Item::Mask(text) => return push_mask(alloc, text.as_str(), labels),
        Item::Brace(text) => return push_brace(alloc, text.as_str(), labels),
        Item::NoSpace => return Ok(labels.push(Label::NoSpace)?),
        Item::Empty => return Ok(labels.push(Label::Empty)?),
        Item::Call(name) => return push_call(names, name.as_str(), labels),
        Item::Begin(name) => return push_begin(alloc, name.as_str(), labels),
        Item::End(name) => return push_end(alloc, name.as_str(), labels),
        Item::Positive => return Ok(labels.push(Label::Positive)?),
        Item::Negative => return Ok(labels.push(Label::Negative)?),
        Item::ContextEnd => return Ok(labels.push(Label::ContextEnd)?),
        Item::Cut => return Ok(labels.push(Label::Cut)?),
    }
}

/// Adds the mask of this text.
fn push_mask(alloc: Global, text: &str, labels: &mut Vec<Label>) -> Mem<()>
    requires mask { IsMask text.now }
    ensures { OnOk result (IsMaskBehind text.now labels.old.items labels.new.items) }
{
    labels.push(Label::Mask(mask_of(alloc, text)?))?;
    Ok(())
}

/// The mask of this text.
fn mask_of(alloc: Global, text: &str) -> Mem<Mask>
    requires mask { IsMask text.now }
    ensures { IfOk result (IsMaskText text.now) }
{
    match Mask::read(alloc, text) {
        Ok(mask) => Ok(mask),
        Err(MaskError::BadMask { .. }) => unreachable!(),
        Err(MaskError::NoMemory) => Err(NoMemory),
    }
}

/// Adds the mark in braces.
fn push_brace(alloc: Global, text: &str, labels: &mut Vec<Label>) -> Mem<()>
    ensures { OnOk result (labels.new.items ≡ labels.old.items ++ Brace text.now ∷ []) }
{
    labels.push(Label::Brace(Txt::from_str(alloc, text)?))?;
    Ok(())
}

/// Adds the begin of the variable of this name.
fn push_begin(alloc: Global, name: &str, labels: &mut Vec<Label>) -> Mem<()>
    ensures { OnOk result (labels.new.items ≡ labels.old.items ++ Begin name.now ∷ []) }
{
    labels.push(Label::Begin(Txt::from_str(alloc, name)?))?;
    Ok(())
}

/// Adds the end of the variable of this name.
fn push_end(alloc: Global, name: &str, labels: &mut Vec<Label>) -> Mem<()>
    ensures { OnOk result (labels.new.items ≡ labels.old.items ++ End name.now ∷ []) }
{
    labels.push(Label::End(Txt::from_str(alloc, name)?))?;
    Ok(())
}

/// Adds the call of the graph of this name.
fn push_call(names: &IndexSet<&str>, name: &str, labels: &mut Vec<Label>) -> Mem<()>
    requires few { length (texts_in names.now) ≤ 65535 }
    requires there { Contains (texts_in names.now) name.now }
    ensures { OnOk result
        (IsNumbered (texts_in names.now) name.now labels.old.items labels.new.items) }
{
    labels.push(Label::Call(number_of_name(names, name)))?;
    Ok(())
}

/// The number of the graph of this name, counted from 1.
pub fn number_of_name(names: &IndexSet<&str>, name: &str) -> u32
    requires few { length (texts_in names.now) ≤ 65535 }
    requires there { Contains (texts_in names.now) name.now }
    ensures { IsNumberOf (texts_in names.now) name.now result }
{
    match names.get_index_of(name) {
        Some(index) => index as u32 + 1,
        None => unreachable!(),
    }
}

/// Adds the labels of a text, which is cut as a corpus is cut into tokens.
fn split_text(
    alloc: Global,
    alphabet: &Alphabet,
    comparison: Comparison,
    text: &str,
    labels: &mut Vec<Label>,
) -> Mem<()>
    ensures { OnOk result
        (IsCutBehind alphabet.now comparison text.now labels.old.items labels.new.items) }
{
    let text = single_spaced(alloc, text)?;
    let mut rest = text.as_str();
    while !rest.is_empty() {
        let (kind, len) = first_token(alphabet, rest);
        labels.push(label_by(alloc, comparison, kind, &rest[..len])?)?;
        rest = &rest[len..];
    }
    Ok(())
}

/// The label of one token of a text.
fn label_by(alloc: Global, comparison: Comparison, kind: Kind, token: &str) -> Mem<Label>
    ensures { IfOk result (λ label. label ≡ label_by_of comparison kind token.now) }
{
    match kind {
        Kind::Space => Ok(Label::Space),
        Kind::Word | Kind::Other | Kind::Sentence | Kind::Stop | Kind::Tag => {
            text_label(alloc, comparison, token)
        },
    }
}

/// The label that compares a token with this text.
fn text_label(alloc: Global, comparison: Comparison, text: &str) -> Mem<Label>
    ensures { IfOk result (λ label. label ≡ text_label_of comparison text.now) }
{
    let text = Txt::from_str(alloc, text)?;
    match comparison {
        Comparison::Folded => Ok(Label::CaseFolded(text)),
        Comparison::CaseExact => Ok(Label::CaseExact(text)),
    }
}
