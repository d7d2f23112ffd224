//! What a line of a compiled grammar says.

ghost use Rattle.std.specs.Prelude.{◌≡◌, ◌↔◌, ◌∷◌, [], ℕ, Bool, List, IfOk, IsTrue, MatchOption};
ghost use Rattle.ux_fst2_file.specs.Fields.{fields_of};
ghost use Rattle.ux_fst2_file.specs.Lines.{HasFields, IsCount, IsEnd, IsHead, IsLabel, IsState, sign_of};
ghost use Rattle.ux_fst2_file.specs.Reading.{AreFewEdges, IsEdge};
ghost use Rattle.ux_fst2_file.specs.declared.file.Fst2Edge.{Fst2Edge as EdgeRecord};
ghost use Rattle.ux_fst2_file.specs.declared.file.Fst2Label.{Fst2Label as LabelData};
ghost use Rattle.ux_fst2_file.specs.declared.file.Fst2State.{Fst2State as StateRecord};

use crate::fields::{
    behind_minus, has_field_first, next_field, read_number, skip_spaces, split_field, trim_end,
};
use crate::file::{Fst2Edge, Fst2Label, Fst2State};
use std::alloc::Global;
use ux_base::{Lst, Mem};

/// The edges that a state has at most.
const MOST_EDGES: usize = 4_294_967_295;

/// The only field of a line, before which no space stands.
fn only_field(line: &str) -> Option<&str>
    ensures { MatchOption result ((field : List ℕ) → HasFields line.now (field ∷ []) → ⊥)
        (λ field. HasFields line.now (field.now ∷ [])) }
{
    if !has_field_first(line) {
        return None;
    }
    let (field, rest) = next_field(line)?;
    match next_field(rest) {
        Some(_) => None,
        None => Some(field),
    }
}

/// Whether the line is `f`.
pub(crate) fn is_end(line: &str) -> bool
    ensures { IsTrue result ↔ IsEnd line.now }
{
    match only_field(line) {
        Some(field) => field == "f",
        None => false,
    }
}

/// The number of graphs that the first line tells.
pub(crate) fn read_count(line: &str) -> Option<u32>
    ensures { MatchOption result ((count : ℕ) → IsCount line.now count → ⊥) (IsCount line.now) }
{
    let digits = only_field(line)?;
    if digits.len() != 10 {
        return None;
    }
    let count = read_number(digits)?;
    if count == 0 || count > 65_535 {
        return None;
    }
    Some(count)
}

/// The name in the first line of the graph of this number.
pub(crate) fn read_head(line: &str, number: u32) -> Option<&str>
    ensures { MatchOption result ((name : List ℕ) → IsHead number line.now name → ⊥)
        (λ name. IsHead number line.now name.now) }
{
    let behind = behind_minus(line)?;
    let (digits, rest) = split_field(behind);
    if read_number(digits)? != number {
        return None;
    }
    let name = trim_end(skip_spaces(rest));
    if name.is_empty() {
        return None;
    }
    Some(name)
}

/// The label that a field is.
fn read_label(text: &str) -> Option<Fst2Label>
    ensures { MatchOption result ((label : LabelData) → IsLabel text.now label → ⊥)
        (IsLabel text.now) }
{
    match behind_minus(text) {
        Some(digits) => Some(Fst2Label::Call(read_number(digits)?)),
        None => Some(Fst2Label::Tag(read_number(text)?)),
    }
}

/// The edge of a label and a target.
fn read_edge(label: &str, target: &str) -> Option<Fst2Edge>
    ensures { MatchOption result ((edge : EdgeRecord) → IsEdge label.now target.now edge → ⊥)
        (IsEdge label.now target.now) }
{
    Some(Fst2Edge {
        label: read_label(label)?,
        target: read_number(target)?,
    })
}

/// The edges that a text is.
fn read_edges(alloc: Global, text: &str) -> Mem<Option<Vec<Fst2Edge>>>
    ensures { IfOk result (λ some. MatchOption some
        ((edges : List EdgeRecord) → AreFewEdges (fields_of text.now) edges → ⊥)
        (λ edges. AreFewEdges (fields_of text.now) edges.items)) }
{
    let mut edges = Vec::new(alloc);
    let mut rest = text;
    while let Some((label, behind)) = next_field(rest) {
        let Some((target, behind)) = next_field(behind) else {
            return Ok(None);
        };
        let Some(edge) = read_edge(label, target) else {
            return Ok(None);
        };
        if edges.len() >= MOST_EDGES {
            return Ok(None);
        }
        edges.push(edge)?;
        rest = behind;
    }
    Ok(Some(edges))
}

/// Whether a state with this sign is final.
fn read_sign(sign: &str) -> Option<bool>
    ensures { MatchOption result ((is_final : Bool) → sign.now ≡ sign_of is_final → ⊥)
        (λ is_final. sign.now ≡ sign_of is_final) }
{
    match sign {
        "t" => Some(true),
        ":" => Some(false),
        _ => None,
    }
}

/// The state that a line says.
pub(crate) fn read_state(alloc: Global, line: &str) -> Mem<Option<Fst2State>>
    ensures { IfOk result (λ some. MatchOption some
        ((state : StateRecord) → IsState line.now state → ⊥) (IsState line.now)) }
{
    if !has_field_first(line) {
        return Ok(None);
    }
    let Some((sign, rest)) = next_field(line) else {
        return Ok(None);
    };
    let Some(is_final) = read_sign(sign) else {
        return Ok(None);
    };
    match read_edges(alloc, rest)? {
        Some(edges) => Ok(Some(Fst2State {
            is_final,
            edges: Lst::new(edges),
        })),
        None => Ok(None),
    }
}
