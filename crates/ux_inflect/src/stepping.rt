//! The steps from a configuration.

ghost use Rattle.std.specs.Prelude.{◌≡◌, ℕ, List, [], ◌∷◌, ◌++◌, IfOk, OnOk, map, option_map, reverse, string_bytes, Some};
ghost use Rattle.std.specs.List.{flat_map};
ghost use Rattle.ux_inflect.specs.Places.{after_text, along_edge, cursor_of, entered, next, output_in, place_of, put_of, returning, step_of, strokes_in, taking_of, text_of};
ghost use Rattle.ux_inflect.specs.Strokes.{all_stroked};
ghost use Rattle.ux_inflect.specs.declared.config.Frame.{Frame};

use crate::codes::{CodeState, after_put};
use crate::config::{Config, Frame};
use crate::form::{Form, copy_of, take_text};
use crate::stroke::{Detail, Taking};
use std::alloc::Global;
use ux_base::{Mem, Txt};
use ux_grf::Piece;
use ux_net::{Edge, Label, Net};

/// A step: the text that it reads, and where it leads.
#[derive(Drop)]
pub(crate) struct Successor {
    pub text: Txt,
    pub config: Config,
}

/// The steps from the configuration: along each edge of its innermost state, and back where that is
/// final.
pub(crate) fn successors(
    alloc: Global,
    net: &Net,
    config: &Config,
    detail: Detail,
) -> Mem<Vec<Successor>>
    ensures { IfOk result (λ found.
        map step_of found.items ≡ next detail net.now (place_of config.now)) }
{
    let mut found = Vec::new(alloc);
    let Some(frame) = config.frames.last() else {
        return Ok(found);
    };
    let Some(state) = net.state(frame.graph, frame.state) else {
        return Ok(found);
    };
    put_return(alloc, &mut found, config, state.is_final)?;
    put_edges(
        alloc,
        &mut found,
        config,
        *frame,
        state.edges.as_slice(),
        detail,
    )?;
    Ok(found)
}

/// Puts the step back, if the innermost state is final.
fn put_return(alloc: Global, found: &mut Vec<Successor>, config: &Config, is_final: bool) -> Mem<()>
    ensures { OnOk result ((frame : Frame) (below : List Frame) →
        reverse config.now.frames.items ≡ frame ∷ below → map step_of found.new.items ≡
        map step_of found.old.items ++ returning below (place_of config.now) is_final) }
{
    if is_final {
        let config = returned(alloc, config)?;
        found.push(Successor {
            text: Txt::new(String::new(alloc)),
            config,
        })?;
    }
    Ok(())
}

/// Puts the steps along the edges.
#[tactic(auto, using(crate::proofs::ListLemmas::map_more))]
fn put_edges(
    alloc: Global,
    found: &mut Vec<Successor>,
    config: &Config,
    frame: Frame,
    edges: &[Edge],
    detail: Detail,
) -> Mem<()>
    ensures { OnOk result ((last : Frame) (below : List Frame) →
        reverse config.now.frames.items ≡ last ∷ below → map step_of found.new.items ≡
        map step_of found.old.items
        ++ map (along_edge detail frame.graph below (place_of config.now)) edges.now) }
{
    for edge in edges {
        let successor = along(alloc, config, frame, edge, detail)?;
        found.push(successor)?;
    }
    Ok(())
}

/// The configuration without its innermost state.
fn returned(alloc: Global, config: &Config) -> Mem<Config>
    ensures { IfOk result (λ behind. (frame : Frame) (below : List Frame) →
        reverse config.now.frames.items ≡ frame ∷ below →
        place_of behind ≡ record (place_of config.now) { frames = below }) }
{
    let mut frames = Vec::from_slice(alloc, config.frames.as_slice())?;
    frames.pop();
    let form = copied_form(alloc, &config.form)?;
    let output = String::from_str(alloc, config.output.as_str())?;
    Ok(Config {
        frames,
        form,
        output,
        codes: config.codes,
    })
}

/// A copy of the form, if there is one.
fn copied_form(alloc: Global, form: &Option<Form>) -> Mem<Option<Form>>
    ensures { IfOk result (λ copy. option_map cursor_of copy ≡ option_map cursor_of form.now) }
{
    match form {
        Some(form) => {
            let copy = copy_of(alloc, form)?;
            Ok(Some(copy))
        },
        None => Ok(None),
    }
}

/// The step along the edge.
fn along(
    alloc: Global,
    config: &Config,
    frame: Frame,
    edge: &Edge,
    detail: Detail,
) -> Mem<Successor>
    ensures { IfOk result (λ successor. (last : Frame) (below : List Frame) →
        reverse config.now.frames.items ≡ last ∷ below → step_of successor ≡
        along_edge detail frame.graph below (place_of config.now) edge.now) }
{
    let frames = frames_behind(alloc, &config.frames, frame, edge)?;
    let form = copied_form(alloc, &config.form)?;
    let form = formed(form, &edge.label, detail)?;
    let output = put_behind(
        alloc,
        config.output.as_str(),
        edge.output.as_slice(),
        detail,
    )?;
    let text = read_by(alloc, &edge.label)?;
    Ok(Successor {
        text,
        config: Config {
            frames,
            form,
            output,
            codes: after_pieces(config.codes, edge.output.as_slice()),
        },
    })
}

/// The states to go on from behind the edge.
fn frames_behind(alloc: Global, frames: &[Frame], frame: Frame, edge: &Edge) -> Mem<Vec<Frame>>
    ensures { IfOk result (λ behind. (last : Frame) (below : List Frame) →
        reverse frames.now ≡ last ∷ below →
        reverse behind.items ≡ entered edge.now.label frame.graph edge.now.target below) }
{
    let mut behind = Vec::from_slice(alloc, frames)?;
    behind.pop();
    behind.push(Frame {
        graph: frame.graph,
        state: edge.target,
    })?;
    put_start(&mut behind, &edge.label)?;
    Ok(behind)
}

/// Puts the start of the graph that the label calls.
fn put_start(frames: &mut Vec<Frame>, label: &Label) -> Mem<()>
    ensures { OnOk result ((g target : ℕ) (below : List Frame) →
        reverse frames.old.items ≡ record { graph = g; state = target } ∷ below →
        reverse frames.new.items ≡ entered label.now g target below) }
{
    if let Label::Call(graph) = label {
        frames.push(Frame {
            graph: *graph,
            state: 0,
        })?;
    }
    Ok(())
}

/// The form after what the label does.
#[tactic(auto, using(crate::proofs::PlacesLemmas::all_lost))]
fn formed(form: Option<Form>, label: &Label, detail: Detail) -> Mem<Option<Form>>
    ensures { IfOk result (λ after. option_map cursor_of after ≡
        all_stroked (strokes_in detail label.now) (option_map cursor_of form)) }
{
    match form {
        Some(form) => formed_from(form, label, detail),
        None => Ok(None),
    }
}

/// The form after what the label does; none, where it can't be done.
fn formed_from(form: Form, label: &Label, detail: Detail) -> Mem<Option<Form>>
    ensures { IfOk result (λ after. option_map cursor_of after ≡
        all_stroked (strokes_in detail label.now) (Some (cursor_of form))) }
{
    match taking_in(label) {
        Some(taking) => take_text(form, text_in(label), taking, detail),
        None => Ok(Some(form)),
    }
}

/// How the label's text is taken, if it has one.
fn taking_in(label: &Label) -> Option<Taking>
    ensures { result ≡ taking_of label.now }
{
    match label {
        Label::CaseFolded(_) => Some(Taking::Literal),
        Label::CaseExact(_) => Some(Taking::Quoted),
        Label::Empty
        | Label::Mask(_)
        | Label::Brace(_)
        | Label::Space
        | Label::NoSpace
        | Label::Begin(_)
        | Label::End(_)
        | Label::Positive
        | Label::Negative
        | Label::ContextEnd
        | Label::Cut
        | Label::Call(_) => None,
    }
}

/// The output with what the pieces put behind it.
fn put_behind(alloc: Global, output: &str, pieces: &[Piece], detail: Detail) -> Mem<String>
    ensures { IfOk result (λ all.
        string_bytes all ≡ output.now ++ output_in detail pieces.now) }
{
    let mut all = String::from_str(alloc, output)?;
    match detail {
        Detail::Whole => put_pieces(&mut all, pieces)?,
        Detail::Outline => (),
    }
    Ok(all)
}

/// Puts the texts of the pieces behind the output.
#[tactic(auto, using(crate::proofs::ListLemmas::joined_next))]
fn put_pieces(output: &mut String, pieces: &[Piece]) -> Mem<()>
    ensures { OnOk result (string_bytes output.new ≡
        string_bytes output.old ++ flat_map put_of pieces.now) }
{
    for piece in pieces {
        output.push_str(put_by(piece))?;
    }
    Ok(())
}

/// The text that the piece puts out.
fn put_by(piece: &Piece) -> &str
    ensures { result.now ≡ put_of piece.now }
{
    match piece {
        Piece::Chars(text) => text.as_str(),
        Piece::Value(_) => "",
    }
}

/// How far the codes are read behind the pieces.
#[tactic(auto, using(crate::proofs::ListLemmas::pieces_more))]
fn after_pieces(codes: CodeState, pieces: &[Piece]) -> CodeState
    ensures { result ≡ after_text codes (flat_map put_of pieces.now) }
{
    let mut codes = codes;
    for piece in pieces {
        codes = after_put(codes, put_by(piece));
    }
    codes
}

/// The text that the label reads.
fn read_by(alloc: Global, label: &Label) -> Mem<Txt>
    ensures { IfOk result (λ text. text ≡ text_of label.now) }
{
    let text = Txt::from_str(alloc, text_in(label))?;
    Ok(text)
}

/// The text that the label reads, lent.
fn text_in(label: &Label) -> &str
    ensures { result.now ≡ text_of label.now }
{
    match label {
        Label::CaseFolded(text) | Label::CaseExact(text) => text.as_str(),
        Label::Empty
        | Label::Mask(_)
        | Label::Brace(_)
        | Label::Space
        | Label::NoSpace
        | Label::Begin(_)
        | Label::End(_)
        | Label::Positive
        | Label::Negative
        | Label::ContextEnd
        | Label::Cut
        | Label::Call(_) => "",
    }
}
