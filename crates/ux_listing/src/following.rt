//! Where a configuration leads over the edges of its state.

ghost use Rattle.std.specs.Prelude.{◌≡◌, ◌∷◌, [], ◌<◌, ◌≤◌, ℕ, List, Contains, IfSome, IsTrue, OnOk, Some, length, option_copied, slice_get};
ghost use Rattle.ux_folds.specs.Folding.{Grows, event_of};
ghost use Rattle.ux_mask_table.specs.MaskedTexts.{AreEdgesKnown, HasTable, IsKnown as IsLabelKnown};
ghost use Rattle.ux_net.specs.declared.net_graph.NetGraph.{NetGraph};
ghost use Rattle.ux_net.specs.Nets.{states_of};
ghost use Rattle.ux_outputs.specs.declared.event.Event.{Event};
ghost use Rattle.ux_outputs.specs.declared.event.Event.TheVariants.{Take};
ghost use Rattle.ux_tokens.specs.Numbers.{different_texts};
ghost use Rattle.ux_walk.specs.Contexts.{ContextsTold, MayAsk, Opens};
ghost use Rattle.ux_walk.specs.Courses.{passing};
ghost use Rattle.ux_walk.specs.LabelMatches.{IsLabelMatch};
ghost use Rattle.ux_walk.specs.LookUps.{AreSound};
ghost use Rattle.ux_walk.specs.Settings.{Setting, masked_setting};
ghost use Rattle.ux_listing.specs.Moves.{Move, goes, calls, Behind, Crosses, CrossesAt, CrossesSome, CrossesSomeAt, Only};
ghost use Rattle.ux_listing.specs.Sets.{Adds};
ghost use Rattle.ux_listing.specs.Walking.{Follows, IsDone, IsKnown, IsNext, IsPut, mark_of};

use crate::config::{Config, Found, Item, Mark, Return, Visit};
use crate::marks::Marks;
use crate::outputs::put_out;
use crate::sets::push;
use std::alloc::Global;
use ux_base::Mem;
use ux_folds::{Fold, LentEvent};
use ux_mask_table::MaskedText;
use ux_net::{Edge, Label, State};
use ux_walk::Contexts;
use ux_walk::config::Frame;
use ux_walk::look_ups::LookUps;
use ux_walk::matching::{LabelMatch, label_match_at, skip};

/// As many edges are tried one by one: no index of them is made.
const FEW: usize = 8;

/// The mark of a configuration.
pub fn mark_of(config: Config) -> Mark
    ensures { result ≡ mark_of config }
{
    Mark {
        graph: config.visit.graph,
        from: config.visit.at,
        state: config.state,
        at: config.at,
    }
}

/// Adds what a configuration leads to: over each edge of its state, and what is derived where that
/// is final.
pub fn follow_config<'t, C: Contexts, F: Fold, M: Marks>(
    alloc: Global,
    masked: &MaskedText<'t>,
    contexts: &C,
    look_ups: &mut LookUps<'t>,
    marks: &M,
    fold: &mut F,
    config: Config,
    next: &mut Vec<Item>,
) -> Mem<()>
    requires table { HasTable masked.now }
    requires sound { AreSound masked.now.alphabet.now masked.now.net.now
        (different_texts masked.now.text.now) look_ups.old }
    requires told { ContextsTold (masked_setting masked.now)
        (C.asks contexts.now) (C.applies contexts.now) }
    requires inside { config.at ≤ length masked.now.text.now }
    requires known { IsKnown (F.means fold.old) config.fold }
    ensures sound { AreSound masked.now.alphabet.now masked.now.net.now
        (different_texts masked.now.text.now) look_ups.new }
    ensures grows { OnOk result (Grows (F.next fold.old) (F.next fold.new)
        (F.means fold.old) (F.means fold.new)) }
    ensures adds { OnOk result (Adds (IsNext (F.next fold.new) (masked_setting masked.now)
        (C.applies contexts.now) config) next.old.items next.new.items) }
    ensures done { OnOk result (IsDone (F.next fold.new) (masked_setting masked.now)
        (C.applies contexts.now) (M.marked marks.now) (Contains next.new.items)
        (Item.At config)) }
{
    let Some(state) = masked.net.state(config.visit.graph, config.state) else {
        return Ok(());
    };
    follow_state(
        alloc, masked, contexts, look_ups, marks, fold, config, state, next,
    )?;
    if !state.is_final {
        return Ok(());
    }
    push(
        next,
        Item::Ends(Found {
            visit: config.visit,
            end: config.at,
            fold: config.fold,
        }),
    )
}

/// Goes over each edge of the state that applies: of many those that may apply at the token.
fn follow_state<'t, C: Contexts, F: Fold, M: Marks>(
    alloc: Global,
    masked: &MaskedText<'t>,
    contexts: &C,
    look_ups: &mut LookUps<'t>,
    marks: &M,
    fold: &mut F,
    config: Config,
    state: &State,
    next: &mut Vec<Item>,
) -> Mem<()>
    requires known_edges { AreEdgesKnown masked.now state.now.edges }
    requires asked { MayAsk (C.asks contexts.now) config.visit.graph state.now.edges config.at }
    requires known { IsKnown (F.means fold.old) config.fold }
    ensures sound { (net : List NetGraph) →
        slice_get (states_of net config.visit.graph) config.state ≡ Some state.now →
        AreSound masked.now.alphabet.now net (different_texts masked.now.text.now)
        look_ups.old →
        AreSound masked.now.alphabet.now net (different_texts masked.now.text.now)
        look_ups.new }
    ensures grows { OnOk result (Grows (F.next fold.old) (F.next fold.new)
        (F.means fold.old) (F.means fold.new)) }
    ensures follows { OnOk result ((net : List NetGraph) →
        slice_get (states_of net config.visit.graph) config.state ≡ Some state.now →
        AreSound masked.now.alphabet.now net (different_texts masked.now.text.now)
        look_ups.old →
        Follows (F.next fold.new) (M.marked marks.now) config
        (CrossesSome (masked_setting masked.now) (C.applies contexts.now) config.visit.graph
        state.now.edges config.at) next.old.items next.new.items) }
{
    let edges = state.edges.as_slice();
    let position = skip(masked.text, config.at);
    if !has_index(edges.len()) || masked.text.len() <= position {
        return follow_edges(alloc, masked, contexts, marks, fold, config, edges, next);
    }
    let frame = Frame {
        graph: config.visit.graph,
        state: config.state,
    };
    look_ups.meet(alloc, masked.text, masked.alphabet, frame, edges)?;
    let Some(index) = look_ups.index(frame) else {
        return follow_edges(alloc, masked, contexts, marks, fold, config, edges, next);
    };
    let places = index.places(alloc, masked.text.number(position))?;
    follow_places(
        alloc,
        masked,
        contexts,
        marks,
        fold,
        config,
        edges,
        places.as_slice(),
        next,
    )
}

/// Goes over the edges at the places that apply.
fn follow_places<C: Contexts, F: Fold, M: Marks>(
    alloc: Global,
    masked: &MaskedText,
    contexts: &C,
    marks: &M,
    fold: &mut F,
    config: Config,
    edges: &[Edge],
    places: &[u32],
    next: &mut Vec<Item>,
) -> Mem<()>
    requires known_edges { AreEdgesKnown masked.now edges.now }
    requires asked { MayAsk (C.asks contexts.now) config.visit.graph edges.now config.at }
    requires known { IsKnown (F.means fold.old) config.fold }
    ensures grows { OnOk result (Grows (F.next fold.old) (F.next fold.new)
        (F.means fold.old) (F.means fold.new)) }
    ensures follows { OnOk result (Follows (F.next fold.new) (M.marked marks.now) config
        (CrossesSomeAt (masked_setting masked.now) (C.applies contexts.now) config.visit.graph
        edges.now places.now config.at) next.old.items next.new.items) }
{
    for place in places {
        follow_place(
            alloc, masked, contexts, marks, fold, config, edges, *place, next,
        )?;
    }
    Ok(())
}

/// Goes over the edge at a place, if it applies.
fn follow_place<C: Contexts, F: Fold, M: Marks>(
    alloc: Global,
    masked: &MaskedText,
    contexts: &C,
    marks: &M,
    fold: &mut F,
    config: Config,
    edges: &[Edge],
    place: u32,
    next: &mut Vec<Item>,
) -> Mem<()>
    requires known_edges { AreEdgesKnown masked.now edges.now }
    requires asked { MayAsk (C.asks contexts.now) config.visit.graph edges.now config.at }
    requires known { IsKnown (F.means fold.old) config.fold }
    ensures grows { OnOk result (Grows (F.next fold.old) (F.next fold.new)
        (F.means fold.old) (F.means fold.new)) }
    ensures follows { OnOk result (Follows (F.next fold.new) (M.marked marks.now) config
        (CrossesAt (masked_setting masked.now) (C.applies contexts.now) config.visit.graph
        edges.now place config.at) next.old.items next.new.items) }
{
    match edge_at(edges, place) {
        Some(edge) => follow(alloc, masked, contexts, marks, fold, config, edge, next),
        None => Ok(()),
    }
}

/// Goes over each of the edges that applies.
fn follow_edges<C: Contexts, F: Fold, M: Marks>(
    alloc: Global,
    masked: &MaskedText,
    contexts: &C,
    marks: &M,
    fold: &mut F,
    config: Config,
    edges: &[Edge],
    next: &mut Vec<Item>,
) -> Mem<()>
    requires known_edges { AreEdgesKnown masked.now edges.now }
    requires asked { MayAsk (C.asks contexts.now) config.visit.graph edges.now config.at }
    requires known { IsKnown (F.means fold.old) config.fold }
    ensures grows { OnOk result (Grows (F.next fold.old) (F.next fold.new)
        (F.means fold.old) (F.means fold.new)) }
    ensures follows { OnOk result (Follows (F.next fold.new) (M.marked marks.now) config
        (CrossesSome (masked_setting masked.now) (C.applies contexts.now) config.visit.graph
        edges.now config.at) next.old.items next.new.items) }
{
    for edge in edges {
        follow(alloc, masked, contexts, marks, fold, config, edge, next)?;
    }
    Ok(())
}

/// Goes over the edge, if it applies.
fn follow<C: Contexts, F: Fold, M: Marks>(
    alloc: Global,
    masked: &MaskedText,
    contexts: &C,
    marks: &M,
    fold: &mut F,
    config: Config,
    edge: &Edge,
    next: &mut Vec<Item>,
) -> Mem<()>
    requires known_label { IsLabelKnown masked.now edge.now.label }
    requires asked { Opens edge.now.label →
        C.asks contexts.now config.visit.graph edge.now config.at }
    requires known { IsKnown (F.means fold.old) config.fold }
    ensures grows { OnOk result (Grows (F.next fold.old) (F.next fold.new)
        (F.means fold.old) (F.means fold.new)) }
    ensures follows { OnOk result (Follows (F.next fold.new) (M.marked marks.now) config
        (Crosses (masked_setting masked.now) (C.applies contexts.now) config.visit.graph edge.now
        config.at) next.old.items next.new.items) }
{
    let matched = label_match_at(alloc, masked, &edge.label, config.at)?;
    if matched.is_closed() {
        return Ok(());
    }
    let Some(state) = put_out(fold, config.fold, edge.output.as_slice())? else {
        return Ok(());
    };
    go_on(
        contexts,
        marks,
        fold,
        Config {
            fold: state,
            ..config
        },
        edge,
        matched,
        next,
    )
}

/// Goes on after an edge whose label applies in this way.
fn go_on<C: Contexts, F: Fold, M: Marks>(
    contexts: &C,
    marks: &M,
    fold: &mut F,
    config: Config,
    edge: &Edge,
    matched: LabelMatch,
    next: &mut Vec<Item>,
) -> Mem<()>
    requires asked { matched ≡ LabelMatch.Opens →
        C.asks contexts.now config.visit.graph edge.now config.at }
    requires known { IsKnown (F.means fold.old) config.fold }
    ensures grows { OnOk result (Grows (F.next fold.old) (F.next fold.new)
        (F.means fold.old) (F.means fold.new)) }
    ensures follows { OnOk result ((setting : Setting) →
        IsLabelMatch setting.alphabet setting.tokens setting.tables edge.now.label config.at
        matched →
        Follows (F.next fold.new) (M.marked marks.now) config
        (Behind setting (C.applies contexts.now) config.visit.graph edge.now.label
        edge.now.target config.at) next.old.items next.new.items) }
{
    let target = edge.target;
    match matched {
        LabelMatch::Takes(end) => take(marks, fold, config, target, end, next),
        LabelMatch::Spans(ends) => take_each(marks, fold, config, target, ends.as_slice(), next),
        LabelMatch::Stays => pass(marks, fold, config, target, &edge.label, next),
        LabelMatch::Calls(graph) => call(marks, fold, config, graph, target, next),
        LabelMatch::Opens => {
            let closers = contexts.closers(config.visit.graph, edge, config.at);
            close_each(marks, fold, config, closers, next)
        },
        LabelMatch::Closed => Ok(()),
    }
}

/// Goes on after the tokens up to each of the ends.
fn take_each<F: Fold, M: Marks>(
    marks: &M,
    fold: &mut F,
    config: Config,
    target: u32,
    ends: &[usize],
    next: &mut Vec<Item>,
) -> Mem<()>
    requires { IsKnown (F.means fold.old) config.fold }
    ensures grows { OnOk result (Grows (F.next fold.old) (F.next fold.new)
        (F.means fold.old) (F.means fold.new)) }
    ensures follows { OnOk result (Follows (F.next fold.new) (M.marked marks.now) config
        (λ move events. (k : ℕ) × Contains ends.now k
        × Only (goes target k) (Take config.at k ∷ []) move events)
        next.old.items next.new.items) }
{
    for end in ends {
        take(marks, fold, config, target, *end, next)?;
    }
    Ok(())
}

/// Goes on after the tokens that were taken.
fn take<F: Fold, M: Marks>(
    marks: &M,
    fold: &mut F,
    config: Config,
    target: u32,
    end: usize,
    next: &mut Vec<Item>,
) -> Mem<()>
    requires { IsKnown (F.means fold.old) config.fold }
    ensures grows { OnOk result (Grows (F.next fold.old) (F.next fold.new)
        (F.means fold.old) (F.means fold.new)) }
    ensures follows { OnOk result (Follows (F.next fold.new) (M.marked marks.now) config
        (Only (goes target end) (Take config.at end ∷ [])) next.old.items next.new.items) }
{
    let event = LentEvent::Take {
        from: config.at,
        to: end,
    };
    note(marks, fold, config, target, end, event, next)
}

/// Goes on after a label that takes nothing.
fn pass<F: Fold, M: Marks>(
    marks: &M,
    fold: &mut F,
    config: Config,
    target: u32,
    label: &Label,
    next: &mut Vec<Item>,
) -> Mem<()>
    requires { IsKnown (F.means fold.old) config.fold }
    ensures grows { OnOk result (Grows (F.next fold.old) (F.next fold.new)
        (F.means fold.old) (F.means fold.new)) }
    ensures follows { OnOk result (Follows (F.next fold.new) (M.marked marks.now) config
        (Only (goes target config.at) (passing label.now)) next.old.items next.new.items) }
{
    let at = config.at;
    match label {
        Label::Begin(name) => {
            note(
                marks,
                fold,
                config,
                target,
                at,
                LentEvent::Begin(name.as_str()),
                next,
            )
        },
        Label::End(name) => {
            note(
                marks,
                fold,
                config,
                target,
                at,
                LentEvent::End(name.as_str()),
                next,
            )
        },
        Label::Cut => note(marks, fold, config, target, at, LentEvent::Cut, next),
        Label::Empty
        | Label::CaseFolded(_)
        | Label::CaseExact(_)
        | Label::Mask(_)
        | Label::Brace(_)
        | Label::Space
        | Label::NoSpace
        | Label::Positive
        | Label::Negative
        | Label::ContextEnd
        | Label::Call(_) => move_on(marks, fold, config, target, next),
    }
}

/// Goes on behind a context, at each of the states into which it is closed.
fn close_each<F: Fold, M: Marks>(
    marks: &M,
    fold: &F,
    config: Config,
    closers: &[u32],
    next: &mut Vec<Item>,
) -> Mem<()>
    ensures { OnOk result (Follows (F.next fold.now) (M.marked marks.now) config
        (λ move events. (b : ℕ) × Contains closers.now b
        × Only (goes b config.at) [] move events) next.old.items next.new.items) }
{
    for closer in closers {
        move_on(marks, fold, config, *closer, next)?;
    }
    Ok(())
}

/// Folds the event, and goes on in a state at a position if it isn't dropped.
fn note<F: Fold, M: Marks>(
    marks: &M,
    fold: &mut F,
    config: Config,
    state: u32,
    at: usize,
    event: LentEvent<'_>,
    next: &mut Vec<Item>,
) -> Mem<()>
    requires { IsKnown (F.means fold.old) config.fold }
    ensures grows { OnOk result (Grows (F.next fold.old) (F.next fold.new)
        (F.means fold.old) (F.means fold.new)) }
    ensures follows { OnOk result (Follows (F.next fold.new) (M.marked marks.now) config
        (Only (goes state at) (event_of event.entry ∷ [])) next.old.items next.new.items) }
{
    match fold.add(config.fold, event)? {
        Some(after) => put_config(
            marks,
            Config {
                visit: config.visit,
                state,
                at,
                fold: after,
            },
            next,
        ),
        None => Ok(()), // The derivation is dropped.
    }
}

/// Goes on in a state, with no event. The fold stays as it is.
fn move_on<F: Fold, M: Marks>(
    marks: &M,
    fold: &F,
    config: Config,
    state: u32,
    next: &mut Vec<Item>,
) -> Mem<()>
    ensures { OnOk result (Follows (F.next fold.now) (M.marked marks.now) config
        (Only (goes state config.at) []) next.old.items next.new.items) }
{
    put_config(marks, Config { state, ..config }, next)
}

/// Waits for what the graph derives, and enters it. The fold stays as it is.
fn call<F: Fold, M: Marks>(
    marks: &M,
    fold: &F,
    config: Config,
    graph: u32,
    to: u32,
    next: &mut Vec<Item>,
) -> Mem<()>
    ensures { OnOk result (Follows (F.next fold.now) (M.marked marks.now) config
        (Only (calls graph to) []) next.old.items next.new.items) }
{
    let callee = Visit {
        graph,
        at: config.at,
        fold: config.fold,
    };
    push(
        next,
        Item::Waits(Return {
            callee,
            caller: config.visit,
            to,
        }),
    )?;
    put_config(
        marks,
        Config {
            visit: callee,
            state: 0,
            at: config.at,
            fold: config.fold,
        },
        next,
    )
}

/// Adds the configuration, if it is marked.
fn put_config<M: Marks>(marks: &M, config: Config, next: &mut Vec<Item>) -> Mem<()>
    ensures adds { OnOk result (Adds (λ w. w ≡ Item.At config) next.old.items next.new.items) }
    ensures put { OnOk result (IsPut (M.marked marks.now) (Contains next.new.items)
        (Item.At config)) }
{
    if !marks.has(mark_of(config)) {
        return Ok(());
    }
    push(next, Item::At(config))
}

/// Whether a state of so many edges gets an index: they are many, and 32 bits tell each place.
fn has_index(edges: usize) -> bool
    ensures { IsTrue result → edges < 4294967296 }
{
    FEW < edges && edges < 4_294_967_296
}

/// The edge at a place.
fn edge_at(edges: &[Edge], place: u32) -> Option<&Edge>
    ensures { option_copied result ≡ slice_get edges.now place }
{
    edges.get(place as usize)
}
