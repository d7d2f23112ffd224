//! Ranks of states made of places, from ranks of the places.
//!
//! A rank falls along each edge that may take nothing, and so every walk through a net ends. The
//! state of a place stands above the states that lead from it, and a chain state above what comes
//! after it on its line. The one before a call stands above the start of the graph that is called.
//! `specs/Ranks.antt` has the rules.

ghost use Rattle.std.specs.Prelude.{◌≡◌, ◌+◌, ◌-◌, ◌<◌, ◌≤◌, [], ◌∷◌, ◌++◌, length, map, IfOk, OnOk, All, drop, cond};
ghost use Rattle.std.specs.List.{range_with_len, flat_map};
ghost use Rattle.ux_admission.specs.Admission.{row_at, place_rank as place_rank_of, is_place_free as is_place_free_of};
ghost use Rattle.ux_boxes.specs.Places.{label_lines};
ghost use Rattle.ux_compile.specs.Construct.{AreFit, has_state as has_state_of, along_line, along_lines, at_place};
ghost use Rattle.ux_net.specs.Silent.{are_silent as are_silent_of};
ghost use Rattle.ux_compile.specs.Ranks.{silent_len as silent_len_of, rest_rank as rest_rank_of, rest_free as rest_free_of, above, call_rank as call_rank_of, call_free as call_free_of, chain_rank_at, chain_free_at, state_ranks, state_frees};

use crate::numbering::{called_behind, has_state, labels, line_count};
use std::alloc::Global;
use ux_admission::{Admission, is_silent};
use ux_base::{Lst, Mem};
use ux_boxes::Place;
use ux_net::{Label, Rank};

/// The rank of each state that is made of the places of a graph, and whether it is marked nullable,
/// from the ranks and the marks of the places of all graphs.
pub fn ranks(
    alloc: Global,
    places: &[Place],
    graph: usize,
    admission: &Admission,
) -> Mem<(Vec<Rank>, Vec<bool>)>
    requires fit { AreFit places.now }
    requires small { All (All (λ rank. rank < 4294967296)) admission.now.ranks.items }
    ensures ranks { IfOk result (λ made. made.0.items ≡
        state_ranks admission.now.ranks.items admission.now.free.items graph places.now) }
    ensures free { IfOk result (λ made. made.1.items ≡
        state_frees admission.now.ranks.items admission.now.free.items graph places.now) }
{
    let mut state_ranks = Vec::new(alloc);
    let mut state_frees = Vec::new(alloc);
    push_places(places, graph, admission, &mut state_ranks, &mut state_frees)?;
    push_chains(places, graph, admission, &mut state_ranks, &mut state_frees)?;
    Ok((state_ranks, state_frees))
}

/// Adds the ranks and the marks of the states of places.
fn push_places(
    places: &[Place],
    graph: usize,
    admission: &Admission,
    state_ranks: &mut Vec<Rank>,
    state_frees: &mut Vec<bool>,
) -> Mem<()>
    requires small { All (All (λ rank. rank < 4294967296)) admission.now.ranks.items }
    ensures ranks { OnOk result (state_ranks.new.items ≡ state_ranks.old.items
        ++ flat_map (at_place places.now
        (λ a. above (place_rank_of admission.now.ranks.items graph a)))
        (range_with_len 0 (length places.now))) }
    ensures free { OnOk result (state_frees.new.items ≡ state_frees.old.items
        ++ flat_map (at_place places.now (is_place_free_of admission.now.free.items graph))
        (range_with_len 0 (length places.now))) }
{
    for place in 0..places.len() {
        push_place(
            places,
            place,
            place_rank(admission, graph, place),
            is_place_free(admission, graph, place),
            state_ranks,
            state_frees,
        )?;
    }
    Ok(())
}

/// The rank of a place of the graph of this number, counted from 1.
fn place_rank(admission: &Admission, graph: usize, place: usize) -> usize
    requires small { All (All (λ rank. rank < 4294967296)) admission.now.ranks.items }
    ensures rank { result ≡ place_rank_of admission.now.ranks.items graph place }
    ensures small { result < 4294967296 }
{
    match row(&admission.ranks, graph).get(place) {
        Some(rank) => *rank,
        None => 0,
    }
}

/// Whether a place of the graph of this number, counted from 1, is marked.
fn is_place_free(admission: &Admission, graph: usize, place: usize) -> bool
    ensures { result ≡ is_place_free_of admission.now.free.items graph place }
{
    match row(&admission.free, graph).get(place) {
        Some(free) => *free,
        None => false,
    }
}

/// The row of the graph of this number, counted from 1.
fn row<T>(rows: &[Lst<T>], graph: usize) -> &[T]
    ensures { result.now ≡ row_at rows.now graph }
{
    match graph.checked_sub(1) {
        None => &[],
        Some(index) => match rows.get(index) {
            Some(row) => row.as_slice(),
            None => &[],
        },
    }
}

/// Adds the rank and the mark of the state of a place, where it has one.
fn push_place(
    places: &[Place],
    place: usize,
    rank: usize,
    free: bool,
    state_ranks: &mut Vec<Rank>,
    state_frees: &mut Vec<bool>,
) -> Mem<()>
    requires small { rank < 4294967296 }
    ensures ranks { OnOk result (state_ranks.new.items ≡ state_ranks.old.items
        ++ cond (has_state_of places.now place) (above rank ∷ []) []) }
    ensures free { OnOk result (state_frees.new.items ≡ state_frees.old.items
        ++ cond (has_state_of places.now place) (free ∷ []) []) }
{
    if has_state(places, place) {
        state_ranks.push(Rank {
            major: rank + 1,
            minor: 0,
        })?;
        state_frees.push(free)?;
        return Ok(());
    }
    Ok(())
}

/// Adds the ranks and the marks of chain states.
fn push_chains(
    places: &[Place],
    graph: usize,
    admission: &Admission,
    state_ranks: &mut Vec<Rank>,
    state_frees: &mut Vec<bool>,
) -> Mem<()>
    requires fit { AreFit places.now }
    requires small { All (All (λ rank. rank < 4294967296)) admission.now.ranks.items }
    ensures ranks { OnOk result (state_ranks.new.items ≡ state_ranks.old.items
        ++ flat_map (along_lines places.now
        (chain_rank_at admission.now.ranks.items admission.now.free.items graph places.now))
        (range_with_len 0 (length places.now))) }
    ensures free { OnOk result (state_frees.new.items ≡ state_frees.old.items
        ++ flat_map (along_lines places.now
        (chain_free_at admission.now.ranks.items admission.now.free.items graph places.now))
        (range_with_len 0 (length places.now))) }
{
    for place in 0..places.len() {
        push_lines(places, place, graph, admission, state_ranks, state_frees)?;
    }
    Ok(())
}

/// Adds the ranks and the marks of the chain states of a place.
fn push_lines(
    places: &[Place],
    place: usize,
    graph: usize,
    admission: &Admission,
    state_ranks: &mut Vec<Rank>,
    state_frees: &mut Vec<bool>,
) -> Mem<()>
    requires fit { AreFit places.now }
    requires small { All (All (λ rank. rank < 4294967296)) admission.now.ranks.items }
    ensures ranks { OnOk result (state_ranks.new.items ≡ state_ranks.old.items
        ++ along_lines places.now
        (chain_rank_at admission.now.ranks.items admission.now.free.items graph places.now)
        place) }
    ensures free { OnOk result (state_frees.new.items ≡ state_frees.old.items
        ++ along_lines places.now
        (chain_free_at admission.now.ranks.items admission.now.free.items graph places.now)
        place) }
{
    for line in 0..line_count(places, place) {
        push_line(
            places,
            place,
            line,
            graph,
            admission,
            state_ranks,
            state_frees,
        )?;
    }
    Ok(())
}

/// Adds the ranks and the marks of the chain states of a line. A line with a call has one at most,
/// since it is that call alone.
fn push_line(
    places: &[Place],
    place: usize,
    line: usize,
    graph: usize,
    admission: &Admission,
    state_ranks: &mut Vec<Rank>,
    state_frees: &mut Vec<bool>,
) -> Mem<()>
    requires fit { AreFit places.now }
    requires line { line < length (label_lines places.now place) }
    requires small { All (All (λ rank. rank < 4294967296)) admission.now.ranks.items }
    ensures ranks { OnOk result (state_ranks.new.items ≡ state_ranks.old.items
        ++ along_line places.now
        (chain_rank_at admission.now.ranks.items admission.now.free.items graph places.now)
        place line) }
    ensures free { OnOk result (state_frees.new.items ≡ state_frees.old.items
        ++ along_line places.now
        (chain_free_at admission.now.ranks.items admission.now.free.items graph places.now)
        place line) }
{
    let rank = place_rank(admission, graph, place);
    let free = is_place_free(admission, graph, place);
    match called_behind(places, place, line) {
        None => {
            let labels = labels(places, place, line);
            push_labels(labels, rank, free, state_ranks, state_frees)
        },
        Some(called) => {
            state_ranks.push(call_rank(admission, called as usize, rank))?;
            state_frees.push(call_free(admission, called as usize, free))?;
            Ok(())
        },
    }
}

/// The rank of a state from which a call of a graph leads to a place of this rank.
fn call_rank(admission: &Admission, called: usize, rank: usize) -> Rank
    requires small { All (All (λ rank. rank < 4294967296)) admission.now.ranks.items }
    requires small_rank { rank < 4294967296 }
    ensures { result ≡ call_rank_of admission.now.ranks.items admission.now.free.items called rank }
{
    let start = place_rank(admission, called, 0);
    let behind = rank_behind(is_place_free(admission, called, 0), rank);
    Rank {
        major: start.max(behind) + 1,
        minor: 1,
    }
}

/// What the rank of the place behind a call counts for: only a call that may take nothing leads on
/// to it with no token.
fn rank_behind(free: bool, rank: usize) -> usize
    ensures { result ≡ cond free rank 0 }
{
    if free { rank } else { 0 }
}

/// Whether a state is marked from which a call of a graph leads to a place, marked or not.
fn call_free(admission: &Admission, called: usize, free: bool) -> bool
    ensures { result ≡ call_free_of admission.now.ranks.items admission.now.free.items called free }
{
    is_place_free(admission, called, 0) && free
}

/// Adds the ranks and the marks of the states before each label but the first.
fn push_labels(
    labels: &[Label],
    rank: usize,
    free: bool,
    state_ranks: &mut Vec<Rank>,
    state_frees: &mut Vec<bool>,
) -> Mem<()>
    requires small { rank < 4294967296 }
    ensures ranks { OnOk result (state_ranks.new.items ≡ state_ranks.old.items
        ++ map (λ k. rest_rank_of rank (drop (k + 1) labels.now))
        (range_with_len 0 (length labels.now - 1))) }
    ensures free { OnOk result (state_frees.new.items ≡ state_frees.old.items
        ++ map (λ k. rest_free_of free (drop (k + 1) labels.now))
        (range_with_len 0 (length labels.now - 1))) }
{
    if labels.len() < 2 {
        return Ok(());
    }
    let mut front = silent_len(labels, 1);
    for k in 0..labels.len() - 1 {
        state_ranks.push(rest_rank(labels, k + 1, front, rank))?;
        state_frees.push(rest_free(labels, k + 1, front, free))?;
        front = next_silent_len(labels, k + 1, front);
    }
    Ok(())
}

/// The rank of the state before label `from`, where `front` labels from there on are silent.
fn rest_rank(labels: &[Label], from: usize, front: usize, rank: usize) -> Rank
    requires from { from ≤ length labels.now }
    requires front { front ≡ silent_len_of (drop from labels.now) }
    requires small { rank < 4294967296 }
    ensures { result ≡ rest_rank_of rank (drop from labels.now) }
{
    if is_rest_silent(labels, from, front) {
        return Rank {
            major: rank + 1,
            minor: front,
        };
    }
    Rank {
        major: 0,
        minor: front,
    }
}

/// Whether that state is marked, where its place is or isn't.
fn rest_free(labels: &[Label], from: usize, front: usize, free: bool) -> bool
    requires from { from ≤ length labels.now }
    requires front { front ≡ silent_len_of (drop from labels.now) }
    ensures { result ≡ rest_free_of free (drop from labels.now) }
{
    is_rest_silent(labels, from, front) && free
}

/// Whether all labels from `from` on are silent.
fn is_rest_silent(labels: &[Label], from: usize, front: usize) -> bool
    requires from { from ≤ length labels.now }
    requires front { front ≡ silent_len_of (drop from labels.now) }
    ensures { result ≡ are_silent_of (drop from labels.now) }
{
    front == labels.len() - from
}

/// How many labels from `from` on come before the first that isn't silent.
fn silent_len(labels: &[Label], from: usize) -> usize
    requires { from ≤ length labels.now }
    ensures { result ≡ silent_len_of (drop from labels.now) }
{
    for k in from..labels.len() {
        if !is_silent(&labels[k]) {
            return k - from;
        }
    }
    labels.len() - from
}

/// The same from the next label on: only where the label isn't silent are those after it looked at,
/// so that along a line each is looked at twice at most.
fn next_silent_len(labels: &[Label], from: usize, front: usize) -> usize
    requires from { from < length labels.now }
    requires front { front ≡ silent_len_of (drop from labels.now) }
    ensures { result ≡ silent_len_of (drop (from + 1) labels.now) }
{
    let _len = labels.len();
    if front > 0 {
        front - 1
    } else {
        silent_len(labels, from + 1)
    }
}
