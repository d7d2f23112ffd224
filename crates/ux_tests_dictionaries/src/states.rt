//! States whose edges stand in one list, read by their numbers.

use crate::comparing::compare;
use std::alloc::Global;
use ux_base::Mem;
use ux_dawg::{Edge, States, first_repeated};

/// A state: its number of a list, if it has one, and its edges.
type Row = (Option<u32>, &'static [(char, u32)]);

/// The states of `cat` and `cot` with 0, and `cats` and `cots` with 1.
const ROWS: &[Row] = &[
    (Some(1), &[]),
    (Some(0), &[('s', 0)]),
    (None, &[('t', 1)]),
    (None, &[('a', 2), ('o', 2)]),
    (None, &[('c', 3)]),
];

/// The edges.
fn edges_of(alloc: Global, row: &[(char, u32)]) -> Mem<Vec<Edge>> {
    let mut edges = Vec::new(alloc);
    for (letter, target) in row {
        edges.push(Edge {
            letter: *letter,
            target: *target,
        })?;
    }
    Ok(edges)
}

/// The states.
fn states_of(alloc: Global, rows: &[Row]) -> Mem<States> {
    let mut states = States::new(alloc);
    for (code, row) in rows {
        let edges = edges_of(alloc, row)?;
        states.push(*code, &edges)?;
    }
    Ok(states)
}

/// The state of this number: its number of a list or `-`, and its edges.
fn shown(alloc: Global, number: usize) -> Mem<String> {
    let states = states_of(alloc, ROWS)?;
    state_text(alloc, &states, number)
}

/// The same, of states that are there.
fn state_text(alloc: Global, states: &States, number: usize) -> Mem<String> {
    let mut text = String::new(alloc);
    match states.code(number) {
        Some(code) => text.push_str(format!(in alloc; "{code}")?.as_str())?,
        None => text.push('-')?,
    }
    for edge in states.edges(number) {
        text.push(edge.letter)?;
        text.push_str(format!(in alloc; "{}", edge.target)?.as_str())?;
    }
    Ok(text)
}

/// How many states there are.
fn count(alloc: Global, rows: &[Row]) -> Mem<usize> {
    Ok(states_of(alloc, rows)?.len())
}

/// The first state that is repeated.
fn repeated(alloc: Global, rows: &[Row]) -> Mem<Option<usize>> {
    let states = states_of(alloc, rows)?;
    first_repeated(alloc, &states)
}

#[test]
fn gives_each_state_its_own_edges(rt: HostRuntime) {
    const WANT: &[(&str, usize, &str)] = &[
        ("an end without an edge", 0, "1"),
        ("an end with an edge", 1, "0s0"),
        ("behind one without an end", 2, "-t1"),
        ("two edges", 3, "-a2o2"),
        ("the last", 4, "-c3"),
        ("past the last", 5, "-"),
    ];
    for (name, number, want) in WANT {
        let got = shown(rt.alloc(), *number).ok();
        compare(&rt, name, got.as_deref(), Some(*want));
    }
    compare(&rt, "how many", count(rt.alloc(), ROWS).ok(), Some(5));
    compare(&rt, "none", count(rt.alloc(), &[]).ok(), Some(0));
}

#[test]
fn tells_the_first_state_that_is_repeated(rt: HostRuntime) {
    const WANT: &[(&str, &[Row], Option<usize>)] = &[
        ("none", &[], None),
        ("all different", ROWS, None),
        (
            "two ends",
            &[(Some(0), &[]), (None, &[('a', 0)]), (Some(0), &[])],
            Some(2),
        ),
        ("two lists", &[(Some(0), &[]), (Some(1), &[])], None),
        (
            "the first of two",
            &[
                (Some(0), &[]),
                (None, &[('a', 0)]),
                (None, &[('a', 0)]),
                (Some(0), &[]),
            ],
            Some(2),
        ),
        (
            "another letter",
            &[(Some(0), &[]), (None, &[('a', 0)]), (None, &[('b', 0)])],
            None,
        ),
        (
            "another target",
            &[
                (Some(0), &[]),
                (Some(1), &[]),
                (None, &[('a', 0)]),
                (None, &[('a', 1)]),
            ],
            None,
        ),
    ];
    for (name, rows, want) in WANT {
        compare(&rt, name, repeated(rt.alloc(), rows).ok(), Some(*want));
    }
}
