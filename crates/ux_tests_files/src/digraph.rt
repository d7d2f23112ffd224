//! Small graphs and rules, with answers that were found by hand. Long chains are shown by rows of
//! `unitex_rows`.

use crate::comparing::compare;
use std::alloc::{AllocError, Global};
use ux_base::{Lst, Mem};
use ux_digraph::{Rule, are_edges_inside, are_rules_inside, closure, components, reached};

/// The rows of the nodes of a graph with these edges.
fn rows(
    alloc: Global,
    size: usize,
    edges: &[(usize, usize)],
) -> Result<Vec<Lst<usize>>, AllocError> {
    let mut rows = Vec::new(alloc);
    for node in 0..size {
        let mut row = Vec::new(alloc);
        for (from, to) in edges {
            if *from == node {
                row.push(*to)?;
            }
        }
        rows.push(Lst::new(row))?;
    }
    Ok(rows)
}

/// The marks of the nodes that the start leads to, or none where the start or an edge is outside.
fn marks(alloc: Global, size: usize, edges: &[(usize, usize)], start: usize) -> Mem<Vec<bool>> {
    let edges = rows(alloc, size, edges)?;
    if !are_edges_inside(&edges) || start >= edges.len() {
        return Ok(Vec::new(alloc));
    }
    reached(alloc, &edges, start)
}

/// The numbers of the components, or none where an edge is outside.
fn numbers(alloc: Global, size: usize, edges: &[(usize, usize)]) -> Mem<Vec<usize>> {
    let edges = rows(alloc, size, edges)?;
    if !are_edges_inside(&edges) {
        return Ok(Vec::new(alloc));
    }
    components(alloc, &edges)
}

/// The marks of the places that follow, or none where a rule or a fact is outside.
fn places(alloc: Global, size: usize, rules: &[Rule], facts: &[usize]) -> Mem<Vec<bool>> {
    if !are_rules_inside(size, rules, facts) {
        return Ok(Vec::new(alloc));
    }
    closure(alloc, size, rules, facts)
}

/// A name, the number of nodes, the edges, the start, and the marks of the nodes that it leads to.
type Search = (
    &'static str,
    usize,
    &'static [(usize, usize)],
    usize,
    &'static [bool],
);

/// The edges of the drawing of the crate's doc.
const DRAWING: &[(usize, usize)] = &[(0, 1), (1, 2), (2, 1), (2, 3)];

#[test]
fn marks_the_nodes_that_a_path_leads_to(rt: HostRuntime) {
    const ROWS: &[Search] = &[
        // The drawing of the crate's doc.
        (
            "a cycle within a chain",
            4,
            DRAWING,
            1,
            &[false, true, true, true],
        ),
        ("a node alone", 1, &[], 0, &[true]),
        ("a loop", 2, &[(0, 0)], 0, &[true, false]),
        (
            "a cycle of three",
            3,
            &[(0, 1), (1, 2), (2, 0)],
            1,
            &[true, true, true],
        ),
        (
            "a chain from within",
            4,
            &[(0, 1), (1, 2), (2, 3)],
            2,
            &[false, false, true, true],
        ),
        ("an edge twice", 2, &[(0, 1), (0, 1)], 0, &[true, true]),
        (
            "a diamond",
            4,
            &[(0, 1), (0, 2), (1, 3), (2, 3)],
            0,
            &[true, true, true, true],
        ),
        (
            "edges that lead here alone",
            3,
            &[(1, 0), (2, 0)],
            0,
            &[true, false, false],
        ),
        ("an edge that leads outside", 2, &[(0, 2)], 0, &[]),
        ("a start outside", 2, &[], 2, &[]),
    ];
    for row in ROWS {
        let got = marks(rt.alloc(), row.1, row.2, row.3).ok();
        compare(&rt, row.0, got.as_deref(), Some(row.4));
    }
}

/// A name, the number of nodes, the edges, and the nodes' components.
type Numbering = (
    &'static str,
    usize,
    &'static [(usize, usize)],
    &'static [usize],
);

#[test]
fn numbers_the_components(rt: HostRuntime) {
    const ROWS: &[Numbering] = &[
        // The drawing of the crate's doc.
        ("a cycle within a chain", 4, DRAWING, &[2, 1, 1, 0]),
        ("no node", 0, &[], &[]),
        ("a loop", 1, &[(0, 0)], &[0]),
        ("a cycle of three", 3, &[(0, 1), (1, 2), (2, 0)], &[0, 0, 0]),
        (
            "two cycles joined by an edge",
            4,
            &[(0, 1), (1, 0), (1, 2), (2, 3), (3, 2)],
            &[1, 1, 0, 0],
        ),
        (
            "two cycles joined by two edges",
            4,
            &[(0, 1), (1, 0), (1, 2), (2, 3), (3, 2), (3, 0)],
            &[0, 0, 0, 0],
        ),
        // The edge to node 2 is followed first.
        (
            "a diamond",
            4,
            &[(0, 1), (0, 2), (1, 3), (2, 3)],
            &[3, 2, 1, 0],
        ),
        (
            "a cycle behind a diamond's end",
            5,
            &[(0, 1), (0, 2), (1, 3), (2, 3), (3, 4), (4, 3)],
            &[3, 2, 1, 0, 0],
        ),
        ("an edge to a node with a number", 2, &[(1, 0)], &[0, 1]),
        ("nodes alone", 3, &[], &[0, 1, 2]),
    ];
    for row in ROWS {
        let got = numbers(rt.alloc(), row.1, row.2).ok();
        compare(&rt, row.0, got.as_deref(), Some(row.3));
    }
}

/// A name, the rules, the facts, and the marks of the places that follow.
type Deduction = (
    &'static str,
    &'static [Rule],
    &'static [usize],
    &'static [bool],
);

#[test]
fn marks_the_places_that_follow(rt: HostRuntime) {
    const BOTH: Rule = Rule {
        place: 2,
        first: 0,
        second: 1,
    };
    const NEXT: Rule = Rule {
        place: 3,
        first: 2,
        second: 2,
    };
    const ITSELF: Rule = Rule {
        place: 4,
        first: 4,
        second: 4,
    };
    const BACK: Rule = Rule {
        place: 0,
        first: 3,
        second: 3,
    };
    const OUTSIDE: Rule = Rule {
        place: 5,
        first: 0,
        second: 0,
    };
    const ROWS: &[Deduction] = &[
        ("no rule", &[], &[1, 3], &[false, true, false, true, false]),
        (
            "no fact",
            &[BOTH, NEXT],
            &[],
            &[false, false, false, false, false],
        ),
        (
            "both premises",
            &[BOTH],
            &[0, 1],
            &[true, true, true, false, false],
        ),
        (
            "the first premise alone",
            &[BOTH],
            &[0],
            &[true, false, false, false, false],
        ),
        (
            "the second premise alone",
            &[BOTH],
            &[1],
            &[false, true, false, false, false],
        ),
        (
            "one rule after another",
            &[NEXT, BOTH],
            &[1, 0],
            &[true, true, true, true, false],
        ),
        (
            "a place that needs itself",
            &[ITSELF],
            &[0],
            &[true, false, false, false, false],
        ),
        (
            "a premise that comes last",
            &[BACK, BOTH, NEXT],
            &[3, 1],
            &[true, true, true, true, false],
        ),
        (
            "a fact twice",
            &[NEXT],
            &[2, 2],
            &[false, false, true, true, false],
        ),
        ("a rule outside", &[OUTSIDE], &[0], &[]),
        ("a fact outside", &[], &[5], &[]),
    ];
    for row in ROWS {
        let got = places(rt.alloc(), 5, row.1, row.2).ok();
        compare(&rt, row.0, got.as_deref(), Some(row.3));
    }
}
