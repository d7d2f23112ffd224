//! How many masks nets have, and the edges of a state to which no run comes.
//!
//! The states of small grammars are shown by rows of `unitex_rows`, as `fst2` writes them, and so
//! are the grammars that are refused. How many masks a net has shows in no command, nor that the
//! edges of such a state are kept aside.

use crate::comparing::compare;
use std::alloc::Global;
use ux_boxes::NetError;
use ux_fst2::read_states;
use ux_net::Net;
use ux_states::of_states;

/// The net of the text of a compiled grammar. One that says no graphs isn't a row's.
pub(crate) fn net_of(alloc: Global, text: &str) -> Result<Net, NetError> {
    match read_states(alloc, text) {
        Ok(graphs) => of_states(alloc, graphs),
        Err(_) => Err(NetError::NoMemory),
    }
}

/// How many different masks the net of a text has, and how many edges the second state of its main
/// graph, where there is one.
fn counts(alloc: Global, text: &str) -> Option<(usize, usize)> {
    let net = net_of(alloc, text).ok()?;
    let state = net.state(1, 1)?;
    Some((net.masks(), state.edges.as_slice().len()))
}

/// A name, the text, and the numbers.
type Row = (&'static str, &'static str, (usize, usize));

#[test]
fn counts_each_mask_once(rt: HostRuntime) {
    const ROWS: &[Row] = &[
        (
            "no mask",
            "0000000001\n-1 A\n: 1 1 \nt \nf \n%<E>\n%a\nf\n",
            (0, 0),
        ),
        (
            "a mask in two boxes",
            "0000000001\n-1 A\n: 1 1 \n: 1 2 \nt \nf \n%<E>\n%<N>\nf\n",
            (1, 1),
        ),
        (
            "a mask twice on a line, under two tags",
            "0000000001\n-1 A\n: 1 2 \nt \n: 2 1 \nf \n%<E>\n%<N>\n%<N>\nf\n",
            (1, 0),
        ),
        (
            "a mask in two graphs",
            "0000000002\n-1 A\n: 1 1 \n: -2 2 \nt \nf \n-2 B\n: 1 1 \nt \nf \n%<E>\n%<N>\nf\n",
            (1, 1),
        ),
        (
            "two names of one mask",
            "0000000001\n-1 A\n: 1 1 2 1 \nt \nf \n%<E>\n%<WORD>\n%<MOT>\nf\n",
            (1, 0),
        ),
        (
            "a mask and its negation",
            "0000000001\n-1 A\n: 1 1 2 1 \nt \nf \n%<E>\n%<N>\n%<!N>\nf\n",
            (2, 0),
        ),
        (
            "a mark in braces",
            "0000000001\n-1 A\n: 1 1 \nt \nf \n%<E>\n%{S}\nf\n",
            (0, 0),
        ),
        // A run comes to no state from which the loop could be entered.
        (
            "a loop to which no run comes",
            "0000000001\n-1 A\n: 1 2 \n: 0 1 \nt \nf \n%<E>\n%a\nf\n",
            (0, 0),
        ),
    ];
    for (name, text, want) in ROWS {
        compare(&rt, name, counts(rt.alloc(), text), Some(*want));
    }
}
