//! Rows of hits of which a policy keeps some, as no search gives them: in any order, twice, and one
//! that ends before it begins.

use crate::comparing::compare;
use std::alloc::Global;
use ux_base::{Mem, Mode, Policy, Txt};
use ux_locate::{index_text, keep};
use ux_outputs::Hit;

/// Hits: the first token, the last token, and the text.
type Hits = &'static [(u32, u32, &'static str)];

/// A name, the policy, the hits, and the index of what is kept of them.
type Row = (&'static str, Policy, Hits, &'static str);

/// The index of what the policy keeps of the hits.
fn kept(alloc: Global, policy: Policy, given: Hits) -> Mem<String> {
    let mut hits = Vec::new(alloc);
    for (first, last, text) in given {
        hits.push(Hit {
            first: *first,
            last: *last,
            text: Txt::from_str(alloc, text)?,
        })?;
    }
    let kept = keep(alloc, policy, hits)?;
    index_text(alloc, Mode::Ignore, kept.as_slice())
}

#[test]
fn keeps_by_the_policy(rt: HostRuntime) {
    const SHUFFLED: Hits = &[(2, 2, "a"), (0, 2, "a a"), (0, 0, "a"), (2, 2, "a")];
    const OF_ONE_SPAN: Hits = &[(0, 0, "y"), (1, 1, "z"), (0, 0, "x")];
    const BACKWARDS: Hits = &[(5, 2, "b"), (4, 9, "c"), (3, 4, "a")];
    const ROWS: &[Row] = &[
        (
            "in any order, and twice, all",
            Policy::All,
            SHUFFLED,
            "#I\n0 0 a\n0 2 a a\n2 2 a\n",
        ),
        (
            "in any order, and twice, longest",
            Policy::Longest,
            SHUFFLED,
            "#I\n0 2 a a\n",
        ),
        (
            "in any order, and twice, shortest",
            Policy::Shortest,
            SHUFFLED,
            "#I\n0 0 a\n2 2 a\n",
        ),
        (
            "two texts of one span, all",
            Policy::All,
            OF_ONE_SPAN,
            "#I\n0 0 x\n0 0 y\n1 1 z\n",
        ),
        (
            "two texts of one span, longest",
            Policy::Longest,
            OF_ONE_SPAN,
            "#I\n0 0 x\n0 0 y\n1 1 z\n",
        ),
        (
            "two texts of one span, shortest",
            Policy::Shortest,
            OF_ONE_SPAN,
            "#I\n0 0 x\n0 0 y\n1 1 z\n",
        ),
        (
            "one ends before it begins, all",
            Policy::All,
            BACKWARDS,
            "#I\n3 4 a\n4 9 c\n5 2 b\n",
        ),
        (
            "one ends before it begins, longest",
            Policy::Longest,
            BACKWARDS,
            "#I\n3 4 a\n5 2 b\n",
        ),
        (
            "one ends before it begins, shortest",
            Policy::Shortest,
            BACKWARDS,
            "#I\n3 4 a\n5 2 b\n",
        ),
        ("none, all", Policy::All, &[], "#I\n"),
        ("none, longest", Policy::Longest, &[], "#I\n"),
        ("none, shortest", Policy::Shortest, &[], "#I\n"),
    ];
    for (name, policy, hits, want) in ROWS {
        let index = kept(rt.alloc(), *policy, hits).ok();
        compare(&rt, name, index.as_deref(), Some(*want));
    }
}
