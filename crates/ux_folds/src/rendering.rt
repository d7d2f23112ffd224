//! The fold that renders.

ghost use Rattle.std.specs.Prelude.{◌≡◌, ◌≤◌, ℕ, List, IfOk, OnOk, length};
ghost use Rattle.ux_base.specs.Distinct.{StandOnce};
ghost use Rattle.ux_outputs.specs.Rendering.{hit_of, state_at};
ghost use Rattle.ux_folds.specs.Folding.{event_of, Grows};
ghost use Rattle.ux_folds.specs.Following.{IsFollowed, IsReady, Means, NextBy, Rendered, rendered_by};
ghost use Rattle.ux_folds.specs.Laws.{means_after, next_one};

use crate::fold::{Fold, LentEvent};
use crate::kept::{Kept, nothing_known};
use crate::tables::{Tables, cut};
use std::alloc::Global;
use ux_base::{Mem, Mode, NoVar, Txt};
use ux_outputs::Hit;
use ux_tokens::Text;

/// Renders the events of derivations: each state stands for what is rendered so far, but for the
/// variables that no output asks. Equal states are one.
#[derive(Drop)]
pub struct RenderingFold<'a> {
    alloc: Global,
    text: &'a Text,
    mode: Mode,
    novar: NoVar,
    /// The names of the variables that some output asks, each once.
    names: &'a [Txt],
    tables: Tables,
}

impl<'a> RenderingFold<'a> {
    /// A fold without a state. Takes no memory.
    pub fn new(
        alloc: Global,
        text: &'a Text,
        mode: Mode,
        novar: NoVar,
        names: &'a [Txt],
    ) -> RenderingFold<'a>
        requires once { StandOnce names.now }
        ensures ready { IsReady result }
        ensures text { result.text.now ≡ text.now }
        ensures mode { result.mode ≡ mode }
        ensures novar { result.novar ≡ novar }
        ensures names { result.names.now ≡ names.now }
    {
        RenderingFold {
            alloc,
            text,
            mode,
            novar,
            names,
            tables: Tables::new(alloc),
        }
    }

    /// The state in which nothing is rendered yet, from a start.
    pub fn start(&mut self, start: usize) -> Mem<usize>
        requires ready { IsReady self.old }
        requires inside { start ≤ length self.old.text.now }
        ensures grows { OnOk result (Grows (NextBy self.old) (NextBy self.new)
            (Means self.old) (Means self.new)) }
        ensures means { IfOk result (λ state. Means self.new state
            (rendered_by self.old (state_at start))) }
    {
        let variables = self.tables.nothing(self.names)?;
        self.tables.number(Kept {
            position: start,
            text: 0,
            first: None,
            variables,
        })
    }

    /// The hit that a state renders. None where no token but spaces was taken after the last cut.
    pub fn hit(&self, state: usize) -> Mem<Option<Hit>>
        requires { (meant : Rendered) × Means self.now state meant }
        ensures { IfOk result (λ hit. (meant : Rendered) → Means self.now state meant →
            hit ≡ hit_of meant.state) }
    {
        match self.tables.state(state) {
            Some(kept) => self.tables.hit(self.alloc, kept, self.text),
            None => Ok(None),
        }
    }
}

impl<'a> Fold for RenderingFold<'a> {
    ghost Meant = { Rendered };

    ghost means = { Means };

    ghost next = { NextBy };

    fn add(&mut self, state: usize, event: LentEvent<'_>) -> Mem<Option<usize>> {
        let Some(kept) = self.tables.state(state) else {
            return Ok(None);
        };
        let next = self.tables.follow(
            self.alloc, kept, event, self.mode, self.novar, self.names, self.text,
        )?;
        match next {
            Some(kept) => Ok(Some(self.tables.number(kept)?)),
            None => Ok(None),
        }
    }

    ghost one = { next_one };

    ghost lands = { means_after };
}
