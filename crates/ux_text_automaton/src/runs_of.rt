//! The sentences of a text: longest runs of tokens without a mark of an end.
//!
//! The text is gone through once. What has begun and isn't ended yet is kept beside the list.

ghost use Rattle.std.specs.Prelude.{◌≡◌, ◌+◌, ◌^◌, ◌<◌, IfOk, OnOk, length};
ghost use Rattle.ux_text_automaton.specs.Candidates.{next_begun, next_runs, with_run};
ghost use Rattle.ux_text_automaton.specs.Runs.{AreRuns};

use crate::run::Run;
use std::alloc::Global;
use ux_base::Mem;
use ux_tokens::{Kind, Text};

/// A run that has begun.
#[derive(Clone, Copy)]
pub(crate) struct Begun {
    /// Its first token.
    pub first: usize,
    /// Whether it has a token other than a space so far.
    pub some: bool,
}

/// The sentences of the text: the longest runs of tokens without `{S}` and `{STOP}` that have a
/// token other than a space. Takes a step a token.
pub fn runs(alloc: Global, text: &Text) -> Mem<Vec<Run>>
    ensures runs { IfOk result (λ runs. AreRuns text.now runs.items) }
    ensures few { IfOk result (λ runs. length runs.items < 2 ^ 32) }
{
    let mut runs = Vec::new(alloc);
    let mut begun = Begun {
        first: 0,
        some: false,
    };
    let end = text.len();
    for place in 0..end {
        let kind = text.kind(place);
        put_ended(&mut runs, kind, begun, place)?;
        begun = after(kind, begun, place);
    }
    put_run(&mut runs, begun, end)?;
    Ok(runs)
}

/// What has begun after a token of this kind.
fn after(kind: Kind, begun: Begun, place: usize) -> Begun
    requires { place < usize.MAX }
    ensures { result ≡ next_begun kind place begun }
{
    match kind {
        Kind::Space => begun,
        Kind::Word | Kind::Other | Kind::Tag => Begun {
            first: begun.first,
            some: true,
        },
        Kind::Sentence | Kind::Stop => Begun {
            first: place + 1,
            some: false,
        },
    }
}

/// Puts the run that a token of this kind ends, if it ends one.
fn put_ended(runs: &mut Vec<Run>, kind: Kind, begun: Begun, place: usize) -> Mem<()>
    ensures { OnOk result (runs.new.items ≡ next_runs kind place begun runs.old.items) }
{
    match kind {
        Kind::Word | Kind::Space | Kind::Other | Kind::Tag => Ok(()),
        Kind::Sentence | Kind::Stop => put_run(runs, begun, place),
    }
}

/// Puts the run up to a place, if it has a token other than a space.
fn put_run(runs: &mut Vec<Run>, begun: Begun, place: usize) -> Mem<()>
    ensures { OnOk result (runs.new.items ≡ with_run runs.old.items begun place) }
{
    if begun.some {
        runs.push(Run {
            first: begun.first,
            end: place,
        })?;
    }
    Ok(())
}
