//! The configurations of a search.

ghost use Rattle.std.specs.Prelude.{◌≡◌, ◌↔◌, [], ◌∷◌, Some, IsTrue, IfOk};
ghost use Rattle.ux_inflect.specs.Places.{place_of};
ghost use Rattle.ux_inflect.specs.Searches.{start_place};

use crate::codes::CodeState;
use crate::form::{Form, form_of};
use crate::stroke::Detail;
use std::alloc::Global;
use ux_base::Mem;

/// A state of a graph at which a search goes on.
#[derive(Clone, Copy, PartialEq, Eq, Hash, Drop)]
pub(crate) struct Frame {
    /// The number of the graph, from 1.
    pub graph: u32,
    pub state: u32,
}

/// Where a search stands, and what it has so far.
#[derive(PartialEq, Eq, Hash, Drop)]
pub(crate) struct Config {
    /// The states to go on from, the innermost last. But for that one they are those behind calls.
    pub frames: Vec<Frame>,
    /// The form; none, where an operator met its end.
    pub form: Option<Form>,
    /// The output, where it is kept.
    pub output: String,
    /// How far its codes are read.
    pub codes: CodeState,
}

/// The start of the main graph, with a lemma.
pub(crate) fn start_of(alloc: Global, lemma: &str, detail: Detail) -> Mem<Config>
    ensures { IfOk result (λ config. place_of config ≡ start_place detail lemma.now) }
{
    let mut frames = Vec::new(alloc);
    frames.push(Frame { graph: 1, state: 0 })?;
    let form = form_of(alloc, lemma, detail)?;
    Ok(Config {
        frames,
        form: Some(form),
        output: String::new(alloc),
        codes: CodeState::Nothing,
    })
}
