//! The paths that can't be inflected.

ghost use Rattle.std.specs.Prelude.{◌≡◌, ◌↔◌, ℕ, [], List, None, IfOk, IsTrue, true};
ghost use Rattle.ux_digraph.specs.Rules.{is_marked_at};
ghost use Rattle.ux_net.specs.declared.net_graph.NetGraph.{NetGraph};
ghost use Rattle.ux_inflect.specs.declared.classes.Ranks.{Ranks};
ghost use Rattle.ux_inflect.specs.declared.stroke.Detail.{Detail};
ghost use Rattle.ux_inflect.specs.Endings.{AreRanks};
ghost use Rattle.ux_inflect.specs.Faults.{HasFault, IsFaulty, IsFaultyAt, IsFormlessAt, IsUncodedAt};
ghost use Rattle.ux_inflect.specs.Places.{Place, cursor_of, place_of};
ghost use Rattle.ux_inflect.specs.Searches.{IsExplored};
ghost use Rattle.ux_inflect.specs.Ways.{lists_of, IsLeastOf};

use crate::classes::is_any;
use crate::codes::CodeState;
use crate::config::Config;
use crate::exploring::Explored;
use crate::form::Form;
use crate::least::least_text;
use std::alloc::Global;
use ux_base::{Mem, Txt};

/// Why a path is refused.
#[derive(Clone, Copy)]
pub(crate) enum Fault {
    /// An operator meets the end of the form.
    Stuck,
    /// The output has no codes, or there is no form.
    Miscoded,
}

/// The least text of a path with the fault, if there is one. Where there is none, takes a step a
/// configuration.
pub(crate) fn least_path(alloc: Global, explored: &Explored, fault: Fault) -> Mem<Option<Txt>>
    requires { (detail : Detail) × (net : List NetGraph) × (ranks : Ranks) × (start : Place)
        × AreRanks net ranks × IsExplored detail net start explored.now.configs.keys
        (lists_of explored.now.links.items) }
    ensures { IfOk result (λ path. (detail : Detail) (net : List NetGraph) (start : Place) →
        IsExplored detail net start explored.now.configs.keys (lists_of explored.now.links.items) →
        IsLeastOf (IsFaulty detail net start fault) path) }
{
    let marks = marks_of(alloc, explored.configs.as_slice(), fault)?;
    if !is_any(&marks) {
        return Ok(None);
    }
    let path = least_text(alloc, &explored.links, &marks)?;
    Ok(path)
}

/// For each configuration whether a path with the fault ends there.
fn marks_of(alloc: Global, configs: &[Config], fault: Fault) -> Mem<Vec<bool>>
    ensures { IfOk result (λ marks. (n : ℕ) →
        (is_marked_at marks.items n ≡ true) ↔ IsFaultyAt fault configs.now n) }
{
    let mut marks = Vec::with_capacity(alloc, configs.len())?;
    for config in configs {
        marks.push(has_fault(config, fault))?;
    }
    Ok(marks)
}

/// Whether a path with the fault ends at the configuration.
fn has_fault(config: &Config, fault: Fault) -> bool
    ensures { IsTrue result ↔ HasFault fault (place_of config.now) }
{
    if !is_over(config) {
        return false;
    }
    match fault {
        Fault::Stuck => is_stuck(config),
        Fault::Miscoded => is_uncoded(config.codes) || is_formless(config),
    }
}

/// Whether a word ends at the configuration.
pub(crate) fn is_over(config: &Config) -> bool
    ensures { IsTrue result ↔ ((place_of config.now).frames ≡ []) }
{
    config.frames.len() == 0
}

/// Whether the form is lost.
fn is_stuck(config: &Config) -> bool
    ensures { IsTrue result ↔ ((place_of config.now).cursor ≡ None) }
{
    match &config.form {
        Some(_) => false,
        None => true,
    }
}

/// Whether an output read so far has no codes.
fn is_uncoded(codes: CodeState) -> bool
    ensures { IsTrue result ↔ IsUncodedAt codes }
{
    match codes {
        CodeState::Nothing | CodeState::InCode => false,
        CodeState::AtColon | CodeState::Broken => true,
    }
}

/// Whether nothing is on the left of the cursor.
fn is_formless(config: &Config) -> bool
    ensures { IsTrue result ↔ IsFormlessAt (place_of config.now) }
{
    match &config.form {
        Some(form) => is_bare(form),
        None => false,
    }
}

/// Whether nothing is on the left of the form's cursor.
fn is_bare(form: &Form) -> bool
    ensures { IsTrue result ↔ ((cursor_of form.now).left ≡ []) }
{
    form.left.len() == 0
}
