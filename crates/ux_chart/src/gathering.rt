//! The ends and the closers among what a search has seen.

ghost use Rattle.std.specs.Prelude.{◌≡◌, ℕ, ◌↔◌, ◌⊎◌, List, Contains, OnOk};
ghost use Rattle.std.specs.List.Sorted.{IsStrictlyIncreasing};
ghost use Rattle.ux_net.specs.declared.label.Label.TheVariants.{ContextEnd};
ghost use Rattle.ux_chart.specs.ClosingStates.{AreMarks};
ghost use Rattle.ux_chart.specs.Search.{EndsAt, ClosesInto};
ghost use Rattle.ux_chart.specs.declared.config.Config.{Config};

use crate::closing_states::is_marked;
use crate::config::Config;
use crate::ordering::{order_positions, order_states};
use ux_base::Mem;
use ux_net::{Edge, Label, Net};

/// Puts the positions at which an end is seen into the list, in place of what it has, ascending.
pub fn ends_in(net: &Net, graph: u32, seen: &[Config], ends: &mut Vec<usize>) -> Mem<()>
    ensures all { OnOk result ((j : ℕ) → Contains ends.new.items j
        ↔ ((here : Config) × Contains seen.now here × EndsAt net.now graph here j)) }
    ensures ascending { OnOk result (IsStrictlyIncreasing ends.new.items) }
{
    ends.clear();
    gather_ends(net, graph, seen, ends)?;
    order_positions(ends);
    Ok(())
}

/// Puts the states into which edges close from what is seen into the list, in place of what it has,
/// ascending. Looks at the edges of marked states alone.
pub fn closers_in(
    net: &Net,
    graph: u32,
    marks: &[bool],
    seen: &[Config],
    closers: &mut Vec<u32>,
) -> Mem<()>
    requires { AreMarks net.now graph marks.now }
    ensures all { OnOk result ((c : ℕ) → Contains closers.new.items c
        ↔ ((here : Config) × Contains seen.now here × ClosesInto net.now graph here c)) }
    ensures ascending { OnOk result (IsStrictlyIncreasing closers.new.items) }
{
    closers.clear();
    gather_closers(net, graph, marks, seen, closers)?;
    order_states(closers);
    Ok(())
}

/// Adds the positions at which an end is seen.
fn gather_ends(net: &Net, graph: u32, seen: &[Config], ends: &mut Vec<usize>) -> Mem<()>
    ensures { OnOk result ((j : ℕ) → Contains ends.new.items j ↔ (Contains ends.old.items j
        ⊎ ((here : Config) × Contains seen.now here × EndsAt net.now graph here j))) }
{
    for config in seen {
        end_at(net, graph, *config, ends)?;
    }
    Ok(())
}

/// Adds the states into which edges close from what is seen.
fn gather_closers(
    net: &Net,
    graph: u32,
    marks: &[bool],
    seen: &[Config],
    closers: &mut Vec<u32>,
) -> Mem<()>
    requires { AreMarks net.now graph marks.now }
    ensures { OnOk result ((c : ℕ) → Contains closers.new.items c ↔ (Contains closers.old.items c
        ⊎ ((here : Config) × Contains seen.now here × ClosesInto net.now graph here c))) }
{
    for config in seen {
        close_marked(net, graph, marks, *config, closers)?;
    }
    Ok(())
}

/// Adds the position, if the state is final.
fn end_at(net: &Net, graph: u32, config: Config, ends: &mut Vec<usize>) -> Mem<()>
    ensures { OnOk result ((j : ℕ) → Contains ends.new.items j
        ↔ (Contains ends.old.items j ⊎ EndsAt net.now graph config j)) }
{
    let Some(state) = net.state(graph, config.state) else {
        return Ok(());
    };
    if !state.is_final {
        return Ok(());
    }
    ends.push(config.at)?;
    Ok(())
}

/// Adds the states into which edges close from the configuration, if its state is marked.
fn close_marked(
    net: &Net,
    graph: u32,
    marks: &[bool],
    config: Config,
    closers: &mut Vec<u32>,
) -> Mem<()>
    requires { AreMarks net.now graph marks.now }
    ensures { OnOk result ((c : ℕ) → Contains closers.new.items c
        ↔ (Contains closers.old.items c ⊎ ClosesInto net.now graph config c)) }
{
    if is_marked(marks, config.state) {
        return close_from(net, graph, config, closers);
    }
    Ok(())
}

/// Adds the states into which edges close from the configuration.
fn close_from(net: &Net, graph: u32, config: Config, closers: &mut Vec<u32>) -> Mem<()>
    ensures { OnOk result ((c : ℕ) → Contains closers.new.items c
        ↔ (Contains closers.old.items c ⊎ ClosesInto net.now graph config c)) }
{
    let Some(state) = net.state(graph, config.state) else {
        return Ok(());
    };
    for edge in state.edges.as_slice() {
        close_by(edge, closers)?;
    }
    Ok(())
}

/// Adds the state into which the edge closes, if it does.
fn close_by(edge: &Edge, closers: &mut Vec<u32>) -> Mem<()>
    ensures { OnOk result ((c : ℕ) → Contains closers.new.items c
        ↔ (Contains closers.old.items c
        ⊎ ((edge.now.label ≡ ContextEnd) × (edge.now.target ≡ c)))) }
{
    match &edge.label {
        Label::ContextEnd => {
            closers.push(edge.target)?;
            return Ok(());
        },
        _ => return Ok(()),
    }
}
