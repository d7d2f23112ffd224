//! A stem and the net of its class, from the refusals to the entries.

ghost use Rattle.std.specs.Prelude.{IfErr, IfOk, OnOk};
ghost use Rattle.ux_dela.specs.declared.entry.Stem.{Stem};
ghost use Rattle.ux_inflect.specs.Endings.{AreRanks};
ghost use Rattle.ux_inflect.specs.Inflected.{AreInflected};
ghost use Rattle.ux_inflect.specs.Refusing.{IsAccepted, IsAcyclic, IsClean, Refuses};
ghost use Rattle.ux_inflect.specs.Searches.{start_place, IsExplored};
ghost use Rattle.ux_inflect.specs.Ways.{lists_of};

use crate::classes::{Ending, Ranks, how_words_end};
use crate::config::start_of;
use crate::error::InflectError;
use crate::exploring::{Explored, explore};
use crate::items::first_bad;
use crate::outcomes::entries_of;
use crate::refusing::{Fault, least_path};
use crate::stroke::Detail;
use std::alloc::Global;
use ux_base::{Mem, Txt};
use ux_dela::{Entry, Stem};
use ux_net::Net;

/// The entries of a stem, by the net of its class.
pub fn inflect(alloc: Global, stem: &Stem, net: &Net) -> Result<Vec<Entry>, InflectError>
    ensures accepted { IfOk result (λ entries. IsAccepted stem.now net.now) }
    ensures entries { IfOk result (λ entries. AreInflected stem.now net.now entries.items) }
    ensures refused { IfErr result (Refuses stem.now net.now) }
{
    let ranks = ranks_of(alloc, net)?;
    check_items(alloc, net)?;
    check_paths(alloc, stem, net, &ranks)?;
    let explored = explored_by(alloc, stem, net, &ranks, Detail::Whole)?;
    let entries = entries_of(alloc, stem, explored.configs.as_slice())?;
    Ok(entries)
}

/// Why each word of the net ends, or the first graph that has words without end.
fn ranks_of(alloc: Global, net: &Net) -> Result<Ranks, InflectError>
    ensures ranks { IfOk result (λ ranks. IsAcyclic net.now × AreRanks net.now ranks) }
    ensures refused { IfErr result (λ error. (stem : Stem) → Refuses stem net.now error) }
{
    match how_words_end(alloc, net)? {
        Ending::Ends(ranks) => Ok(ranks),
        Ending::Endless(graph) => {
            let graph = Txt::from_str(alloc, net.name(graph))?;
            Err(InflectError::Cyclic { graph })
        },
    }
}

/// Refuses the first state with a bad edge.
fn check_items(alloc: Global, net: &Net) -> Result<(), InflectError>
    requires { IsAcyclic net.now }
    ensures clean { OnOk result (IsClean net.now) }
    ensures refused { IfErr result (λ error. (stem : Stem) → Refuses stem net.now error) }
{
    match first_bad(net) {
        Some(spot) => {
            let graph = Txt::from_str(alloc, net.name(spot.graph))?;
            Err(InflectError::BadItem {
                graph,
                node: spot.node,
            })
        },
        None => Ok(()),
    }
}

/// Refuses the first path that can't be done, and then the first one without codes or a form.
fn check_paths(alloc: Global, stem: &Stem, net: &Net, ranks: &Ranks) -> Result<(), InflectError>
    requires clean { IsClean net.now }
    requires ranks { AreRanks net.now ranks.now }
    ensures accepted { OnOk result (IsAccepted stem.now net.now) }
    ensures refused { IfErr result (Refuses stem.now net.now) }
{
    let explored = explored_by(alloc, stem, net, ranks, Detail::Outline)?;
    let stuck = least_path(alloc, &explored, Fault::Stuck)?;
    match stuck {
        Some(path) => Err(InflectError::StackEnd { path }),
        None => {
            let miscoded = least_path(alloc, &explored, Fault::Miscoded)?;
            match miscoded {
                Some(path) => Err(InflectError::BadCodes { path }),
                None => Ok(()),
            }
        },
    }
}

/// All that a search for the stem reaches.
fn explored_by(
    alloc: Global,
    stem: &Stem,
    net: &Net,
    ranks: &Ranks,
    detail: Detail,
) -> Mem<Explored>
    requires { AreRanks net.now ranks.now }
    ensures { IfOk result (λ explored. IsExplored detail net.now
        (start_place detail stem.now.lemma) explored.configs.keys (lists_of explored.links.items)) }
{
    let start = start_of(alloc, stem.lemma.as_str(), detail)?;
    let explored = explore(alloc, net, ranks, start, detail)?;
    Ok(explored)
}
