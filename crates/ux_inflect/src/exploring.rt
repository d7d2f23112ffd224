//! The configurations that a search reaches, each once.

ghost use Rattle.std.specs.Prelude.{◌≡◌, ◌∷◌, [], Some, IfOk, map, slice_get};
ghost use Rattle.ux_inflect.specs.Endings.{AreRanks};
ghost use Rattle.ux_inflect.specs.Places.{next, place_of, step_of};
ghost use Rattle.ux_inflect.specs.Searches.{AreMet, IsExplored, IsNoted, IsNumbered};
ghost use Rattle.ux_inflect.specs.Ways.{lists_of};
ghost use Rattle.ux_inflect.specs.declared.config.Config.{Config};

use crate::classes::Ranks;
use crate::config::Config;
use crate::stepping::{Successor, successors};
use crate::stroke::Detail;
use indexmap::IndexSet;
use std::alloc::Global;
use ux_base::{Mem, Txt};
use ux_net::Net;

/// A step to a configuration, by its number: what is read, and where it leads.
#[derive(Drop)]
pub(crate) struct Link {
    pub text: Txt,
    pub to: usize,
}

/// The configurations that are reached, and the steps from each.
#[derive(Drop)]
pub(crate) struct Explored {
    pub configs: IndexSet<Config>,
    pub links: Vec<Vec<Link>>,
}

/// All configurations that the start reaches. Each is looked at once. The ranks are why it ends.
pub(crate) fn explore(
    alloc: Global,
    net: &Net,
    ranks: &Ranks,
    start: Config,
    detail: Detail,
) -> Mem<Explored>
    requires ranks { AreRanks net.now ranks.now }
    requires met { AreMet net.now (place_of start).frames }
    ensures { IfOk result (λ explored. IsExplored detail net.now (place_of start)
        explored.configs.keys (lists_of explored.links.items)) }
{
    let _why = ranks;
    let mut configs = first_config(alloc, start)?;
    let mut links = Vec::new(alloc);
    while links.len() < configs.as_slice().len() {
        let found = successors_at(alloc, net, &configs, links.len(), detail)?;
        let row = note_all(alloc, &mut configs, found)?;
        links.push(row)?;
    }
    Ok(Explored { configs, links })
}

/// The start alone.
fn first_config(alloc: Global, start: Config) -> Mem<IndexSet<Config>>
    ensures { IfOk result (λ configs. configs.keys ≡ start ∷ []) }
{
    let mut configs = IndexSet::new(alloc);
    configs.insert(start)?;
    Ok(configs)
}

/// The steps from the configuration of this number.
fn successors_at(
    alloc: Global,
    net: &Net,
    configs: &IndexSet<Config>,
    number: usize,
    detail: Detail,
) -> Mem<Vec<Successor>>
    ensures { IfOk result (λ found. (config : Config) →
        slice_get configs.now.keys number ≡ Some config →
        map step_of found.items ≡ next detail net.now (place_of config)) }
{
    match configs.as_slice().get(number) {
        Some(config) => successors(alloc, net, config, detail),
        None => Ok(Vec::new(alloc)),
    }
}

/// Gives each configuration a number, unless it has one, and the links that lead there.
fn note_all(alloc: Global, configs: &mut IndexSet<Config>, found: Vec<Successor>) -> Mem<Vec<Link>>
    ensures { IfOk result (λ row. IsNoted configs.old.keys (map step_of found.items)
        configs.new.keys row.items) }
{
    let mut row = Vec::with_capacity(alloc, found.len())?;
    let mut found = found;
    while let Some(successor) = found.pop() {
        let link = note(configs, successor)?;
        row.push(link)?;
    }
    Ok(row)
}

/// Gives the configuration a number, unless it has one, and the link that leads there.
fn note(configs: &mut IndexSet<Config>, successor: Successor) -> Mem<Link>
    ensures text { IfOk result (λ link. link.text ≡ successor.text) }
    ensures number { IfOk result (λ link.
        IsNumbered configs.old.keys successor.config configs.new.keys link.to) }
{
    let Successor { text, config } = successor;
    let (to, _is_new) = configs.insert_full(config)?;
    Ok(Link { text, to })
}
