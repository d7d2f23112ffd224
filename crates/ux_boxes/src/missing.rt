//! The table of the graphs' names, and the test that every call finds its graph.

ghost use Rattle.std.specs.Prelude.{◌≡◌, ◌≢◌, All, AllPairs, Contains, IfErr, IfOk, MatchOption, OnOk, string_bytes, true, false};
ghost use Rattle.ux_grf.specs.Needs.{calls_of};
ghost use Rattle.ux_grf.specs.WellFormed.{IsWellFormed};
ghost use Rattle.ux_tokens.specs.Numbers.{texts_in};
ghost use Rattle.ux_boxes.specs.Boxes.{names_of as names_of_graphs};
ghost use Rattle.ux_boxes.specs.Missing.{AreThere, IsFirstLacking, RefusesCalls};
ghost use Rattle.ux_boxes.specs.Refusing.{drawn, AreWhole};

use crate::error::NetError;
use indexmap::IndexSet;
use std::alloc::Global;
use ux_base::{Mem, Txt};
use ux_grf::{Graph, needs};

/// The names of the graphs, in order.
pub fn names_of<'a>(alloc: Global, graphs: &'a [(String, Graph)]) -> Mem<IndexSet<&'a str>>
    requires distinct { AllPairs (λ a b. string_bytes a.0 ≢ string_bytes b.0) graphs.now }
    ensures { IfOk result (λ names. texts_in names ≡ names_of_graphs (drawn graphs.now)) }
{
    let mut names: IndexSet<&str> = IndexSet::new(alloc);
    for (name, _) in graphs {
        names.insert_full(name.as_str())?;
    }
    Ok(names)
}

/// Refuses the first name that is called and that no graph has.
pub fn refuse_missing(
    alloc: Global,
    graphs: &[(String, Graph)],
    names: &IndexSet<&str>,
) -> Result<(), NetError>
    requires well_formed { All (λ graph. IsWellFormed graph.1) graphs.now }
    requires names { texts_in names.now ≡ names_of_graphs (drawn graphs.now) }
    ensures ok { OnOk result (AreWhole (drawn graphs.now)) }
    ensures err { IfErr result (RefusesCalls (drawn graphs.now)) }
{
    for (_, graph) in graphs {
        if let Some(name) = first_missing(alloc, graph, names)? {
            return Err(NetError::MissingGraph { name });
        }
    }
    Ok(())
}

/// The first name that the graph calls and that isn't among the names.
fn first_missing(alloc: Global, graph: &Graph, names: &IndexSet<&str>) -> Mem<Option<Txt>>
    requires { IsWellFormed graph.now }
    ensures { IfOk result (λ found. MatchOption found
        (AreThere (calls_of graph.now) (texts_in names.now))
        (IsFirstLacking (calls_of graph.now) (texts_in names.now))) }
{
    let called = needs(alloc, graph)?;
    for name in called.as_slice() {
        if !has_name(names, name.as_str()) {
            return Ok(Some(Txt::from_str(alloc, name.as_str())?));
        }
    }
    Ok(None)
}

/// Whether the name is among the names.
fn has_name(names: &IndexSet<&str>, name: &str) -> bool
    ensures there { result ≡ true → Contains (texts_in names.now) name.now }
    ensures missing { result ≡ false → Contains (texts_in names.now) name.now → ⊥ }
{
    names.contains(name)
}
