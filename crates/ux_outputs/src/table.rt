//! What is known of variables, by name.

ghost use Rattle.std.specs.Prelude.{◌≡◌, ℕ, List, [], OnOk, if◌then◌else◌};
ghost use Rattle.std.specs.Str.{bytes_eq};
ghost use Rattle.ux_outputs.specs.Kept.{NOTHING_KNOWN, known_in};

use crate::known::Known;
use indexmap::IndexMap;
use std::alloc::Global;
use ux_base::Mem;

/// Variables by name. Takes no memory as long as it is empty.
pub type Table<'a> = IndexMap<&'a str, Known>;

/// The table in which nothing is known.
pub fn empty_table<'a>(alloc: Global) -> Table<'a>
    ensures { (name : List ℕ) → known_in result name ≡ NOTHING_KNOWN }
{
    IndexMap::new(alloc)
}

/// What is known of the variable of this name.
pub fn known_at(table: &Table<'_>, name: &str) -> Known
    ensures { result ≡ known_in table.now name.now }
{
    match table.get(name) {
        Some(known) => *known,
        None => Known {
            noted: None,
            opened: None,
            value: None,
        },
    }
}

/// Sets what is known of the variable of this name.
pub fn set_known<'a>(table: &mut Table<'a>, name: &'a str, known: Known) -> Mem<()>
    ensures { OnOk result ((other : List ℕ) → known_in table.new other
        ≡ (if bytes_eq name.now other then known else known_in table.old other)) }
{
    table.insert(name, known)?;
    Ok(())
}
