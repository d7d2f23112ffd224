//! The pairs of an alphabet, in a set.

ghost use Rattle.std.specs.Prelude.{◌≡◌, ◌↔◌, ◌⊎◌, ℕ, IsTrue, IfOk, OnOk, Contains};
ghost use Rattle.ux_alphabet.specs.Tables.{ArePairsOf};
ghost use Rattle.ux_alphabet.specs.declared.line.Line.TheVariants.{Pair};

use crate::line::Line;
use std::alloc::{AllocError, Global};
use std::collections::BTreeSet;

/// Pairs of an upper-case form and the letter of which it is one.
pub(crate) type Pairs = BTreeSet<(char, char)>;

/// The pairs among the lines.
pub(crate) fn pairs_of(alloc: Global, lines: &[Line]) -> Result<Pairs, AllocError>
    ensures { IfOk result (λ pairs. ArePairsOf lines.now pairs.keys) }
{
    let mut pairs = BTreeSet::new(alloc);
    for line in lines {
        put(&mut pairs, line)?;
    }
    Ok(pairs)
}

/// Whether the set has the pair.
pub(crate) fn has_pair(pairs: &Pairs, upper: char, lower: char) -> bool
    ensures { IsTrue result ↔ Contains pairs.now.keys (upper, lower) }
{
    pairs.contains(&(upper, lower))
}

/// Puts the line into the set, where it is a pair.
fn put(pairs: &mut Pairs, line: &Line) -> Result<(), AllocError>
    ensures { OnOk result ((upper lower : ℕ) → Contains pairs.new.keys (upper, lower)
        ↔ (Contains pairs.old.keys (upper, lower) ⊎ (line.now ≡ Pair upper lower))) }
{
    match *line {
        Line::Pair(upper, lower) => insert(pairs, upper, lower),
        Line::Single(_) | Line::Range(_, _) => Ok(()),
    }
}

/// Puts one pair into the set.
fn insert(pairs: &mut Pairs, upper: char, lower: char) -> Result<(), AllocError>
    ensures { OnOk result ((u l : ℕ) → Contains pairs.new.keys (u, l)
        ↔ (Contains pairs.old.keys (u, l) ⊎ (Pair upper lower ≡ Pair u l))) }
{
    pairs.insert((upper, lower))?;
    Ok(())
}
