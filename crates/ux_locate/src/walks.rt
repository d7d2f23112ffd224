//! From which starts there may be hits, and where derivations from them end.

ghost use Rattle.std.specs.Prelude.{◌≡◌, ◌<◌, ◌↔◌, [], true, false, IsTrue, OnOk, length};
ghost use Rattle.std.specs.List.Sorted.{IsStrictlyIncreasing};
ghost use Rattle.ux_walk.specs.Ends.{AreEnds};
ghost use Rattle.ux_walker.specs.FirstEnds.{IsFirstEnd};
ghost use Rattle.ux_locate.specs.Finding.{AreEndsFor};
ghost use Rattle.ux_locate.specs.Hits.{IsStart};

use crate::ends::Ends;
use std::alloc::Global;
use ux_base::{Mem, Policy};
use ux_tokens::{Kind, Text};

/// Whether a search begins at the position, and a derivation from there may end.
pub fn may_find<E: Ends>(finder: &E, text: &Text, position: usize) -> bool
    requires made { (E.setting finder.now).tokens ≡ text.now }
    requires within { position < length text.now }
    ensures starts { result ≡ true → IsStart text.now position }
    ensures nothing { result ≡ false → IsStart text.now position →
        AreEnds (E.setting finder.now) position [] }
{
    if !is_start(text, position) {
        return false;
    }
    finder.may_end(position)
}

/// Whether a search begins at the position: no space stands there.
pub fn is_start(text: &Text, position: usize) -> bool
    requires { position < length text.now }
    ensures { IsTrue result ↔ IsStart text.now position }
{
    text.kind(position) != Kind::Space
}

/// Lets `ends` be what a policy asks of the ends of the derivations from a start, in order: where it
/// keeps the shortest hits, the first one will do.
pub fn find_ends_for<E: Ends>(
    alloc: Global,
    finder: &mut E,
    policy: Policy,
    start: usize,
    ends: &mut Vec<usize>,
) -> Mem<()>
    requires { IsStart (E.setting finder.now).tokens start }
    ensures same { E.setting finder.new ≡ E.setting finder.old }
    ensures ends { OnOk result (AreEndsFor policy (E.setting finder.old) start ends.new.items) }
    ensures ascending { OnOk result (IsStrictlyIncreasing ends.new.items) }
{
    match policy {
        Policy::Shortest => finder.first(alloc, start, ends),
        Policy::Longest | Policy::All => finder.list(alloc, start, ends),
    }
}

/// Lets `ends` be the first position after the start at which a derivation from it ends, if there is
/// any.
pub fn find_first_end<E: Ends>(
    alloc: Global,
    finder: &mut E,
    start: usize,
    ends: &mut Vec<usize>,
) -> Mem<()>
    requires { IsStart (E.setting finder.now).tokens start }
    ensures same { E.setting finder.new ≡ E.setting finder.old }
    ensures first { OnOk result (IsFirstEnd (E.setting finder.old) start ends.new.items) }
{
    finder.first(alloc, start, ends)
}
