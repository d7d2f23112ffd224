//! Lists in order, in which nothing stands twice.

ghost use Rattle.std.specs.Prelude.{◌≡◌, ◌↔◌, true, Contains};
ghost use Rattle.std.specs.List.Sorted.{IsStrictlySortedBy};
ghost use Rattle.ux_outputs.specs.declared.hit.Hit.{Hit};
ghost use Rattle.ux_outputs.specs.declared.span.Span.{Span};
ghost use Rattle.ux_locate.specs.Index.{StandsBefore};
ghost use Rattle.ux_locate.specs.Order.{AreInOrder, Precedes};

use ux_outputs::{Hit, Span};

/// Puts the hits in order, and leaves each once. Takes no memory.
pub fn sort_hits(hits: &mut Vec<Hit>)
    ensures in_order { AreInOrder StandsBefore hits.new.items }
    ensures same { (hit : Hit) → Contains hits.new.items hit ↔ Contains hits.old.items hit }
{
    sort_once(hits);
}

/// Puts the spans in order, and leaves each once. Takes no memory.
pub fn sort_spans(spans: &mut Vec<Span>)
    ensures in_order { AreInOrder Precedes spans.new.items }
    ensures same { (span : Span) → Contains spans.new.items span ↔ Contains spans.old.items span }
{
    sort_once(spans);
}

/// Puts the items in order, and leaves each once.
fn sort_once<T: Ord + Drop>(items: &mut Vec<T>)
    requires { (a b : T) → T.eq a b ≡ true → a ≡ b }
    ensures sorted { IsStrictlySortedBy T.cmp items.new.items }
    ensures same { (item : T) → Contains items.new.items item ↔ Contains items.old.items item }
{
    items.sort_unstable();
    items.dedup();
}
