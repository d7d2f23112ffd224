//! The order of the lines of a concordance.

ghost use Rattle.std.specs.Prelude.{◌≡◌};
ghost use Rattle.std.specs.List.Sorted.{IsPermutation};
ghost use Rattle.std.specs.Ordering.{nat_cmp};
ghost use Rattle.std.specs.Cmp.Lexicographic.{slice_cmp};
ghost use Rattle.ux_concordance.specs.Concordance.{keys, left_key, line_cmp, right_key, text_key};
ghost use Rattle.ux_concordance.specs.Lent.{AreSorted, line_of};

use crate::characters::compare_backwards;
use crate::line::LentLine;
use std::cmp::Ordering;
use ux_base::Sort;
use ux_base::code_points::compare as compare_forwards;

/// Puts the lines in order. Takes no memory.
pub(crate) fn sort_lines(sort: Sort, lines: &mut Vec<LentLine>)
    ensures same { IsPermutation lines.old.items lines.new.items }
    ensures sorted { AreSorted sort lines.new.items }
{
    lines.sort_unstable_by(|a, b| compare_lines(sort, a, b));
}

/// Compares two lines by the keys of the sort, and by the places of their hits.
fn compare_lines(sort: Sort, a: &LentLine, b: &LentLine) -> Ordering
    ensures { result ≡ line_cmp sort (line_of a.now) (line_of b.now) }
{
    let by_first = compare_first(sort, a, b);
    if by_first.is_ne() {
        return by_first;
    }
    let by_second = compare_second(sort, a, b);
    if by_second.is_ne() {
        return by_second;
    }
    a.hit.cmp(b.hit)
}

/// Compares two lines by the first key of the sort.
fn compare_first(sort: Sort, a: &LentLine, b: &LentLine) -> Ordering
    ensures { result
        ≡ slice_cmp nat_cmp (keys sort (line_of a.now)).0 (keys sort (line_of b.now)).0 }
{
    match sort {
        Sort::TO => Ordering::Equal,
        Sort::LC | Sort::LR => compare_left(a, b),
        Sort::CL | Sort::CR => compare_text(a, b),
        Sort::RL | Sort::RC => compare_right(a, b),
    }
}

/// Compares two lines by the second key of the sort.
fn compare_second(sort: Sort, a: &LentLine, b: &LentLine) -> Ordering
    ensures { result
        ≡ slice_cmp nat_cmp (keys sort (line_of a.now)).1 (keys sort (line_of b.now)).1 }
{
    match sort {
        Sort::TO => Ordering::Equal,
        Sort::CL | Sort::RL => compare_left(a, b),
        Sort::LC | Sort::RC => compare_text(a, b),
        Sort::LR | Sort::CR => compare_right(a, b),
    }
}

/// Compares two lines by their left contexts, from the hits on.
fn compare_left(a: &LentLine, b: &LentLine) -> Ordering
    ensures { result ≡ slice_cmp nat_cmp (left_key (line_of a.now)) (left_key (line_of b.now)) }
{
    compare_backwards(a.left, b.left)
}

/// Compares two lines by the texts of their hits.
fn compare_text(a: &LentLine, b: &LentLine) -> Ordering
    ensures { result ≡ slice_cmp nat_cmp (text_key (line_of a.now)) (text_key (line_of b.now)) }
{
    compare_forwards(a.hit.text.as_str(), b.hit.text.as_str())
}

/// Compares two lines by their right contexts.
fn compare_right(a: &LentLine, b: &LentLine) -> Ordering
    ensures { result ≡ slice_cmp nat_cmp (right_key (line_of a.now)) (right_key (line_of b.now)) }
{
    compare_forwards(a.right, b.right)
}
