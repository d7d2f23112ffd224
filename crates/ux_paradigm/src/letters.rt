//! The last letters of a lemma.

ghost use Rattle.std.specs.Prelude.{IsCharBoundary};

/// Where so many last letters of the lemma begin, or its start, where it has fewer. At least one.
pub(crate) fn ending_place(lemma: &str, letters: usize) -> usize
    ensures { IsCharBoundary lemma.now result }
{
    let mut left = letters;
    for place in (0..lemma.len()).rev() {
        if lemma.is_char_boundary(place) {
            if left <= 1 {
                return place;
            }
            left -= 1;
        }
    }
    0
}
