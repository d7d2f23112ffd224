//! What `build` asks of forms: that they are sorted, and have few enough characters.

ghost use Rattle.std.specs.Prelude.{◌≡◌, ◌<◌, ◌^◌, ◌↔◌, [], IsTrue};
ghost use Rattle.std.specs.Cmp.Lexicographic.{slice_cmp};
ghost use Rattle.std.specs.Ordering.{nat_cmp};
ghost use Rattle.std.specs.declared.cmp.Ordering.TheVariants.{Less};
ghost use Rattle.ux_dawg.specs.Forms.{AreSorted, letters_in};

use crate::state::Form;
use std::cmp::Ordering;

/// Whether a word comes before another.
pub fn comes_before(a: &[char], b: &[char]) -> bool
    ensures { IsTrue result ↔ (slice_cmp nat_cmp a.now b.now ≡ Less) }
{
    a.cmp(&b) == Ordering::Less
}

/// Whether each form comes after the one before it.
pub fn are_sorted(forms: &[Form]) -> bool
    ensures { IsTrue result ↔ AreSorted [] forms.now }
{
    let mut last: &[char] = &[];
    for form in forms {
        if !comes_before(last, form.letters.as_slice()) {
            return false;
        }
        last = form.letters.as_slice();
    }
    true
}

/// Whether the forms have fewer than 2^32 letters together.
pub fn have_few_letters(forms: &[Form]) -> bool
    ensures { IsTrue result ↔ (letters_in forms.now < 2 ^ 32) }
{
    let mut room = u32::MAX;
    for form in forms {
        let many = form.letters.as_slice().len();
        if many > room as usize {
            return false;
        }
        room -= many as u32;
    }
    true
}
