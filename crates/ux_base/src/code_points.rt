//! Texts in the order of their code points.
//!
//! The order of two texts in UTF-8 by their bytes is that of their characters by code points, so texts
//! are compared a byte at a time, and nothing is decoded.
//!
//! ```text
//! compare("chat", "chats")      // Less
//! ```

ghost use Rattle.std.specs.Prelude.{◌≡◌, chars};
ghost use Rattle.std.specs.Ordering.{nat_cmp};
ghost use Rattle.std.specs.Cmp.Lexicographic.{slice_cmp};

use std::cmp::Ordering;

/// Compares two texts by code points, from their first characters on. Takes a step a byte, up to the
/// first that is different.
pub fn compare(a: &str, b: &str) -> Ordering
    ensures { result ≡ slice_cmp nat_cmp (chars a.now) (chars b.now) }
{
    a.as_bytes().cmp(b.as_bytes())
}
