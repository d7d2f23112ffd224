//! Texts compared by code points, from their ends.

ghost use Rattle.std.specs.Prelude.{◌≡◌, chars, reverse};
ghost use Rattle.std.specs.Ordering.{nat_cmp};
ghost use Rattle.std.specs.Cmp.Lexicographic.{slice_cmp};
ghost use Rattle.ux_concordance.specs.Ends.{IsSharedEnd};

use crate::context::split_last;
use std::cmp::Ordering;

/// Compares two texts from their last characters on, towards the first. An end that both have is
/// passed a byte at a time, as far as it is ASCII.
pub(crate) fn compare_backwards(a: &str, b: &str) -> Ordering
    ensures { result ≡ slice_cmp nat_cmp (reverse (chars a.now)) (reverse (chars b.now)) }
{
    let shared = shared_end(a.as_bytes(), b.as_bytes());
    compare_ends(&a[..a.len() - shared], &b[..b.len() - shared])
}

/// How many bytes at the ends of both are equal and ASCII.
fn shared_end(a: &[u8], b: &[u8]) -> usize
    ensures { IsSharedEnd a.now b.now result }
{
    let most = a.len().min(b.len());
    for shared in 0..most {
        let byte = a[a.len() - 1 - shared];
        if !byte.is_ascii() || byte != b[b.len() - 1 - shared] {
            return shared;
        }
    }
    most
}

/// The same, a character at a time.
fn compare_ends(a: &str, b: &str) -> Ordering
    ensures { result ≡ slice_cmp nat_cmp (reverse (chars a.now)) (reverse (chars b.now)) }
{
    let (mut a, mut b) = (a, b);
    while let Some((before_a, last_a)) = split_last(a) {
        let Some((before_b, last_b)) = split_last(b) else {
            return Ordering::Greater;
        };
        let order = last_a.cmp(&last_b);
        if order.is_ne() {
            return order;
        }
        a = before_a;
        b = before_b;
    }
    match split_last(b) {
        None => Ordering::Equal,
        Some(_) => Ordering::Less,
    }
}
