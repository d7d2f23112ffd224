//! A code without a pair, which stands in no image, and lists of entries of which none is made.
//!
//! What other codes say, and the bytes of images, is shown by rows of `unitex_rows`: `compress`
//! writes them, and what an image says is reported.

use crate::comparing::compare;
use std::alloc::Global;
use ux_base::{Mem, Txt};
use ux_dawg::Items;
use ux_dela::{print_delaf, read_delaf};
use ux_dict::store_all;
use ux_image::{Code, is_content, rebuild};

/// Whether the entries of the lines, as they are kept, are a content.
fn are_content(alloc: Global, lines: &str) -> Option<bool> {
    let entries = read_delaf(alloc, lines).ok()?;
    let stored = store_all(alloc, entries).ok()?;
    Some(is_content(&stored))
}

/// What codes without a pair make of a form.
fn made_without_pairs(alloc: Global) -> Mem<String> {
    let code = Code {
        pairs: Items::empty(alloc),
        codes: Txt::from_str(alloc, "N")?,
    };
    match rebuild(alloc, "xa ya", &code)? {
        Some(entry) => print_delaf(alloc, &entry),
        None => Ok(String::from_str(alloc, "none")?),
    }
}

#[test]
fn no_pair_keeps_the_form(rt: HostRuntime) {
    let made = made_without_pairs(rt.alloc()).ok();
    compare(&rt, "no pair", made.as_deref(), Some("xa ya,.N"));
}

#[test]
fn a_content_is_in_order(rt: HostRuntime) {
    const ROWS: &[(&str, &str, bool)] = &[
        ("in order", "a,.V\na,.N\nb,.N\n", true),
        ("forms out of order", "b,.N\na,.N\n", false),
        ("a form apart from itself", "a,.N\nb,.N\na,.V\n", false),
    ];
    for (name, lines, want) in ROWS {
        compare(&rt, name, are_content(rt.alloc(), lines), Some(*want));
    }
}
