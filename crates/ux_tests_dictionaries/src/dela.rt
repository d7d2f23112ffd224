//! Tags, codes and entries, as a caller has them.
//!
//! What lines of forms and of lemmas, tags and codes say is shown by rows of `unitex_rows`, and so
//! are the lines that are refused.

use crate::comparing::compare;
use std::alloc::Global;
use ux_base::Mem;
use ux_dela::{DelaError, print_codes, print_delaf, read_codes, read_delaf, read_tag};

/// The entry of a tag's body, and its codes read and printed again, or nothing where it is none.
fn printed(alloc: Global, body: &str, codes: &str) -> Mem<String> {
    let mut out = String::new(alloc);
    if let Some(entry) = read_tag(alloc, body)? {
        out.push_str(print_delaf(alloc, &entry)?.as_str())?;
    }
    if let Some(codes) = read_codes(alloc, codes)? {
        out.push_str(print_codes(alloc, &codes)?.as_str())?;
    }
    Ok(out)
}

#[test]
fn a_tag_and_codes_are_read_and_printed(rt: HostRuntime) {
    const ROWS: &[(&str, &str, &str, &str)] = &[
        (
            "an entry and its codes",
            "sits,sit.V+z1:P3s",
            "V+z1:P3s",
            "sits,sit.V+z1:P3sV+z1:P3s",
        ),
        ("no entry, and no codes", "S", "N+", ""),
        // No text has these: a separator is a space there.
        ("a line feed", "a,.N\n", "N\n", ""),
        ("a line feed in the form", "a\nb,.N", "", ""),
        ("a carriage return", "a,.N\r", "", "a,.N\r"),
    ];
    for (name, body, codes, want) in ROWS {
        let got = printed(rt.alloc(), body, codes).ok();
        compare(&rt, name, got.as_deref(), Some(*want));
    }
}

/// Whether a file says two entries, of which the second is a copy of the first.
fn are_first_two_same(alloc: Global, file: &str) -> Result<bool, DelaError> {
    match read_delaf(alloc, file)?.as_slice() {
        [first, second] => Ok(first.copy()?.same(second)),
        _ => Ok(false),
    }
}

#[test]
fn entries_are_compared(rt: HostRuntime) {
    const ROWS: &[(&str, bool)] = &[
        ("a,.N+b:c\na,a.N+b:c/d", true),
        ("a,.N+b:c\na,.N+b:d", false),
    ];
    for (file, want) in ROWS {
        let got = are_first_two_same(rt.alloc(), file);
        compare(&rt, file, got, Ok(*want));
    }
}
