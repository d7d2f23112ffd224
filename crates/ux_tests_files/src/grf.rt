//! A graph with a part inside a word, which no command that is built reads.
//!
//! Which boxes of other graphs are reached, their lines, items and outputs, the names that they call
//! and the files that are refused are shown by rows of `unitex_rows`. A graph is shown box by box:
//! `+` or `-` as it is reached or not, its number of lines, and `>` and each target.

use crate::comparing::compare;
use std::alloc::{AllocError, Global};
use ux_grf::{GrfBox, GrfError, read_marked};

/// A box.
fn box_text(alloc: Global, drawn: &GrfBox) -> Result<String, AllocError> {
    let sign = if drawn.reached { '+' } else { '-' };
    let mut text = format!(in alloc; "{sign}{}", drawn.lines.as_slice().len())?;
    for target in drawn.targets.as_slice() {
        text.push_str(format!(in alloc; ">{target}")?.as_str())?;
    }
    Ok(text)
}

/// The boxes.
fn shown(alloc: Global, boxes: &[GrfBox]) -> Result<String, AllocError> {
    let mut all = String::new(alloc);
    for drawn in boxes {
        all.push_str(box_text(alloc, drawn)?.as_str())?;
    }
    Ok(all)
}

/// The boxes of a marked graph.
fn marked(alloc: Global, file: &str) -> Result<String, GrfError> {
    let graph = read_marked(alloc, file)?;
    Ok(shown(alloc, graph.boxes.as_slice())?)
}

/// A file, and its boxes.
type Row = (&'static str, &'static str);

#[test]
fn reads_the_part_inside_a_word(rt: HostRuntime) {
    const ROWS: &[Row] = &[(
        "#Unigraph\n#\n5\n\"\" 0 0 1 2\n\"\" 0 0 0\n\"$<\" 0 0 1 3\n\"un+$x(\" 0 0 1 4\n\"$>/y\" 0 0 1 1\n",
        "+0>2+0+1>3+2>4+1>1",
    )];
    for (file, want) in ROWS {
        let got = marked(rt.alloc(), file).ok();
        compare(&rt, file, got.as_deref(), Some(*want));
    }
}
