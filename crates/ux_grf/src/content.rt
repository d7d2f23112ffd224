//! What stands in a box: the lines and the output that its content writes.
//!
//! `specs/Content.antt` has the definitions. A content is read from left to right in one pass: its
//! lines by `line`, the items of a line by `start`, lines of one item by `marked`, and what stands
//! after the first free `/` by `output`.

ghost use Rattle.std.specs.Prelude.{◌≡◌, ℕ, List, ◌++◌, length, IfOk, IfErr};
ghost use Rattle.std.specs.Str.{chars};
ghost use Rattle.ux_grf.specs.declared.graph.GraphKind.TheVariants.{Plain};
ghost use Rattle.ux_grf.specs.Content.{IsContent, RefusesContent, StopsContent, IsOnly, IsEndOf};

use crate::error::GrfError;
use crate::graph::GraphKind;
use crate::item::{Item, Piece};
use crate::line::{Fault, read_lines};
use crate::output::read_output;
use crate::protection::is_open;
use std::alloc::Global;
use ux_base::Lst;

/// What a content writes.
#[derive(Drop)]
pub struct Content {
    /// The alternatives, each a list of items.
    pub lines: Lst<Lst<Item>>,
    /// What each line puts out.
    pub output: Lst<Piece>,
}

/// What the content writes, or the place of its first fault in a box 0. The content is what stands
/// there once the file's own protection was taken off. The time is linear in it.
pub fn read_content(alloc: Global, content: &str) -> Result<Content, GrfError>
    ensures ok { IfOk result (IsContent Plain content.now) }
    ensures only { IfOk result (IsOnly Plain content.now) }
    ensures err { IfErr result (RefusesContent Plain 0 content.now) }
{
    read_in_box(alloc, GraphKind::Plain, content, 0)
}

/// What the content of the box writes, or the place of its first fault.
pub fn read_in_box(
    alloc: Global,
    kind: GraphKind,
    content: &str,
    node: u32,
) -> Result<Content, GrfError>
    ensures ok { IfOk result (IsContent kind content.now) }
    ensures err { IfErr result (RefusesContent kind node content.now) }
{
    match read_text(alloc, kind, content) {
        Ok(read) => Ok(read),
        Err(Fault::At(left)) => Err(GrfError::BadContent {
            node,
            place: count_before(content, left),
        }),
        Err(Fault::NoRoom) => Err(GrfError::NoMemory),
    }
}

/// What the content writes, or what stands from its first fault on.
fn read_text<'a>(alloc: Global, kind: GraphKind, content: &'a str) -> Result<Content, Fault<'a>>
    ensures ok { IfOk result (IsContent kind content.now) }
    ensures bad { IfErr result (StopsContent kind content.now) }
{
    let parts = read_lines(alloc, kind, content)?;
    if is_open(parts.output) {
        return Err(Fault::At("\\"));
    }
    let output = read_output(alloc, parts.output)?;
    Ok(Content {
        lines: Lst::new(parts.lines),
        output: Lst::new(output),
    })
}

/// How many characters of the content stand before what is left of it.
fn count_before(content: &str, left: &str) -> usize
    requires { IsEndOf content.now left.now }
    ensures { (front : List ℕ) → content.now ≡ front ++ left.now → result ≡ length (chars front) }
{
    count_chars(content) - count_chars(left)
}

/// How many characters the text has.
fn count_chars(text: &str) -> usize
    ensures { result ≡ length (chars text.now) }
{
    text.chars().count()
}
