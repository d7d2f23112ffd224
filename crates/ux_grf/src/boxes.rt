//! The boxes of a graph, from their lines and from which of them are reached.

ghost use Rattle.std.specs.Prelude.{◌≡◌, ◌≤◌, [], length, map, true, IfOk, IfErr};
ghost use Rattle.ux_grf.specs.BoxLine.{said_by};
ghost use Rattle.ux_grf.specs.Content.{is_read, IsMade, RefusesRead};
ghost use Rattle.ux_grf.specs.File.{AreMade, RefusesMarked};

use crate::box_line::BoxLine;
use crate::content::read_in_box;
use crate::error::GrfError;
use crate::graph::{GraphKind, GrfBox};
use crate::protection::{Layer, resolve};
use std::alloc::{AllocError, Global};
use ux_base::Lst;

/// The boxes, of which these are reached. Contents are read in order of box.
pub fn make_boxes(
    alloc: Global,
    kind: GraphKind,
    boxes: &[BoxLine<'_>],
    reached: &[bool],
) -> Result<Vec<GrfBox>, GrfError>
    requires len { length reached.now ≡ length boxes.now }
    requires most { length boxes.now ≤ 65535 }
    ensures len { IfOk result (λ made. length made.items ≡ length boxes.now) }
    ensures made { IfOk result (λ made.
        AreMade kind (map said_by boxes.now) reached.now made.items (length boxes.now)) }
    ensures err { IfErr result (RefusesMarked kind (map said_by boxes.now) reached.now) }
{
    let mut made = Vec::new(alloc);
    for (node, line) in boxes.iter().enumerate() {
        made.push(make_box(alloc, kind, line, node as u32, reached[node])?)?;
    }
    Ok(made)
}

/// The box whose line this is.
fn make_box(
    alloc: Global,
    kind: GraphKind,
    line: &BoxLine<'_>,
    node: u32,
    reached: bool,
) -> Result<GrfBox, GrfError>
    ensures made { IfOk result (IsMade kind (said_by line.now) node reached) }
    ensures err { IfErr result (RefusesRead kind (said_by line.now) node reached) }
{
    if reached && 1 < node {
        read_inner(alloc, kind, line, node)
    } else {
        Ok(bare_box(alloc, line, reached)?)
    }
}

/// A box whose content is read.
fn read_inner(
    alloc: Global,
    kind: GraphKind,
    line: &BoxLine<'_>,
    node: u32,
) -> Result<GrfBox, GrfError>
    requires { is_read node true ≡ true }
    ensures made { IfOk result (IsMade kind (said_by line.now) node true) }
    ensures err { IfErr result (RefusesRead kind (said_by line.now) node true) }
{
    let content = resolve(alloc, Layer::File, line.content)?;
    let read = read_in_box(alloc, kind, content.as_str(), node)?;
    Ok(GrfBox {
        reached: true,
        lines: read.lines,
        output: read.output,
        targets: Lst::new(Vec::from_slice(alloc, line.targets.as_slice())?),
    })
}

/// A box whose content isn't read.
fn bare_box(alloc: Global, line: &BoxLine<'_>, reached: bool) -> Result<GrfBox, AllocError>
    ensures { IfOk result (λ made. made ≡ record {
      reached = reached;
      lines = [];
      output = [];
      targets = line.now.targets.items;
    }) }
{
    Ok(GrfBox {
        reached,
        lines: Lst::new(Vec::new(alloc)),
        output: Lst::new(Vec::new(alloc)),
        targets: Lst::new(Vec::from_slice(alloc, line.targets.as_slice())?),
    })
}
