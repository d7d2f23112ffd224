//! A graph: its boxes, and what stands in them.

use crate::item::{Item, Piece};
use ux_base::Lst;

/// What a graph is drawn for.
#[derive(Clone, Copy)]
pub enum GraphKind {
    /// To be found in the tokens of a text.
    Plain,
    /// To be found inside a word: the lines `$<` and `$>` stand where that part begins and ends.
    Morphological,
}

/// A graph as it is drawn. Box 0 is its start, box 1 its end.
#[derive(Drop)]
pub struct Graph {
    /// The boxes, by node.
    pub boxes: Lst<GrfBox>,
}

/// A box of a graph.
#[derive(Drop)]
pub struct GrfBox {
    /// Whether a path from box 0 leads here without passing box 1.
    pub reached: bool,
    /// The alternatives in the box, each a list of items.
    pub lines: Lst<Lst<Item>>,
    /// What each line of the box puts out.
    pub output: Lst<Piece>,
    /// The boxes to which this one leads, each once.
    pub targets: Lst<u32>,
}
