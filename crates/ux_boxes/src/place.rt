//! A box whose lines are split into labels.

use ux_base::Lst;
use ux_grf::Piece;
use ux_net::Label;

/// A box: the labels of its lines, and where it leads.
#[derive(Drop)]
pub struct Place {
    /// Whether a path from box 0 leads here without passing box 1.
    pub reached: bool,
    /// What it puts out, in front of each of its lines.
    pub output: Lst<Piece>,
    /// The lines, each a list of labels.
    pub lines: Lst<Lst<Label>>,
    /// The numbers of the boxes to which it leads, box 1 among them where a run may end here.
    pub targets: Lst<u32>,
}
