//! What the text of a compiled grammar says.

ghost use Rattle.std.specs.Prelude.{◌+◌, ◌<◌, ◌^◌};
ghost use Rattle.ux_fst2_file.specs.Files.{line_count};

use crate::file::Fst2File;

/// What the text of a compiled grammar says, whatever its tags and labels are. Its lines are fewer
/// than 2^63, so that each has a number.
#[derive(Drop)]
pub struct Fst2Text {
    /// The graphs, and as tags all lines behind them up to the last `f`.
    pub file: Fst2File,
    /// Whether the last `f` is there. Where it isn't, the tags go up to the text's end.
    pub is_ended: bool,
    pub ghost counted: { line_count file.graphs + 1 < 2 ^ 63 },
}
