//! What the definitions of tags decide: which labels and outputs can be printed.

ghost use Rattle.ux_fst2_file.specs.Printed.{IsLineText};
ghost use Rattle.ux_fst2.specs.Spelling.{IsSaid, IsUnbroken};
ghost use Rattle.ux_fst2.specs.Tags.{IsTag, tag_text};

use ux_grf::Piece;
use ux_net::Label;

/// Where some text of a tag says a label and an output, the tag that is printed for them does.
pub fn printed_tag_says(label: &Label, output: &[Piece])
    requires { IsSaid label.now output.now }
    ensures { IsTag (tag_text label.now output.now) label.now output.now }
{}

/// Where no text of a label and an output has a line feed or a carriage return, their tag stands on
/// a line.
pub fn unbroken_tag_is_line(label: &Label, output: &[Piece])
    requires { IsUnbroken label.now output.now }
    ensures { IsLineText (tag_text label.now output.now) }
{}
