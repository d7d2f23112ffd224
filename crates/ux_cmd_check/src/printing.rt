//! The line that tells how many entries there are.

ghost use Rattle.std.specs.Prelude.{◌≡◌, IfOk, string_bytes};
ghost use Rattle.ux_cmd_check.specs.Entries.{entries_line};

use itoa::Buffer;
use std::alloc::Global;
use ux_base::Mem;

/// The line of so many entries.
pub(crate) fn entries_line(alloc: Global, count: usize) -> Mem<String>
    ensures { IfOk result (λ line. string_bytes line ≡ entries_line count) }
{
    let mut buffer = Buffer::new();
    let mut line = String::from_str(alloc, "entries ")?;
    line.push_str(buffer.format(count))?;
    line.push('\n')?;
    Ok(line)
}
