//! What a row's run gives.

ghost use Rattle.std.specs.Prelude.{◌≡◌, ◌↔◌, IsTrue};

use crate::suite::Row;
use ux_base::MemSink;

/// What a run wrote, and its exit status.
#[derive(Drop)]
pub struct Outcome {
    /// Standard output.
    pub out: MemSink,
    /// Standard error.
    pub err: MemSink,
    /// The exit status.
    pub status: u8,
}

impl Outcome {
    /// Whether the run gave what the row says.
    pub fn is_as(&self, row: &Row) -> bool
        ensures { IsTrue result ↔ (self.now.status ≡ row.now.status)
            × (self.now.out.bytes ≡ row.now.out.items) × (self.now.err.bytes ≡ row.now.err.items) }
    {
        self.status == row.status
            && self.out.bytes() == row.out.as_slice()
            && self.err.bytes() == row.err.as_slice()
    }
}
