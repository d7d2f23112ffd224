//! A place in a file.

ghost use Rattle.std.specs.Prelude.{◌≤◌, length};

/// A place in a file.
#[derive(Drop)]
pub struct Cursor<'a> {
    /// The file.
    pub bytes: &'a [u8],
    /// How many bytes stand before the place.
    pub place: usize,
    ghost within: { place ≤ length bytes.now },
}
