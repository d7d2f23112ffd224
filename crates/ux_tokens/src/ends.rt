//! Places in a text, in order, in as little memory as serves.

ghost use Rattle.std.specs.Prelude.{◌≡◌, ◌<◌, ◌++◌, ◌∷◌, [], Some, OnOk, length, slice_get};
ghost use Rattle.ux_tokens.specs.Columns.{ends_of};

use std::alloc::{AllocError, Global};

/// Places in four bytes each, and from the first on that doesn't fit there in eight.
#[derive(Drop)]
pub struct Ends {
    /// The places up to the first that doesn't fit.
    pub near: Vec<u32>,
    /// The others.
    pub far: Vec<usize>,
}

impl Ends {
    /// No place.
    pub fn new(alloc: Global) -> Ends
        ensures { ends_of result ≡ [] }
    {
        Ends {
            near: Vec::new(alloc),
            far: Vec::new(alloc),
        }
    }

    /// Puts a place last.
    pub fn push(&mut self, end: usize) -> Result<(), AllocError>
        ensures { OnOk result (ends_of self.new ≡ ends_of self.old ++ end ∷ []) }
    {
        if end <= u32::MAX as usize && self.far.is_empty() {
            self.near.push(end as u32)?;
            return Ok(());
        }
        self.far.push(end)?;
        Ok(())
    }

    /// The place with this number.
    pub fn at(&self, i: usize) -> usize
        requires { i < length (ends_of self.now) }
        ensures { slice_get (ends_of self.now) i ≡ Some result }
    {
        let near = self.near.len();
        if i < near {
            return self.near[i] as usize;
        }
        self.far[i - near]
    }
}
