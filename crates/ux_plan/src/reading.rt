//! The bytes of a file, and the stops that name a file.

ghost use Rattle.std.specs.Prelude.{◌≡◌, ◌⊎◌, IfOk, IfErr};
ghost use Rattle.ux_base.specs.Outside.{IsLater};
ghost use Rattle.ux_plan.specs.Plans.{HasFile, StopsFile, bytes_format};

use crate::stop::Stop;
use std::alloc::{AllocError, Global};
use ux_base::{Folder, FolderError, Txt};

/// The bytes of a file.
pub fn read_bytes<F: Folder, R>(
    alloc: Global,
    name: &str,
    folder: &mut F,
) -> Result<Vec<u8>, Stop<R>>
    ensures later { IsLater (F.seen folder.old) (F.seen folder.new) }
    ensures ok { IfOk result (λ bytes. HasFile (F.seen folder.old).files name.now bytes.items) }
    ensures err { IfErr result
        (StopsFile bytes_format name.now (F.seen folder.old) (F.seen folder.new)) }
{
    match folder.read(alloc, name) {
        Ok(bytes) => Ok(bytes),
        Err(FolderError::Absent) => Err(absent(alloc, name)),
        Err(FolderError::Fault) => Err(read_fault(alloc, name)),
        Err(FolderError::TooLong) => Err(too_large(alloc, name)),
        Err(FolderError::NoMemory) => Err(Stop::NoMemory),
    }
}

/// The stop that names a file which isn't there.
pub fn absent<R>(alloc: Global, name: &str) -> Stop<R>
    ensures { (result ≡ Stop.Absent name.now) ⊎ (result ≡ Stop.NoMemory) }
{
    match Txt::from_str(alloc, name) {
        Ok(name) => Stop::Absent { name },
        Err(AllocError) => Stop::NoMemory,
    }
}

/// The stop that names a file which couldn't be read.
pub fn read_fault<R>(alloc: Global, name: &str) -> Stop<R>
    ensures { (result ≡ Stop.ReadFault name.now) ⊎ (result ≡ Stop.NoMemory) }
{
    match Txt::from_str(alloc, name) {
        Ok(name) => Stop::ReadFault { name },
        Err(AllocError) => Stop::NoMemory,
    }
}

/// The stop that names a file which is too large.
pub fn too_large<R>(alloc: Global, name: &str) -> Stop<R>
    ensures { (result ≡ Stop.TooLarge name.now) ⊎ (result ≡ Stop.NoMemory) }
{
    match Txt::from_str(alloc, name) {
        Ok(name) => Stop::TooLarge { name },
        Err(AllocError) => Stop::NoMemory,
    }
}

/// The stop that names a file which isn't of its format.
pub fn refused<R: Drop>(alloc: Global, name: &str, reason: R) -> Stop<R>
    ensures { (result ≡ Stop.Refused name.now reason) ⊎ (result ≡ Stop.NoMemory) }
{
    match Txt::from_str(alloc, name) {
        Ok(name) => Stop::Refused { name, reason },
        Err(AllocError) => Stop::NoMemory,
    }
}
