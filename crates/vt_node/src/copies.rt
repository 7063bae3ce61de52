//! Copies of bytes and of names.
ghost use Rattle.std.specs.Prelude.{◌≡◌, [], map, IfOk, IsOk};

use std::alloc::{AllocError, Global};

/// The same bytes, in memory of their own. No bytes need no allocation.
pub fn copied_bytes(alloc: Global, bytes: &[u8]) -> Result<Vec<u8>, AllocError>
    ensures ok { IfOk result (λ copy. copy.items ≡ bytes.now) }
    ensures empty { bytes.now ≡ [] → IsOk result }
{
    let mut copy = Vec::with_capacity(alloc, bytes.len())?;
    copy.extend_from_slice(bytes)?;
    Ok(copy)
}

// The same names, in memory of their own. No names need no allocation.
pub(crate) fn copied_names(alloc: Global, names: &[Vec<u8>]) -> Result<Vec<Vec<u8>>, AllocError>
    ensures ok { IfOk result (λ copies. map (λ name. name.items) copies.items ≡ map (λ name. name.items) names.now) }
    ensures empty { names.now ≡ [] → IsOk result }
{
    let mut copies = Vec::with_capacity(alloc, names.len())?;
    for name in names {
        copies.push(copied_bytes(alloc, name)?)?;
    }
    Ok(copies)
}
