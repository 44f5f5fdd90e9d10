//! The bytes of files.
ghost use Rattle.std.specs.Prelude.{◌≡◌, ◌+◌, ◌^◌, ◌<◌, take, drop, length, IfOk};
ghost use Rattle.nl_types.specs.Plain.Calls.{overwritten, resized};

use nl_types::Items;
use std::alloc::{AllocError, Global};

/// The first `size` bytes, with zeros behind them where there are fewer.
fn resized(alloc: Global, bytes: &[u8], size: usize) -> Result<Vec<u8>, AllocError>
    ensures { IfOk result (λ all. all.items ≡ resized bytes.now size) }
{
    let mut all = Vec::from_slice(alloc, bytes)?;
    all.resize(size, 0)?;
    Ok(all)
}

/// The bytes with others over them from `offset` on, zeros standing between where `offset` is past
/// their end.
pub fn with_over(
    alloc: Global,
    bytes: &[u8],
    offset: usize,
    new: &[u8],
) -> Result<Items<u8>, AllocError>
    requires { offset + length new.now < 2 ^ 64 }
    ensures { IfOk result (λ all. all ≡ overwritten bytes.now offset new.now) }
{
    let mut all = resized(alloc, bytes, offset)?;
    all.extend_from_slice(new)?;
    let end = bytes.len().min(offset + new.len());
    all.extend_from_slice(&bytes[end..])?;
    Ok(Items::from_vec(all))
}

/// The first `size` bytes, with zeros behind them where there are fewer.
pub fn with_size(alloc: Global, bytes: &[u8], size: usize) -> Result<Items<u8>, AllocError>
    ensures { IfOk result (λ all. all ≡ resized bytes.now size) }
{
    Ok(Items::from_vec(resized(alloc, bytes, size)?))
}

/// At most `len` bytes from `offset` on.
pub fn part(bytes: &[u8], offset: u64, len: u64) -> &[u8]
    ensures { result.now ≡ take len (drop offset bytes.now) }
{
    if offset >= bytes.len() as u64 {
        return &[];
    }
    let rest = &bytes[offset as usize..];
    if len >= rest.len() as u64 {
        return rest;
    }
    &rest[..len as usize]
}
