//! Changes of files, made of what a caller lends.
ghost use Rattle.std.specs.Prelude.{◌≡◌, IfOk};
ghost use Rattle.nl_types.specs.Changes.{change_at};

use crate::{Change, Items};
use std::alloc::{AllocError, Global};

/// A change of what stands at one path.
#[derive(Clone, Copy)]
pub enum PathCall {
    Create,
    Mkdir,
    Truncate(u64),
    Unlink,
    Rmdir,
}

impl PathCall {
    /// The change at a path.
    pub fn change(self, path: Items<u8>) -> Change
        ensures { result ≡ change_at self path }
    {
        match self {
            PathCall::Create => Change::Create { path },
            PathCall::Mkdir => Change::Mkdir { path },
            PathCall::Truncate(size) => Change::Truncate { path, size },
            PathCall::Unlink => Change::Unlink { path },
            PathCall::Rmdir => Change::Rmdir { path },
        }
    }
}

/// Copies of two lists of bytes.
pub fn copies(
    alloc: Global,
    first: &[u8],
    second: &[u8],
) -> Result<(Items<u8>, Items<u8>), AllocError>
    ensures first { IfOk result (λ copied. copied.0 ≡ first.now) }
    ensures second { IfOk result (λ copied. copied.1 ≡ second.now) }
{
    let first = Items::from_slice(alloc, first)?;
    let second = Items::from_slice(alloc, second)?;
    Ok((first, second))
}
