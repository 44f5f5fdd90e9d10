//! Names in directories, which paths share.
ghost use Rattle.std.specs.Prelude.{◌≡◌, ℕ, List, length, IfOk};
ghost use Rattle.std.specs.Arc.{arc_value};

use nl_types::Items;
use std::alloc::{AllocError, Global};
use std::marker::Model;
use std::sync::Arc;

/// A name in a directory, as bytes. The paths that it stands in share it: one of a deep directory has as many
/// names as that is deep, and a copy of it copies none of them. It is never changed. Contracts see the list of
/// its bytes.
#[derive(Drop)]
pub struct Name {
    bytes: Arc<Items<u8>>,
}

impl Model for Name {
    ghost Value = { List ℕ };

    ghost view = { λ name. arc_value name.bytes };
}

impl Name {
    /// Takes memory for the bytes, and may be refused.
    pub fn new(alloc: Global, bytes: &[u8]) -> Result<Self, AllocError>
        ensures { IfOk result (λ name. name ≡ bytes.now) }
    {
        Name::of(alloc, Items::from_slice(alloc, bytes)?)
    }

    /// The same of bytes that are there.
    pub fn of(alloc: Global, bytes: Items<u8>) -> Result<Self, AllocError>
        ensures { IfOk result (λ name. name ≡ bytes) }
    {
        Ok(Name {
            bytes: Arc::new(alloc, bytes)?,
        })
    }

    /// Another owner of the same name, refused where the count of owners is full.
    pub fn share(&self) -> Result<Self, AllocError>
        ensures { IfOk result (λ name. name ≡ self.now) }
    {
        Ok(Name {
            bytes: Arc::try_clone(&self.bytes)?,
        })
    }

    pub fn as_slice(&self) -> &[u8]
        ensures { result.now ≡ self.now }
    {
        self.bytes.as_slice()
    }

    pub fn len(&self) -> usize
        ensures { result ≡ length self.now }
    {
        self.bytes.len()
    }
}
