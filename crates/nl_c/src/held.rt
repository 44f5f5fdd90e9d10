//! What an open handle leads to.
ghost use Rattle.std.specs.Prelude.{◌≡◌};
ghost use Rattle.nl_c.specs.Openings.{no_manifest};

use nl_core::Pen;
use nl_device::MemDevice;
use nl_manifests::{Attributes, Manifest, Time};
use nl_types::{Items, Named};
use std::alloc::Global;

/// A volume, and what calls have left for the caller to copy out.
#[derive(Drop)]
pub struct Held {
    pub pen: Pen<MemDevice>,
    /// The bytes of the last image.
    pub image: Items<u8>,
    /// The names of the last directory that was listed.
    pub names: Items<Named>,
    /// The manifest that was read, or is being made.
    pub manifest: Manifest,
}

/// A manifest with no lines.
pub(crate) fn no_manifest(alloc: Global) -> Manifest
    ensures { result ≡ no_manifest }
{
    Manifest {
        own: Attributes {
            mode: 0,
            owner: 0,
            group: 0,
            time: Time {
                is_negative: false,
                seconds: 0,
                nanoseconds: 0,
            },
        },
        lines: Items::new(alloc),
    }
}
