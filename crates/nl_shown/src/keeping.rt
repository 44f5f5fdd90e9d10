//! The tree that keeps a folder of the host.
ghost use Rattle.std.specs.Prelude.{IfErr, IfOk};
ghost use Rattle.nl_manifests.specs.Sealed.{RefusesSealing};
ghost use Rattle.nl_pins.specs.Trees.{without_pins};
ghost use Rattle.nl_shown.specs.Kept.{KeepsFolder};

use nl_folders::Tree;
use nl_manifests::{HostTree, SealError, seal};
use nl_pins::{with_pins, without_pins};
use nl_types::Items;
use std::alloc::Global;

/// The tree that keeps a folder, with pins. What has the name of their file is left out of the folder.
///
/// # Errors
/// As `seal` of `nl_manifests`.
pub fn kept_tree(
    alloc: Global,
    pins: Option<Items<u8>>,
    folder: HostTree,
) -> Result<Tree, SealError>
    ensures keeps { IfOk result (KeepsFolder pins folder) }
    ensures refused { IfErr result (RefusesSealing (without_pins folder)) }
{
    nl_pins::laws::pins_are_apart();
    let folder = without_pins(alloc, folder)?;
    let sealed = seal(alloc, folder.as_slice())?;
    let tree = with_pins(alloc, pins, sealed)?;
    Ok(tree)
}
