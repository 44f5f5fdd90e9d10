//! What a tree shows of the host.
ghost use Rattle.std.specs.Prelude.{◌≡◌, IfOk};
ghost use Rattle.nl_types.specs.Plain.Trees.{IsTree};
ghost use Rattle.nl_manifests.specs.HostTrees.{refused};
ghost use Rattle.nl_pins.specs.Trees.{without_pins};
ghost use Rattle.nl_shown.specs.Kept.{ShowsFolder};

use nl_folders::Tree;
use nl_manifests::{Opened, open};
use nl_pins::without_pins;
use std::alloc::{AllocError, Global};

/// What a tree shows of the host beside its pins, with the lines of manifests that show nothing.
///
/// # Errors
/// Memory.
pub fn shown_tree(alloc: Global, tree: Tree) -> Result<Opened, AllocError>
    ensures shows { IfOk result (λ opened. IsTree tree → ShowsFolder tree opened.tree) }
    ensures refused { IfOk result (λ opened. opened.refused ≡ refused (without_pins tree)) }
{
    let tree = without_pins(alloc, tree)?;
    open(alloc, tree.as_slice())
}
