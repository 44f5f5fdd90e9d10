//! The size that the blocks of a file have.
ghost use Rattle.std.specs.Prelude.{◌≡◌, ◌<◌, ◌≤◌, ◌*◌, ◌^◌, ℕ, length, false, IsSome, IfNone, IfOk, IfErr, IfSome, None, Ok};
ghost use Rattle.nl_types.specs.declared.error.VolError;
ghost use Rattle.nl_layout.specs.Root.{root_of};
ghost use Rattle.nl_blocktree.specs.FileShapes.{IsSizeOf, StandsAlone};
ghost use Rattle.nl_blocktree.specs.Walked.{is_met};

use nl_blocktree::{Met, walk};
use nl_layout::Root;
use nl_types::{BLOCK_SIZE, VolError};
use nl_vstore::VRead;
use std::alloc::Global;

/// The size of a file, where no number was met. None where the file has not its shape, or a number stands at
/// two places of it.
fn size_met<V: VRead>(store: &V, met: &mut Met, root: Root) -> Option<u64>
    requires within { (v : ℕ) → IsSome (V.pages store.now v) → v < length met.old }
    requires few { length met.old < 2 ^ 40 }
    requires none_met { (v : ℕ) → is_met met.old v ≡ false }
    ensures size { IfSome result (IsSizeOf (V.pages store.now) (root_of root)) }
    ensures none { IfNone result (StandsAlone (V.pages store.now) (root_of root) → ⊥) }
{
    match walk(store, met, root) {
        Ok(count) => Some(BLOCK_SIZE as u64 * count),
        Err(_) => None,
    }
}

/// The size that the blocks of a file have: 1,024 bytes for each index up to the last one. None where the
/// file has not its shape, or a number stands at two places of it. The numbers in use are at most the last
/// one. Refused by `Memory` alone.
pub fn size_of_blocks<V: VRead>(
    alloc: Global,
    store: &V,
    last: u64,
    root: &Root,
) -> Result<Option<u64>, VolError>
    requires within { (v : ℕ) → IsSome (V.pages store.now v) → v ≤ last }
    requires few { last < 2 ^ 39 }
    ensures size { IfOk result (λ found. IfSome found
        (IsSizeOf (V.pages store.now) (root_of root.now))) }
    ensures none { result ≡ Ok None → StandsAlone (V.pages store.now) (root_of root.now) → ⊥ }
    ensures refused { IfErr result (λ e. e ≡ VolError.Memory) }
{
    let mut met = Met::none(alloc, last)?;
    Ok(size_met(store, &mut met, *root))
}
