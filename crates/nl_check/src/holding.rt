//! Whether a checkpoint that was walked holds the tree that its entry tells of.
ghost use Rattle.std.specs.Prelude.{◌≡◌, ◌↔◌, ◌≤◌, ◌*◌, List, Bool, Option, length, false, IsTrue, IfOk, IfErr};
ghost use Rattle.nl_types.specs.Plain.Limits as limits;
ghost use Rattle.nl_types.specs.declared.error.VolError;
ghost use Rattle.nl_layout.specs.Root.{root_of};
ghost use Rattle.nl_check.specs.Judging.{TellsTree};
ghost use Rattle.nl_check.specs.Private.Naming.{HasKindsOf};
ghost use Rattle.nl_check.specs.Private.Walks.{IsWalk};
ghost use Rattle.nl_check.specs.Trees.{IsTreeOf};

use crate::inodes::{count_of, kinds_of_blocks};
use crate::kinds::Kinds;
use crate::shape::Walk;
use crate::trees::forms_tree;
use nl_files::ReadTree;
use nl_layout::{CheckpointEntry, Root};
use nl_types::{BLOCK_SIZE, Kind, VolError};
use nl_vstore::VRead;
use std::alloc::Global;

/// Whether the file of inodes has a size, where so many indices lead up to its last block.
pub(crate) fn has_size(size: u64, count: u64) -> bool
    ensures { IsTrue result ↔ (size ≡ 1024 * count) }
{
    size % BLOCK_SIZE as u64 == 0 && size / BLOCK_SIZE as u64 == count
}

/// Whether all inodes of a walked checkpoint are sound, and its entry tells the size of the file of inodes
/// and how many inodes are in use.
fn is_told(kinds: &[Option<Kind>], walk: &Walk, entry: &CheckpointEntry) -> bool
    requires { length kinds.now ≤ limits.inode_limit }
    ensures { IsTrue result ↔ TellsTree kinds.now walk.now entry.now }
{
    walk.sound && has_size(entry.size, walk.count) && count_of(kinds) == entry.inodes
}

/// Whether the inodes of a walked checkpoint hold a tree, and as many inodes as are told. The kinds of its
/// inodes are given, and taken out one after another. Refused by `Memory` alone.
fn holds_tree<V: VRead>(
    alloc: Global,
    store: &V,
    awaited: &mut [Option<Kind>],
    root: &Root,
    walk: &Walk,
    entry: &CheckpointEntry,
) -> Result<bool, VolError>
    requires { (numbers : List Bool) × (kinds : List (Option Kind))
        × IsWalk (V.pages store.now) (root_of root.now) numbers kinds walk.now
        × HasKindsOf walk.now.count kinds awaited.old }
    ensures yes { IfOk result (λ holds. IsTrue holds
        → IsTreeOf (V.pages store.now) (root_of root.now) entry.now.size entry.now.inodes) }
    ensures no { IfOk result (λ holds. holds ≡ false
        → IsTreeOf (V.pages store.now) (root_of root.now) entry.now.size entry.now.inodes → ⊥) }
    ensures refused { IfErr result (λ e. e ≡ VolError.Memory) }
{
    if !is_told(awaited, walk, entry) {
        return Ok(false);
    }
    forms_tree(alloc, &ReadTree::new(store, *root), awaited)
}

/// Whether the inodes of a walked checkpoint hold a tree, and those of all before it. Where those of one
/// before it don't, it isn't judged any more. Refused by `Memory` alone.
pub(crate) fn hold_trees<V: VRead>(
    alloc: Global,
    store: &V,
    kinds: &Kinds,
    root: &Root,
    walk: &Walk,
    entry: &CheckpointEntry,
    before: bool,
) -> Result<bool, VolError>
    requires { (numbers : List Bool)
        × IsWalk (V.pages store.now) (root_of root.now) numbers kinds.now walk.now }
    ensures yes { IfOk result (λ hold. IsTrue hold → IsTrue before
        × IsTreeOf (V.pages store.now) (root_of root.now) entry.now.size entry.now.inodes) }
    ensures no { IfOk result (λ hold. hold ≡ false → IsTrue before
        → IsTreeOf (V.pages store.now) (root_of root.now) entry.now.size entry.now.inodes → ⊥) }
    ensures refused { IfErr result (λ e. e ≡ VolError.Memory) }
{
    if !before {
        return Ok(false);
    }
    let mut awaited = kinds_of_blocks(alloc, kinds.as_slice(), walk.count)?;
    holds_tree(alloc, store, awaited.as_mut_slice(), root, walk, entry)
}
