//! What is judged of an inode by itself, and what is known of the kinds of all.
ghost use Rattle.std.specs.Prelude.{◌≡◌, ◌↔◌, ◌⊎◌, ◌<◌, ◌≤◌, ◌*◌, length, false, IsTrue, IfOk, IfErr, Some, cond, is_some};
ghost use Rattle.nl_types.specs.Plain.Limits as limits;
ghost use Rattle.nl_types.specs.declared.error.VolError;
ghost use Rattle.nl_types.specs.declared.kind.Kind.{Kind};
ghost use Rattle.nl_layout.specs.Root.{root_of};
ghost use Rattle.nl_tree.specs.Held.{IsInodeNumber};
ghost use Rattle.nl_check.specs.Private.SoundInodes.{IsMeasured, IsSoundInode, kind_for};
ghost use Rattle.nl_check.specs.Private.Naming.{HasKindsOf, awaited_count};

use crate::directories::is_sound_directory;
use crate::files::is_sound_file;
use crate::shape::INODES_PER_BLOCK;
use nl_layout::{Inode, InodeKind};
use nl_types::limits::{FIRST_INODE, INODE_LIMIT, ROOT_INODE};
use nl_types::{InodeNumber, Kind, VolError};
use nl_vstore::VRead;
use std::alloc::Global;

/// Whether a number is that of the root directory's inode, or an ordinary one.
pub(crate) fn is_inode_number(number: InodeNumber) -> bool
    ensures { IsTrue result ↔ IsInodeNumber number }
{
    let number = number.get();
    number == ROOT_INODE || (FIRST_INODE <= number && number < INODE_LIMIT as u64)
}

/// What an inode is for, where it is for a file or a directory.
pub(crate) fn kind_of(kind: InodeKind) -> Option<Kind>
    ensures { result ≡ kind_for kind }
{
    match kind {
        InodeKind::File => Some(Kind::File),
        InodeKind::Directory => Some(Kind::Directory),
        InodeKind::InodeFile => None,
    }
}

/// Whether an inode with a number is as such an inode has to be, where so many indices lead up to its last
/// block. Refused by `Memory` alone.
pub(crate) fn is_sound_inode<V: VRead>(
    alloc: Global,
    store: &V,
    number: InodeNumber,
    inode: &Inode,
    count: u64,
) -> Result<bool, VolError>
    requires { IsMeasured (V.pages store.now) (root_of inode.now.root) count }
    ensures yes { IfOk result (λ sound. IsTrue sound
        → IsSoundInode (V.pages store.now) number (Some inode.now)) }
    ensures no { IfOk result (λ sound. sound ≡ false
        → IsSoundInode (V.pages store.now) number (Some inode.now) → ⊥) }
    ensures refused { IfErr result (λ e. e ≡ VolError.Memory) }
{
    if !is_inode_number(number) {
        return Ok(false);
    }
    match inode.kind {
        InodeKind::File => Ok(is_sound_file(store, inode, count)),
        InodeKind::Directory => is_sound_directory(alloc, store, inode, count),
        InodeKind::InodeFile => Ok(false),
    }
}

/// How many inodes are in use.
pub(crate) fn count_of(kinds: &[Option<Kind>]) -> u64
    requires { length kinds.now ≤ limits.inode_limit }
    ensures { result ≡ awaited_count kinds.now }
{
    let mut count: u64 = 0;
    for kind in kinds {
        count += count_of_one(kind);
    }
    count
}

fn count_of_one(kind: &Option<Kind>) -> u64
    ensures count { result ≡ cond (is_some kind.now) 1 0 }
    ensures most { result ≤ 1 }
{
    match kind {
        Some(_) => 1,
        None => 0,
    }
}

/// Where the kinds of the inodes that so many blocks may have end, in a table of so many places.
fn end_of_kinds(blocks: u64, count: usize) -> usize
    ensures within { result ≤ count }
    ensures all { (result ≡ count) ⊎ (8 * blocks ≤ result) }
{
    if blocks < count as u64 / INODES_PER_BLOCK as u64 {
        INODES_PER_BLOCK * blocks as usize
    } else {
        count
    }
}

/// The kinds of the inodes that so many blocks may have. Refused by `Memory` alone.
pub(crate) fn kinds_of_blocks(
    alloc: Global,
    kinds: &[Option<Kind>],
    blocks: u64,
) -> Result<Vec<Option<Kind>>, VolError>
    ensures kinds { IfOk result (λ part. HasKindsOf blocks kinds.now part.items) }
    ensures refused { IfErr result (λ e. e ≡ VolError.Memory) }
{
    let end = end_of_kinds(blocks, kinds.len());
    let part = Vec::from_slice(alloc, &kinds[..end])?;
    Ok(part)
}
