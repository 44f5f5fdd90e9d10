//! Changing inodes.
ghost use Rattle.std.specs.Prelude.{◌≡◌, ◌<◌, ◌*◌, ℕ, length, All, OnErr, IfOk, IfErr};
ghost use Rattle.nl_types.specs.Blocks.Roots.{pages_of};
ghost use Rattle.nl_layout.specs.Root.{root_of};
ghost use Rattle.nl_vstore.specs.Stores.{content_in};
ghost use Rattle.nl_blocktree.specs.Numbering.{CanTake};
ghost use Rattle.nl_blocktree.specs.Putting.{CanChange};
ghost use Rattle.nl_ifile.specs.Inodes.{IsInodeFile};
ghost use Rattle.nl_ifile.specs.Changing.{NumbersAscend, NumbersAreInRange, PutsInodes};

use crate::change::InodeChange;
use crate::changed_block::changed_blocks;
use nl_blocktree::put_all;
use nl_layout::Root;
use nl_types::limits::INODE_FILE_NUMBER;
use nl_types::{InodeNumber, VolError};
use nl_vstore::{Batch, Vstore};
use std::alloc::Global;

/// Changes inodes: adds to the batch what is born and what ends by it, and answers the root of the changed
/// file. A block of inodes is there exactly where one of its eight is in use, and one that has the same bytes
/// afterwards isn't written.
///
/// Refused by `Memory` alone; then the batch is as before.
pub fn put_inodes<V: Vstore>(
    alloc: Global,
    store: &V,
    batch: &mut Batch,
    root: Root,
    changes: &[InodeChange],
) -> Result<Root, VolError>
    requires file { CanChange (V.store store.now) (root_of root) batch.old }
    requires inodes { IsInodeFile (pages_of (content_in (V.store store.now))) (root_of root) }
    requires ascending { NumbersAscend changes.now }
    requires in_range { NumbersAreInRange changes.now }
    ensures ok { IfOk result (λ new. PutsInodes (content_in (V.store store.now))
        (root_of root) (root_of new) changes.now batch.old batch.new) }
    ensures fits { IfOk result (λ _. CanTake (V.store store.now) batch.new) }
    ensures same { OnErr result (batch.new ≡ batch.old) }
    ensures errors { IfErr result (λ e. e ≡ VolError.Memory) }
{
    let blocks = changed_blocks(alloc, store, &root, changes)?;
    put_all(
        alloc,
        store,
        batch,
        InodeNumber::new(INODE_FILE_NUMBER),
        root,
        &blocks,
    )
}
