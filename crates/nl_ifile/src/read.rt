//! Reading inodes.
ghost use Rattle.std.specs.Prelude.{◌≡◌, ◌<◌};
ghost use Rattle.nl_layout.specs.Root.{root_of};
ghost use Rattle.nl_ifile.specs.Inodes.{inode_at, inode_in};

use nl_blocktree::get;
use nl_layout::{INODE_SIZE, Inode, InodeEntry, Root};
use nl_types::{InodeNumber, Page};
use nl_vstore::VRead;

/// How many inodes a block has.
pub(crate) const INODES_PER_BLOCK: u64 = 8;

/// The inode of a number. None where the number is free: its block isn't there, or its place in the block is
/// free or spells no inode. It takes no memory, and answers on any pages.
pub fn inode<V: VRead>(store: &V, root: Root, number: InodeNumber) -> Option<Inode>
    ensures { result ≡ inode_at (V.pages store.now) (root_of root) number }
{
    let page = get(store, root, number.get() / INODES_PER_BLOCK)?;
    inode_in_page(page, (number.get() % INODES_PER_BLOCK) as usize)
}

/// The inode at a place of a block, if it spells one.
pub(crate) fn inode_in_page(page: &Page, place: usize) -> Option<Inode>
    requires { place < 8 }
    ensures { result ≡ inode_in page.now place }
{
    let start = place * INODE_SIZE;
    match InodeEntry::read(&page.bytes()[start..start + INODE_SIZE])? {
        InodeEntry::Free => None,
        InodeEntry::InUse(inode) => Some(inode),
    }
}
