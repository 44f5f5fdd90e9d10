//! Free inode numbers.
ghost use Rattle.std.specs.Prelude.{◌≡◌, ◌<◌, option_copied};
ghost use Rattle.nl_types.specs.Plain.Limits as limits;
ghost use Rattle.nl_layout.specs.Root.{root_of};
ghost use Rattle.nl_ifile.specs.Inodes.{inode_at};
ghost use Rattle.nl_ifile.specs.Changing.{NumbersAscend, inodes_with};
ghost use Rattle.nl_ifile.specs.Free.{FindsFree, FindsFreeInBlock, change_at, inode_of_page};

use crate::change::InodeChange;
use crate::read::{INODES_PER_BLOCK, inode_in_page};
use nl_blocktree::Cursor;
use nl_layout::{Inode, Root};
use nl_types::limits::LAST_INODE;
use nl_types::{InodeNumber, Page};
use nl_vstore::VRead;

/// The lowest number from `from` on that is free when the changes are made, or none where all up to 524,287
/// are in use. It takes no memory.
pub fn next_ino<V: VRead>(
    store: &V,
    root: Root,
    changes: &[InodeChange],
    from: InodeNumber,
) -> Option<InodeNumber>
    requires { NumbersAscend changes.now }
    ensures { FindsFree
        (inodes_with changes.now (inode_at (V.pages store.now) (root_of root))) from result }
{
    let mut cursor = Cursor::new(store, root);
    for block in from.get() / INODES_PER_BLOCK..LAST_INODE / INODES_PER_BLOCK + 1 {
        let first = from.get().max(block * INODES_PER_BLOCK);
        let free = free_in_block(&mut cursor, changes, first);
        if free.is_some() {
            return free;
        }
    }
    None
}

/// The lowest free number from `first` on in the block of that number.
fn free_in_block<V: VRead>(
    cursor: &mut Cursor<'_, V>,
    changes: &[InodeChange],
    first: u64,
) -> Option<InodeNumber>
    requires ascending { NumbersAscend changes.now }
    requires in_range { first < limits.inode_limit }
    ensures found { FindsFreeInBlock (inodes_with changes.now
        (inode_at (V.pages cursor.old.store.now) (root_of cursor.old.root))) first result }
    ensures store { cursor.new.store.now ≡ cursor.old.store.now }
    ensures root { cursor.new.root ≡ cursor.old.root }
{
    free_on_page(cursor.page_at(first / INODES_PER_BLOCK), changes, first)
}

/// The lowest free number from `first` on in the block of that number, whose page is given where it is there.
fn free_on_page(page: Option<&Page>, changes: &[InodeChange], first: u64) -> Option<InodeNumber>
    requires ascending { NumbersAscend changes.now }
    requires in_range { first < limits.inode_limit }
    ensures { FindsFreeInBlock
        (inodes_with changes.now (inode_of_page (option_copied page.entry))) first result }
{
    for number in first..(first / INODES_PER_BLOCK + 1) * INODES_PER_BLOCK {
        let number = InodeNumber::new(number);
        if changed_inode(page, changes, number).is_none() {
            return Some(number);
        }
    }
    None
}

/// The inode that a number has when the changes are made, in the block whose page is given where it is there.
fn changed_inode(page: Option<&Page>, changes: &[InodeChange], number: InodeNumber) -> Option<Inode>
    requires ascending { NumbersAscend changes.now }
    ensures { result ≡ inodes_with changes.now (inode_of_page (option_copied page.entry)) number }
{
    match change_of(changes, number) {
        Some(change) => change.inode,
        None => inode_in_page(page?, (number.get() % INODES_PER_BLOCK) as usize),
    }
}

/// The change of a number, if there is one.
fn change_of(changes: &[InodeChange], number: InodeNumber) -> Option<&InodeChange>
    requires ascending { NumbersAscend changes.now }
    ensures { option_copied result ≡ change_at changes.now number }
{
    let index = changes.partition_point(|change| change.number < number);
    match changes.get(index) {
        Some(change) if change.number == number => Some(change),
        _ => None,
    }
}
