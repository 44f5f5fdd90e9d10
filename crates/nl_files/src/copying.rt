//! Copying the bytes of a file's blocks.
ghost use Rattle.std.specs.Prelude.{◌≡◌, ◌+◌, ◌≤◌, ◌<◌, ◌^◌, ℕ, length, option_copied, slice_index};
ghost use Rattle.nl_types.specs.Blocks.Roots.{page_at};
ghost use Rattle.nl_layout.specs.Root.{root_of};
ghost use Rattle.nl_tree.specs.Contents.{byte_in};
ghost use Rattle.nl_tree.specs.Reading.{AreBytesFrom};

use nl_blocktree::Cursor;
use nl_layout::Root;
use nl_types::{BLOCK_SIZE, Page};
use nl_vstore::VRead;

/// Copies bytes of a block to fill the slice. A block that isn't stored is zeros.
fn copy_block(page: Option<&Page>, start: usize, into: &mut [u8])
    requires { start + length into.old ≤ 1024 }
    ensures { (k : ℕ) → k < length into.new
        → slice_index into.new k ≡ byte_in (option_copied page.entry) (start + k) }
{
    match page {
        Some(page) => into.copy_from_slice(&page.bytes()[start..start + into.len()]),
        None => into.fill(0),
    }
}

/// Fills the slice with the bytes of a root's blocks from an offset on. It takes no memory, and reads each
/// node once.
pub(crate) fn copy_bytes<V: VRead>(store: &V, root: Root, offset: u64, into: &mut [u8])
    requires { offset + length into.old < 2 ^ 64 }
    ensures { AreBytesFrom (page_at (V.pages store.now) (root_of root)) offset into.new }
{
    let mut cursor = Cursor::new(store, root);
    let mut done = 0;
    while done < into.len() {
        let position = offset + done as u64;
        let start = (position % BLOCK_SIZE as u64) as usize;
        let count = (into.len() - done).min(BLOCK_SIZE - start);
        let page = cursor.page_at(position / BLOCK_SIZE as u64);
        copy_block(page, start, &mut into[done..done + count]);
        done += count;
    }
}
