//! What is judged of a file by its inode and its blocks.
ghost use Rattle.std.specs.Prelude.{◌≡◌, ◌↔◌, ◌+◌, ◌*◌, ◌/◌, ◌<◌, ◌≤◌, ℕ, IsTrue, slice_index};
ghost use Rattle.nl_types.specs.Blocks.Roots.{page_at};
ghost use Rattle.nl_layout.specs.Root.{root_of};
ghost use Rattle.nl_tree.specs.Held.{byte_stored};
ghost use Rattle.nl_check.specs.Private.SoundInodes.{IsMeasured};
ghost use Rattle.nl_check.specs.Private.SoundFiles.{IsSoundFile};

use nl_blocktree::get;
use nl_layout::Inode;
use nl_types::limits::FILE_LIMIT;
use nl_types::{BLOCK_SIZE, Page};
use nl_vstore::VRead;

/// Whether all bytes of a page from one on are zero.
fn has_zeros_from(page: &Page, from: usize) -> bool
    requires { from ≤ 1024 }
    ensures { IsTrue result ↔ ((k : ℕ) → from ≤ k → k < 1024 → slice_index page.now k ≡ 0) }
{
    let block = page.bytes();
    let bytes = block.as_slice();
    prove!(block[..].len() == BLOCK_SIZE);
    for at in from..BLOCK_SIZE {
        if bytes[at] != 0 {
            return false;
        }
    }
    true
}

/// Whether the bytes behind the end of a file are zero, in the block of its end.
fn has_zeros_behind<V: VRead>(store: &V, inode: &Inode) -> bool
    ensures { IsTrue result ↔ ((k : ℕ) → inode.now.size ≤ k → k / 1024 ≡ inode.now.size / 1024
        → byte_stored (page_at (V.pages store.now) (root_of inode.now.root)) k ≡ 0) }
{
    match get(store, inode.root, inode.size / BLOCK_SIZE as u64) {
        Some(page) => has_zeros_from(page, (inode.size % BLOCK_SIZE as u64) as usize),
        None => true,
    }
}

/// How many blocks have so many bytes.
fn block_count(size: u64) -> u64
    ensures enough { size ≤ 1024 * result }
    ensures least { 1024 * result < size + 1024 }
{
    size.div_ceil(BLOCK_SIZE as u64)
}

/// Whether a file has at most 64 MiB, no block past its end, and zeros behind it, where so many indices lead
/// up to its last block.
pub(crate) fn is_sound_file<V: VRead>(store: &V, inode: &Inode, count: u64) -> bool
    requires { IsMeasured (V.pages store.now) (root_of inode.now.root) count }
    ensures { IsTrue result
        ↔ IsSoundFile (page_at (V.pages store.now) (root_of inode.now.root)) inode.now.size }
{
    inode.size <= FILE_LIMIT && count <= block_count(inode.size) && has_zeros_behind(store, inode)
}
