//! Copying the bytes of a file's new pages.
ghost use Rattle.std.specs.Prelude.{◌≡◌, ◌+◌, ◌≤◌, ◌<◌, ◌^◌, ℕ, length, option_copied, slice_index};
ghost use Rattle.nl_tree.specs.Bytes.{AreBytesOver, byte_over};
ghost use Rattle.nl_tree.specs.Overlays.{new_page_at};

use crate::overlay::FileBlocks;
use nl_types::{BLOCK_SIZE, Page};

/// Copies bytes of a page over those of the slice, or leaves them where there is no page.
fn copy_page(page: Option<&Page>, start: usize, into: &mut [u8])
    requires { start + length into.old ≤ 1024 }
    ensures { (k : ℕ) → k < length into.new
        → slice_index into.new k ≡ byte_over (option_copied page.entry) (start + k) (slice_index into.old k) }
{
    if let Some(page) = page {
        into.copy_from_slice(&page.bytes()[start..start + into.len()]);
    }
}

/// Copies the bytes of a file's new pages over those of the file from an offset on.
pub(crate) fn copy_new_pages(file: &FileBlocks, offset: u64, into: &mut [u8])
    requires { offset + length into.old < 2 ^ 64 }
    ensures { AreBytesOver (new_page_at file.now) offset into.old into.new }
{
    let mut done = 0;
    while done < into.len() {
        let position = offset + done as u64;
        let start = (position % BLOCK_SIZE as u64) as usize;
        let count = (into.len() - done).min(BLOCK_SIZE - start);
        let page = file.new_page(position / BLOCK_SIZE as u64);
        copy_page(page, start, &mut into[done..done + count]);
        done += count;
    }
}
