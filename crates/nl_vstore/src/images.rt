//! The blocks of an image.
ghost use Rattle.std.specs.Prelude.{◌≡◌, ◌*◌, ◌<◌, ◌↔◌, IfErr, IsErrOf, IsTrue, OnOk, length};
ghost use Rattle.nl_types.specs.Blocks.Segments.{total_blocks};
ghost use Rattle.nl_device.specs.Failures.{CountsReads, FailsToRead};
ghost use Rattle.nl_sufile.specs.Table.{IsSegTable};
ghost use Rattle.nl_vstore.specs.Appended.{IsLoadError};
ghost use Rattle.nl_vstore.specs.Images.{AreBlocksOf, IsPageOf, IsRestAt, IsRestZero, pages_of_bytes, zero_page};

use crate::space::Space;
use nl_sufile::SegTable;
use nl_types::{BLOCK_SIZE, BlockNumber, VolError};

/// Whether all blocks outside the used parts of their segments are zero. Takes no memory.
pub fn is_rest_zero(table: &SegTable, blocks: &[u8]) -> bool
    requires { length blocks.now ≡ 1024 * total_blocks table.now }
    ensures { IsTrue result ↔ IsRestZero table.now (pages_of_bytes blocks.now) }
{
    let count = table.sustat().segments * table.blocks() as usize;
    for number in 0..count {
        if !is_rest_at(table, blocks, number) {
            return false;
        }
    }
    true
}

fn is_rest_at(table: &SegTable, blocks: &[u8], number: usize) -> bool
    requires size { length blocks.now ≡ 1024 * total_blocks table.now }
    requires inside { number < total_blocks table.now }
    requires limits { IsSegTable table.now }
    ensures { IsTrue result ↔ IsRestAt table.now (pages_of_bytes blocks.now) number }
{
    let from = BLOCK_SIZE * number;
    table.is_used(BlockNumber::new(number as u32)) || is_zero(&blocks[from..from + BLOCK_SIZE])
}

fn is_zero(page: &[u8]) -> bool
    ensures { IsTrue result ↔ (page.now ≡ zero_page) }
{
    page == [0; BLOCK_SIZE].as_slice()
}

/// Fills the place with the blocks of a space, 1,024 bytes for each: what the device has where one is used,
/// else zeros. Each used block is loaded once, in order, and nothing else is. Refused by `Fault` where the
/// device failed, and by `Memory`.
pub fn dump<S: Space>(space: &mut S, out: &mut [u8]) -> Result<(), VolError>
    requires { length out.old ≡ 1024 * total_blocks (S.content space.old).segments }
    ensures blocks { OnOk result (AreBlocksOf (S.content space.old) out.new) }
    ensures same { S.content space.new ≡ S.content space.old }
    ensures counted { CountsReads (S.failed space.old) (S.failed space.new) }
    ensures fault { IsErrOf result VolError.Fault → FailsToRead (S.failed space.old) (S.failed space.new) }
    ensures errors { IfErr result IsLoadError }
{
    let table = space.table();
    let count = table.sustat().segments * table.blocks() as usize;
    for number in 0..count {
        let from = BLOCK_SIZE * number;
        dump_block(space, number, &mut out[from..from + BLOCK_SIZE])?;
    }
    Ok(())
}

/// Fills a place with one block.
fn dump_block<S: Space>(space: &mut S, number: usize, out: &mut [u8]) -> Result<(), VolError>
    requires size { length out.old ≡ 1024 }
    requires inside { number < total_blocks (S.content space.old).segments }
    ensures page { OnOk result (IsPageOf (S.content space.old) number out.new) }
    ensures same { S.content space.new ≡ S.content space.old }
    ensures counted { CountsReads (S.failed space.old) (S.failed space.new) }
    ensures fault { IsErrOf result VolError.Fault → FailsToRead (S.failed space.old) (S.failed space.new) }
    ensures errors { IfErr result IsLoadError }
{
    let number = BlockNumber::new(number as u32);
    if !space.table().is_used(number) {
        out.fill(0);
        return Ok(());
    }
    let page = space.load(number)?;
    out.copy_from_slice(page.bytes());
    Ok(())
}
