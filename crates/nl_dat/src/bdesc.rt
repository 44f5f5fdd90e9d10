//! What the payload blocks of a segment are, and where their pages stand now.
ghost use Rattle.std.specs.Prelude.{◌≡◌, ◌+◌, ◌<◌, ◌++◌, ◌^◌, length, IfOk, OnOk};
ghost use Rattle.nl_dat.specs.Table.{addresses_of, entry_in};
ghost use Rattle.nl_dat.specs.Described.{desc_at, descs_from};

use crate::entries::{DatEntry, block_at};
use crate::moving::row_tag;
use nl_layout::{Level, Tag};
use nl_types::{BlockNumber, InodeNumber};
use nl_vstore::Payload;
use std::alloc::{AllocError, Global};

/// A payload block of a segment, as `nilfs_bdesc` of libnilfs has it: what it was written for, and where the
/// page of its virtual number stands now. The block is dead where that is in another block, or in none.
#[derive(Clone, Copy)]
pub struct Bdesc {
    /// The inode of its file; 6 for the file of inodes.
    pub inode: InodeNumber,
    /// The index of a data block in its file, or the position of a node in its level, from 0.
    pub offset: u64,
    pub level: Level,
    /// The block itself.
    pub old_block: BlockNumber,
    /// Where the page of its virtual number stands, where the number is in use.
    pub block: Option<BlockNumber>,
}

impl Bdesc {
    ghost use Rattle.nl_dat.specs.Described.{desc_of};

    /// The block with this tag, by the table of virtual numbers.
    fn new(table: &[Option<DatEntry>], tag: Tag, old_block: BlockNumber) -> Bdesc
        ensures { result ≡ desc_of (addresses_of (entry_in table.now)) old_block tag }
    {
        Bdesc {
            inode: tag.inode,
            offset: tag.offset,
            level: tag.level,
            old_block,
            block: block_at(table, tag.number),
        }
    }
}

/// Adds the description of a block, if it has a tag.
fn push_desc(
    descs: &mut Vec<Bdesc>,
    table: &[Option<DatEntry>],
    tag: Option<Tag>,
    block: BlockNumber,
) -> Result<(), AllocError>
    ensures { OnOk result (descs.new.items
        ≡ descs.old.items ++ desc_at (addresses_of (entry_in table.now)) block tag) }
{
    if let Some(tag) = tag {
        descs.push(Bdesc::new(table, tag, block))?;
    }
    Ok(())
}

/// Descriptions of the payload in a row of blocks, the first of which is given.
pub(crate) fn describe_row(
    alloc: Global,
    table: &[Option<DatEntry>],
    row: &[Option<Payload>],
    first: u32,
) -> Result<Vec<Bdesc>, AllocError>
    requires { first + length row.now < 2 ^ 32 }
    ensures { IfOk result (λ descs. descs.items
        ≡ descs_from (addresses_of (entry_in table.now)) first row.now) }
{
    let mut descs = Vec::new(alloc);
    for position in 0..row.len() as u32 {
        let tag = row_tag(row, position);
        push_desc(&mut descs, table, tag, BlockNumber::new(first + position))?;
    }
    Ok(descs)
}
