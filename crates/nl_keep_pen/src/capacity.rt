//! How much the next backup can write.
ghost use Rattle.std.specs.Prelude.{◌≡◌, IfErr, IfOk};
ghost use Rattle.nl_types.specs.declared.error.VolError;
ghost use Rattle.nl_keep_pen.specs.Capacities.{IsCapacityOf, IsMost, IsMostIn, most_segments};

use nl_sufile::SegTable;
use nl_types::limits::{SEGMENT_LIMIT, VOLUME_BLOCK_LIMIT};
use nl_types::{Geometry, VolError};
use std::alloc::Global;

/// The most blocks that the next checkpoint can write in the segments that there are: data, nodes,
/// directories and inodes.
fn most_written(table: &SegTable) -> usize
    ensures { IsMost table.now result }
{
    table.room(true)
}

/// How many segments of so many blocks a volume can have.
pub(crate) fn most_segments(blocks: u32) -> u32
    ensures { result ≡ most_segments blocks }
{
    (VOLUME_BLOCK_LIMIT / blocks.max(1)).min(SEGMENT_LIMIT)
}

/// The same where the volume has so many segments, none less than it has. Refused by `Memory` alone.
fn most_written_in(alloc: Global, table: &SegTable, segments: u32) -> Result<usize, VolError>
    ensures most { IfOk result (IsMostIn table.now segments) }
    ensures refused { IfErr result (λ e. e ≡ VolError.Memory) }
{
    let is_more = table.sustat().segments <= segments as usize;
    if is_more && Geometry::new(segments, table.blocks()).is_ok() {
        let grown = table.grown(alloc, segments)?;
        Ok(most_written(&grown))
    } else {
        Ok(most_written(table))
    }
}

/// How many blocks the next backup can write.
#[derive(Clone, Copy)]
pub struct Capacity {
    /// As the volume is.
    pub present: usize,
    /// Where it grows as far as it can.
    pub grown: usize,
    /// How many segments it has then.
    pub segments: u32,
}

impl Capacity {
    /// That of a volume of these segments. Refused by `Memory` alone.
    pub fn of(alloc: Global, table: &SegTable) -> Result<Capacity, VolError>
        ensures capacity { IfOk result (IsCapacityOf table.now) }
        ensures refused { IfErr result (λ e. e ≡ VolError.Memory) }
    {
        let segments = most_segments(table.blocks());
        Ok(Capacity {
            present: most_written(table),
            grown: most_written_in(alloc, table, segments)?,
            segments,
        })
    }
}
