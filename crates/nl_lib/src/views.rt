//! What is told of a volume. Each call is answered from what the pen holds in memory.
ghost use Rattle.std.specs.Prelude.{◌≡◌, ◌↔◌, ◌⊎◌, ◌+◌, ◌<◌, ◌≤◌, length, IfErr, IfOk, IsErr, IsErrOf, OnErr, slice_get};
ghost use Rattle.std.specs.Option.{ok_or, option_map};
ghost use Rattle.nl_types.specs.Plain.Rows.{kept_row};
ghost use Rattle.nl_types.specs.Blocks.Segments.{clean_segments};
ghost use Rattle.nl_types.specs.Plain.Worlds as worlds;
ghost use Rattle.nl_types.specs.Plain.Worlds.{World};
ghost use Rattle.nl_cpfile.specs.Tables as cpfile;
ghost use Rattle.nl_dat.specs.Described.{descs_of};
ghost use Rattle.nl_vstore.specs.Stores.{capacity, numbered_in};
ghost use Rattle.nl_dat.specs.Table.{dat_entry_of};
ghost use Rattle.nl_vstore.specs.Summaries.{IsOfLogs, payload_row};
ghost use Rattle.nl_commit.specs.CleanerViews.{needed_told};
ghost use Rattle.nl_commit.specs.Layout.{MeansWorld};
ghost use Rattle.nl_core.specs.Views.{counted};

use nl_core::{Cpstat, Pen};
use nl_dat::{Bdesc, DatEntry};
use nl_device::Device;
use nl_sufile::Sustat;
use nl_types::{CheckpointNumber, Row, Segment, SegmentInfo, VirtualNumber, VolError};
use nl_vstore::laws;
use std::alloc::Global;

/// What is told of a kept checkpoint, after `nilfs_get_cpinfo`. Refused by `NoCheckpoint` where it isn't
/// kept. It takes no memory.
pub fn get_cpinfo<D: Device>(pen: &Pen<D>, number: CheckpointNumber) -> Result<Row, VolError>
    ensures layout { result ≡ kept_row number (cpfile.rows pen.now.lists.table) }
    ensures world { (w : World) → MeansWorld pen.now w
        → result ≡ kept_row number (worlds.rows w) }
{
    pen.cpinfo(number)
}

/// How many checkpoints and snapshots are kept, and the latest one's number, after `nilfs_get_cpstat`. It
/// takes no memory.
pub fn get_cpstat<D: Device>(pen: &Pen<D>) -> Cpstat
    ensures layout { result ≡ cpfile.cpstat_of pen.now.lists.table }
    ensures world { (w : World) → MeansWorld pen.now w → result ≡ counted w }
{
    pen.cpstat()
}

/// What is known of a segment, after `nilfs_get_suinfo`: its state, the moment of its last log, and how many
/// of its blocks are used. Refused by `BadRange` where there is no such segment. It takes no memory.
pub fn get_suinfo<D: Device>(pen: &Pen<D>, segment: Segment) -> Result<SegmentInfo, VolError>
    ensures { result ≡ ok_or (slice_get pen.now.store.segments.each segment) VolError.BadRange }
{
    pen.segments().suinfo(segment)
}

/// How many needed blocks a segment has: those whose virtual block numbers have not ended, or belong to a
/// kept checkpoint. libnilfs has no such call. Refused by `BadRange` where there is no such segment. It takes
/// no memory.
pub fn get_needed<D: Device>(pen: &Pen<D>, segment: Segment) -> Result<u32, VolError>
    ensures { result ≡ needed_told pen.now segment }
{
    pen.needed(segment)
}

/// How many segments there are, and of them how many are clean, and how many dirty, after `nilfs_get_sustat`.
/// It takes no memory.
pub fn get_sustat<D: Device>(pen: &Pen<D>) -> Sustat
    ensures segments { result.segments ≡ length pen.now.store.segments.each }
    ensures clean { result.clean ≡ length (clean_segments pen.now.store.segments) }
    ensures dirty { result.dirty + result.clean ≡ result.segments }
{
    pen.segments().sustat()
}

/// The period and the block of a virtual block number, where it is in use, after `nilfs_get_vinfo`. Refused
/// by `BadRange` for 0 and for numbers above those that there are: one for each block of the device. It takes
/// no memory.
pub fn get_vinfo<D: Device>(
    pen: &Pen<D>,
    number: VirtualNumber,
) -> Result<Option<DatEntry>, VolError>
    ensures range { IsErr result ↔ ((number ≡ 0) ⊎ (capacity pen.now.store < number)) }
    ensures kind { OnErr result (result ≡ Err VolError.BadRange) }
    ensures entry { IfOk result (λ entry.
        entry ≡ option_map dat_entry_of (numbered_in pen.now.store number)) }
{
    pen.entry(number)
}

/// A description of each payload block of the logs of a segment, in the order of the blocks, be their numbers
/// in use or not, after `nilfs_get_bdescs`. The logs are those that the device has there. Refused by
/// `BadRange` where there is no such segment, and by `Memory` for the list.
pub fn get_bdescs<D: Device>(
    alloc: Global,
    pen: &Pen<D>,
    segment: Segment,
) -> Result<Vec<Bdesc>, VolError>
    ensures range { IsErrOf result VolError.BadRange
        ↔ (length pen.now.store.segments.each ≤ segment) }
    ensures kinds { IfErr result (λ e. (e ≡ VolError.BadRange) ⊎ (e ≡ VolError.Memory)) }
    ensures descs { IfOk result (λ descs. descs.items
        ≡ descs_of pen.now.store segment (payload_row pen.now.store segment)) }
    ensures logs { IsOfLogs pen.now.store segment (payload_row pen.now.store segment) }
{
    pen.means_a_world();
    laws::summaries_are_one();
    pen.bdescs(alloc, segment)
}
