//! What the layers above know of a space of blocks.
ghost use Rattle.std.specs.Prelude.{◌≡◌, ◌+◌, ◌*◌, ◌<◌, ◌≤◌, length, IfErr, OnErr, OnOk, IfOk, IsErrOf, Some, option_copied};
ghost use Rattle.std.specs.Option.{option_map};
ghost use Rattle.nl_types.specs.Blocks.Segments.{HaveLogs, IsUsed, StaysUsed, info_of};
ghost use Rattle.nl_types.specs.Plain.Limits.{IsGeometry};
ghost use Rattle.nl_types.specs.Blocks.Placing.{LacksSpace};
ghost use Rattle.nl_device.specs.Failures.{Failures, CountsReads, CountsWrites, FailsToRead, FailsToWrite};
ghost use Rattle.nl_sufile.specs.Table.{IsSegTable};
ghost use Rattle.nl_vstore.specs.Content.{SpaceContent, HoldsOnlyUsed, IsRowOf, KeepsUsed, IsFreed, IsGrown, payload_page};
ghost use Rattle.nl_vstore.specs.Logs.{AreWholeLogs};
ghost use Rattle.nl_vstore.specs.Appended.{IsAppended, IsBrokenOff, IsAppendError, IsLoadError};

use crate::payload::Payload;
use nl_sufile::SegTable;
use nl_types::{BlockNumber, CheckpointNumber, Page, Segment, VolError};
use std::alloc::Global;

/// Numbered blocks in segments. Payload is appended in logs, is held in memory and stored on a device, and
/// goes when its segment is freed.
pub trait Space: Drop {
    /// The segments, the payload in memory, and the pages on the device. Only what lies in used blocks is
    /// promised.
    ghost content: { Self → SpaceContent };

    /// How often the device has failed in its reads, and how often in its writes.
    ghost failed: { Self → Failures };

    /// Writes payload in logs and answers the numbers of its blocks, in order. The checkpoint number goes
    /// into the summaries, and `now`, a moment in whole seconds, into them and the segments' stamps. With
    /// `reserve`, for a checkpoint, two clean segments stay where any is taken.
    ///
    /// Refused by `NoSpace` where no list of logs fits, by `Memory`, and by `Fault` exactly where the device
    /// failed. All memory is taken before the first block is put. So only a fault leaves a change: logs that
    /// were written before it stay, and the segment of the log that was not is in error.
    fn append(
        &mut self,
        alloc: Global,
        items: &[Payload],
        checkpoint: CheckpointNumber,
        now: u64,
        reserve: bool,
    ) -> Result<Vec<BlockNumber>, VolError>
        ensures appended { IfOk result (λ numbers. IsAppended (content self.old) (content self.new)
            reserve now checkpoint items.now numbers.items) }

        // Whatever comes of it, what is used stays.
        ensures used_stay { KeepsUsed (content self.old).segments (content self.old) (content self.new) }
        ensures stays { StaysUsed (content self.old).segments (content self.new).segments }
        ensures counted { CountsWrites (failed self.old) (failed self.new) }

        ensures unfailed { OnOk result (failed self.new ≡ failed self.old) }
        ensures fault { IsErrOf result VolError.Fault → FailsToWrite (failed self.old) (failed self.new) }
        ensures broken_off { IsErrOf result VolError.Fault
            → IsBrokenOff (content self.old) (content self.new) reserve now checkpoint items.now }
        ensures no_space { IsErrOf result VolError.NoSpace
            → LacksSpace (content self.old).segments reserve (length items.now) }
        ensures no_space_same { IsErrOf result VolError.NoSpace → self.new ≡ self.old }
        ensures memory_same { IsErrOf result VolError.Memory → self.new ≡ self.old }
        ensures errors { IfErr result IsAppendError };

    /// The page in memory at a block number. None at a summary block, and at a number that is none of the
    /// device's.
    fn page(&self, number: BlockNumber) -> Option<&Page>
        ensures { option_copied result ≡ option_map payload_page ((content self.now).held number) };

    /// Reads a used block from the device, a summary block too. Refused by `Fault` where the device failed,
    /// and by `Memory`; nothing changes either way.
    fn load(&mut self, number: BlockNumber) -> Result<Page, VolError>
        requires { IsUsed (content self.old).segments number }
        ensures page { IfOk result (λ page. (content self.old).stored number ≡ Some page) }
        ensures same { content self.new ≡ content self.old }
        ensures counted { CountsReads (failed self.old) (failed self.new) }
        ensures fault { IsErrOf result VolError.Fault → FailsToRead (failed self.old) (failed self.new) }
        ensures errors { IfErr result IsLoadError };

    /// What is known of the segments.
    fn table(&self) -> &SegTable
        ensures { result.now ≡ (content self.now).segments };

    /// The payload in the used part of a segment, block by block: none at a summary block.
    fn summary(&self, segment: Segment) -> &[Option<Payload>]
        requires { segment < length (content self.now).segments.each }
        ensures count { length result.now ≡ (info_of (content self.now).segments.each segment).used }
        ensures each { IsRowOf (content self.now).held
            (segment * (content self.now).segments.blocks) result.now };

    /// Empties a segment, in memory and on the device. It is clean then.
    fn free(&mut self, segment: Segment)
        requires { segment < length (content self.old).segments.each }
        ensures freed { IsFreed segment (content self.old) (content self.new) }
        ensures counted { CountsWrites (failed self.old) (failed self.new) };

    /// Makes it a space of so many segments, the new ones clean. Refused by `Fault` exactly where the device
    /// failed, and by `Memory`; it stays as it is then.
    fn grow(&mut self, alloc: Global, segments: u32) -> Result<(), VolError>
        requires more { length (content self.old).segments.each ≤ segments }
        requires limits { IsGeometry segments (content self.old).segments.blocks }
        ensures grown { OnOk result (IsGrown segments (content self.old) (content self.new)) }
        ensures same { OnErr result (content self.new ≡ content self.old) }
        ensures counted { CountsWrites (failed self.old) (failed self.new) }
        ensures unfailed { OnOk result (failed self.new ≡ failed self.old) }
        ensures untried { IsErrOf result VolError.Memory → failed self.new ≡ failed self.old }
        ensures fault { IsErrOf result VolError.Fault → FailsToWrite (failed self.old) (failed self.new) }
        ensures errors { IfErr result IsLoadError };

    /// The segments are within the limits of a volume, and tidy.
    ghost limits: { (s : Self) → IsSegTable (content s).segments };

    /// Memory has payload in used blocks alone.
    ghost holds_only_used: { (s : Self) → HoldsOnlyUsed (content s) };

    /// The used part of each segment is whole logs, one right behind another.
    ghost whole_logs: { (s : Self) → AreWholeLogs (content s) };

    /// A segment that is neither clean nor in error has logs.
    ghost have_logs: { (s : Self) → HaveLogs (content s).segments };
}
