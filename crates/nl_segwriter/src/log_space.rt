//! Space as logs on a device.
ghost use Rattle.std.specs.Prelude.{◌≡◌, ◌+◌, ◌*◌, ◌<◌, ◌≤◌, ◌⊎◌, OnOk, OnErr, IfErr, IfOk, IsOkUnless, Some, ℕ, length};
ghost use Rattle.std.specs.List.{AllByRecursion};
ghost use Rattle.nl_types.specs.Blocks.Segments.{HaveLogs, StaysUsed, active_place, info_of, lowest_clean, total_blocks, with_active, with_error};
ghost use Rattle.nl_types.specs.Blocks.Placing.{IsNextLog, AreNextLogs, first_block, with_log, with_logs};
ghost use Rattle.std.proofs.Props.{props};
ghost use Rattle.nl_device.specs.Failures.{CountsWrites, FailsToWrite};
ghost use Rattle.nl_sufile.specs.Table.{IsSegTable};
ghost use Rattle.nl_vstore.specs.Content.{HoldsOnlyUsed, KeepsUsed, new_content};
ghost use Rattle.nl_vstore.specs.Logs.{AreWholeLogs, StandsFrom};
ghost use Rattle.nl_vstore.specs.Appended.{KeepsOtherBlocks};
ghost use Rattle.nl_segwriter.specs.Images.{HoldLogs, IsTableShapeOf, IsSpaceOf, page_in};
ghost use Rattle.nl_segwriter.specs.Private.Staging.{IsReady, logs_of, whole_of};
ghost use Rattle.nl_segwriter.specs.Writing.{held_in, space_content, SameOutsideLog, MayBeTaken, StagedStands, LogsStand, BreaksOff, refusal_of};

use crate::images::Restored;
use crate::numbers::numbers_of;
use crate::payload::{add_blocks, drop_row, hold_row, no_payload};
use crate::put::{put_pages, put_row};
use crate::staging::{Staged, stage};
use nl_device::{Device, DeviceError, Fault};
use nl_sufile::SegTable;
use nl_types::{
    BlockNumber, CheckpointNumber, Geometry, Items, Page, Position, Segment, VolError, laws,
};
use nl_vstore::{Payload, Space};
use std::alloc::Global;

/// Logs on a device, and their payload in memory.
#[derive(Drop)]
pub struct LogSpace<D: Device> {
    device: D,
    table: SegTable,
    payload: Items<Option<Payload>>,
    ghost segment_size: { table.blocks ≡ (D.shape device).blocks },
    ghost segment_count: { length table.each ≡ (D.shape device).segments },
    ghost limits: { IsSegTable table } by { Prim.hlevel props },
    ghost sized: { length payload ≡ (D.shape device).segments * (D.shape device).blocks },
    ghost unheld: { HoldsOnlyUsed (space_content table payload (D.pages device)) },
    ghost logged: { HaveLogs table },
    ghost whole: { AreWholeLogs (space_content table payload (D.pages device)) },
}

impl<D: Device> LogSpace<D> {
    /// A space of clean segments on a device of this geometry. Refused by `Memory` alone; the device is
    /// dropped then.
    pub fn new(alloc: Global, device: D, geometry: Geometry) -> Result<Self, VolError>
        requires { D.shape device ≡ geometry }
        ensures content { IfOk result (λ s.
            ⟦<LogSpace<D> as Space>⟧.content s ≡ new_content geometry (D.pages device)) }
        ensures failures { IfOk result (λ s. ⟦<LogSpace<D> as Space>⟧.failed s ≡ D.failed device) }
        ensures refused { IsOkUnless result VolError.Memory }
    {
        let table = SegTable::new(alloc, geometry)?;
        let payload = no_payload(alloc, geometry.total())?;
        Ok(LogSpace {
            device,
            table,
            payload,
        })
    }

    /// The space of an image on a device of its geometry, which gets the pages, in the order of their
    /// numbers. Where the device failed, it is given back. It takes no memory.
    pub fn restore(device: D, table: SegTable, restored: Restored) -> Result<Self, D>
        requires shape { IsTableShapeOf (D.shape device) table }
        requires pages { length restored.pages ≡ total_blocks table }
        requires logs { HoldLogs table (page_in restored.pages) restored.payload }
        requires have_logs { HaveLogs table }
        ensures content { IfOk result (λ s. IsSpaceOf table restored
            (⟦<LogSpace<D> as Space>⟧.content s)) }
        ensures failures { IfOk result (λ s. ⟦<LogSpace<D> as Space>⟧.failed s ≡ D.failed device) }
        ensures refused { IfErr result (λ d. FailsToWrite (D.failed device) (D.failed d)) }
    {
        let Restored { pages, payload } = restored;
        // Tells that the table is within the limits.
        table.blocks();
        let mut device = device;
        match put_pages(&mut device, pages) {
            Ok(()) => Ok(LogSpace {
                device,
                table,
                payload,
            }),
            Err(Fault) => Err(device),
        }
    }

    // Writes one log. Where that fails, its segment is in error.
    fn write_log(&mut self, staged: Staged) -> Result<(), Fault>
        requires next { IsNextLog self.old.table staged.log }
        requires ready { IsReady staged }
        ensures table { OnOk result (self.new.table ≡ with_log self.old.table staged.log staged.stamp) }
        ensures stands { OnOk result (StagedStands self.old.table.blocks staged
            (⟦<Self as Space>⟧.content self.new)) }
        ensures broken { OnErr result (self.new.table ≡ with_error self.old.table staged.log.segment) }
        ensures failed { OnErr result (FailsToWrite (D.failed self.old.device) (D.failed self.new.device)) }
        ensures unfailed { OnOk result (D.failed self.new.device ≡ D.failed self.old.device) }
        ensures counted { CountsWrites (D.failed self.old.device) (D.failed self.new.device) }
        ensures others { SameOutsideLog self.old.table.blocks staged.log
            (⟦<Self as Space>⟧.content self.old) (⟦<Self as Space>⟧.content self.new) }
    {
        let Staged {
            log,
            stamp,
            checkpoint: _,
            pages,
            payload,
        } = staged;
        let first = log.segment.get() * self.table.blocks() + log.first;
        let start = Position {
            segment: log.segment,
            block: log.first,
        };
        take_segment(&mut self.table, start);
        match put_row(&mut self.device, first, pages) {
            Ok(()) => {
                hold_row(&mut self.payload, first as usize + 1, payload);
                self.table.add_log(log, stamp);
                Ok(())
            }
            Err(_) => {
                self.table.mark_error(log.segment);
                Err(Fault)
            }
        }
    }

    // Writes logs, all of one moment. Where one fails, those before it stay.
    fn write_logs(&mut self, all: Vec<Staged>, now: u64) -> Result<(), Fault>
        requires next { AreNextLogs self.old.table now (logs_of all.items) }
        requires ready { AllByRecursion IsReady all.items }
        requires stamps { AllByRecursion (λ x. x.stamp ≡ now) all.items }
        ensures table { OnOk result (self.new.table ≡ with_logs self.old.table (logs_of all.items) now) }
        ensures stand { OnOk result (LogsStand self.old.table.blocks all.items
            (held_in self.new.payload) (D.pages self.new.device)) }
        ensures broken { OnErr result (BreaksOff now all.items
            (⟦<Self as Space>⟧.content self.old) (⟦<Self as Space>⟧.content self.new)) }
        ensures failed { OnErr result (FailsToWrite (D.failed self.old.device) (D.failed self.new.device)) }
        ensures unfailed { OnOk result (D.failed self.new.device ≡ D.failed self.old.device) }
        ensures counted { CountsWrites (D.failed self.old.device) (D.failed self.new.device) }
        ensures others { KeepsOtherBlocks self.old.table.blocks (logs_of all.items)
            (⟦<Self as Space>⟧.content self.old) (⟦<Self as Space>⟧.content self.new) }
        ensures used_stay { KeepsUsed self.old.table
            (⟦<Self as Space>⟧.content self.old) (⟦<Self as Space>⟧.content self.new) }
        ensures stays { StaysUsed self.old.table self.new.table }
    {
        for staged in all {
            self.write_log(staged)?;
        }
        Ok(())
    }
}

// Takes the segment of a log that is to start there, where it doesn't go on in the active one.
fn take_segment(table: &mut SegTable, start: Position)
    requires place { (active_place table.old ≡ Some start) ⊎ (lowest_clean table.old ≡ Some start.segment) }
    requires limits { IsSegTable table.old }
    ensures { MayBeTaken start.segment table.old table.new }
{
    if table.active_place() != Some(start) {
        table.take_clean();
    }
}

// How many blocks of a segment are used.
pub(crate) fn used_of(table: &SegTable, segment: Segment) -> u32
    requires { segment < length table.now.each }
    ensures { result ≡ (info_of table.now.each segment).used }
{
    match table.suinfo(segment) {
        Ok(info) => info.used,
        Err(_) => unreachable!(),
    }
}

// Why a device refused, as a volume says it.
fn refusal_of(refusal: DeviceError) -> VolError
    ensures { result ≡ refusal_of refusal }
{
    match refusal {
        DeviceError::Fault => VolError::Fault,
        DeviceError::Memory => VolError::Memory,
    }
}

impl<D: Device> Space for LogSpace<D> {
    ghost content = { λ s. space_content s.table s.payload (D.pages s.device) };

    ghost failed = { λ s. D.failed s.device };

    fn append(
        &mut self,
        alloc: Global,
        items: &[Payload],
        checkpoint: CheckpointNumber,
        now: u64,
        reserve: bool,
    ) -> Result<Vec<BlockNumber>, VolError> {
        let planned = self.table.place(alloc, items.len(), reserve)?;
        let logs = planned.as_slice();
        let numbers = numbers_of(alloc, self.table.blocks(), logs, items.len())?;
        let all = stage(alloc, logs, items, checkpoint, now)?;
        match self.write_logs(all, now) {
            Ok(()) => Ok(numbers),
            Err(_) => Err(VolError::Fault),
        }
    }

    fn page(&self, number: BlockNumber) -> Option<&Page> {
        match self.payload.as_slice().get(number.get() as usize) {
            Some(Some((_, page))) => Some(page),
            _ => None,
        }
    }

    fn load(&mut self, number: BlockNumber) -> Result<Page, VolError> {
        match self.device.get(number) {
            Ok(Some(page)) => Ok(page),
            Ok(None) => unreachable!(),
            Err(refusal) => Err(refusal_of(refusal)),
        }
    }

    fn table(&self) -> &SegTable {
        &self.table
    }

    fn summary(&self, segment: Segment) -> &[Option<Payload>] {
        let used = used_of(&self.table, segment) as usize;
        let first = segment.get() as usize * self.table.blocks() as usize;
        &self.payload.as_slice()[first..first + used]
    }

    fn free(&mut self, segment: Segment) {
        let blocks = self.table.blocks() as usize;
        self.device.clear(segment);
        drop_row(&mut self.payload, segment.get() as usize * blocks, blocks);
        self.table.mark_clean(segment);
    }

    fn grow(&mut self, alloc: Global, segments: u32) -> Result<(), VolError> {
        laws::growing_keeps_segments();
        let table = self.table.grown(alloc, segments)?;
        let count = self.payload.len();
        add_blocks(&mut self.payload, alloc, segments * table.blocks())?;
        match self.device.grow(segments) {
            Ok(()) => {
                self.table = table;
                Ok(())
            }
            Err(refusal) => {
                self.payload.truncate(count);
                Err(refusal_of(refusal))
            }
        }
    }

    ghost limits = { λ s. s.limits };

    ghost holds_only_used = { λ s. s.unheld };

    ghost whole_logs = { λ s. s.whole };

    ghost have_logs = { λ s. s.logged };
}
