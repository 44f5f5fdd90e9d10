//! The table of segments.
ghost use Rattle.std.specs.Prelude.{◌≡◌, ◌↔◌, ◌<◌, ◌≤◌, ◌+◌, ◌-◌, ◌++◌, length, IfOk, IfErr, IsErrOf, IsTrue, IfSome, IfNone, IsOkUnless, OnOk, slice_get, slice_set, replicate};
ghost use Rattle.std.specs.Option.{ok_or};
ghost use Rattle.nl_types.specs.declared.segment.SegmentState.TheVariants.{Active};
ghost use Rattle.nl_types.specs.Plain.Limits.{IsGeometry};
ghost use Rattle.nl_types.specs.Blocks.Segments.{IsUsed, active_place, clean_segments, clean_info, free_segments, grown_to, info_of, lowest_clean, none_active, with_active, with_clean, with_error};
ghost use Rattle.nl_types.specs.Blocks.Placing.{LogsFit, LacksSpace, end_of, with_log};
ghost use Rattle.nl_sufile.specs.Room.{HasRoomFor};
ghost use Rattle.nl_sufile.specs.Table.{IsSegTable, IsActiveIn, IsNoSpaceOrMemory, all_clean};

use crate::clean::{CleanSegments, FreeSegments};
use crate::placing::{place_on, room_on};
use nl_types::{
    BlockNumber, Geometry, Items, Log, Position, Segment, SegmentInfo, SegmentState, VolError, laws,
};
use std::alloc::{AllocError, Global};
use std::marker::Model;

/// What is known of each segment. Contracts see the segments' size, and the list of what is known of each.
#[derive(Drop)]
pub struct SegTable {
    blocks: u32,
    each: Items<SegmentInfo>,
    active: Option<Segment>,
    clean: CleanSegments,
}

impl Model for SegTable {
    ghost use Rattle.nl_types.specs.Blocks.Segments.{Segments};
    ghost use Rattle.nl_sufile.specs.Private.Clean.{TellsClean};
    ghost use Rattle.nl_sufile.specs.Table.{IsSegTable, IsActiveIn};

    ghost Value = { Segments };

    ghost view = { λ table. record { blocks = table.blocks; each = table.each } };

    ghost invariant = { λ table. IsSegTable (record { blocks = table.blocks; each = table.each })
        × IsActiveIn table.each table.active × TellsClean table.each table.clean };
}

/// How many segments there are, and of them how many are clean, and how many dirty. An active segment and one
/// in error count as dirty.
#[derive(Clone, Copy)]
pub struct Sustat {
    pub segments: usize,
    pub clean: usize,
    pub dirty: usize,
}

impl SegTable {
    /// A table of clean segments, refused by `Memory` alone.
    pub fn new(alloc: Global, geometry: Geometry) -> Result<SegTable, VolError>
        ensures clean { IfOk result (λ table. table ≡ all_clean geometry) }
        ensures limits { IfOk result IsSegTable }
        ensures refused { IsOkUnless result VolError.Memory }
    {
        let each = clean_table(alloc, geometry.segments)?;
        Ok(SegTable {
            blocks: geometry.blocks,
            each,
            active: None,
            clean: CleanSegments {
                count: geometry.segments as usize,
                mark: 0,
            },
        })
    }

    /// The table of these segments, of which this one is active. Takes no memory, and counts the clean ones.
    pub(crate) fn from_entries(
        blocks: u32,
        each: Items<SegmentInfo>,
        active: Option<Segment>,
    ) -> SegTable
        requires table { IsSegTable (record { blocks = blocks; each = each }) }
        requires active { IsActiveIn each active }
        ensures { result ≡ record { blocks = blocks; each = each } }
    {
        let clean = CleanSegments::counted(each.as_slice());
        SegTable {
            blocks,
            each,
            active,
            clean,
        }
    }

    /// What is known of each segment, in order.
    pub(crate) fn entries(&self) -> &[SegmentInfo]
        ensures { result.now ≡ self.now.each }
    {
        self.each.as_slice()
    }

    /// How many blocks a segment has.
    pub fn blocks(&self) -> u32
        ensures blocks { result ≡ self.now.blocks }
        ensures limits { IsSegTable self.now }
    {
        self.blocks
    }

    /// What is known of a segment. Refused by `BadRange` where there is no such segment. Takes no memory.
    pub fn suinfo(&self, segment: Segment) -> Result<SegmentInfo, VolError>
        ensures info { result ≡ ok_or (slice_get self.now.each segment) VolError.BadRange }
        ensures inside { OnOk result (segment < length self.now.each) }
        ensures known { IfOk result (λ info. info ≡ info_of self.now.each segment) }
    {
        match self.each.as_slice().get(segment.get() as usize) {
            Some(info) => Ok(*info),
            None => Err(VolError::BadRange),
        }
    }

    /// Whether a block lies in the used part of its segment. Takes no memory.
    pub fn is_used(&self, block: BlockNumber) -> bool
        ensures { IsTrue result ↔ IsUsed self.now block }
    {
        let blocks = self.blocks();
        match self.suinfo(Segment::new(block.get() / blocks)) {
            Ok(info) => block.get() % blocks < info.used,
            Err(_) => false,
        }
    }

    /// How many segments there are of which kind. They are counted as they change, not here. Takes no memory.
    pub fn sustat(&self) -> Sustat
        ensures segments { result.segments ≡ length self.now.each }
        ensures clean { result.clean ≡ length (clean_segments self.now) }
        ensures dirty { result.dirty + result.clean ≡ result.segments }
    {
        let clean = self.clean.count;
        let segments = self.each.len();
        Sustat {
            segments,
            clean,
            dirty: segments - clean,
        }
    }

    /// The first unused block of the active segment, if one is active. It may be the end of the segment.
    pub fn active_place(&self) -> Option<Position>
        ensures { result ≡ active_place self.now }
    {
        let segment = self.active?;
        let info = self.each.as_slice()[segment.get() as usize];
        Some(Position {
            segment,
            block: info.used,
        })
    }

    // The clean segments that a move may take, or with `reserve` a checkpoint, which leaves the last two.
    fn free_segments(&self, reserve: bool) -> FreeSegments<'_>
        ensures { result ≡ free_segments reserve self.now }
    {
        let each = self.each.as_slice();
        let count = self.clean.count;
        if reserve {
            self.clean.first(each, count.saturating_sub(2))
        } else {
            self.clean.first(each, count)
        }
    }

    /// The logs that `n` payload blocks go into: the active segment is filled, and then the lowest clean
    /// ones, by logs of at most 30. A checkpoint, with `reserve`, leaves two clean segments where it takes
    /// any. Refused by `NoSpace` where no list of logs fits, and by `Memory`.
    ///
    /// It passes the segments from the mark (see `take_clean`) to the last clean one that it uses, once for
    /// all logs, also where it is refused. Where the active segment has room for all, it passes none.
    pub fn place(&self, alloc: Global, n: usize, reserve: bool) -> Result<Vec<Log>, VolError>
        ensures fits { IfOk result (λ logs. LogsFit self.now reserve n logs.items) }
        ensures no_space { IsErrOf result VolError.NoSpace → LacksSpace self.now reserve n }
        ensures errors { IfErr result IsNoSpaceOrMemory }
    {
        let left = self.active_place();
        let free = self.free_segments(reserve);
        place_on(alloc, self.blocks, left, free, n)
    }

    /// How many payload blocks there is room for: `place` finds logs for so many, and for no more. It passes
    /// no segment, and takes no memory.
    pub fn room(&self, reserve: bool) -> usize
        ensures { HasRoomFor self.now reserve result }
    {
        let left = self.active_place();
        let free = self.free_segments(reserve);
        room_on(self.blocks, left, free)
    }

    /// Takes the lowest clean segment, which alone is active then, if one is clean. It has no logs yet.
    ///
    /// It is looked for from a mark on, below which no segment is clean, and the mark moves on behind it:
    /// where segments are taken one after another, each is passed once. `mark_clean` moves the mark down, and
    /// the dirty ones behind it are passed once more. So at worst a call passes all segments, and all calls
    /// together pass them once, and once more for each segment that was emptied.
    pub fn take_clean(&mut self) -> Option<Segment>
        ensures lowest { result ≡ lowest_clean self.old }
        ensures taken { IfSome result (λ segment. self.new ≡ with_active self.old segment 0 0) }
        ensures none { IfNone result (self.new ≡ self.old) }
    {
        let each = self.each.as_slice();
        let segment = self.clean.lowest(each)?;
        let clean = self.clean.without_lowest(each, segment);
        let active = self.active;
        make_active(&mut self.each, active, segment, 0, 0);
        self.active = Some(segment);
        self.clean = clean;
        Some(segment)
    }

    /// A table of so many segments, the new ones clean. Refused by `Memory` alone.
    pub fn grown(&self, alloc: Global, segments: u32) -> Result<SegTable, VolError>
        requires more { length self.now.each ≤ segments }
        requires limits { IsGeometry segments self.now.blocks }
        ensures grown { IfOk result (λ table. table ≡ grown_to segments self.now) }
        ensures limits { IfOk result IsSegTable }
        ensures refused { IsOkUnless result VolError.Memory }
    {
        laws::growing_keeps_segments();
        let each = grown_rows(alloc, self.each.as_slice(), segments)?;
        let more = segments as usize - self.each.len();
        let clean = self.clean.with_more(more);
        Ok(SegTable {
            blocks: self.blocks,
            each,
            active: self.active,
            clean,
        })
    }

    /// A log was written, at a moment: its segment alone is active, and used up to the log's end.
    pub fn add_log(&mut self, log: Log, stamp: u64)
        requires segment { log.segment < length self.old.each }
        requires inside { end_of log ≤ self.old.blocks }
        ensures log { self.new ≡ with_log self.old log stamp }
        ensures limits { IsSegTable self.new }
    {
        let active = self.active;
        let segment = log.segment;
        let used = log.end();
        let clean = self.clean.without(self.each.as_slice(), segment);
        make_active(&mut self.each, active, segment, stamp, used);
        self.active = Some(segment);
        self.clean = clean;
    }

    /// A write to a segment failed: it is in error and keeps its logs, and no segment is active.
    pub fn mark_error(&mut self, segment: Segment)
        requires { segment < length self.old.each }
        ensures error { self.new ≡ with_error self.old segment }
        ensures limits { IsSegTable self.new }
    {
        let at = segment.get() as usize;
        let info = SegmentInfo {
            state: SegmentState::Error,
            ..self.each.as_slice()[at]
        };
        let active = self.active;
        let clean = self.clean.without(self.each.as_slice(), segment);
        rest_active(&mut self.each, active);
        self.each.set(at, info);
        self.active = None;
        self.clean = clean;
    }

    /// A segment was emptied: it is clean, whatever it was before. Where it lies below the mark (see
    /// `take_clean`), the mark moves down to it.
    pub fn mark_clean(&mut self, segment: Segment)
        requires { segment < length self.old.each }
        ensures clean { self.new ≡ with_clean self.old segment }
        ensures limits { IsSegTable self.new }
    {
        let clean = self.clean.with(self.each.as_slice(), segment);
        self.each.set(segment.get() as usize, SegmentInfo::clean());
        self.clean = clean;
        if self.active == Some(segment) {
            self.active = None;
        }
    }
}

// So many clean segments.
fn clean_table(alloc: Global, segments: u32) -> Result<Items<SegmentInfo>, AllocError>
    ensures { IfOk result (λ each. each ≡ replicate segments clean_info) }
{
    let mut each = Vec::with_capacity(alloc, segments as usize)?;
    for _ in 0..segments {
        each.push(SegmentInfo::clean())?;
    }
    Ok(Items::from_vec(each))
}

// The rows, and those of clean segments behind them up to so many.
fn grown_rows(
    alloc: Global,
    rows: &[SegmentInfo],
    segments: u32,
) -> Result<Items<SegmentInfo>, AllocError>
    requires { length rows.now ≤ segments }
    ensures { IfOk result (λ each.
        each ≡ rows.now ++ replicate (segments - length rows.now) clean_info) }
{
    let mut each = Vec::with_capacity(alloc, segments as usize)?;
    each.extend_from_slice(rows)?;
    each.resize(segments as usize, SegmentInfo::clean())?;
    Ok(Items::from_vec(each))
}

// No segment is active now.
fn rest_active(each: &mut Items<SegmentInfo>, active: Option<Segment>)
    requires { IsActiveIn each.old active }
    ensures { each.new ≡ none_active each.old }
{
    if let Some(segment) = active {
        let at = segment.get() as usize;
        let info = SegmentInfo {
            state: SegmentState::Dirty,
            ..each.as_slice()[at]
        };
        each.set(at, info);
    }
}

// A segment alone is active now, with this stamp and so many used blocks.
fn make_active(
    each: &mut Items<SegmentInfo>,
    active: Option<Segment>,
    segment: Segment,
    stamp: u64,
    used: u32,
)
    requires segment { segment < length each.old }
    requires active { IsActiveIn each.old active }
    ensures { each.new ≡ slice_set (none_active each.old) segment
        (record { state = Active; stamp = stamp; used = used }) }
{
    rest_active(each, active);
    let state = SegmentState::Active;
    each.set(segment.get() as usize, SegmentInfo { state, stamp, used });
}
