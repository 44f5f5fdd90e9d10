//! Segments are told of, moved out of and retired. What is told is looked up in memory.
ghost use Rattle.std.specs.Prelude.{◌≡◌, ℕ, Result};
ghost use Rattle.nl_types.specs.declared.event.Event.TheVariants.{Move, Resize, Retire};
ghost use Rattle.nl_types.specs.declared.reply.Answer.{Answer};
ghost use Rattle.nl_c.specs.Calls.{Answers, IsDone};
ghost use Rattle.nl_c.specs.SegmentCalls.{IsInfoOf, IsInfoTold, IsMoveTold, IsSegmentTold, flag, move_in, segment_in, state_number};

use crate::calls::{answer, done};
use crate::status::{CLOSED, DONE, error_number};
use crate::volume::Volume;
use nl_core::Pen;
use nl_device::MemDevice;
use nl_types::{Answer, Event, Segment, SegmentState, VolError};
use std::alloc::Global;

/// A volume in numbers.
#[repr(C)]
#[derive(Clone, Copy)]
pub struct Info {
    pub segments: u64,
    /// How many blocks a segment has.
    pub blocks: u64,
    /// How many segments are clean.
    pub clean: u64,
    /// How many checkpoints are kept, and how many of them are snapshots.
    pub checkpoints: u64,
    pub snapshots: u64,
    /// The latest checkpoint's number.
    pub latest: u64,
    /// 1 where the current tree may differ from the latest checkpoint.
    pub dirty: u64,
}

/// What is told of a segment. The state is 0 clean, 1 dirty, 2 active, 3 in error.
#[repr(C)]
#[derive(Clone, Copy)]
pub struct SegmentTold {
    pub state: u64,
    /// The moment of its last log.
    pub stamp: u64,
    /// How many of its blocks the logs take.
    pub used: u64,
    /// How many of them are needed.
    pub needed: u64,
}

/// How many blocks were moved out of a segment, and how many needed ones are left in it.
#[repr(C)]
#[derive(Clone, Copy)]
pub struct MoveTold {
    pub moved: u64,
    pub left: u64,
}

// ---- what is told

fn flag(test: bool) -> u64
    ensures { result ≡ flag test }
{
    if test { 1 } else { 0 }
}

fn info_of(pen: &Pen<MemDevice>) -> Info
    ensures { IsInfoOf pen.now result }
{
    let table = pen.segments();
    let stat = table.sustat();
    let kept = pen.cpstat();
    Info {
        segments: stat.segments as u64,
        blocks: u64::from(table.blocks()),
        clean: stat.clean as u64,
        checkpoints: kept.count as u64,
        snapshots: kept.snapshots as u64,
        latest: kept.latest.get(),
        dirty: flag(pen.is_dirty()),
    }
}

fn state_number(state: SegmentState) -> u64
    ensures { result ≡ state_number state }
{
    match state {
        SegmentState::Clean => 0,
        SegmentState::Dirty => 1,
        SegmentState::Active => 2,
        SegmentState::Error => 3,
    }
}

fn segment_in(pen: &Pen<MemDevice>, segment: Segment) -> Result<SegmentTold, VolError>
    ensures { result ≡ segment_in pen.now segment }
{
    match (pen.segments().suinfo(segment), pen.needed(segment)) {
        (Ok(info), Ok(needed)) => Ok(SegmentTold {
            state: state_number(info.state),
            stamp: info.stamp,
            used: u64::from(info.used),
            needed: u64::from(needed),
        }),
        (Err(error), _) => Err(error),
        (Ok(_), Err(error)) => Err(error),
    }
}

fn move_in(answer: &Answer) -> MoveTold
    ensures { result ≡ move_in answer.now }
{
    match answer {
        Answer::Moved { moved, left } => MoveTold {
            moved: u64::from(*moved),
            left: u64::from(*left),
        },
        _ => MoveTold { moved: 0, left: 0 },
    }
}

// ---- calls

/// Tells of a volume.
#[unsafe(no_mangle)]
pub extern "C" fn nlvol_info(alloc: Global, volume: &mut Volume, info: &mut Info) -> u32
    ensures told { IsInfoTold volume.old.place.held info.old result info.new }
    ensures same { volume.new.place.held ≡ volume.old.place.held }
{
    match volume.take(alloc) {
        None => CLOSED,
        Some(held) => {
            *info = info_of(&held.pen);
            volume.put(held);
            DONE
        }
    }
}

/// Tells of a segment, from 0. Refused by 15 where there is none.
#[unsafe(no_mangle)]
pub extern "C" fn nlvol_segment(
    alloc: Global,
    volume: &mut Volume,
    segment: u32,
    told: &mut SegmentTold,
) -> u32
    ensures told { IsSegmentTold volume.old.place.held segment told.old result told.new }
    ensures same { volume.new.place.held ≡ volume.old.place.held }
{
    match volume.take(alloc) {
        None => CLOSED,
        Some(held) => {
            let found = segment_in(&held.pen, Segment::new(segment));
            volume.put(held);
            match found {
                Ok(found) => {
                    *told = found;
                    DONE
                }
                Err(error) => error_number(error),
            }
        }
    }
}

/// Makes the volume one of so many segments. It never shrinks.
#[unsafe(no_mangle)]
pub extern "C" fn nlvol_resize(alloc: Global, volume: &mut Volume, segments: u32) -> u32
    ensures { IsDone volume.old.place.held (Resize segments) result volume.new.place.held }
{
    done(alloc, volume, &Event::Resize(segments))
}

/// Moves the first so many needed blocks of a segment elsewhere.
#[unsafe(no_mangle)]
pub extern "C" fn nlvol_move(
    alloc: Global,
    volume: &mut Volume,
    segment: u32,
    limit: u32,
    moment: u64,
    told: &mut MoveTold,
) -> u32
    ensures { (answered : Result Answer ℕ)
        × Answers volume.old.place.held (Move segment limit moment) answered volume.new.place.held
        × IsMoveTold answered told.old result told.new }
{
    let event = Event::Move {
        segment: Segment::new(segment),
        limit,
        now: moment,
    };
    match answer(alloc, volume, &event) {
        Ok(answer) => {
            *told = move_in(&answer);
            DONE
        }
        Err(status) => status,
    }
}

/// Leaves a segment clean in which no block is needed.
#[unsafe(no_mangle)]
pub extern "C" fn nlvol_retire(alloc: Global, volume: &mut Volume, segment: u32) -> u32
    ensures { IsDone volume.old.place.held (Retire segment) result volume.new.place.held }
{
    done(alloc, volume, &Event::Retire(Segment::new(segment)))
}
