//! `df`: how many blocks of a volume are clean, needed and dead, and how many the next backup can write.
use crate::asking::Outcome;
use crate::faults::{Fault, volume_fault};
use crate::json::object;
use crate::printing::Printer;
use crate::sizes::Size;
use crate::views::View;
use clap::ArgMatches;
use nl_core::Pen;
use nl_device::MemDevice;
use nl_keep_pen::Capacity;
use nl_types::{BLOCK_SIZE, Segment, SegmentState, VolError};
use serde::Serialize;
use std::alloc::Global;
use std::io::{self, Write};

/// The blocks of a segment, or of all of them. A block is in one of these counts, which sum to all blocks.
#[derive(Clone, Copy, Drop, Serialize)]
struct Blocks {
    /// In segments without logs.
    clean: u64,
    /// Of the payload of logs, what a kept checkpoint reaches, or the tables of the volume.
    needed: u64,
    /// What else logs have as payload, which cleaning gives back.
    dead: u64,
    /// What logs begin with.
    summaries: u64,
    /// Behind the last log of a segment.
    unused: u64,
}

const NO_BLOCKS: Blocks = Blocks {
    clean: 0,
    needed: 0,
    dead: 0,
    summaries: 0,
    unused: 0,
};

impl Blocks {
    /// Those of a segment with logs: its blocks, the used ones, the payload, and what of that is needed.
    fn of_logs(all: u64, used: u64, payload: u64, needed: u64) -> Blocks {
        Blocks {
            clean: 0,
            needed,
            dead: payload.saturating_sub(needed),
            summaries: used.saturating_sub(payload),
            unused: all.saturating_sub(used),
        }
    }

    fn plus(&self, other: &Blocks) -> Blocks {
        Blocks {
            clean: self.clean.saturating_add(other.clean),
            needed: self.needed.saturating_add(other.needed),
            dead: self.dead.saturating_add(other.dead),
            summaries: self.summaries.saturating_add(other.summaries),
            unused: self.unused.saturating_add(other.unused),
        }
    }
}

/// A segment, and what its blocks are.
#[derive(Clone, Copy)]
struct SegmentUse {
    state: SegmentState,
    blocks: Blocks,
}

fn use_of(pen: &Pen<MemDevice>, segment: Segment) -> Result<SegmentUse, VolError> {
    let info = pen.segments().suinfo(segment)?;
    let all = u64::from(pen.segments().blocks());
    let blocks = match info.state {
        SegmentState::Clean => Blocks {
            clean: all,
            ..NO_BLOCKS
        },
        _ => Blocks::of_logs(
            all,
            u64::from(info.used),
            u64::from(pen.payload_count(segment)),
            u64::from(pen.needed(segment)?),
        ),
    };
    Ok(SegmentUse {
        state: info.state,
        blocks,
    })
}

/// What each segment of a volume is in use for. `path` is where its image stands.
fn segment_uses(alloc: Global, path: &str, pen: &Pen<MemDevice>) -> Result<Vec<SegmentUse>, Fault> {
    let mut uses = Vec::new(alloc);
    let count = u32::try_from(pen.segments().sustat().segments).unwrap_or(0);
    for number in 0..count {
        match use_of(pen, Segment::new(number)) {
            Ok(used) => uses.push(used)?,
            Err(error) => return Err(volume_fault(alloc, path, error)),
        }
    }
    Ok(uses)
}

fn state_word(state: SegmentState) -> &'static str {
    match state {
        SegmentState::Clean => "clean",
        SegmentState::Dirty => "with logs",
        SegmentState::Active => "active",
        SegmentState::Error => "in error",
    }
}

/// A segment, and what its blocks are.
#[derive(Drop, Serialize)]
struct SegmentObject {
    state: &'static str,
    #[serde(flatten)]
    blocks: Blocks,
}

/// Tells each segment of a volume by an object, in the order of their numbers.
pub fn tell_segments<W: Write>(
    alloc: Global,
    path: &str,
    pen: &Pen<MemDevice>,
    printer: &mut Printer<W>,
) -> Result<(), Fault> {
    let uses = segment_uses(alloc, path, pen)?;
    for used in uses.as_slice() {
        let told = SegmentObject {
            state: state_word(used.state),
            blocks: used.blocks,
        };
        object(alloc, &told, printer)?;
    }
    Ok(())
}

/// How a volume is in use.
#[derive(Clone, Copy)]
struct VolumeUse {
    segments: u64,
    clean_segments: u64,
    /// Segments to which a write failed.
    failed_segments: u64,
    blocks: Blocks,
}

impl VolumeUse {
    fn of(uses: &[SegmentUse]) -> VolumeUse {
        let mut whole = VolumeUse {
            segments: uses.len() as u64,
            clean_segments: 0,
            failed_segments: 0,
            blocks: NO_BLOCKS,
        };
        for one in uses {
            whole.blocks = whole.blocks.plus(&one.blocks);
            match one.state {
                SegmentState::Clean => whole.clean_segments = whole
                    .clean_segments
                    .saturating_add(1),
                SegmentState::Error => whole.failed_segments = whole
                    .failed_segments
                    .saturating_add(1),
                SegmentState::Dirty | SegmentState::Active => {}
            }
        }
        whole
    }
}

/// How many bytes the blocks of a volume have that a kept checkpoint or the volume's tables need. `path` is
/// where its image stands.
pub fn needed_bytes(alloc: Global, path: &str, pen: &Pen<MemDevice>) -> Result<u64, Fault> {
    let uses = segment_uses(alloc, path, pen)?;
    let whole = VolumeUse::of(uses.as_slice());
    Ok(whole.blocks.needed.saturating_mul(BLOCK_SIZE as u64))
}

/// The object that `df --json` writes.
#[derive(Drop, Serialize)]
struct UseObject {
    segments: u64,
    clean_segments: u64,
    failed_segments: u64,
    block_bytes: u64,
    blocks: u64,
    #[serde(flatten)]
    kinds: Blocks,
    /// How many blocks the next backup can write: as the volume is, and where it grows as far as it can.
    room: u64,
    room_grown: u64,
}

fn object_of(whole: &VolumeUse, blocks: u64, capacity: Capacity) -> UseObject {
    UseObject {
        segments: whole.segments,
        clean_segments: whole.clean_segments,
        failed_segments: whole.failed_segments,
        block_bytes: BLOCK_SIZE as u64,
        blocks,
        kinds: whole.blocks,
        room: capacity.present as u64,
        room_grown: capacity.grown as u64,
    }
}

/// Tells how a volume is in use, a line for each kind of blocks.
fn tell<W: Write>(whole: &VolumeUse, blocks: u64, printer: &mut Printer<W>) -> io::Result<()> {
    let VolumeUse {
        segments,
        clean_segments,
        failed_segments,
        blocks: kinds,
    } = *whole;
    let Blocks {
        clean,
        needed,
        dead,
        summaries,
        unused,
    } = kinds;
    let out = &mut printer.out;
    writeln!(
        out,
        "{blocks:>8}  blocks of {BLOCK_SIZE} bytes, in {segments} segments\n\
         {clean:>8}  clean, in {clean_segments} segments\n\
         {needed:>8}  needed\n\
         {dead:>8}  dead\n\
         {summaries:>8}  summaries of logs\n\
         {unused:>8}  unused, behind the logs of a segment"
    )?;
    if failed_segments > 0 {
        writeln!(out, "{failed_segments:>8}  segments in error")?;
    }
    Ok(())
}

/// Tells how many blocks the next backup can write, and how many bytes those have.
fn tell_capacity<W: Write>(
    capacity: Capacity,
    segment_blocks: u32,
    printer: &mut Printer<W>,
) -> io::Result<()> {
    let Capacity {
        present,
        grown,
        segments,
    } = capacity;
    let block = BLOCK_SIZE as u64;
    let (bytes, grown_bytes) = (
        block.saturating_mul(present as u64),
        block.saturating_mul(grown as u64),
    );
    let whole = block
        .saturating_mul(u64::from(segments))
        .saturating_mul(u64::from(segment_blocks));
    let size = Size(whole);
    writeln!(
        printer.out,
        "{present:>8}  can be written by the next backup: {bytes} bytes\n\
         {grown:>8}  can be written if the volume grows to {size}: {grown_bytes} bytes"
    )
}

/// Tells how the volume of an image is in use.
pub fn df<W: Write>(
    alloc: Global,
    matches: &ArgMatches<'_>,
    view: &View<'_>,
    printer: &mut Printer<W>,
) -> Result<Outcome, Fault> {
    let (path, pen) = (view.path, view.pen());
    let uses = segment_uses(alloc, path, pen)?;
    let whole = VolumeUse::of(uses.as_slice());
    let blocks = whole
        .segments
        .saturating_mul(u64::from(pen.segments().blocks()));
    let capacity = match Capacity::of(alloc, pen.segments()) {
        Ok(capacity) => capacity,
        Err(error) => return Err(volume_fault(alloc, path, error)),
    };
    if matches.get_flag("json") {
        object(alloc, &object_of(&whole, blocks, capacity), printer)?;
    } else {
        tell(&whole, blocks, printer)?;
        tell_capacity(capacity, pen.segments().blocks(), printer)?;
    }
    Ok(Outcome::Done)
}
