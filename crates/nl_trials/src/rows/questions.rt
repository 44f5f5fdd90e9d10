//! What is asked of a pen beside events: what is told of its checkpoints, segments and virtual block numbers.
use crate::rows::answers::{add_counted, add_number, add_refusal, add_row, add_word};
use crate::rows::words::{number_at, small_at, word_at};
use nl_core::Pen;
use nl_dat::{Bdesc, DatEntry};
use nl_device::Device;
use nl_lib::{get_bdescs, get_cpinfo, get_cpstat, get_needed, get_suinfo, get_sustat, get_vinfo};
use nl_types::{
    CheckpointNumber, Row, Segment, SegmentInfo, SegmentState, VirtualNumber, VolError,
};
use std::alloc::Global;
use std::io;

fn add_kept(text: &mut Vec<u8>, told: Result<Row, VolError>) -> io::Result<()> {
    match told {
        Ok(row) => add_row(text, "kept", &row),
        Err(refusal) => add_refusal(text, refusal),
    }
}

/// Adds the latest number, how many checkpoints are kept, and how many of them are snapshots.
fn add_checkpoints<D: Device>(text: &mut Vec<u8>, pen: &Pen<D>) -> io::Result<()> {
    let stat = get_cpstat(pen);
    add_counted(text, "checkpoints", stat.latest.get())?;
    add_number(text, stat.count as u64)?;
    add_number(text, stat.snapshots as u64)
}

/// Adds how many segments there are, clean ones, and dirty ones.
fn add_segments<D: Device>(text: &mut Vec<u8>, pen: &Pen<D>) -> io::Result<()> {
    let stat = get_sustat(pen);
    add_counted(text, "segments", stat.segments as u64)?;
    add_number(text, stat.clean as u64)?;
    add_number(text, stat.dirty as u64)
}

fn state_name(state: SegmentState) -> &'static str {
    match state {
        SegmentState::Clean => "clean",
        SegmentState::Dirty => "dirty",
        SegmentState::Active => "active",
        SegmentState::Error => "error",
    }
}

/// Adds the state, the stamp and the used blocks of a segment.
fn add_segment(text: &mut Vec<u8>, told: Result<SegmentInfo, VolError>) -> io::Result<()> {
    match told {
        Ok(info) => {
            add_word(text, state_name(info.state))?;
            add_number(text, info.stamp)?;
            add_number(text, u64::from(info.used))
        }
        Err(refusal) => add_refusal(text, refusal),
    }
}

fn add_needed(text: &mut Vec<u8>, told: Result<u32, VolError>) -> io::Result<()> {
    match told {
        Ok(count) => add_counted(text, "needed", u64::from(count)),
        Err(refusal) => add_refusal(text, refusal),
    }
}

/// Adds the block, the start and the end of a number, 0 where it has not ended.
fn add_entry(text: &mut Vec<u8>, told: Result<Option<DatEntry>, VolError>) -> io::Result<()> {
    match told {
        Ok(Some(entry)) => {
            add_counted(text, "number", u64::from(entry.block.get()))?;
            add_number(text, entry.start.get())?;
            add_number(text, entry.end.map_or(0, CheckpointNumber::get))
        }
        Ok(None) => add_word(text, "free"),
        Err(refusal) => add_refusal(text, refusal),
    }
}

/// Adds a payload block, its inode, offset and level, and the block of its number, where that is in use.
fn add_block(text: &mut Vec<u8>, described: &Bdesc) -> io::Result<()> {
    add_counted(text, "|", u64::from(described.old_block.get()))?;
    add_number(text, described.inode.get())?;
    add_number(text, described.offset)?;
    add_number(text, u64::from(described.level.get()))?;
    match described.block {
        Some(block) => add_number(text, u64::from(block.get())),
        None => add_word(text, "free"),
    }
}

fn add_blocks(text: &mut Vec<u8>, described: &[Bdesc]) -> io::Result<()> {
    add_word(text, "blocks")?;
    for one in described {
        add_block(text, one)?;
    }
    Ok(())
}

/// What is told of the payload blocks of a segment, once more where memory is refused.
fn described<D: Device>(
    alloc: Global,
    pen: &Pen<D>,
    segment: Segment,
) -> Result<Vec<Bdesc>, VolError> {
    match get_bdescs(alloc, pen, segment) {
        Err(VolError::Memory) => get_bdescs(alloc, pen, segment),
        told => told,
    }
}

fn add_described<D: Device>(
    alloc: Global,
    text: &mut Vec<u8>,
    pen: &Pen<D>,
    segment: Segment,
) -> io::Result<()> {
    match described(alloc, pen, segment) {
        Ok(described) => add_blocks(text, described.as_slice()),
        Err(refusal) => add_refusal(text, refusal),
    }
}

/// Adds what a pen tells where words ask something, and else `unknown`.
pub(crate) fn add_asked<D: Device>(
    alloc: Global,
    text: &mut Vec<u8>,
    pen: &Pen<D>,
    words: &[&str],
) -> io::Result<()> {
    let segment = Segment::new(small_at(words, 1));
    let number = number_at(words, 1);
    match word_at(words, 0) {
        "kept" => add_kept(text, get_cpinfo(pen, CheckpointNumber::new(number))),
        "checkpoints" => add_checkpoints(text, pen),
        "segments" => add_segments(text, pen),
        "segment" => add_segment(text, get_suinfo(pen, segment)),
        "needed" => add_needed(text, get_needed(pen, segment)),
        "number" => add_entry(text, get_vinfo(pen, VirtualNumber::new(number))),
        "blocks" => add_described(alloc, text, pen, segment),
        _ => add_word(text, "unknown"),
    }
}
