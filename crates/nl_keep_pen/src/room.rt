//! Room in the volume for what a backup writes.
ghost use Rattle.std.specs.Prelude.{◌≡◌, ◌⊎◌, ℕ, None, OnOk, Err, IfErr};
ghost use Rattle.nl_types.specs.declared.error.VolError;
ghost use Rattle.nl_types.specs.Plain.Limits.{is_geometry};
ghost use Rattle.nl_commit.specs.CleaningEvents.{resized_by};
ghost use Rattle.nl_commit.specs.Layout.{MeansWorld};
ghost use Rattle.nl_keep.specs.Lasting.{OnlyTidies};
ghost use Rattle.nl_keep.specs.Volumes.{LeadsTo};
ghost use Rattle.nl_keep_pen.specs.declared.room.Effort;

use crate::PenVolume;
use crate::capacity::most_segments;
use crate::rounds::{Cleaning, Round};
use nl_core::Pen;
use nl_device::Device;
use nl_folders::{Path, difference_between, find_in};
use nl_keep::laws;
use nl_sufile::Sustat;
use nl_types::{BLOCK_SIZE, Event, Geometry, MAX_PAYLOAD, Object, Reply, VolError};
use std::alloc::Global;

/// How many blocks of a log there are for each summary block, at most.
const PAYLOAD: u64 = MAX_PAYLOAD as u64;

/// How many blocks a node of a block tree names.
const SLOTS: u64 = 128;

/// How many inodes a block has.
const INODES: u64 = 8;

/// What a record in a directory takes beside the name, with its share of what is left of the block.
const RECORD_BYTES: u64 = 32;

/// Clean segments that a backup can't use: two that stay, the rest of the active one, and one that a log
/// doesn't fill.
const SPARE: u64 = 4;

/// The first block of these bytes, and the rest. The last block may be shorter, and behind it is none.
fn split_block(bytes: &[u8]) -> (&[u8], &[u8]) {
    if bytes.len() < BLOCK_SIZE {
        bytes.split_at(bytes.len())
    } else {
        bytes.split_at(BLOCK_SIZE)
    }
}

/// How many blocks of these bytes don't stand in the old ones at their place.
fn other_blocks(old: &[u8], new: &[u8]) -> u64 {
    let mut old = old;
    let mut count: u64 = 0;
    for block in new.chunks(BLOCK_SIZE) {
        let (before, rest) = split_block(old);
        if before != block {
            count = count.saturating_add(1);
        }
        old = rest;
    }
    count
}

/// How many blocks a file takes whose bytes are new: data, and the nodes above it.
fn file_blocks(old: Option<&Object>, new: &[u8]) -> u64 {
    let data = match old {
        Some(Object::File(old)) => other_blocks(old.as_slice(), new),
        _ => other_blocks(&[], new),
    };
    let nodes = (new.len() as u64)
        .div_ceil(BLOCK_SIZE as u64)
        .div_ceil(SLOTS);
    data.saturating_add(nodes.min(data)).saturating_add(2)
}

/// How many blocks of directories a tree has at most: each directory has a node, and a block that isn't full.
fn directory_blocks(tree: &[(Path, Object)]) -> u64 {
    let mut bytes: u64 = 0;
    let mut directories: u64 = 0;
    for (path, object) in tree {
        let length = path.as_slice().last().map_or(0, |name| name.len() as u64);
        bytes = bytes.saturating_add(length.saturating_add(RECORD_BYTES));
        if matches!(object, Object::Dir) {
            directories = directories.saturating_add(1);
        }
    }
    directories
        .saturating_mul(2)
        .saturating_add(bytes.div_ceil(BLOCK_SIZE as u64))
}

/// How many blocks of the file of inodes change with so many inodes of a tree of so many.
fn inode_blocks(changed: u64, all: u64) -> u64 {
    let each = changed.min(all.div_ceil(INODES));
    each.saturating_add(all.div_ceil(INODES * SLOTS))
        .saturating_add(2)
}

/// How many blocks an object takes that stands where another one stood.
fn object_blocks(old: Option<&Object>, new: &Object) -> u64 {
    match new {
        Object::Dir => 0,
        Object::File(bytes) => file_blocks(old, bytes.as_slice()),
    }
}

/// How many blocks the calls write, at most, that make a tree another.
fn blocks_between(old: &[(Path, Object)], new: &[(Path, Object)]) -> u64 {
    let mut blocks: u64 = 0;
    let mut same: u64 = 0;
    let mut added: u64 = 0;
    for (path, object) in new {
        let earlier = find_in(old, path.as_slice());
        if difference_between(earlier, Some(object)).is_none() {
            same = same.saturating_add(1);
        } else {
            blocks = blocks.saturating_add(object_blocks(earlier, object));
        }
        if earlier.is_none() {
            added = added.saturating_add(1);
        }
    }
    let all = (old.len() as u64).max(new.len() as u64);
    let either = (old.len() as u64).saturating_add(added);
    let changed = either.saturating_sub(same);
    let tables = inode_blocks(changed, all).saturating_add(directory_blocks(new));
    blocks.saturating_add(tables)
}

/// How many blocks a segment has beside the summaries of its logs. A last block alone has no place for a log.
fn payload_of(segment_blocks: u64) -> u64 {
    let (logs, rest) = (
        segment_blocks / (PAYLOAD + 1),
        segment_blocks % (PAYLOAD + 1),
    );
    logs.saturating_mul(PAYLOAD)
        .saturating_add(rest.saturating_sub(1))
}

/// How many segments so many blocks take, with the summaries of their logs.
fn segments_for(blocks: u64, segment_blocks: u64) -> u64 {
    blocks
        .div_ceil(payload_of(segment_blocks).max(1))
        .saturating_add(SPARE)
}

/// How room is made for a tree.
#[derive(Clone, Copy, PartialEq, Eq)]
pub enum Effort {
    /// By what is to be written, as it is reckoned.
    Reckoned,
    /// There was no room: a round of cleaning comes first, and the volume grows by a quarter at least.
    Greater,
    /// There was none again: the volume becomes as great as it may be.
    Greatest,
}

/// Sees to it that there is room for a tree, before it is stored.
#[derive(Clone, Copy)]
pub struct Room<'t> {
    alloc: Global,
    wanted: &'t [(Path, Object)],
    moment: u64,
    /// The most bytes that the volume may have.
    most: u64,
    pub effort: Effort,
    /// How many bytes the volume had, and what it has where it was grown.
    pub grown: Option<(u64, u64)>,
}

impl<'t> Room<'t> {
    /// No room is made yet.
    pub fn new(alloc: Global, wanted: &'t [(Path, Object)], moment: u64, most: u64) -> Room<'t>
        ensures wanted { result.wanted.now ≡ wanted.entry.now }
        ensures moment { result.moment ≡ moment }
        ensures most { result.most ≡ most }
        ensures effort { result.effort ≡ Effort.Reckoned }
        ensures grown { result.grown ≡ None }
    {
        Room {
            alloc,
            wanted,
            moment,
            most,
            effort: Effort::Reckoned,
            grown: None,
        }
    }

    /// How many segments the volume is to have, where it may have so many.
    fn wanted_segments(&self, stat: Sustat, segment_bytes: u64, lacking: u64, most: u64) -> u64 {
        let base = match self.grown {
            Some((_, grown)) => grown / segment_bytes.max(1),
            None => stat.segments as u64,
        };
        match self.effort {
            Effort::Reckoned if lacking == 0 => stat.segments as u64,
            Effort::Reckoned | Effort::Greater => {
                let more = lacking.max(base / 4).max(1);
                base.saturating_add(more).min(most)
            }
            Effort::Greatest => most,
        }
    }

    /// Grows the volume, where it isn't as great already, or as great as one can be. Refused by `Memory`, and
    /// by `Fault` where the device fails.
    fn grow<D: Device>(
        &mut self,
        pen: &mut Pen<D>,
        segments: u64,
        segment_bytes: u64,
    ) -> Result<(), VolError>
        ensures tidies { OnOk result ((moment : ℕ)
            → LeadsTo (OnlyTidies moment) (MeansWorld pen.old) (MeansWorld pen.new)) }
        ensures moment { self.new.moment ≡ self.old.moment }
        ensures refused { IfErr result (λ e. (e ≡ VolError.Fault) ⊎ (e ≡ VolError.Memory)) }
    {
        let present = pen.segments().sustat().segments as u64;
        let Ok(wanted) = u32::try_from(segments) else {
            return Ok(());
        };
        if segments <= present || !can_have(pen, wanted) {
            return Ok(());
        }
        drop(resize(pen, wanted)?);
        let old = present.saturating_mul(segment_bytes);
        self.grown = Some((old, segments.saturating_mul(segment_bytes)));
        Ok(())
    }

    /// A round of cleaning, where there was no room before. Refused by `Memory` alone.
    fn clean_again<D: Device>(&self, volume: &mut PenVolume<D>) -> Result<(), VolError>
        ensures tidies { OnOk result (LeadsTo (OnlyTidies self.now.moment)
            (MeansWorld volume.old.pen) (MeansWorld volume.new.pen)) }
        ensures refused { IfErr result (λ e. e ≡ VolError.Memory) }
    {
        if self.effort == Effort::Reckoned {
            return Ok(());
        }
        let round = Round {
            alloc: self.alloc,
            moment: self.moment,
        };
        round.tidy_if_due(volume, Cleaning::Always)
    }

    /// Grows the volume by what lacks for the tree. Refused as `grow` is.
    fn make_room<D: Device>(
        &mut self,
        pen: &mut Pen<D>,
        earlier: &[(Path, Object)],
    ) -> Result<(), VolError>
        ensures tidies { OnOk result ((moment : ℕ)
            → LeadsTo (OnlyTidies moment) (MeansWorld pen.old) (MeansWorld pen.new)) }
        ensures refused { IfErr result (λ e. (e ≡ VolError.Fault) ⊎ (e ≡ VolError.Memory)) }
    {
        let stat = pen.segments().sustat();
        let most_segments = u64::from(most_segments(pen.segments().blocks()));
        let blocks = u64::from(pen.segments().blocks());
        let written = blocks_between(earlier, self.wanted);
        let lacking = segments_for(written, blocks).saturating_sub(stat.clean as u64);
        let segment_bytes = blocks.saturating_mul(BLOCK_SIZE as u64);
        let most = most_segments.min(self.most / segment_bytes.max(1));
        let segments = self.wanted_segments(stat, segment_bytes, lacking, most);
        self.grow(pen, segments, segment_bytes)
    }

    /// Makes room at its moment. `earlier` is the current tree, which stays. Refused as `grow` is.
    pub(crate) fn prepare<D: Device>(
        &mut self,
        volume: &mut PenVolume<D>,
        earlier: &[(Path, Object)],
    ) -> Result<(), VolError>
        ensures tidies { OnOk result (LeadsTo (OnlyTidies self.old.moment)
            (MeansWorld volume.old.pen) (MeansWorld volume.new.pen)) }
        ensures refused { IfErr result (λ e. (e ≡ VolError.Fault) ⊎ (e ≡ VolError.Memory)) }
    {
        self.clean_again(volume)?;
        self.make_room(&mut volume.pen, earlier)
    }

    /// The same at a moment, which is the room's from then on.
    pub(crate) fn prepare_at<D: Device>(
        &mut self,
        moment: u64,
        volume: &mut PenVolume<D>,
        earlier: &[(Path, Object)],
    ) -> Result<(), VolError>
        ensures tidies { OnOk result (LeadsTo (OnlyTidies moment)
            (MeansWorld volume.old.pen) (MeansWorld volume.new.pen)) }
        ensures refused { IfErr result (λ e. (e ≡ VolError.Fault) ⊎ (e ≡ VolError.Memory)) }
    {
        self.moment = moment;
        self.prepare(volume, earlier)
    }
}

/// Whether a volume can have so many segments.
fn can_have<D: Device>(pen: &Pen<D>, segments: u32) -> bool
    ensures { result ≡ is_geometry segments pen.now.store.segments.blocks }
{
    Geometry::new(segments, pen.segments().blocks()).is_ok()
}

/// Gives the volume so many segments. Refused by `Memory`, by `Fault` where the device fails, and where it
/// can't have so many.
fn resize<D: Device>(pen: &mut Pen<D>, segments: u32) -> Reply
    ensures tidies { (moment : ℕ)
        → LeadsTo (OnlyTidies moment) (MeansWorld pen.old) (MeansWorld pen.new) }
    ensures refused { IfErr result (λ e. (e ≡ VolError.Fault) ⊎ (e ≡ VolError.Memory)
        ⊎ (resized_by pen.old.store segments ≡ Err e)) }
{
    laws::tidying_events_only_tidy();
    pen.apply(&Event::Resize(segments))
}
