//! The table of segments in an image.
ghost use Rattle.std.specs.Prelude.{◌≡◌, ◌+◌, ◌*◌, ◌≤◌, ◌⊎◌, ◌↔◌, IsTrue, IfOk, IfErr, IfSome, MatchResult, OnErr, length, flat_map, List, Some, All};
ghost use Rattle.nl_types.specs.Plain.Limits as limits;
ghost use Rattle.nl_types.specs.declared.segment.SegmentInfo.{SegmentInfo};
ghost use Rattle.nl_types.specs.Blocks.Segments.{Segments};
ghost use Rattle.nl_types.specs.Blocks.Segments as segments;
ghost use Rattle.nl_layout.specs.Segment.{HasSpelling, segment_bytes};
ghost use Rattle.nl_sufile.specs.Images.{AreEntriesOf, HaveOneActive, IsEntryAt, IsSoundSegment, IsSufileOf, sufile_bytes};
ghost use Rattle.nl_sufile.specs.Table.{IsActiveIn};

use crate::table::SegTable;
use nl_layout::{SEGMENT_SIZE, read_segment, write_segment};
use nl_types::{Geometry, Items, Segment, SegmentInfo, SegmentState, VolError};
use std::alloc::Global;

/// What refuses an image for its entries of segments.
const BAD_ENTRIES: VolError = VolError::BadImage(4);

impl SegTable {
    /// The table that the entries of an image tell, of a volume that is divided so. Refused by `BadImage(4)`
    /// where they tell none, and by `Memory`: a clean entry is all zero, another has at most the blocks of a
    /// segment, and one at least where it isn't in error, and one at most is active.
    pub fn restore(alloc: Global, geometry: Geometry, bytes: &[u8]) -> Result<SegTable, VolError>
        requires { length bytes.now ≡ 16 * geometry.segments }
        ensures found { IfOk result (IsSufileOf geometry bytes.now) }
        ensures only { (s : Segments) → IsSufileOf geometry bytes.now s
            → MatchResult result (λ table. table ≡ s) (λ e. e ≡ VolError.Memory) }
        ensures refused { IfErr result (λ e. (e ≡ VolError.BadImage 4) ⊎ (e ≡ VolError.Memory)) }
    {
        let each = read_entries(alloc, geometry, bytes)?;
        match active_of(each.as_slice()) {
            Ok(active) => Ok(SegTable::from_entries(geometry.blocks, each, active)),
            Err(error) => Err(error),
        }
    }

    /// Fills the place with the entries of an image, 16 bytes for each segment.
    pub fn dump(&self, out: &mut [u8])
        requires { length out.old ≡ 16 * length self.now.each }
        ensures bytes { out.new ≡ sufile_bytes self.now }
        ensures fit { All HasSpelling self.now.each }
    {
        write_entries(self.entries(), out);
    }
}

fn write_entries(each: &[SegmentInfo], out: &mut [u8])
    requires { length out.old ≡ 16 * length each.now }
    ensures bytes { out.new ≡ flat_map segment_bytes each.now }
    ensures fit { All HasSpelling each.now }
{
    for (i, info) in each.iter().enumerate() {
        let from = SEGMENT_SIZE * i;
        write_segment(*info, &mut out[from..from + SEGMENT_SIZE]);
    }
}

/// What the entries tell of each segment, whichever are active.
fn read_entries(
    alloc: Global,
    geometry: Geometry,
    bytes: &[u8],
) -> Result<Items<SegmentInfo>, VolError>
    requires { length bytes.now ≡ 16 * geometry.segments }
    ensures found { IfOk result (AreEntriesOf geometry bytes.now) }
    ensures only { (each : List SegmentInfo) → AreEntriesOf geometry bytes.now each
        → MatchResult result (λ found. found ≡ each) (λ e. e ≡ VolError.Memory) }
    ensures refused { IfErr result (λ e. (e ≡ VolError.BadImage 4) ⊎ (e ≡ VolError.Memory)) }
{
    let segments = geometry.segments as usize;
    let mut each = Vec::with_capacity(alloc, segments)?;
    for i in 0..segments {
        let Some(info) = read_entry(bytes, i, geometry.blocks) else {
            return Err(BAD_ENTRIES);
        };
        each.push(info)?;
    }
    Ok(Items::from_vec(each))
}

/// What the entry of a segment tells, where a segment of so many blocks may be so.
fn read_entry(bytes: &[u8], i: usize, blocks: u32) -> Option<SegmentInfo>
    requires { 16 * i + 16 ≤ length bytes.now }
    ensures found { IfSome result (IsEntryAt blocks bytes.now i) }
    ensures only { (info : SegmentInfo) → IsEntryAt blocks bytes.now i info → result ≡ Some info }
{
    let from = SEGMENT_SIZE * i;
    let info = read_segment(&bytes[from..from + SEGMENT_SIZE])?;
    if is_sound(info, blocks) {
        Some(info)
    } else {
        None
    }
}

fn is_sound(info: SegmentInfo, blocks: u32) -> bool
    ensures { IsTrue result ↔ IsSoundSegment blocks info }
{
    match info.state {
        SegmentState::Clean => info.stamp == 0 && info.used == 0,
        SegmentState::Dirty | SegmentState::Active => 0 < info.used && info.used <= blocks,
        SegmentState::Error => info.used <= blocks,
    }
}

/// The segment that is active, if one is. Refused where two are.
fn active_of(each: &[SegmentInfo]) -> Result<Option<Segment>, VolError>
    requires { length each.now ≤ limits.segment_limit }
    ensures found { IfOk result (IsActiveIn each.now) }
    ensures two { OnErr result (HaveOneActive each.now → ⊥) }
    ensures refused { OnErr result (result ≡ Err (VolError.BadImage 4)) }
{
    let mut active = None;
    for (number, info) in each.iter().enumerate() {
        if is_active(info.state) {
            if active.is_some() {
                return Err(BAD_ENTRIES);
            }
            active = Some(Segment::new(number as u32));
        }
    }
    Ok(active)
}

fn is_active(state: SegmentState) -> bool
    ensures { result ≡ segments.is_active state }
{
    match state {
        SegmentState::Active => true,
        SegmentState::Clean | SegmentState::Dirty | SegmentState::Error => false,
    }
}
