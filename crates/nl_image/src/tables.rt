//! The tables of an image: segments, checkpoints and numbers.
ghost use Rattle.std.specs.Prelude.{◌≡◌, IfErr, IfOk};
ghost use Rattle.nl_image.specs.Conditions.{number_of_last};
ghost use Rattle.nl_image.specs.Reading.{AreNumbered, HaveCheckpoints, HaveSegments, HaveTables, IsRefusal, IsSectioned, parts_read, parts_with};

use crate::sections::Sections;
use nl_cpfile::read_checkpoints;
use nl_dat::{DatEntry, read_numbers};
use nl_layout::CheckpointEntry;
use nl_sufile::SegTable;
use nl_types::{CheckpointNumber, Items, VolError};
use std::alloc::Global;

/// What the tables of an image tell.
#[derive(Drop)]
pub(crate) struct ImageTables {
    pub(crate) segments: SegTable,
    pub(crate) kept: Items<CheckpointEntry>,
    /// By virtual number; 0 is never used.
    pub(crate) numbers: Items<Option<DatEntry>>,
}

/// The tables of an image. Refused by `BadImage` 4 to 6 by the first condition that fails, and by `Memory`.
pub(crate) fn read_tables(alloc: Global, sections: &Sections<'_>) -> Result<ImageTables, VolError>
    requires { IsSectioned sections.now }
    ensures found { IfOk result (λ tables.
        HaveTables sections.now.image.now (parts_read sections.now tables)) }
    ensures numbered { IfOk result (λ tables. AreNumbered tables.numbers tables.segments
        (parts_read sections.now tables)) }
    ensures refused { IfErr result (IsRefusal sections.now.image.now) }
{
    let segments = read_segments(alloc, sections)?;
    let kept = read_kept(alloc, sections, &segments)?;
    let numbers = read_all_numbers(alloc, sections, &segments, kept.as_slice())?;
    Ok(ImageTables {
        segments,
        kept,
        numbers,
    })
}

fn read_segments(alloc: Global, sections: &Sections<'_>) -> Result<SegTable, VolError>
    requires { IsSectioned sections.now }
    ensures found { IfOk result (HaveSegments sections.now) }
    ensures refused { IfErr result (IsRefusal sections.now.image.now) }
{
    SegTable::restore(alloc, sections.geometry, sections.segments)
}

/// The entries of the kept checkpoints.
fn read_kept(
    alloc: Global,
    sections: &Sections<'_>,
    segments: &SegTable,
) -> Result<Items<CheckpointEntry>, VolError>
    requires sectioned { IsSectioned sections.now }
    requires segments { HaveSegments sections.now segments.now }
    ensures found { IfOk result (HaveCheckpoints sections.now segments.now) }
    ensures refused { IfErr result (IsRefusal sections.now.image.now) }
{
    read_checkpoints(alloc, sections.superblock.mark, sections.checkpoints)
}

/// The number of the last entry, 0 where there is none.
fn last_number(kept: &[CheckpointEntry]) -> CheckpointNumber
    ensures { result ≡ number_of_last kept.now }
{
    match kept.last() {
        Some(entry) => entry.number,
        None => CheckpointNumber::new(0),
    }
}

/// What the image has for each number.
fn read_all_numbers(
    alloc: Global,
    sections: &Sections<'_>,
    segments: &SegTable,
    kept: &[CheckpointEntry],
) -> Result<Items<Option<DatEntry>>, VolError>
    requires sectioned { IsSectioned sections.now }
    requires checkpoints { HaveCheckpoints sections.now segments.now kept.now }
    ensures found { IfOk result (λ table. HaveTables sections.now.image.now
        (parts_with sections.now segments.now kept.now table)) }
    ensures numbered { IfOk result (λ table. AreNumbered table segments.now
        (parts_with sections.now segments.now kept.now table)) }
    ensures refused { IfErr result (IsRefusal sections.now.image.now) }
{
    read_numbers(alloc, sections.numbers, segments, last_number(kept))
}
