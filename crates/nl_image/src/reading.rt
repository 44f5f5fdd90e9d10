//! An image, read whole and judged by all conditions.
ghost use Rattle.std.specs.Prelude.{◌≡◌, ◌↔◌, ◌*◌, IfErr, IfOk, IsTrue, OnOk, length, replicate};
ghost use Rattle.nl_types.specs.Blocks.Segments.{total_blocks};
ghost use Rattle.nl_image.specs.Conditions.{HasLogs, IsImage};
ghost use Rattle.nl_image.specs.Reading.{AreNumbered, AreZero, CanBeRestored, HasCheckedTrees, HaveReadLogs, HaveTables, IsReadImage, IsRefusal, IsSectioned, parts_read};

use crate::logs::read_logs;
use crate::pages::ImagePages;
use crate::sections::{Sections, sections_of};
use crate::tables::{ImageTables, read_tables};
use nl_check::{ImageCondition, first_fault};
use nl_dat::DatEntry;
use nl_layout::CheckpointEntry;
use nl_segwriter::Restored;
use nl_sufile::SegTable;
use nl_types::{Geometry, Items, VolError};
use nl_vstore::is_rest_zero;
use std::alloc::Global;

/// What the bytes of an image tell.
#[derive(Drop)]
pub struct ReadImage {
    pub geometry: Geometry,
    pub segments: SegTable,
    pub kept: Items<CheckpointEntry>,
    /// By virtual number; 0 is never used.
    pub numbers: Items<Option<DatEntry>>,
    pub logs: Restored,
}

/// Reads an image. Refused by `BadImage` with the number of the first condition that the bytes fail, and by
/// `Memory`: a page is taken for each used block.
pub fn read_image(alloc: Global, bytes: &[u8]) -> Result<ReadImage, VolError>
    ensures found { IfOk result (IsReadImage bytes.now) }
    ensures restores { IfOk result CanBeRestored }
    ensures refused { IfErr result (IsRefusal bytes.now) }
{
    let sections = sections_of(bytes)?;
    let tables = read_tables(alloc, &sections)?;
    let logs = read_checked(alloc, &sections, &tables)?;
    let ImageTables {
        segments,
        kept,
        numbers,
    } = tables;
    Ok(ReadImage {
        geometry: sections.geometry,
        segments,
        kept,
        numbers,
        logs,
    })
}

/// The logs of an image that meets all conditions.
fn read_checked(
    alloc: Global,
    sections: &Sections<'_>,
    tables: &ImageTables,
) -> Result<Restored, VolError>
    requires sectioned { IsSectioned sections.now }
    requires tables { HaveTables sections.now.image.now (parts_read sections.now tables.now) }
    requires numbered { AreNumbered tables.now.numbers tables.now.segments
        (parts_read sections.now tables.now) }
    ensures found { IfOk result (HaveReadLogs sections.now tables.now) }
    ensures image { IfOk result (λ _.
        IsImage sections.now.image.now (parts_read sections.now tables.now)) }
    ensures refused { IfErr result (IsRefusal sections.now.image.now) }
{
    let logs = read_logs(alloc, sections, tables)?;
    check_trees(alloc, sections, tables, &logs)?;
    if has_zeros(sections, &tables.segments) {
        Ok(logs)
    } else {
        Err(VolError::BadImage(ImageCondition::Zeros.number()))
    }
}

/// Whether all kept checkpoints meet conditions 8 to 10. Refused by the first of them that one of these
/// doesn't meet, and by `Memory`.
fn check_trees(
    alloc: Global,
    sections: &Sections<'_>,
    tables: &ImageTables,
    logs: &Restored,
) -> Result<(), VolError>
    requires sectioned { IsSectioned sections.now }
    requires tables { HaveTables sections.now.image.now (parts_read sections.now tables.now) }
    requires numbered { AreNumbered tables.now.numbers tables.now.segments
        (parts_read sections.now tables.now) }
    requires logs { HaveReadLogs sections.now tables.now logs.now }
    requires meets { HasLogs sections.now.image.now (parts_read sections.now tables.now) }
    ensures holds { OnOk result
        (HasCheckedTrees sections.now.image.now (parts_read sections.now tables.now)) }
    ensures refused { IfErr result (IsRefusal sections.now.image.now) }
{
    let pages = ImagePages {
        numbers: tables.numbers.as_slice(),
        pages: logs.pages.as_slice(),
    };
    match first_fault(alloc, &pages, sections.geometry, tables.kept.as_slice())? {
        Some(condition) => Err(VolError::BadImage(condition)),
        None => Ok(()),
    }
}

/// Whether the padding, and all blocks outside used parts, are zero.
fn has_zeros(sections: &Sections<'_>, segments: &SegTable) -> bool
    requires sectioned { IsSectioned sections.now }
    requires size { length sections.now.blocks.now ≡ 1024 * total_blocks segments.now }
    ensures { IsTrue result ↔ AreZero sections.now segments.now }
{
    is_zero(sections.padding) && is_rest_zero(segments, sections.blocks)
}

fn is_zero(bytes: &[u8]) -> bool
    ensures { IsTrue result ↔ (bytes.now ≡ replicate (length bytes.now) 0) }
{
    bytes.iter().all(|byte| *byte == 0)
}
