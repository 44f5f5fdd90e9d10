//! The logs of an image, and whose their payload is.
ghost use Rattle.std.specs.Prelude.{◌≡◌, ◌↔◌, IfErr, IfOk, IsTrue};
ghost use Rattle.nl_vstore.specs.Images.{pages_of_bytes};
ghost use Rattle.nl_segwriter.specs.Images.{IsRestored};
ghost use Rattle.nl_segwriter.specs.Writing.{held_in};
ghost use Rattle.nl_image.specs.Conditions.{HasLogs};
ghost use Rattle.nl_image.specs.Reading.{AreNumbered, HaveReadLogs, HaveOwn, HaveTables, IsOwnEntry, IsRefusal, IsSectioned, parts_read};

use crate::sections::Sections;
use crate::tables::ImageTables;
use nl_check::ImageCondition;
use nl_dat::DatEntry;
use nl_segwriter::Restored;
use nl_types::VolError;
use nl_vstore::{Payload, laws};
use std::alloc::Global;

/// The logs of an image. Refused by `BadImage(7)` where the used part of a segment isn't whole logs, or the
/// block of a number isn't payload of one that names the number, and by `Memory`.
pub(crate) fn read_logs(
    alloc: Global,
    sections: &Sections<'_>,
    tables: &ImageTables,
) -> Result<Restored, VolError>
    requires sectioned { IsSectioned sections.now }
    requires tables { HaveTables sections.now.image.now (parts_read sections.now tables.now) }
    requires numbered { AreNumbered tables.now.numbers tables.now.segments
        (parts_read sections.now tables.now) }
    ensures found { IfOk result (HaveReadLogs sections.now tables.now) }
    ensures meets { IfOk result (λ _.
        HasLogs sections.now.image.now (parts_read sections.now tables.now)) }
    ensures refused { IfErr result (IsRefusal sections.now.image.now) }
{
    // So the logs hold one payload alone.
    laws::summaries_are_one();
    let logs = read_whole(alloc, sections, tables)?;
    if have_own(tables.numbers.as_slice(), logs.payload.as_slice()) {
        Ok(logs)
    } else {
        Err(VolError::BadImage(ImageCondition::Logs.number()))
    }
}

/// The used blocks of an image, which have to be whole logs.
fn read_whole(
    alloc: Global,
    sections: &Sections<'_>,
    tables: &ImageTables,
) -> Result<Restored, VolError>
    requires sectioned { IsSectioned sections.now }
    requires tables { HaveTables sections.now.image.now (parts_read sections.now tables.now) }
    ensures found { IfOk result (IsRestored tables.now.segments (pages_of_bytes sections.now.blocks.now)) }
    ensures refused { IfErr result (IsRefusal sections.now.image.now) }
{
    Restored::read(alloc, &tables.segments, sections.blocks)
}

/// Whether the block of each number is payload that names the number.
fn have_own(table: &[Option<DatEntry>], payload: &[Option<Payload>]) -> bool
    ensures { IsTrue result ↔ HaveOwn table.now payload.now }
{
    for number in 0..table.len() {
        if !has_own(&table[number], number as u64, payload) {
            return false;
        }
    }
    true
}

fn has_own(entry: &Option<DatEntry>, number: u64, payload: &[Option<Payload>]) -> bool
    ensures { IsTrue result ↔ IsOwnEntry (held_in payload.now) number entry.now }
{
    match entry {
        Some(entry) => match payload.get(entry.block.get() as usize) {
            Some(Some((tag, _))) => tag.number.get() == number,
            _ => false,
        },
        None => true,
    }
}
