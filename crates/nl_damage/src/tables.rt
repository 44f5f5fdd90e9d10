//! The tables of an image none of whose bytes is missing, where they can be read.
ghost use Rattle.std.specs.Prelude.{◌≡◌, IfOk, IfSome, List, Option, Some};
ghost use Rattle.nl_types.specs.Blocks.Segments.{Segments};
ghost use Rattle.nl_layout.specs.declared.checkpoint_entry.CheckpointEntry as entry;
ghost use Rattle.nl_dat.specs.declared.entries.DatEntry as number;
ghost use Rattle.nl_dat.specs.Images.{IsTableOf, IsTableOver, table_of};
ghost use Rattle.nl_image.specs.Conditions.{number_of_last};
ghost use Rattle.nl_damage.specs.Judging.{AreCheckpoints, AreNumbers, AreRead, AreSegments};
ghost use Rattle.nl_damage.specs.Sections.{AreWhole};

use crate::sections::Sections;
use nl_cpfile::read_checkpoints;
use nl_dat::{DatEntry, read_numbers};
use nl_layout::CheckpointEntry;
use nl_sufile::SegTable;
use nl_types::{CheckpointNumber, Items, VolError};
use std::alloc::{AllocError, Global};

/// The segments. None where the bytes are no table of them.
fn segments_in(alloc: Global, sections: &Sections<'_>) -> Result<Option<SegTable>, AllocError>
    requires { AreWhole sections.now }
    ensures found { IfOk result (λ found. IfSome found (AreSegments sections.now)) }
    ensures only { IfOk result (λ found.
        (s : Segments) → AreSegments sections.now s → found ≡ Some s) }
{
    match SegTable::restore(alloc, sections.geometry, sections.segments) {
        Ok(table) => Ok(Some(table)),
        Err(VolError::BadImage(_)) => Ok(None),
        Err(_) => Err(AllocError),
    }
}

/// The entries of the kept checkpoints. None where the bytes are no table of them.
fn checkpoints_in(
    alloc: Global,
    sections: &Sections<'_>,
) -> Result<Option<Items<CheckpointEntry>>, AllocError>
    requires { AreWhole sections.now }
    ensures found { IfOk result (λ found. IfSome found (AreCheckpoints sections.now)) }
    ensures only { IfOk result (λ found.
        (kept : List entry.CheckpointEntry) → AreCheckpoints sections.now kept → found ≡ Some kept) }
{
    match read_checkpoints(alloc, sections.superblock.mark, sections.checkpoints) {
        Ok(kept) => Ok(Some(kept)),
        Err(VolError::BadImage(_)) => Ok(None),
        Err(_) => Err(AllocError),
    }
}

/// The number of the last entry, 0 where there is none.
fn last_number(kept: &[CheckpointEntry]) -> CheckpointNumber
    ensures { result ≡ number_of_last kept.now }
{
    match kept.last() {
        Some(entry) => entry.number,
        None => CheckpointNumber::new(0),
    }
}

/// What the image has for each number, 0 too, where these are its segments and checkpoints. None where the
/// bytes are no table of that.
fn numbers_in(
    alloc: Global,
    sections: &Sections<'_>,
    segments: &SegTable,
    kept: &Items<CheckpointEntry>,
) -> Result<Option<Items<Option<DatEntry>>>, AllocError>
    requires whole { AreWhole sections.now }
    requires segments { AreSegments sections.now segments.now }
    ensures found { IfOk result (λ found. IfSome found
        (IsTableOf segments.now (number_of_last kept.now) sections.now.numbers.now)) }
    ensures over { IfOk result (λ found. IfSome found
        (λ table. IsTableOver table segments.now)) }
    ensures only { IfOk result (λ found. (numbers : List (Option number.DatEntry))
        → AreNumbers sections.now segments.now kept.now numbers → found ≡ Some (table_of numbers)) }
{
    match read_numbers(
        alloc,
        sections.numbers,
        segments,
        last_number(kept.as_slice()),
    ) {
        Ok(numbers) => Ok(Some(numbers)),
        Err(VolError::BadImage(_)) => Ok(None),
        Err(_) => Err(AllocError),
    }
}

/// What the tables of an image tell, where they can be read.
#[derive(Drop)]
pub(crate) struct Tables {
    pub(crate) segments: Option<SegTable>,
    pub(crate) kept: Option<Items<CheckpointEntry>>,
    /// By virtual number; 0 is never used. None too where the segments or the checkpoints can't be read.
    pub(crate) numbers: Option<Items<Option<DatEntry>>>,
}

impl Tables {
    pub(crate) fn of(alloc: Global, sections: &Sections<'_>) -> Result<Tables, AllocError>
        requires { AreWhole sections.now }
        ensures { IfOk result (AreRead sections.now) }
    {
        let segments = segments_in(alloc, sections)?;
        let kept = checkpoints_in(alloc, sections)?;
        let numbers = match (&segments, &kept) {
            (Some(segments), Some(kept)) => numbers_in(alloc, sections, segments, kept)?,
            _ => None,
        };
        Ok(Tables {
            segments,
            kept,
            numbers,
        })
    }
}
