//! The conditions of an image behind the first that fails, as far as they can be judged without that.
ghost use Rattle.std.specs.Prelude.{◌≡◌, ◌↔◌, IfOk, IsTrue, List, Some, is_some, length, replicate};
ghost use Rattle.nl_types.specs.Blocks.Segments.{Segments};
ghost use Rattle.nl_layout.specs.declared.checkpoint_entry.CheckpointEntry as entry;
ghost use Rattle.nl_segwriter.specs.Writing.{held_in};
ghost use Rattle.nl_dat.specs.Images.{IsTableOver};
ghost use Rattle.nl_image.specs.Reading.{HaveOwn, IsOwnEntry};
ghost use Rattle.nl_damage.specs.Judging.{AreJudged, AreRead, AreSegments, AreZero, HaveLogs, IsFound, IsJudged, IsJudgedOf, TellLogs, TellTrees, TellZeros, held_by};
ghost use Rattle.nl_damage.specs.Sections.{AreWhole};

use crate::pages::{ImagePages, holds_by, judge_by};
use crate::places::{Place, place_of};
use crate::sections::Sections;
use crate::tables::Tables;
use nl_check::Verdict;
use nl_dat::DatEntry;
use nl_layout::CheckpointEntry;
use nl_segwriter::Restored;
use nl_sufile::SegTable;
use nl_types::VolError;
use nl_vstore::{Payload, is_rest_zero, laws};
use std::alloc::{AllocError, Global};

/// What is found of a condition.
#[derive(Clone, Copy)]
pub enum Finding {
    Holds,
    /// It fails, and where, as far as that is known.
    Fails(Option<Place>),
    /// It asks for what another one that fails would have told.
    NotJudged,
}

// ---- what is judged behind the tables

/// Whether the entry of a number, if it is in use, has payload of that number.
fn has_own(entry: &Option<DatEntry>, number: u64, payload: &[Option<Payload>]) -> bool
    ensures { IsTrue result ↔ IsOwnEntry (held_in payload.now) number entry.now }
{
    let Some(entry) = entry else {
        return true;
    };
    match payload.get(entry.block.get() as usize) {
        Some(Some((tag, _))) => tag.number.get() == number,
        _ => false,
    }
}

/// Whether each number has its own block.
fn have_own(table: &[Option<DatEntry>], payload: &[Option<Payload>]) -> bool
    ensures { IsTrue result ↔ HaveOwn table.now payload.now }
{
    for (number, entry) in table.iter().enumerate() {
        if !has_own(entry, number as u64, payload) {
            return false;
        }
    }
    true
}

/// Whether the used parts are whole logs, and each number has its own block of them.
fn has_logs(
    alloc: Global,
    sections: &Sections<'_>,
    segments: &SegTable,
    table: &[Option<DatEntry>],
) -> Result<bool, AllocError>
    requires whole { AreWhole sections.now }
    requires segments { AreSegments sections.now segments.now }
    requires over { IsTableOver table.now segments.now }
    ensures { IfOk result (λ has. IsTrue has ↔ HaveLogs sections.now segments.now table.now) }
{
    // So the logs hold one payload alone.
    laws::summaries_are_one();
    match Restored::read(alloc, segments, sections.blocks) {
        Ok(logs) => Ok(have_own(table, logs.payload.as_slice())),
        Err(VolError::BadImage(_)) => Ok(false),
        Err(_) => Err(AllocError),
    }
}

/// What is told of the conditions 8 to 10.
fn verdict_of(
    alloc: Global,
    sections: &Sections<'_>,
    kept: &[CheckpointEntry],
) -> Result<Option<Verdict>, VolError>
    ensures { IfOk result (AreJudged sections.now kept.now) }
{
    let pages = ImagePages::of(alloc, sections)?;
    judge_by(alloc, &pages, sections.geometry, kept)
}

fn are_zero(bytes: &[u8]) -> bool
    ensures { IsTrue result ↔ (bytes.now ≡ replicate (length bytes.now) 0) }
{
    bytes.iter().all(|byte| *byte == 0)
}

/// Whether the padding, and all blocks outside used parts, are zero.
fn has_zeros(sections: &Sections<'_>, segments: &SegTable) -> bool
    requires whole { AreWhole sections.now }
    requires segments { AreSegments sections.now segments.now }
    ensures { IsTrue result ↔ AreZero sections.now segments.now }
{
    are_zero(sections.padding) && is_rest_zero(segments, sections.blocks)
}

// ---- all of them

/// What is judged of the conditions from the fourth on. None where a condition asks for what fails.
#[derive(Clone, Copy)]
pub struct Judged {
    segments: Option<bool>,
    checkpoints: Option<bool>,
    numbers: Option<bool>,
    logs: Option<bool>,
    /// What is told of the conditions 8 to 10.
    trees: Option<Option<Verdict>>,
    zeros: Option<bool>,
}

/// Of an image that isn't divided.
const NONE_JUDGED: Judged = Judged {
    segments: None,
    checkpoints: None,
    numbers: None,
    logs: None,
    trees: None,
    zeros: None,
};

/// Whether the numbers hold, where the segments and the checkpoints do.
fn numbers_judged(tables: &Tables) -> Option<bool>
    ensures { (s : Segments) (kept : List entry.CheckpointEntry) → tables.now.segments ≡ Some s
        → tables.now.kept ≡ Some kept → result ≡ Some (is_some tables.now.numbers) }
{
    match (&tables.segments, &tables.kept) {
        (Some(_), Some(_)) => Some(tables.numbers.is_some()),
        _ => None,
    }
}

/// Whether the logs hold, where what they ask for does.
fn logs_judged(
    alloc: Global,
    sections: &Sections<'_>,
    tables: &Tables,
) -> Result<Option<bool>, AllocError>
    requires whole { AreWhole sections.now }
    requires read { AreRead sections.now tables.now }
    ensures { IfOk result (TellLogs sections.now) }
{
    match (&tables.segments, &tables.numbers) {
        (Some(segments), Some(numbers)) => {
            let has_logs = has_logs(alloc, sections, segments, numbers.as_slice())?;
            Ok(Some(has_logs))
        }
        _ => Ok(None),
    }
}

fn trees_judged(
    alloc: Global,
    sections: &Sections<'_>,
    tables: &Tables,
) -> Result<Option<Option<Verdict>>, AllocError>
    requires { AreRead sections.now tables.now }
    ensures { IfOk result (TellTrees sections.now) }
{
    match (&tables.kept, &tables.numbers) {
        (Some(kept), Some(_)) => match verdict_of(alloc, sections, kept.as_slice()) {
            Ok(verdict) => Ok(Some(verdict)),
            Err(_) => Err(AllocError),
        },
        _ => Ok(None),
    }
}

fn zeros_judged(sections: &Sections<'_>, tables: &Tables) -> Option<bool>
    requires whole { AreWhole sections.now }
    requires read { AreRead sections.now tables.now }
    ensures { TellZeros sections.now result }
{
    match &tables.segments {
        Some(segments) => Some(has_zeros(sections, segments)),
        None => None,
    }
}

impl Judged {
    fn of_whole(alloc: Global, sections: &Sections<'_>) -> Result<Judged, AllocError>
        requires { AreWhole sections.now }
        ensures { IfOk result (IsJudged sections.now) }
    {
        let tables = Tables::of(alloc, sections)?;
        Ok(Judged {
            segments: Some(tables.segments.is_some()),
            checkpoints: Some(tables.kept.is_some()),
            numbers: numbers_judged(&tables),
            logs: logs_judged(alloc, sections, &tables)?,
            trees: trees_judged(alloc, sections, &tables)?,
            zeros: zeros_judged(sections, &tables),
        })
    }

    /// What is judged of the bytes of an image. Where one of its first three conditions fails that is nothing.
    /// Refused by want of memory.
    pub fn of(alloc: Global, image: &[u8]) -> Result<Judged, AllocError>
        ensures { IfOk result (IsJudgedOf image.now) }
    {
        match Sections::of_whole(image) {
            Some(sections) => Judged::of_whole(alloc, &sections),
            None => Ok(NONE_JUDGED),
        }
    }

    /// Whether a condition from the fourth on holds. None where it isn't judged.
    fn holds(self, condition: u8) -> Option<bool>
        ensures { result ≡ held_by self condition }
    {
        match condition {
            4 => self.segments,
            5 => self.checkpoints,
            6 => self.numbers,
            7 => self.logs,
            8..=10 => holds_by(self.trees?, condition),
            11 => self.zeros,
            _ => None,
        }
    }

    /// What is found of a condition from the fourth on, of the image that was judged. Refused by want of memory.
    pub fn finding(self, alloc: Global, image: &[u8], condition: u8) -> Result<Finding, AllocError>
        ensures { IfOk result (IsFound (held_by self condition)) }
    {
        match self.holds(condition) {
            Some(true) => Ok(Finding::Holds),
            Some(false) => Ok(Finding::Fails(place_of(alloc, image, condition)?)),
            None => Ok(Finding::NotJudged),
        }
    }
}
