//! The pages and periods that the table of an image gives virtual block numbers, sound or not.
ghost use Rattle.std.specs.Prelude.{◌≡◌, IfErr, IfOk, length, map, option_copied};
ghost use Rattle.std.specs.Option.{option_and_then};
ghost use Rattle.nl_check.specs.Judging.{told};
ghost use Rattle.nl_check.specs.Verdicts.{IsVerdict};
ghost use Rattle.nl_dat.specs.EntryBytes.{end_at};
ghost use Rattle.nl_damage.specs.Judging.{shown_by};
ghost use Rattle.nl_damage.specs.Pages.{ArePagesOf, entry_in, numbered_at, numbered_by, numbered_in, RefusesPages, pages_of, periods_of, told_in};

use crate::sections::Sections;
use byteorder::{ByteOrder, LittleEndian};
use nl_check::{Verdict, judge_checkpoints};
use nl_layout::CheckpointEntry;
use nl_types::{
    BLOCK_SIZE, Block, CheckpointNumber, Geometry, Items, Page, Period, VirtualNumber, VolError,
};
use nl_vstore::VRead;
use std::alloc::{AllocError, Global};

/// What a number stands for.
#[derive(Drop)]
pub(crate) struct Numbered {
    pub(crate) page: Page,
    pub(crate) period: Period,
}

/// What each number stands for, 0 too, as far as the image has an entry and a block for it.
#[derive(Drop)]
pub struct ImagePages {
    table: Items<Option<Numbered>>,
}

/// The period of an entry with these numbers of checkpoints.
fn period_of(start: u64, end: u64) -> Period
    ensures start { result.start ≡ start }
    ensures end { result.end ≡ end_at end }
{
    let end = if end == u64::MAX {
        None
    } else {
        Some(CheckpointNumber::new(end))
    };
    Period {
        start: CheckpointNumber::new(start),
        end,
    }
}

fn page_of(alloc: Global, bytes: &[u8]) -> Result<Page, AllocError>
    requires { length bytes.now ≡ 1024 }
    ensures { IfOk result (λ page. page ≡ bytes.now) }
{
    let mut block = [0; BLOCK_SIZE];
    block.copy_from_slice(bytes);
    Page::new(alloc, Block::new(block))
}

/// The block of an entry, and its period. None where the entry is of no number in use.
fn told_by(entry: &[u8]) -> Option<(u64, Period)>
    requires { length entry.now ≡ 24 }
    ensures { result ≡ told_in entry.now }
{
    let start = LittleEndian::read_u64(&entry[8..]);
    if start == 0 {
        return None;
    }
    let period = period_of(start, LittleEndian::read_u64(&entry[16..]));
    Some((LittleEndian::read_u64(entry), period))
}

/// What a number stands for whose entry tells a block and a period. None where the image lacks the block.
fn made_by(
    alloc: Global,
    sections: &Sections<'_>,
    told: (u64, Period),
) -> Result<Option<Numbered>, AllocError>
    ensures { IfOk result (λ numbered. numbered ≡ numbered_by sections.now told) }
{
    let (block, period) = told;
    match sections.block(block as usize) {
        Some(bytes) => Ok(Some(Numbered {
            page: page_of(alloc, bytes)?,
            period,
        })),
        None => Ok(None),
    }
}

/// What the entry of a number tells. None where there is none, or it is of no number in use.
fn told_of(sections: &Sections<'_>, number: usize) -> Option<(u64, Period)>
    ensures { result ≡ option_and_then told_in (entry_in sections.now number) }
{
    told_by(sections.number(number)?)
}

/// The block that the table has for a number. None where there is no entry, or it is of no number in use.
pub(crate) fn block_of(sections: &Sections<'_>, number: usize) -> Option<usize> {
    match told_of(sections, number) {
        Some((block, _)) => Some(block as usize),
        None => None,
    }
}

/// What a number stands for. None where the image has no entry or no block of it.
fn read_numbered(
    alloc: Global,
    sections: &Sections<'_>,
    number: usize,
) -> Result<Option<Numbered>, AllocError>
    ensures { IfOk result (λ numbered. numbered ≡ numbered_in sections.now number) }
{
    match told_of(sections, number) {
        Some(told) => made_by(alloc, sections, told),
        None => Ok(None),
    }
}

impl ImagePages {
    ghost use Rattle.std.specs.Prelude.{◌-◌, ◌≤◌, ℕ, IsSome};

    /// The pages of the numbers from 0 up to the count of blocks. Refused by want of memory: each number in
    /// use takes a page.
    pub fn of(alloc: Global, sections: &Sections<'_>) -> Result<ImagePages, AllocError>
        ensures { IfOk result (ArePagesOf sections.now) }
    {
        let count = sections.geometry.total() as usize + 1;
        let mut table = Vec::with_capacity(alloc, count)?;
        for number in 0..count {
            table.push(read_numbered(alloc, sections, number)?)?;
        }
        Ok(ImagePages {
            table: Items::from_vec(table),
        })
    }

    /// A number that no number with a page is above.
    pub(crate) fn last(&self) -> u64
        ensures last { (v : ℕ) → IsSome (numbered_at self.now v) → v ≤ result }
        ensures count { result ≡ length self.now.table - 1 }
    {
        (self.table.len() as u64).saturating_sub(1)
    }

    /// What a number stands for that isn't left out.
    fn shared(&self, number: usize, is_left_out: &[bool]) -> Result<Option<Numbered>, AllocError> {
        if is_left_out.get(number) == Some(&true) {
            return Ok(None);
        }
        match self.table.as_slice().get(number) {
            Some(Some(numbered)) => Ok(Some(Numbered {
                page: numbered.page.share()?,
                period: numbered.period,
            })),
            _ => Ok(None),
        }
    }

    /// The same pages without those of the numbers that are left out. Refused by want of memory.
    pub(crate) fn without(
        &self,
        alloc: Global,
        is_left_out: &[bool],
    ) -> Result<ImagePages, AllocError> {
        let mut table = Vec::with_capacity(alloc, self.table.len())?;
        for number in 0..self.table.len() {
            table.push(self.shared(number, is_left_out)?)?;
        }
        Ok(ImagePages {
            table: Items::from_vec(table),
        })
    }

    fn at(&self, number: VirtualNumber) -> Option<&Numbered>
        ensures { option_copied result ≡ numbered_at self.now number }
    {
        match self.table.as_slice().get(number.get() as usize) {
            Some(Some(numbered)) => Some(numbered),
            _ => None,
        }
    }
}

impl VRead for ImagePages {
    ghost use Rattle.nl_damage.specs.Pages.{pages_of, periods_of};

    ghost pages = { pages_of };

    ghost periods = { periods_of };

    fn page(&self, number: VirtualNumber) -> Option<&Page> {
        match self.at(number) {
            Some(numbered) => Some(&numbered.page),
            None => None,
        }
    }

    fn period(&self, number: VirtualNumber) -> Option<Period> {
        match self.at(number) {
            Some(numbered) => Some(numbered.period),
            None => None,
        }
    }
}

/// What is told of the conditions 8 to 10 of kept checkpoints by these pages: of 9 and 10 each whether or not
/// the other one holds, and of neither where 8 fails, which is None. Refused by `Fault` where there are more
/// numbers than blocks.
pub(crate) fn judge_by(
    alloc: Global,
    pages: &ImagePages,
    geometry: Geometry,
    kept: &[CheckpointEntry],
) -> Result<Option<Verdict>, VolError>
    ensures verdict { IfOk result
        (IsVerdict (pages_of pages.now) (periods_of pages.now) (map told kept.now)) }
    ensures refused { IfErr result (RefusesPages pages.now geometry) }
{
    if pages.last() > u64::from(geometry.total()) {
        return Err(VolError::Fault);
    }
    judge_checkpoints(alloc, pages, geometry, kept)
}

/// Whether a condition of 8 to 10 holds, by what is told of all three. None where that isn't told.
pub(crate) fn holds_by(verdict: Option<Verdict>, condition: u8) -> Option<bool>
    ensures { result ≡ shown_by verdict condition }
{
    match (verdict, condition) {
        (None, 8) => Some(false),
        (Some(_), 8) => Some(true),
        (Some(verdict), 9) => Some(verdict.trees),
        (Some(verdict), 10) => Some(verdict.periods),
        _ => None,
    }
}
