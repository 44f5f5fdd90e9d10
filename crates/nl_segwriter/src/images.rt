//! The logs of an image.
ghost use Rattle.std.specs.Prelude.{◌≡◌, ◌⊎◌, ◌+◌, ◌*◌, ◌<◌, ◌≤◌, IfErr, IfOk, IfSome, IsSome, List, MatchResult, None, OnOk, Some, length, ℕ};
ghost use Rattle.nl_types.specs.Plain.Limits as limits;
ghost use Rattle.nl_types.specs.Blocks.Segments.{IsUsed, total_blocks};
ghost use Rattle.nl_layout.specs.Summary.{Contents, SummaryHasSpelling, summary_bytes};
ghost use Rattle.nl_vstore.specs.Images.{pages_of_bytes};
ghost use Rattle.nl_vstore.specs.Logs.{FillDevice, FillUpTo, IsOnDevice, WholeLog};
ghost use Rattle.nl_segwriter.specs.Images.{AreLogsIn, AreUsedPages, HoldLogs, IsFreeBetween, IsLogHeld, IsRowHeld, SameAround, page_in};
ghost use Rattle.nl_segwriter.specs.Writing.{held_in};

use crate::log_space::used_of;
use crate::payload::no_payload;
use nl_layout::{Summary, Tag};
use nl_sufile::SegTable;
use nl_types::{BLOCK_SIZE, Block, BlockNumber, Items, Page, Segment, VolError};
use nl_vstore::Payload;
use std::alloc::{AllocError, Global};

/// What refuses an image for its logs.
const BAD_LOGS: VolError = VolError::BadImage(7);

/// What an image has in the used parts of its segments, by block number.
#[derive(Drop)]
pub struct Restored {
    /// The pages of the used blocks, summaries too.
    pub pages: Items<Option<Page>>,
    /// The payload of the logs, which shares those pages.
    pub payload: Items<Option<Payload>>,
}

impl Restored {
    ghost use Rattle.nl_segwriter.specs.Images.{IsRestored};

    /// What the blocks of an image have in used parts. Refused by `BadImage(7)` where a used part isn't whole
    /// logs, one right behind another, and by `Memory`: a page is taken for each used block.
    pub fn read(alloc: Global, table: &SegTable, blocks: &[u8]) -> Result<Restored, VolError>
        requires { length blocks.now ≡ 1024 * total_blocks table.now }
        ensures found { IfOk result (IsRestored table.now (pages_of_bytes blocks.now)) }
        ensures only { AreLogsIn table.now (pages_of_bytes blocks.now)
            → IfErr result (λ e. e ≡ VolError.Memory) }
        ensures refused { IfErr result (λ e. (e ≡ VolError.BadImage 7) ⊎ (e ≡ VolError.Memory)) }
    {
        let pages = read_pages(alloc, table, blocks)?;
        match read_payload(alloc, table, pages.as_slice()) {
            Ok(payload) => Ok(Restored { pages, payload }),
            Err(error) => Err(error),
        }
    }
}

/// The pages of the used blocks of an image, and none for the others.
fn read_pages(
    alloc: Global,
    table: &SegTable,
    blocks: &[u8],
) -> Result<Items<Option<Page>>, AllocError>
    requires { length blocks.now ≡ 1024 * total_blocks table.now }
    ensures { IfOk result (AreUsedPages table.now (pages_of_bytes blocks.now)) }
{
    let count = table.sustat().segments * table.blocks() as usize;
    let mut pages = Vec::with_capacity(alloc, count)?;
    for number in 0..count {
        pages.push(read_page(alloc, table, blocks, number)?)?;
    }
    Ok(Items::from_vec(pages))
}

fn read_page(
    alloc: Global,
    table: &SegTable,
    blocks: &[u8],
    number: usize,
) -> Result<Option<Page>, AllocError>
    requires size { length blocks.now ≡ 1024 * total_blocks table.now }
    requires inside { number < total_blocks table.now }
    requires few { total_blocks table.now ≤ limits.volume_block_limit }
    ensures used { IfOk result (λ page. IsUsed table.now number → page ≡ pages_of_bytes blocks.now number) }
    ensures unused { IfOk result (λ page. (IsUsed table.now number → ⊥) → page ≡ None) }
{
    if !table.is_used(BlockNumber::new(number as u32)) {
        return Ok(None);
    }
    let from = BLOCK_SIZE * number;
    let page = page_of(alloc, &blocks[from..from + BLOCK_SIZE])?;
    Ok(Some(page))
}

fn page_of(alloc: Global, bytes: &[u8]) -> Result<Page, AllocError>
    requires { length bytes.now ≡ 1024 }
    ensures { IfOk result (λ page. page ≡ bytes.now) }
{
    let mut block = [0; BLOCK_SIZE];
    block.copy_from_slice(bytes);
    Page::new(alloc, Block::new(block))
}

/// The payload of the logs in the used parts of segments, where these are the pages. Refused by `BadImage(7)`
/// where a used part isn't whole logs, one right behind another, and by `Memory`.
fn read_payload(
    alloc: Global,
    table: &SegTable,
    pages: &[Option<Page>],
) -> Result<Items<Option<Payload>>, VolError>
    requires { length pages.now ≡ total_blocks table.now }
    ensures found { IfOk result (HoldLogs table.now (page_in pages.now)) }
    ensures only { AreLogsIn table.now (page_in pages.now) → IfErr result (λ e. e ≡ VolError.Memory) }
    ensures refused { IfErr result (λ e. (e ≡ VolError.BadImage 7) ⊎ (e ≡ VolError.Memory)) }
{
    let blocks = table.blocks();
    let segments = table.sustat().segments as u32;
    let mut payload = no_payload(alloc, segments * blocks)?;
    for i in 0..segments {
        let segment = Segment::new(i);
        let first = (i * blocks) as usize;
        let used = used_of(table, segment) as usize;
        read_logs(pages, first, first + used, &mut payload)?;
    }
    Ok(payload)
}

/// Holds the payload of the logs between two blocks, one right behind another.
fn read_logs(
    pages: &[Option<Page>],
    first: usize,
    end: usize,
    payload: &mut Items<Option<Payload>>,
) -> Result<(), VolError>
    requires order { first ≤ end }
    requires inside { end ≤ length pages.now }
    requires size { length payload.old ≡ length pages.now }
    requires free { IsFreeBetween first end (held_in payload.old) }
    ensures held { OnOk result ((logs : List WholeLog)
        × FillUpTo first end logs (held_in payload.new) (page_in pages.now)) }
    ensures others { OnOk result (SameAround first end (held_in payload.old) (held_in payload.new)) }
    ensures same_size { length payload.new ≡ length payload.old }
    ensures only { (logs : List WholeLog) → FillDevice first end logs (page_in pages.now)
        → IfErr result (λ e. e ≡ VolError.Memory) }
    ensures refused { IfErr result (λ e. (e ≡ VolError.BadImage 7) ⊎ (e ≡ VolError.Memory)) }
{
    let mut at = first;
    while at < end {
        at = read_log(pages, at, end, payload)?;
    }
    Ok(())
}

/// Holds the payload of one log, and answers where the next one begins.
fn read_log(
    pages: &[Option<Page>],
    at: usize,
    end: usize,
    payload: &mut Items<Option<Payload>>,
) -> Result<usize, VolError>
    requires order { at < end }
    requires inside { end ≤ length pages.now }
    requires size { length payload.old ≡ length pages.now }
    requires free { IsFreeBetween at end (held_in payload.old) }
    ensures held { IfOk result (λ next. IsLogHeld at next end (held_in payload.new) (page_in pages.now)) }
    ensures others { IfOk result (λ next. SameAround at next (held_in payload.old) (held_in payload.new)) }
    ensures same_size { length payload.new ≡ length payload.old }
    ensures only { (log : WholeLog) → IsOnDevice at log (page_in pages.now)
        → at + 1 + length log.payload ≤ end
        → MatchResult result (λ next. next ≡ at + 1 + length log.payload) (λ e. e ≡ VolError.Memory) }
    ensures refused { IfErr result (λ e. (e ≡ VolError.BadImage 7) ⊎ (e ≡ VolError.Memory)) }
{
    let Some(summary) = summary_at(pages, at) else {
        return Err(BAD_LOGS);
    };
    let tags = summary.tags();
    if tags.len() >= end - at {
        return Err(BAD_LOGS);
    }
    hold_pages(tags, pages, at + 1, payload)?;
    Ok(at + 1 + tags.len())
}

fn summary_at(pages: &[Option<Page>], at: usize) -> Option<Summary>
    ensures fits { IfSome result SummaryHasSpelling }
    ensures found { IfSome result (λ s. page_in pages.now at ≡ Some (summary_bytes s)) }
    ensures only { (s : Contents) → SummaryHasSpelling s → page_in pages.now at ≡ Some (summary_bytes s)
        → result ≡ Some s }
{
    match pages.get(at) {
        Some(Some(page)) => Summary::read(page.bytes()),
        _ => None,
    }
}

/// Holds the pages from a number on, each with what the tag says of it.
fn hold_pages(
    tags: &[Tag],
    pages: &[Option<Page>],
    first: usize,
    payload: &mut Items<Option<Payload>>,
) -> Result<(), VolError>
    requires inside { first + length tags.now ≤ length pages.now }
    requires size { length payload.old ≡ length pages.now }
    ensures held { OnOk result (IsRowHeld first tags.now (held_in payload.new) (page_in pages.now)) }
    ensures others { OnOk result (SameAround first (first + length tags.now)
        (held_in payload.old) (held_in payload.new)) }
    ensures same_size { length payload.new ≡ length payload.old }
    ensures only { ((k : ℕ) → k < length tags.now → IsSome (page_in pages.now (first + k)))
        → IfErr result (λ e. e ≡ VolError.Memory) }
    ensures refused { IfErr result (λ e. (e ≡ VolError.BadImage 7) ⊎ (e ≡ VolError.Memory)) }
{
    for (k, tag) in tags.iter().enumerate() {
        let page = page_at(pages, first + k)?;
        payload.set(first + k, Some((*tag, page)));
    }
    Ok(())
}

/// The page of a number, shared.
fn page_at(pages: &[Option<Page>], number: usize) -> Result<Page, VolError>
    ensures found { IfOk result (λ page. page_in pages.now number ≡ Some page) }
    ensures only { IsSome (page_in pages.now number) → IfErr result (λ e. e ≡ VolError.Memory) }
    ensures refused { IfErr result (λ e. (e ≡ VolError.BadImage 7) ⊎ (e ≡ VolError.Memory)) }
{
    match pages.get(number) {
        Some(Some(page)) => Ok(page.share()?),
        _ => Err(BAD_LOGS),
    }
}
