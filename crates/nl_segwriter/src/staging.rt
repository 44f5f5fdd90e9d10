//! Logs made ready to be written: all that needs memory is done here.
ghost use Rattle.std.specs.Prelude.{◌≡◌, ◌≤◌, ◌∷◌, length, map, IfOk};
ghost use Rattle.nl_types.specs.Plain.Limits as limits;
ghost use Rattle.nl_types.specs.Blocks.Placing.{payload_count};
ghost use Rattle.nl_layout.specs.Summary.{Spells, SummaryHasSpelling, summary_bytes};
ghost use Rattle.nl_vstore.specs.Content.{payload_tag, payload_page};

use nl_layout::{Summary, Tag};
use nl_types::{BLOCK_SIZE, Block, CheckpointNumber, Items, Log, Page};
use nl_vstore::Payload;
use std::alloc::{AllocError, Global};

/// A log with what it needs to be written.
#[derive(Drop)]
pub struct Staged {
    pub log: Log,
    pub stamp: u64,
    pub checkpoint: CheckpointNumber,
    /// For the device: the summary's page, and those of the payload.
    pub pages: Items<Page>,
    /// For memory.
    pub payload: Items<Payload>,
}

ghost use Rattle.nl_segwriter.specs.Private.Staging.{IsStaged, AreStaged, AreSized};

// What a summary says of the items.
fn tags_of(alloc: Global, items: &[Payload]) -> Result<Vec<Tag>, AllocError>
    ensures { IfOk result (λ tags. tags.items ≡ map payload_tag items.now) }
{
    let mut tags = Vec::with_capacity(alloc, items.len())?;
    for (tag, _) in items {
        tags.push(*tag)?;
    }
    Ok(tags)
}

// The page with the summary of a log of these items.
fn summary_page(
    alloc: Global,
    items: &[Payload],
    checkpoint: CheckpointNumber,
    stamp: u64,
) -> Result<Page, AllocError>
    requires some { 1 ≤ length items.now }
    requires most { length items.now ≤ limits.log_limit }
    ensures { IfOk result (λ page.
        Spells page (record { stamp = stamp; checkpoint = checkpoint; tags = map payload_tag items.now })) }
{
    let tags = tags_of(alloc, items)?;
    let mut bytes = [0; BLOCK_SIZE];
    Summary::new(stamp, checkpoint, &tags).write(&mut bytes);
    Page::new(alloc, Block::new(bytes))
}

// For the device: the summary's page, and behind it those of the items.
fn pages_of(
    alloc: Global,
    items: &[Payload],
    checkpoint: CheckpointNumber,
    stamp: u64,
) -> Result<Items<Page>, AllocError>
    requires some { 1 ≤ length items.now }
    requires most { length items.now ≤ limits.log_limit }
    ensures fits { IfOk result (λ _. SummaryHasSpelling
        (record { stamp = stamp; checkpoint = checkpoint; tags = map payload_tag items.now })) }
    ensures pages { IfOk result (λ pages. pages ≡ summary_bytes
        (record { stamp = stamp; checkpoint = checkpoint; tags = map payload_tag items.now })
        ∷ map payload_page items.now) }
{
    let mut pages = Vec::with_capacity(alloc, items.len() + 1)?;
    pages.push(summary_page(alloc, items, checkpoint, stamp)?)?;
    for (_, page) in items {
        pages.push(page.share()?)?;
    }
    Ok(Items::from_vec(pages))
}

// For memory: the items again, with shared pages.
fn payload_of(alloc: Global, items: &[Payload]) -> Result<Items<Payload>, AllocError>
    ensures { IfOk result (λ payload. payload ≡ items.now) }
{
    let mut payload = Vec::with_capacity(alloc, items.len())?;
    for (tag, page) in items {
        payload.push((*tag, page.share()?))?;
    }
    Ok(Items::from_vec(payload))
}

// One log of these items.
fn stage_log(
    alloc: Global,
    log: Log,
    items: &[Payload],
    checkpoint: CheckpointNumber,
    stamp: u64,
) -> Result<Staged, AllocError>
    requires count { length items.now ≡ log.count }
    requires some { 1 ≤ log.count }
    requires most { log.count ≤ limits.log_limit }
    ensures { IfOk result (IsStaged log
        (record { stamp = stamp; checkpoint = checkpoint; payload = items.now })) }
{
    let pages = pages_of(alloc, items, checkpoint, stamp)?;
    let payload = payload_of(alloc, items)?;
    Ok(Staged {
        log,
        stamp,
        checkpoint,
        pages,
        payload,
    })
}

/// The logs, with the items shared out to them in order.
pub fn stage(
    alloc: Global,
    logs: &[Log],
    items: &[Payload],
    checkpoint: CheckpointNumber,
    stamp: u64,
) -> Result<Vec<Staged>, AllocError>
    requires sized { AreSized logs.now }
    requires count { payload_count logs.now ≡ length items.now }
    ensures { IfOk result (λ all. AreStaged stamp checkpoint logs.now items.now all.items) }
{
    let mut all = Vec::with_capacity(alloc, logs.len())?;
    let mut rest = items;
    for log in logs {
        let (part, others) = rest.split_at(log.count as usize);
        all.push(stage_log(alloc, *log, part, checkpoint, stamp)?)?;
        rest = others;
    }
    Ok(all)
}
