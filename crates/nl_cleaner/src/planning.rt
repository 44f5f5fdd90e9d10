//! Which segments a round takes.
ghost use Rattle.std.specs.Prelude.{◌≡◌, ℕ, ◌-◌, ◌<◌, ◌&&◌, nat_le, length, slice_index_or, IfOk, IsOkUnless};
ghost use Rattle.nl_types.specs.Blocks.Segments.{info_of};
ghost use Rattle.nl_commit.specs.CleanerViews.{counts_after};
ghost use Rattle.nl_commit.specs.Volume.{boundary_in};
ghost use Rattle.nl_cleaner.specs.Private.Choice.{candidates_in};
ghost use Rattle.nl_cleaner.specs.Plan as asked;
ghost use Rattle.nl_cleaner.specs.Plan.{AreTaken, AreVictims, IsPlan, candidate_by, candidate_in, is_dirty};

use crate::choice::{Candidate, choose, push_found};
use crate::job::Job;
use nl_core::Pen;
use nl_device::Device;
use nl_protect::Config;
use nl_sufile::SegmentCounts;
use nl_types::{Moment, Segment, SegmentInfo, SegmentState, VolError};
use std::alloc::{AllocError, Global};

fn segment_count<D: Device>(pen: &Pen<D>) -> u32
    ensures { result ≡ length pen.now.store.segments.each }
{
    pen.means_a_world();
    pen.segments().sustat().segments as u32
}

fn clean_count<D: Device>(pen: &Pen<D>) -> u64
    ensures { result ≡ asked.clean_count pen.now }
{
    pen.segments().sustat().clean as u64
}

/// Whether enough segments are clean.
fn is_full<D: Device>(pen: &Pen<D>, config: &Config) -> bool
    ensures { result ≡ asked.is_full pen.now config.now }
{
    config.max_clean_segments.of(segment_count(pen)) <= clean_count(pen)
}

/// Whether fewer segments are clean than there are to be.
fn is_urgent<D: Device>(pen: &Pen<D>, config: &Config) -> bool
    ensures { result ≡ asked.is_urgent pen.now config.now }
{
    clean_count(pen) < config.min_clean_segments.of(segment_count(pen))
}

/// How many segments are taken at most.
fn most_taken<D: Device>(pen: &Pen<D>, config: &Config) -> u64
    ensures { result ≡ asked.most_taken pen.now config.now }
{
    if is_urgent(pen, config) {
        config.mc_nsegments_per_clean
    } else {
        config.nsegments_per_clean
    }
}

/// How many blocks of a segment are to be freed at least.
fn least_freed<D: Device>(pen: &Pen<D>, config: &Config) -> u64
    ensures { result ≡ asked.least_freed pen.now config.now }
{
    let blocks = pen.segments().blocks();
    if is_urgent(pen, config) {
        config.mc_min_reclaimable_blocks.of(blocks)
    } else {
        config.min_reclaimable_blocks.of(blocks)
    }
}

/// How many blocks of a segment are needed, by counts of these.
fn needed_of(needed: &SegmentCounts, segment: Segment) -> u32
    ensures { result ≡ slice_index_or needed.now segment 0 }
{
    needed.get(segment).unwrap_or(0)
}

/// How many payload blocks of a segment are not needed, by counts of those that are.
fn reclaimable<D: Device>(pen: &Pen<D>, needed: &SegmentCounts, segment: Segment) -> u64
    requires { segment < length pen.now.store.segments.each }
    ensures { (below : ℕ) → needed.now ≡ counts_after pen.now below
        → result ≡ asked.reclaimable pen.now below segment }
{
    let payload = u64::from(pen.payload_count(segment));
    payload.saturating_sub(u64::from(needed_of(needed, segment)))
}

/// The segment, where it is dirty and enough of its blocks are freed by cleaning it.
fn if_enough(segment: Segment, info: SegmentInfo, least: u64, reclaimable: u64) -> Option<Candidate>
    ensures { result ≡ candidate_by info least segment reclaimable }
{
    match info.state {
        SegmentState::Dirty if least <= reclaimable => Some(Candidate {
            stamp: Moment::new(info.stamp),
            segment,
        }),
        _ => None,
    }
}

/// Whether a segment is dirty, and has enough used blocks over the needed ones. No other one qualifies: what
/// has payload is used.
fn may_qualify(info: SegmentInfo, needed: u32, least: u64) -> bool
    ensures { result ≡ (is_dirty info.state && nat_le least (info.used - needed)) }
{
    match info.state {
        SegmentState::Dirty => least <= u64::from(info.used.saturating_sub(needed)),
        _ => false,
    }
}

/// The segment of which this is known, where it qualifies. Its blocks are looked at only where it may.
fn known_candidate<D: Device>(
    pen: &Pen<D>,
    needed: &SegmentCounts,
    segment: Segment,
    info: SegmentInfo,
    least: u64,
) -> Option<Candidate>
    requires segment { segment < length pen.now.store.segments.each }
    requires info { info ≡ info_of pen.now.store.segments.each segment }
    ensures { (below : ℕ) → needed.now ≡ counts_after pen.now below
        → result ≡ candidate_in pen.now below least segment }
{
    if may_qualify(info, needed_of(needed, segment), least) {
        if_enough(segment, info, least, reclaimable(pen, needed, segment))
    } else {
        None
    }
}

/// The segment, where it qualifies by the counts of needed blocks.
fn candidate<D: Device>(
    pen: &Pen<D>,
    needed: &SegmentCounts,
    segment: Segment,
    least: u64,
) -> Option<Candidate>
    ensures { (below : ℕ) → needed.now ≡ counts_after pen.now below
        → result ≡ candidate_in pen.now below least segment }
{
    match pen.segments().suinfo(segment) {
        Ok(info) => known_candidate(pen, needed, segment, info, least),
        Err(_) => None,
    }
}

/// The segments that qualify by the counts of needed blocks, by their numbers.
fn candidates<D: Device>(
    alloc: Global,
    pen: &Pen<D>,
    needed: &SegmentCounts,
    least: u64,
) -> Result<Vec<Candidate>, AllocError>
    ensures { IfOk result (λ found. (below : ℕ) → needed.now ≡ counts_after pen.now below → found.items
        ≡ candidates_in (candidate_in pen.now below least) (length pen.now.store.segments.each)) }
{
    let mut found = Vec::new(alloc);
    for number in 0..segment_count(pen) {
        let candidate = candidate(pen, needed, Segment::new(number), least);
        push_found(&mut found, candidate)?;
    }
    Ok(found)
}

/// The oldest segments that qualify by the counts of needed blocks, at most so many.
fn victims<D: Device>(
    alloc: Global,
    pen: &Pen<D>,
    needed: &SegmentCounts,
    least: u64,
    most: u64,
) -> Result<Vec<Segment>, AllocError>
    requires { (below : ℕ) × (needed.now ≡ counts_after pen.now below) }
    ensures { IfOk result (λ victims. (below : ℕ) → needed.now ≡ counts_after pen.now below
        → AreVictims pen.now below least most victims.items) }
{
    let found = candidates(alloc, pen, needed, least)?;
    choose(alloc, found, most)
}

/// The oldest segments that qualify by a configuration, with what expires at this moment taken as gone.
/// Refused by `Memory` alone.
fn oldest_asked<D: Device>(
    alloc: Global,
    pen: &Pen<D>,
    config: &Config,
    now: Moment,
) -> Result<Vec<Segment>, VolError>
    ensures victims { IfOk result (λ victims.
        AreVictims pen.now (boundary_in pen.now.lists.table now config.now.protection_period)
        (asked.least_freed pen.now config.now) (asked.most_taken pen.now config.now) victims.items) }
    ensures refused { IsOkUnless result VolError.Memory }
{
    let below = pen.boundary(now, config.protection_period);
    let needed = pen.counts_after(alloc, below)?;
    let (least, most) = (least_freed(pen, config), most_taken(pen, config));
    Ok(victims(alloc, pen, &needed, least, most)?)
}

/// The segments that a round takes: none where enough are clean. Refused by `Memory` alone.
fn taken<D: Device>(
    alloc: Global,
    pen: &Pen<D>,
    config: &Config,
    now: Moment,
) -> Result<Vec<Segment>, VolError>
    ensures taken { IfOk result (λ segments. AreTaken pen.now config.now now segments.items) }
    ensures refused { IsOkUnless result VolError.Memory }
{
    if is_full(pen, config) {
        return Ok(Vec::new(alloc));
    }
    oldest_asked(alloc, pen, config, now)
}

/// The round of cleaning that a configuration asks for at a moment: the expiry, and the segments to clean
/// after it. It changes nothing, and looks at each block of those dirty segments alone of which enough used
/// blocks are not needed. Refused by `Memory` alone.
pub fn plan<D: Device>(
    alloc: Global,
    pen: &Pen<D>,
    config: &Config,
    now: Moment,
) -> Result<Job, VolError>
    ensures plan { IfOk result (IsPlan pen.now config.now now) }
    ensures refused { IsOkUnless result VolError.Memory }
{
    let segments = taken(alloc, pen, config, now)?;
    Ok(Job::new(segments, now, config.protection_period))
}
