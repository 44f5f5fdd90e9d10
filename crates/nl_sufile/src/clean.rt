//! The clean segments of a table: how many they are, and where the lowest one is.
ghost use Rattle.std.specs.Prelude.{◌≡◌, ◌+◌, ◌<◌, ◌≤◌, ◌∷◌, ◌++◌, [], List, replicate, MatchOption, Some, drop, false, length, slice_get, slice_set, take};
ghost use Rattle.nl_types.specs.Plain.Limits as limits;
ghost use Rattle.nl_types.specs.declared.segment.SegmentInfo.{SegmentInfo};
ghost use Rattle.nl_types.specs.Blocks.Segments.{clean_from, clean_info, info_of, is_clean, none_active};
ghost use Rattle.nl_sufile.specs.Private.Clean.{IsNextClean, TellsClean};

use nl_types::{Segment, SegmentInfo, SegmentState, laws};
use std::marker::Model;

/// What a table keeps of its clean segments, so that they are not counted anew, nor looked for from the first
/// segment on.
#[derive(Clone, Copy)]
pub struct CleanSegments {
    /// How many there are.
    pub count: usize,
    /// No segment below this number is clean. The lowest clean one may lie behind it.
    pub mark: usize,
}

impl CleanSegments {
    /// Counts them, by a walk over all segments, and marks none.
    pub fn counted(each: &[SegmentInfo]) -> CleanSegments
        ensures { TellsClean each.now result }
    {
        CleanSegments {
            count: count_clean(each),
            mark: 0,
        }
    }

    /// The first so many of them, ascending.
    pub fn first(self, each: &[SegmentInfo], count: usize) -> FreeSegments<'_>
        requires tells { TellsClean each.now self }
        requires few { length each.now ≤ limits.segment_limit }
        requires some { count ≤ self.count }
        ensures { result ≡ take count (clean_from 0 each.now) }
    {
        FreeSegments {
            each,
            from: self.mark,
            left: count,
        }
    }

    /// The lowest one, looked for from the mark on.
    pub fn lowest(self, each: &[SegmentInfo]) -> Option<Segment>
        requires tells { TellsClean each.now self }
        requires few { length each.now ≤ limits.segment_limit }
        ensures { result ≡ slice_get (clean_from 0 each.now) 0 }
    {
        let mut free = self.first(each, self.count);
        free.pop_first()
    }

    /// What is kept once the lowest one, which is this segment, is clean no more.
    pub fn without_lowest(self, each: &[SegmentInfo], segment: Segment) -> CleanSegments
        requires tells { TellsClean each.now self }
        requires lowest { slice_get (clean_from 0 each.now) 0 ≡ Some segment }
        ensures { (info : SegmentInfo) → is_clean info.state ≡ false
            → TellsClean (slice_set (none_active each.now) segment info) result }
    {
        CleanSegments {
            count: self.count - 1,
            mark: segment.get() as usize + 1,
        }
    }

    /// What is kept once a segment is not clean, if it was.
    pub fn without(self, each: &[SegmentInfo], segment: Segment) -> CleanSegments
        requires tells { TellsClean each.now self }
        requires segment { segment < length each.now }
        ensures { (info : SegmentInfo) → is_clean info.state ≡ false
            → TellsClean (slice_set (none_active each.now) segment info) result }
    {
        if is_clean_at(each, segment) {
            CleanSegments {
                count: self.count - 1,
                mark: self.mark,
            }
        } else {
            self
        }
    }

    /// What is kept once so many clean segments come behind all others.
    pub fn with_more(self, more: usize) -> CleanSegments
        requires few { self.count + more ≤ limits.segment_limit }
        ensures { (each : List SegmentInfo) → TellsClean each self
            → TellsClean (each ++ replicate more clean_info) result }
    {
        laws::growing_keeps_segments();
        CleanSegments {
            count: self.count + more,
            mark: self.mark,
        }
    }

    /// What is kept once a segment is clean, if it wasn't. The mark goes down to it.
    pub fn with(self, each: &[SegmentInfo], segment: Segment) -> CleanSegments
        requires tells { TellsClean each.now self }
        requires few { length each.now ≤ limits.segment_limit }
        requires segment { segment < length each.now }
        ensures { TellsClean (slice_set each.now segment clean_info) result }
    {
        let mark = self.mark.min(segment.get() as usize);
        if is_clean_at(each, segment) {
            CleanSegments {
                count: self.count,
                mark,
            }
        } else {
            CleanSegments {
                count: self.count + 1,
                mark,
            }
        }
    }
}

fn is_clean(state: SegmentState) -> bool
    ensures { result ≡ is_clean state }
{
    match state {
        SegmentState::Clean => true,
        SegmentState::Dirty | SegmentState::Active | SegmentState::Error => false,
    }
}

fn is_clean_at(each: &[SegmentInfo], segment: Segment) -> bool
    requires { segment < length each.now }
    ensures { result ≡ is_clean (info_of each.now segment).state }
{
    is_clean(each[segment.get() as usize].state)
}

fn count_clean(each: &[SegmentInfo]) -> usize
    ensures { result ≡ length (clean_from 0 each.now) }
{
    let mut count = 0;
    for info in each {
        if is_clean(info.state) {
            count += 1;
        }
    }
    count
}

/// The lowest clean segment from a number on.
fn next_clean(each: &[SegmentInfo], from: usize) -> Option<usize>
    ensures { MatchOption result (clean_from from (drop from each.now) ≡ [])
        (IsNextClean each.now from) }
{
    for number in from..each.len() {
        if is_clean(each[number].state) {
            return Some(number);
        }
    }
    None
}

/// Clean segments of a table that may be taken, ascending. Contracts see the list of them. Nothing is looked
/// for before it is asked for.
#[derive(Drop)]
pub struct FreeSegments<'a> {
    each: &'a [SegmentInfo],
    from: usize,
    left: usize,
}

impl<'a> Model for FreeSegments<'a> {
    ghost use Rattle.std.specs.Prelude.{ℕ, ◌≤◌, List, drop, length, take};
    ghost use Rattle.nl_types.specs.Plain.Limits as limits;
    ghost use Rattle.nl_types.specs.Blocks.Segments.{clean_from};

    ghost Value = { List ℕ };

    ghost view = { λ free. take free.left (clean_from free.from (drop free.from free.each.now)) };

    ghost invariant = { λ free. (free.left ≤ length (clean_from free.from (drop free.from free.each.now)))
        × (length free.each.now ≤ limits.segment_limit) };
}

impl FreeSegments<'_> {
    /// How many there are.
    pub fn len(&self) -> usize
        ensures count { result ≡ length self.now }
        ensures few { result ≤ limits.segment_limit }
    {
        self.left
    }

    /// Takes the first one off. It passes the segments behind the one that was taken off before.
    pub fn pop_first(&mut self) -> Option<Segment>
        ensures { MatchOption result ((self.old ≡ []) × (self.new ≡ []))
            (λ segment. self.old ≡ segment ∷ self.new) }
    {
        if self.left == 0 {
            return None;
        }
        let number = next_clean(self.each, self.from)?;
        self.from = number + 1;
        self.left -= 1;
        Some(Segment::new(number as u32))
    }
}
