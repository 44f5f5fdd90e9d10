//! Which of the segments that may be cleaned are chosen.
ghost use Rattle.std.specs.Prelude.{◌≡◌, IfOk, map};
ghost use Rattle.std.specs.List.Sorted.{IsPermutation};
ghost use Rattle.nl_cleaner.specs.Private.Choice.{AreFirst, AreChosen, Ascend, InOrder, with_candidate, segment_of};

use nl_types::{Moment, Segment};
use std::alloc::{AllocError, Global};

/// A segment that may be cleaned, with the moment of its last log.
#[derive(Clone, Copy)]
pub struct Candidate {
    pub stamp: Moment,
    pub segment: Segment,
}

/// Puts a candidate behind the others, if there is one.
pub fn push_found(
    found: &mut Vec<Candidate>,
    candidate: Option<Candidate>,
) -> Result<(), AllocError>
    ensures { IfOk result (λ _. found.new.items ≡ with_candidate found.old.items candidate) }
{
    match candidate {
        Some(candidate) => {
            found.push(candidate)?;
            Ok(())
        }
        None => Ok(()),
    }
}

/// The candidates by age, the oldest first. They come by their numbers, which rise, and those of one age keep
/// that order.
fn by_age(mut found: Vec<Candidate>) -> Result<Vec<Candidate>, AllocError>
    requires { Ascend found.items }
    ensures order { IfOk result (λ sorted. InOrder sorted.items) }
    ensures those { IfOk result (λ sorted. IsPermutation found.items sorted.items) }
{
    found.sort_by_key(|candidate| candidate.stamp)?;
    Ok(found)
}

/// The oldest candidates by age, at most so many.
fn oldest(found: Vec<Candidate>, most: u64) -> Result<Vec<Candidate>, AllocError>
    requires { Ascend found.items }
    ensures { IfOk result (λ chosen. AreFirst most found.items chosen.items) }
{
    let mut chosen = by_age(found)?;
    chosen.truncate(most as usize);
    Ok(chosen)
}

fn segments_of(alloc: Global, candidates: &[Candidate]) -> Result<Vec<Segment>, AllocError>
    ensures { IfOk result (λ segments. segments.items ≡ map segment_of candidates.now) }
{
    candidates
        .iter()
        .map(|candidate| candidate.segment)
        .collect(alloc)
}

/// The segments of the oldest candidates, at most so many. Those that are found come by their numbers.
pub fn choose(alloc: Global, found: Vec<Candidate>, most: u64) -> Result<Vec<Segment>, AllocError>
    requires { Ascend found.items }
    ensures { IfOk result (λ segments. AreChosen most found.items segments.items) }
{
    let chosen = oldest(found, most)?;
    segments_of(alloc, &chosen)
}
