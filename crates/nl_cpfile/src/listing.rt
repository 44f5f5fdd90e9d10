//! Listings of checkpoints.
ghost use Rattle.std.specs.Prelude.{◌≡◌, ◌≤◌, List, [], ◌∷◌, ◌++◌, length, reverse, take, IfOk};
ghost use Rattle.std.specs.List.{filter};
ghost use Rattle.nl_types.specs.declared.row.Row.{Row};
ghost use Rattle.nl_types.specs.Plain.Rows as told;
ghost use Rattle.nl_cpfile.specs.Tables.{rows_of};

use crate::checkpoint::Checkpoint;
use nl_types::{ListOptions, Row};
use std::alloc::{AllocError, Global};
use std::slice::from_ref;

/// What a listing shows, in its order. It takes memory for this alone.
pub(crate) fn listed(
    alloc: Global,
    earlier: &[Checkpoint],
    latest: &Checkpoint,
    options: &ListOptions,
) -> Result<Vec<Row>, AllocError>
    ensures { IfOk result (λ listed.
        listed.items ≡ told.listing options.now (rows_of (earlier.now ++ latest.now ∷ []))) }
{
    let most = most_of(options.count, earlier.len() + 1);
    if options.reverse {
        descending(alloc, earlier, latest, options, most)
    } else {
        ascending(alloc, earlier, latest, options, most)
    }
}

/// How many of the kept ones a listing shows at most.
fn most_of(count: Option<u64>, kept: usize) -> usize
    ensures { (rows : List Row) → length rows ≤ kept → told.at_most count rows ≡ take result rows }
{
    match count {
        Some(count) if count < kept as u64 => count as usize,
        Some(_) | None => kept,
    }
}

fn ascending(
    alloc: Global,
    earlier: &[Checkpoint],
    latest: &Checkpoint,
    options: &ListOptions,
    most: usize,
) -> Result<Vec<Row>, AllocError>
    ensures { IfOk result (λ listed. listed.items ≡ take most
        (filter (told.is_shown options.now) (rows_of (earlier.now ++ latest.now ∷ [])))) }
{
    earlier
        .iter()
        .chain(from_ref(latest).iter())
        .map(|checkpoint| checkpoint.row())
        .filter(|row| options.shows(row))
        .take(most)
        .collect(alloc)
}

fn descending(
    alloc: Global,
    earlier: &[Checkpoint],
    latest: &Checkpoint,
    options: &ListOptions,
    most: usize,
) -> Result<Vec<Row>, AllocError>
    ensures { IfOk result (λ listed. listed.items ≡ take most
        (filter (told.is_shown options.now) (rows_of ((latest.now ∷ []) ++ reverse earlier.now)))) }
{
    from_ref(latest)
        .iter()
        .chain(earlier.iter().rev())
        .map(|checkpoint| checkpoint.row())
        .filter(|row| options.shows(row))
        .take(most)
        .collect(alloc)
}
