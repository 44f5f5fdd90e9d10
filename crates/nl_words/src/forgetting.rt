//! Which checkpoints are forgotten where ranges are said.
ghost use Rattle.std.specs.Prelude.{◌≡◌, ◌&&◌, ◌||◌, not, IfOk};
ghost use Rattle.nl_words.specs.Going.{goes, going, is_it, stay_of, stays};

use crate::own::{is_plain_minor, latest_number, latest_own};
use crate::ranges::{Numbers, is_named};
use nl_types::{CheckpointNumber, Row};
use std::alloc::{AllocError, Global};

/// The checkpoints that stay whatever is said.
#[derive(Clone, Copy)]
pub(crate) struct Stay {
    /// The latest that isn't plain and minor.
    pub(crate) own: Option<CheckpointNumber>,
    /// The latest of all.
    pub(crate) latest: Option<CheckpointNumber>,
}

fn stay_of(rows: &[Row]) -> Stay
    ensures { result ≡ stay_of rows.now }
{
    Stay {
        own: latest_own(rows),
        latest: latest_number(rows),
    }
}

fn is_it(number: CheckpointNumber, other: Option<CheckpointNumber>) -> bool
    ensures { result ≡ is_it number other }
{
    match other {
        Some(other) => other.get() == number.get(),
        None => false,
    }
}

fn stays(stay: &Stay, number: CheckpointNumber) -> bool
    ensures { result ≡ stays stay.now number }
{
    is_it(number, stay.own) || is_it(number, stay.latest)
}

/// Whether a checkpoint is one of those that are handed over. `is_in_run` says whether the minor ones here go with
/// one before them.
fn goes(ranges: &[Numbers], stay: &Stay, is_in_run: bool, row: &Row) -> bool
    ensures { result ≡ goes ranges.now stay.now is_in_run row.now }
{
    let is_gone = is_in_run && is_plain_minor(row);
    is_named(ranges, row.number) && !stays(stay, row.number) && !is_gone
}

/// The checkpoints that are to be forgotten where these ranges are said, one after another. Each that a range names
/// is one of them, but the latest that isn't plain and minor, the latest of all, and plain minor ones of the run
/// right behind one that goes: they go with it. Rows ascend, and are of all kept checkpoints.
///
/// # Errors
/// Memory.
pub fn going(
    alloc: Global,
    ranges: &[Numbers],
    rows: &[Row],
) -> Result<Vec<CheckpointNumber>, AllocError>
    ensures { IfOk result (λ numbers. numbers.items ≡ going ranges.now rows.now) }
{
    let stay = stay_of(rows);
    let mut gone = Vec::new(alloc);
    let mut is_in_run = false;
    for row in rows {
        let is_going = goes(ranges, &stay, is_in_run, row);
        if is_going {
            gone.push(row.number)?;
        }
        is_in_run = is_going || (is_in_run && row.minor);
    }
    Ok(gone)
}
