//! Ranges of numbers, and what they name.
ghost use Rattle.std.specs.Prelude.{◌≡◌};
ghost use Rattle.nl_words.specs.Ranges.{has, if_named, is_named, names_any, or_else, staying};

use crate::own::{latest_number, latest_own};
use nl_types::{CheckpointNumber, Row};

/// The numbers from the first to the last.
#[derive(Clone, Copy)]
pub struct Numbers {
    pub first: u64,
    pub last: u64,
}

/// Whether a number is in a range.
fn has(range: &Numbers, number: CheckpointNumber) -> bool
    ensures { result ≡ has range.now number }
{
    range.first <= number.get() && number.get() <= range.last
}

/// Whether a number is in one of the ranges.
pub(crate) fn is_named(ranges: &[Numbers], number: CheckpointNumber) -> bool
    ensures { result ≡ is_named ranges.now number }
{
    for range in ranges {
        if has(range, number) {
            return true;
        }
    }
    false
}

/// Whether a range names one of the checkpoints.
pub fn names_any(range: &Numbers, rows: &[Row]) -> bool
    ensures { result ≡ names_any range.now rows.now }
{
    for row in rows {
        if has(range, row.number) {
            return true;
        }
    }
    false
}

fn if_named(range: &Numbers, number: Option<CheckpointNumber>) -> Option<CheckpointNumber>
    ensures { result ≡ if_named range.now number }
{
    match number {
        Some(number) if has(range, number) => Some(number),
        _ => None,
    }
}

/// The checkpoint that a range names and that stays, if there is one: the latest that isn't plain and minor, or
/// else the latest of all, without which there is no volume.
pub fn staying(range: &Numbers, rows: &[Row]) -> Option<CheckpointNumber>
    ensures { result ≡ staying range.now rows.now }
{
    match if_named(range, latest_own(rows)) {
        None => if_named(range, latest_number(rows)),
        own => own,
    }
}
