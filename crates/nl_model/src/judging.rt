//! What is told of kept checkpoints, and how they are judged by it.
ghost use Rattle.std.specs.Prelude.{◌≡◌, IfOk, map};
ghost use Rattle.std.specs.List.{list_any};
ghost use Rattle.nl_types.specs.Plain.Calls.{IsUnlessMemory};
ghost use Rattle.nl_types.specs.Plain.Rows.{find_row, reason_to_stay, removal, is_between, rows_between, judged_range, range_removal};
ghost use Rattle.nl_types.specs.Plain.Worlds.{copy_row};

use crate::copies::Kept;
use nl_types::{CheckpointNumber, Items, Range, Row, Stays, VolError};
use std::alloc::{AllocError, Global};

fn row_of(number: CheckpointNumber, kept: &Kept) -> Row
    ensures { result ≡ copy_row (number, kept.now) }
{
    Row {
        number,
        stamp: kept.stamp,
        mode: kept.mode,
        minor: kept.minor,
        inodes: kept.tree.as_slice().len() as u64,
    }
}

/// What is told of each copy.
pub fn rows_of(alloc: Global, copies: &[(CheckpointNumber, Kept)]) -> Result<Items<Row>, AllocError>
    ensures { IfOk result (λ rows. rows ≡ map copy_row copies.now) }
{
    match copies {
        [] => Ok(Items::new(alloc)),
        [first, rest @ ..] => {
            let mut rows = rows_of(alloc, rest)?;
            rows.push_front(row_of(first.0, &first.1))?;
            Ok(rows)
        }
    }
}

/// The row of a number.
pub fn find_row(rows: &[Row], number: CheckpointNumber) -> Option<Row>
    ensures { result ≡ find_row number rows.now }
{
    match rows {
        [] => None,
        [first, rest @ ..] => {
            if first.number.get() == number.get() {
                Some(*first)
            } else {
                find_row(rest, number)
            }
        }
    }
}

/// Why a kept checkpoint can't be removed.
pub fn reason_to_stay(latest: u64, row: &Row) -> Option<VolError>
    ensures { result ≡ reason_to_stay latest row.now }
{
    if row.mode.is_snapshot() {
        Some(VolError::IsSnapshot)
    } else if row.number.get() == latest {
        Some(VolError::Latest)
    } else {
        None
    }
}

/// Whether the checkpoint of a number can be removed.
pub fn removal(rows: &[Row], number: CheckpointNumber, latest: u64) -> Result<(), VolError>
    ensures { result ≡ removal number latest rows.now }
{
    match find_row(rows, number) {
        None => Err(VolError::NoCheckpoint),
        Some(row) => match reason_to_stay(latest, &row) {
            None => Ok(()),
            Some(reason) => Err(reason),
        },
    }
}

fn is_between(row: &Row, first: CheckpointNumber, last: CheckpointNumber) -> bool
    ensures { result ≡ is_between first last row.now }
{
    first.get() <= row.number.get() && row.number.get() <= last.get()
}

/// Whether a kept number lies between two numbers.
fn has_between(rows: &[Row], first: CheckpointNumber, last: CheckpointNumber) -> bool
    ensures { result ≡ list_any (is_between first last) rows.now }
{
    match rows {
        [] => false,
        [row, rest @ ..] => is_between(row, first, last) || has_between(rest, first, last),
    }
}

/// What becomes of the checkpoints between two numbers.
fn judge_between(
    alloc: Global,
    rows: &[Row],
    latest: u64,
    first: CheckpointNumber,
    last: CheckpointNumber,
) -> Result<Range, AllocError>
    ensures { IfOk result (λ range. range ≡ judged_range latest (rows_between first last rows.now)) }
{
    match rows {
        [] => Ok(Range {
            removed: Items::new(alloc),
            stayed: Items::new(alloc),
        }),
        [row, rest @ ..] => {
            let mut range = judge_between(alloc, rest, latest, first, last)?;
            if is_between(row, first, last) {
                let number = row.number;
                match reason_to_stay(latest, row) {
                    None => range.removed.push_front(number)?,
                    Some(reason) => range.stayed.push_front(Stays { number, reason })?,
                }
            }
            Ok(range)
        }
    }
}

/// What becomes of a range. `BadRange` where it is none, `NoCheckpoint` where no kept number lies in it.
pub fn range_removal(
    alloc: Global,
    rows: &[Row],
    first: CheckpointNumber,
    last: CheckpointNumber,
    latest: u64,
) -> Result<Range, VolError>
    ensures { IsUnlessMemory result (range_removal first last latest rows.now) }
{
    if first.get() == 0 || last.get() < first.get() {
        return Err(VolError::BadRange);
    }
    if !has_between(rows, first, last) {
        return Err(VolError::NoCheckpoint);
    }
    Ok(judge_between(alloc, rows, latest, first, last)?)
}
