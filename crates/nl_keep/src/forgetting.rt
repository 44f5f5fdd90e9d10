//! Checkpoints that are forgotten.
ghost use Rattle.std.specs.Prelude.{◌≡◌, ◌&&◌, if◌then◌else◌, nat_lt, not, true, false, IfErr, IfOk, OnErr, OnOk};
ghost use Rattle.nl_types.specs.Plain.NumberLists.{is_one_of};
ghost use Rattle.nl_types.specs.Plain.Worlds.{World};
ghost use Rattle.nl_keep.specs.Forgotten.{Forgets, ForgetsOne, MakesAllPlain, MakesPlain, TakesRange, TellsFrom, run_end};
ghost use Rattle.nl_keep.specs.Private.Refused.{RefusesRange};
ghost use Rattle.nl_keep.specs.Refusals.{RefusesPlain, RefusesToForget, RefusesToForgetAll};
ghost use Rattle.nl_keep.specs.Volumes.{LeadsTo};

use crate::volume::{Volume, applied};
use nl_types::{Answer, CheckpointNumber, Event, Items, ListOptions, Mode, Range, Row, VolError};

// ---- runs

/// Whether the run of a checkpoint ends before this row, which comes behind its rows so far.
fn ends_before(number: CheckpointNumber, row: &Row) -> bool
    ensures { result ≡ (nat_lt number row.now.number && not row.now.minor) }
{
    number < row.number && !row.minor
}

/// Where the run of a checkpoint ends so far, if this row doesn't end it.
fn end_with(number: CheckpointNumber, last: CheckpointNumber, row: &Row) -> CheckpointNumber
    ensures { result ≡ (if nat_lt number row.now.number then row.now.number else last) }
{
    if number < row.number {
        row.number
    } else {
        last
    }
}

/// Where the run of a checkpoint ends: at the last of the minor ones right behind it, or at itself.
fn run_end(number: CheckpointNumber, rows: &[Row]) -> CheckpointNumber
    ensures { result ≡ run_end number rows.now }
{
    let mut last = number;
    for row in rows {
        if ends_before(number, row) {
            return last;
        }
        last = end_with(number, last, row);
    }
    last
}

// ---- one checkpoint

/// Makes a checkpoint plain, unless it is.
fn make_plain<V: Volume>(volume: &mut V, number: CheckpointNumber) -> Result<(), VolError>
    ensures plain { OnOk result (LeadsTo (MakesPlain number) (V.means volume.old) (V.means volume.new)) }
    ensures refused { IfErr result (λ e. (w : World) → V.means volume.old w → RefusesToForget number w e) }
{
    drop(applied(volume, Event::ChangeMode(number, Mode::Plain))?);
    Ok(())
}

/// Makes checkpoints plain, one after another. Where it is refused, the first ones may be.
///
/// # Errors
/// `NoCheckpoint` where one isn't kept, `Mounted` where a mount shows it, `Memory`.
pub fn make_all_plain<V: Volume>(
    volume: &mut V,
    numbers: &[CheckpointNumber],
) -> Result<(), VolError>
    ensures plain { OnOk result (LeadsTo (MakesAllPlain numbers.now)
        (V.means volume.old) (V.means volume.new)) }
    ensures refused { IfErr result (λ e. (w : World) → V.means volume.old w → RefusesPlain numbers.now w e) }
{
    for one in numbers {
        make_plain(volume, *one)?;
    }
    Ok(())
}

/// What is told of the checkpoints from a number on, the minor ones too.
pub(crate) fn rows_from<V: Volume>(
    volume: &mut V,
    number: CheckpointNumber,
) -> Result<Items<Row>, VolError>
    ensures rows { IfOk result (λ rows.
        LeadsTo (TellsFrom number rows) (V.means volume.old) (V.means volume.new)) }
    ensures refused { IfErr result (λ e. (w : World) → V.means volume.old w → e ≡ VolError.Memory) }
{
    let options = ListOptions {
        reverse: false,
        snapshots_only: false,
        with_minor: true,
        from: Some(number),
        count: None,
    };
    match applied(volume, Event::Listing(options))? {
        Answer::Rows(rows) => Ok(rows),
        // No volume answers a listing by anything else.
        other => {
            drop(other);
            Err(VolError::NoCheckpoint)
        }
    }
}

/// Whether a number is among these.
fn is_one_of(numbers: &[CheckpointNumber], number: CheckpointNumber) -> bool
    ensures { result ≡ is_one_of numbers.now number }
{
    match numbers {
        [] => false,
        [first, rest @ ..] => number.get() == first.get() || is_one_of(rest, number),
    }
}

/// Judges whether a checkpoint of a range was removed. Refused by `Latest` where it wasn't: it is plain.
fn judge_removed(range: &Range, number: CheckpointNumber) -> Result<(), VolError>
    ensures removed { OnOk result (is_one_of range.now.removed number ≡ true) }
    ensures stays { OnErr result (is_one_of range.now.removed number ≡ false) }
    ensures refused { IfErr result (λ e. e ≡ VolError.Latest) }
{
    if is_one_of(range.removed.as_slice(), number) {
        Ok(())
    } else {
        Err(VolError::Latest)
    }
}

/// Takes out the plain checkpoints of a range but for the latest of all. Refused by `Latest` where its first
/// one stays.
fn take_range<V: Volume>(
    volume: &mut V,
    first: CheckpointNumber,
    last: CheckpointNumber,
) -> Result<(), VolError>
    ensures taken { OnOk result (LeadsTo (TakesRange first last) (V.means volume.old) (V.means volume.new)) }
    ensures refused { IfErr result (λ e. (w : World) → V.means volume.old w → RefusesRange first last w e) }
{
    match applied(volume, Event::RemoveRange { first, last })? {
        Answer::Removed(range) => judge_removed(&range, first),
        // No volume answers the removal of a range by anything else.
        other => {
            drop(other);
            Err(VolError::BadRange)
        }
    }
}

/// Forgets one checkpoint.
fn forget_one<V: Volume>(volume: &mut V, number: CheckpointNumber) -> Result<(), VolError>
    ensures forgets { OnOk result (LeadsTo (ForgetsOne number) (V.means volume.old) (V.means volume.new)) }
    ensures refused { IfErr result (λ e. (w : World) → V.means volume.old w → RefusesToForget number w e) }
{
    make_plain(volume, number)?;
    let rows = rows_from(volume, number)?;
    take_range(volume, number, run_end(number, rows.as_slice()))
}

// ---- all of them

/// Forgets checkpoints, in the order in which they are given. Each is made plain, and taken out with the minor
/// ones right behind it, which the volume made of its tree. The latest checkpoint of all stays, and so does a
/// minor one that was made a snapshot. Where it is refused, the volume is gone, so that nobody closes one that
/// has forgotten some of them.
///
/// # Errors
/// `NoCheckpoint` where a number isn't kept, or comes twice; `Mounted` where a mount shows it; `Latest` where
/// it is the latest one; `Memory`.
pub fn forget<V: Volume>(mut volume: V, numbers: &[CheckpointNumber]) -> Result<V, VolError>
    ensures forgets { IfOk result (λ after.
        LeadsTo (Forgets numbers.now) (V.means volume) (V.means after)) }
    ensures refused { IfErr result (λ e. (w : World) → V.means volume w
        → RefusesToForgetAll numbers.now w e) }
{
    for number in numbers {
        forget_one(&mut volume, *number)?;
    }
    Ok(volume)
}
