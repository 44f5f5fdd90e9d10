//! What is judged of many checkpoints.
ghost use Rattle.std.specs.Prelude.{◌≡◌, [], ◌∷◌, ◌++◌, ◌≤◌, length, IfOk};
ghost use Rattle.std.specs.List.{filter};
ghost use Rattle.nl_types.specs.Plain.Rows as told;
ghost use Rattle.nl_cpfile.specs.Private.Judging.{joined};
ghost use Rattle.nl_cpfile.specs.Tables as tables;

use crate::checkpoint::Checkpoint;
use nl_types::{CheckpointNumber, Items, Range, Stays};
use std::alloc::{AllocError, Global};

/// Whether the numbers bound no range.
pub(crate) fn is_no_range(first: CheckpointNumber, last: CheckpointNumber) -> bool
    ensures { result ≡ told.is_no_range first last }
{
    first.get() == 0 || last < first
}

/// How many of the checkpoints are snapshots.
pub(crate) fn count_snapshots(kept: &[Checkpoint]) -> usize
    ensures count { result ≡ length (filter (λ c. told.is_snapshot c.mode) kept.now) }
    ensures most { result ≤ length kept.now }
{
    let mut count = 0;
    for checkpoint in kept {
        if checkpoint.mode.is_snapshot() {
            count += 1;
        }
    }
    count
}

/// What becomes of the checkpoints of a range.
pub(crate) fn judge(
    alloc: Global,
    earlier: &[Checkpoint],
    latest: &Checkpoint,
    first: CheckpointNumber,
    last: CheckpointNumber,
) -> Result<Range, AllocError>
    ensures { IfOk result (λ range. range ≡ told.judged_range latest.now.number
        (told.rows_between first last (tables.rows_of (earlier.now ++ latest.now ∷ [])))) }
{
    let mut range = judge_all(alloc, earlier, latest.number, first, last)?;
    judge_one(&mut range, latest, latest.number, first, last)?;
    Ok(range)
}

fn judge_all(
    alloc: Global,
    kept: &[Checkpoint],
    latest: CheckpointNumber,
    first: CheckpointNumber,
    last: CheckpointNumber,
) -> Result<Range, AllocError>
    ensures { IfOk result (λ range.
        range ≡ told.judged_range latest (told.rows_between first last (tables.rows_of kept.now))) }
{
    let mut range = Range {
        removed: Items::new(alloc),
        stayed: Items::new(alloc),
    };
    for checkpoint in kept {
        judge_one(&mut range, checkpoint, latest, first, last)?;
    }
    Ok(range)
}

/// Puts one more checkpoint where it belongs, if it is of the range.
fn judge_one(
    range: &mut Range,
    checkpoint: &Checkpoint,
    latest: CheckpointNumber,
    first: CheckpointNumber,
    last: CheckpointNumber,
) -> Result<(), AllocError>
    ensures { IfOk result (λ _. range.new ≡ joined range.old (told.judged_range latest
        (told.rows_between first last (tables.checkpoint_row checkpoint.now ∷ [])))) }
{
    if !checkpoint.is_between(first, last) {
        return Ok(());
    }
    let number = checkpoint.number;
    match checkpoint.reason_to_stay(latest) {
        None => range.removed.push(number),
        Some(reason) => range.stayed.push(Stays { number, reason }),
    }
}
