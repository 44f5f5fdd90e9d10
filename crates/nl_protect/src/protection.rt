//! Which checkpoints a protection period protects, and which pages the kept ones need.
ghost use Rattle.std.specs.Prelude.{◌≡◌, ℕ, ◌<◌, ◌≤◌, ◌&&◌, true, unwrap_or, IfSome, slice_get};
ghost use Rattle.std.specs.List.{AllByRecursion, filter, list_any};
ghost use Rattle.nl_types.specs.Blocks.Entries.{is_period_needed};
ghost use Rattle.nl_types.specs.Blocks.NeedLaws.{AreGone};
ghost use Rattle.nl_types.specs.Plain.NumberLists.{is_one_of};
ghost use Rattle.nl_types.specs.Plain.Protection as protection;
ghost use Rattle.nl_cpfile.specs.Tables as tables;
ghost use Rattle.nl_protect.specs.Keeping.{first_plain, first_protected, first_staying, stays_within, has_ended_by, is_before, is_from, is_staying};

use nl_cpfile::{Checkpoint, Checkpoints};
use nl_types::{CheckpointNumber, Moment, Period};

fn is_protected(checkpoint: &Checkpoint, now: Moment, period: u64) -> bool
    ensures { result ≡ protection.is_protected now period (tables.checkpoint_row checkpoint.now) }
{
    match checkpoint.stamp.checked_add(period) {
        Some(end) => now.get() < end,
        None => true,
    }
}

/// The number of the first one that is protected, in a list whose stamps never fall.
fn first_protected(kept: &[Checkpoint], now: Moment, period: u64) -> Option<CheckpointNumber>
    requires { tables.IsRising kept.now }
    ensures { result ≡ first_protected now period kept.now }
{
    let index = kept.partition_point(|checkpoint| !is_protected(checkpoint, now, period));
    let checkpoint = kept.get(index)?;
    Some(checkpoint.number)
}

/// The number of the first checkpoint that a protection period protects, or else of the latest one: plain
/// checkpoints below it may go. A checkpoint is protected where its stamp and the period, in seconds, come to
/// more than the moment. Takes no memory, and halves the list.
pub fn boundary(kept: &Checkpoints, now: Moment, period: u64) -> CheckpointNumber
    ensures boundary { result ≡ protection.boundary now period kept.now.table.latest.number
        (tables.rows kept.now.table) }
    ensures low { result ≤ kept.now.table.latest.number }
{
    first_protected(kept.earlier(), now, period).unwrap_or(kept.latest().number)
}

/// The number of the first one that is no snapshot.
fn first_plain(kept: &[Checkpoint]) -> Option<CheckpointNumber>
    ensures { result ≡ first_plain kept.now }
{
    let first = kept
        .iter()
        .find(|checkpoint| !checkpoint.mode.is_snapshot())?;
    Some(first.number)
}

/// The first of the numbers that expire, or none where nothing does. It asks the checkpoints below the
/// boundary, up to the first plain one.
fn first_expiring(kept: &Checkpoints, boundary: CheckpointNumber) -> Option<CheckpointNumber>
    ensures first { result ≡ slice_get
        (protection.expired boundary kept.now.table.latest.number (tables.rows kept.now.table)) 0 }
    ensures low { IfSome result (λ first. first < boundary) }
{
    first_plain(ending_before(kept.earlier(), boundary))
}

/// The run of checkpoints that an expiry takes out: the first that goes, and the first kept one from the
/// boundary on, which is behind all that go, and stays. Where nothing expires, both are the latest one. Takes
/// no memory.
pub fn expiring_run(
    kept: &Checkpoints,
    below: CheckpointNumber,
) -> (CheckpointNumber, CheckpointNumber)
    requires { below ≤ kept.now.table.latest.number }
    ensures order { result.0 ≤ result.1 }
    ensures run { AreGone result.0 result.1 (tables.kept_numbers (tables.all kept.now.table))
        (protection.staying_numbers below (tables.rows kept.now.table)) }
    ensures first { result.0 ≡ unwrap_or
        (slice_get (protection.expired below kept.now.table.latest.number (tables.rows kept.now.table)) 0)
        kept.now.table.latest.number }
    // where one expires, the run ends no later than with the first kept one from the boundary on
    ensures next { result.0 < below → (n : ℕ)
        → is_one_of (tables.kept_numbers (tables.all kept.now.table)) n ≡ true → below ≤ n → result.1 ≤ n }
{
    let latest = kept.latest().number;
    match first_expiring(kept, below) {
        Some(first) => {
            let last = CheckpointNumber::new(below.get() - 1);
            let next = kept.first_above(last);
            (first, next)
        }
        None => (latest, latest),
    }
}

fn stays(checkpoint: &Checkpoint, below: CheckpointNumber) -> bool
    ensures { result ≡ protection.is_staying below (tables.checkpoint_row checkpoint.now) }
{
    checkpoint.mode.is_snapshot() || below <= checkpoint.number
}

/// Those from a first number on, in a list that ascends.
fn beginning_at(kept: &[Checkpoint], first: CheckpointNumber) -> &[Checkpoint]
    requires { tables.IsRising kept.now }
    ensures { result.now ≡ filter (is_from first) kept.now }
{
    &kept[kept.partition_point(|checkpoint| checkpoint.number < first)..]
}

/// Those before an end, in a list that ascends.
fn ending_before(kept: &[Checkpoint], end: CheckpointNumber) -> &[Checkpoint]
    requires { tables.IsRising kept.now }
    ensures { result.now ≡ filter (is_before end) kept.now }
{
    &kept[..kept.partition_point(|checkpoint| checkpoint.number < end)]
}

/// Whether one of them stays. The last ones are asked first.
fn one_stays(kept: &[Checkpoint], below: CheckpointNumber) -> bool
    ensures { result ≡ list_any (is_staying below) kept.now }
{
    kept.iter().rev().any(|checkpoint| stays(checkpoint, below))
}

/// Whether one of those that a period holds stays, in a list that ascends.
fn earlier_stays(
    kept: &[Checkpoint],
    below: CheckpointNumber,
    start: CheckpointNumber,
    end: CheckpointNumber,
) -> bool
    requires { tables.IsRising kept.now }
    ensures { result ≡ stays_within below start end kept.now }
{
    one_stays(beginning_at(ending_before(kept, end), start), below)
}

fn latest_stays(
    latest: &Checkpoint,
    below: CheckpointNumber,
    start: CheckpointNumber,
    end: CheckpointNumber,
) -> bool
    ensures { result ≡ ((is_from start latest.now && is_before end latest.now)
        && is_staying below latest.now) }
{
    start <= latest.number && latest.number < end && stays(latest, below)
}

/// Whether a page of this period is needed: the period has not ended, or has a kept checkpoint. Plain
/// checkpoints below a number are taken as removed; from 0 on, all are kept.
pub fn needed(kept: &Checkpoints, below: CheckpointNumber, period: Period) -> bool
    ensures { result ≡ is_period_needed
        (protection.staying_numbers below (tables.rows kept.now.table)) period }
{
    let start = period.start;
    let Some(end) = period.end else {
        return true;
    };
    if latest_stays(kept.latest(), below, start, end) {
        return true;
    }
    earlier_stays(kept.earlier(), below, start, end)
}

/// The number of the first one that stays.
fn first_staying_of(kept: &[Checkpoint], below: CheckpointNumber) -> Option<CheckpointNumber>
    ensures { result ≡ first_staying below kept.now }
{
    let staying = kept.iter().find(|checkpoint| stays(checkpoint, below))?;
    Some(staying.number)
}

/// A number that none of the checkpoints lies below that stay once the plain ones below a number are gone:
/// the first of these, or the latest one where none stays. Takes no memory, and asks the checkpoints up to
/// the first one that stays.
pub fn first_staying(kept: &Checkpoints, below: CheckpointNumber) -> CheckpointNumber
    ensures { AllByRecursion (λ n. result ≤ n)
        (protection.staying_numbers below (tables.rows kept.now.table)) }
{
    first_staying_of(kept.earlier(), below).unwrap_or(kept.latest().number)
}

/// Whether there is an end, no later than with a checkpoint.
fn has_ended_by(end: Option<CheckpointNumber>, checkpoint: CheckpointNumber) -> bool
    ensures { result ≡ has_ended_by checkpoint end }
{
    match end {
        Some(end) => end <= checkpoint,
        None => false,
    }
}

/// What `needed` tells, by a number that none of the checkpoints lies below that stay: what has ended by then
/// isn't needed, and is not looked for among them.
pub fn needed_from(
    kept: &Checkpoints,
    below: CheckpointNumber,
    first: CheckpointNumber,
    period: Period,
) -> bool
    requires { AllByRecursion (λ n. first ≤ n)
        (protection.staying_numbers below (tables.rows kept.now.table)) }
    ensures { result ≡ is_period_needed
        (protection.staying_numbers below (tables.rows kept.now.table)) period }
{
    !has_ended_by(period.end, first) && needed(kept, below, period)
}
