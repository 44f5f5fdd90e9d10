//! Which checkpoints a volume keeps, and which of them a word means.
use crate::asking::Clock;
use crate::faults::{Fault, fault_at};
use crate::moments::moment_said;
use nl_types::{CheckpointNumber, Row, decimal};
pub use nl_words::is_plain_minor as is_minor;
use std::alloc::Global;

/// The latest checkpoint that isn't minor, nor later than a moment.
fn latest_until(rows: &[Row], moment: u64) -> Option<CheckpointNumber> {
    rows.iter()
        .rev()
        .find(|row| !is_minor(row) && row.stamp <= moment)
        .map(|row| row.number)
}

fn by_date(
    alloc: Global,
    word: &str,
    rows: &[Row],
    clock: &Clock<'_>,
) -> Result<CheckpointNumber, Fault> {
    let Some(moment) = moment_said(word, clock.now, &clock.zone) else {
        return Err(fault_at(alloc, word, "neither a number, nor latest, nor a date"));
    };
    match latest_until(rows, moment) {
        Some(number) => Ok(number),
        None => Err(fault_at(alloc, word, "no checkpoint is as old")),
    }
}

/// The checkpoint that a word means: a number; `latest`; or a date, which means the latest one at or before
/// it. Those two pass minor ones over. `rows` are of all kept ones.
fn meant(
    alloc: Global,
    word: &str,
    rows: &[Row],
    clock: &Clock<'_>,
) -> Result<CheckpointNumber, Fault> {
    if let Some(number) = decimal(word) {
        return Ok(CheckpointNumber::new(number));
    }
    if word == "latest" {
        return match latest_until(rows, u64::MAX) {
            Some(number) => Ok(number),
            None => Err(fault_at(alloc, word, "all checkpoints are minor")),
        };
    }
    by_date(alloc, word, rows, clock)
}

/// The same, which has to be kept.
pub fn kept_number(
    alloc: Global,
    word: &str,
    rows: &[Row],
    clock: &Clock<'_>,
) -> Result<CheckpointNumber, Fault> {
    let number = meant(alloc, word, rows, clock)?;
    if rows.iter().any(|row| row.number == number) {
        Ok(number)
    } else {
        Err(fault_at(alloc, word, "no such checkpoint is kept"))
    }
}
