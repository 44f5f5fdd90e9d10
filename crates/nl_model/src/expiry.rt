//! The boundary of protection, and the checkpoints that an expiry takes out.
ghost use Rattle.std.specs.Prelude.{◌≡◌, IfOk, map};
ghost use Rattle.nl_types.specs.Plain.Rows.{number_of};
ghost use Rattle.nl_types.specs.Plain.Protection as protection;

use crate::judging::reason_to_stay;
use nl_types::{CheckpointNumber, Items, Row};
use std::alloc::{AllocError, Global};

/// Whether the checkpoint was made less than the period ago, or after the moment.
fn is_protected(row: &Row, now: u64, period: u64) -> bool
    ensures { result ≡ protection.is_protected now period row.now }
{
    now < row.stamp || now - row.stamp < period
}

/// The least number that the period protects.
fn least_protected(rows: &[Row], now: u64, period: u64) -> Option<u64>
    ensures { result ≡ protection.least (map number_of (protection.protected now period rows.now)) }
{
    match rows {
        [] => None,
        [row, rest @ ..] => {
            let later = least_protected(rest, now, period);
            if is_protected(row, now, period) {
                let number = row.number.get();
                Some(match later {
                    Some(least) => number.min(least),
                    None => number,
                })
            } else {
                later
            }
        }
    }
}

/// The least number that the period protects, or else the latest one.
pub fn boundary(rows: &[Row], now: u64, period: u64, latest: u64) -> u64
    ensures { result ≡ protection.boundary now period latest rows.now }
{
    match least_protected(rows, now, period) {
        Some(least) => least,
        None => latest,
    }
}

/// The numbers below a boundary that may go.
pub fn expired(
    alloc: Global,
    rows: &[Row],
    boundary: u64,
    latest: u64,
) -> Result<Items<CheckpointNumber>, AllocError>
    ensures { IfOk result (λ numbers. numbers ≡ protection.expired boundary latest rows.now) }
{
    match rows {
        [] => Ok(Items::new(alloc)),
        [row, rest @ ..] => {
            let mut numbers = expired(alloc, rest, boundary, latest)?;
            if row.number.get() < boundary && reason_to_stay(latest, row).is_none() {
                numbers.push_front(row.number)?;
            }
            Ok(numbers)
        }
    }
}
