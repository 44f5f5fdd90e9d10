//! Which checkpoints are a user's own, and which is the latest of these.
ghost use Rattle.std.specs.Prelude.{◌≡◌, None};
ghost use Rattle.nl_words.specs.Own.{is_plain_minor, last_number, last_own, latest_number, latest_own, own_or};

use nl_types::{CheckpointNumber, Mode, Row};

/// Whether the volume made a checkpoint by itself, and nobody made a snapshot of it.
pub fn is_plain_minor(row: &Row) -> bool
    ensures { result ≡ is_plain_minor row.now }
{
    match row.mode {
        Mode::Plain => row.minor,
        Mode::Snapshot => false,
    }
}

/// The last own checkpoint, once this one is seen too.
fn own_or(last: Option<CheckpointNumber>, row: &Row) -> Option<CheckpointNumber>
    ensures { result ≡ own_or last row.now }
{
    if is_plain_minor(row) {
        last
    } else {
        Some(row.number)
    }
}

/// The last checkpoint that isn't plain and minor.
fn last_own(rows: &[Row]) -> Option<CheckpointNumber>
    ensures { result ≡ last_own None rows.now }
{
    let mut last = None;
    for row in rows {
        last = own_or(last, row);
    }
    last
}

/// The latest checkpoint of all.
pub(crate) fn latest_number(rows: &[Row]) -> Option<CheckpointNumber>
    ensures { result ≡ latest_number rows.now }
{
    let mut last = None;
    for row in rows {
        last = Some(row.number);
    }
    last
}

/// The latest checkpoint that isn't plain and minor. Where all are, it is the latest of all. Rows ascend.
pub fn latest_own(rows: &[Row]) -> Option<CheckpointNumber>
    ensures { result ≡ latest_own rows.now }
{
    match last_own(rows) {
        None => latest_number(rows),
        own => own,
    }
}
