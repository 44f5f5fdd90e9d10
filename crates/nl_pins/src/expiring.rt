//! Which checkpoints go.
ghost use Rattle.std.specs.Prelude.{◌≡◌, ◌↔◌, ◌||◌, IfOk, IsTrue, nat_lt};
ghost use Rattle.nl_pins.specs.Retention.{Descend, expired};

use crate::counts::Counts;
use crate::rules::{Dated, Rules};
use nl_types::CheckpointNumber;
use std::alloc::{AllocError, Global};

/// Whether numbers descend, as those of checkpoints do that stand newest first.
pub fn descends(rows: &[Dated]) -> bool
    ensures { IsTrue result ↔ Descend rows.now }
{
    match rows {
        [newer, older, ..] => newer.number.get() > older.number.get() && descends(&rows[1..]),
        _ => true,
    }
}

/// Whether a checkpoint stays, as it is pinned, among the last, or kept by a rule on periods.
fn stays(dated: &Dated, is_last: bool, is_kept: bool) -> bool
    ensures { result ≡ (dated.now.is_pinned || (is_last || is_kept)) }
{
    dated.is_pinned || is_last || is_kept
}

/// The checkpoints that no rule keeps, of a list from the newest to the oldest. The newest stays, and each that
/// is pinned. A period counts only if it has a checkpoint, as in restic's `forget` and borg's `prune`; a
/// checkpoint may stay by many rules, and counts for each. Refused for want of memory alone.
pub fn expired(
    alloc: Global,
    rules: &Rules,
    rows: &[Dated],
) -> Result<Vec<CheckpointNumber>, AllocError>
    requires { Descend rows.now }
    ensures { IfOk result (λ numbers. numbers.items ≡ expired rules.now rows.now) }
{
    // The newest stays, also without a rule.
    let mut left = rules.last.max(1);
    let mut counts = Counts::new(rules);
    let mut gone = Vec::new(alloc);
    for dated in rows {
        let is_kept = counts.keep(dated);
        if !stays(dated, left > 0, is_kept) {
            gone.push(dated.number)?;
        }
        left = left.saturating_sub(1);
    }
    Ok(gone)
}
