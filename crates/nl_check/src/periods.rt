//! Whether a checkpoint meets just the numbers whose periods have it.
ghost use Rattle.std.specs.Prelude.{◌≡◌, ◌↔◌, ◌<◌, ◌≤◌, ℕ, false, length, All, IsTrue, IsSome};
ghost use Rattle.std.specs.List.{AllWithin};
ghost use Rattle.nl_check.specs.Conditions.{has};
ghost use Rattle.nl_check.specs.Periods.{AreOfPeriods, has_in};
ghost use Rattle.nl_check.specs.Private.Turns.{AreTurnedOfPeriods, AreTurns, IsOfPeriod, IsTurnOfPeriod, WereOfPeriods};

use crate::turns::{Turn, reach};
use nl_blocktree::Met;
use nl_types::{CheckpointNumber, Period, VirtualNumber};
use nl_vstore::VRead;

/// Whether a period has a checkpoint.
fn has(number: CheckpointNumber, period: Period) -> bool
    ensures { result ≡ has number period }
{
    match period.end {
        Some(end) => period.start <= number && number < end,
        None => period.start <= number,
    }
}

/// Whether a number in use has a checkpoint in its period.
fn is_in_period(number: CheckpointNumber, period: Option<Period>) -> bool
    ensures { result ≡ has_in number period }
{
    match period {
        Some(period) => has(number, period),
        None => false,
    }
}

/// Whether a number was met exactly where its period has the checkpoint.
fn is_of_period<V: VRead>(
    store: &V,
    met: &Met,
    number: CheckpointNumber,
    name: VirtualNumber,
) -> bool
    ensures { IsTrue result ↔ IsOfPeriod (V.periods store.now) number met.now name }
{
    met.has(name) == is_in_period(number, store.period(name))
}

/// Whether a number was met exactly where its period has the checkpoint, for all numbers.
fn are_of_periods<V: VRead>(store: &V, met: &Met, number: CheckpointNumber) -> bool
    requires { (v : ℕ) → IsSome (V.periods store.now v) → v < length met.now }
    ensures { IsTrue result ↔ AreOfPeriods (V.periods store.now) number met.now }
{
    for at in 0..met.len() {
        if !is_of_period(store, met, number, VirtualNumber::new(at as u64)) {
            return false;
        }
    }
    true
}

/// Whether each number of a run of turns was met exactly where its period has the checkpoint.
fn is_run_of_periods<V: VRead>(
    store: &V,
    met: &Met,
    turns: &[Turn],
    first: usize,
    end: usize,
    number: CheckpointNumber,
) -> bool
    requires { end ≤ length turns.now }
    ensures { IsTrue result
        ↔ AllWithin (IsTurnOfPeriod (V.periods store.now) number met.now) turns.now first end }
{
    for at in first..end {
        if !is_of_period(store, met, number, turns[at].number) {
            return false;
        }
    }
    true
}

/// Whether each number whose period turns behind the last checkpoint, and not behind the next one, was met
/// exactly where its period has the next one.
fn are_turned_of_periods<V: VRead>(
    store: &V,
    met: &Met,
    turns: &[Turn],
    last: CheckpointNumber,
    next: CheckpointNumber,
) -> bool
    requires { AreTurns (V.periods store.now) turns.now }
    ensures yes { IsTrue result → AreTurnedOfPeriods (V.periods store.now) last next met.now }
    ensures no { result ≡ false → AreOfPeriods (V.periods store.now) next met.now → ⊥ }
{
    let first = reach(turns, last);
    let end = reach(turns, next);
    is_run_of_periods(store, met, turns, first, end, next)
}

/// Whether each of these numbers was met exactly where its period has the checkpoint.
fn are_these_of_periods<V: VRead>(
    store: &V,
    met: &Met,
    number: CheckpointNumber,
    names: &[VirtualNumber],
) -> bool
    ensures { IsTrue result ↔ All (IsOfPeriod (V.periods store.now) number met.now) names.now }
{
    for name in names {
        if !is_of_period(store, met, number, *name) {
            return false;
        }
    }
    true
}

/// Whether each number was met exactly where its period has the next checkpoint, given that it was so at the
/// last one, and which numbers changed since. Where the last one comes first, only these are looked at, and
/// those whose periods turn between the two.
fn are_of_periods_since<V: VRead>(
    store: &V,
    met: &Met,
    turns: &[Turn],
    changed: &[VirtualNumber],
    last: CheckpointNumber,
    next: CheckpointNumber,
) -> bool
    requires within { (v : ℕ) → IsSome (V.periods store.now v) → v < length met.now }
    requires turns { AreTurns (V.periods store.now) turns.now }
    requires last { WereOfPeriods (V.periods store.now) last met.now changed.now }
    ensures yes { IsTrue result → AreOfPeriods (V.periods store.now) next met.now }
    ensures no { result ≡ false → AreOfPeriods (V.periods store.now) next met.now → ⊥ }
{
    if last > next {
        return are_of_periods(store, met, next);
    }
    if !are_these_of_periods(store, met, next, changed) {
        return false;
    }
    are_turned_of_periods(store, met, turns, last, next)
}

/// Whether each number was met exactly where its period has the checkpoint, and so it was at all checkpoints
/// before. Where it wasn't, no number is looked at.
pub(crate) fn are_still_of_periods<V: VRead>(
    store: &V,
    met: &Met,
    number: CheckpointNumber,
    before: bool,
) -> bool
    requires { (v : ℕ) → IsSome (V.periods store.now v) → v < length met.now }
    ensures { IsTrue result ↔ (IsTrue before × AreOfPeriods (V.periods store.now) number met.now) }
{
    before && are_of_periods(store, met, number)
}

/// As `are_still_of_periods` for the next checkpoint, by what was so at the last one, and the numbers that
/// changed since.
pub(crate) fn are_still_of_periods_since<V: VRead>(
    store: &V,
    met: &Met,
    turns: &[Turn],
    changed: &[VirtualNumber],
    last: CheckpointNumber,
    next: CheckpointNumber,
    before: bool,
) -> bool
    requires within { (v : ℕ) → IsSome (V.periods store.now v) → v < length met.now }
    requires turns { AreTurns (V.periods store.now) turns.now }
    requires last { IsTrue before → WereOfPeriods (V.periods store.now) last met.now changed.now }
    ensures yes { IsTrue result → IsTrue before × AreOfPeriods (V.periods store.now) next met.now }
    ensures no { IsTrue before × AreOfPeriods (V.periods store.now) next met.now → IsTrue result }
{
    before && are_of_periods_since(store, met, turns, changed, last, next)
}
