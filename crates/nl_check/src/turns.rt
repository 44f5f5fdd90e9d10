//! The checkpoints at which the periods of numbers begin and end.
ghost use Rattle.std.specs.Prelude.{◌≡◌, ℕ, ◌<◌, ◌≤◌, ◌++◌, nat_le, true, false, length, map, IsSome, IfOk, IfErr};
ghost use Rattle.std.specs.List.Sorted.{IsNonDecreasingBy, IsPartitionPoint};
ghost use Rattle.std.specs.Option.{option_to_list};
ghost use Rattle.nl_types.specs.declared.error.VolError;
ghost use Rattle.nl_check.specs.Private.Turns.{AreTurns, HasTurnsBelow, checkpoint_of, turn_at, turns_of};

use nl_types::{CheckpointNumber, Period, VirtualNumber, VolError};
use nl_vstore::VRead;
use std::alloc::Global;

/// A checkpoint at which the period of a number begins or ends.
#[derive(Clone, Copy)]
pub(crate) struct Turn {
    pub(crate) checkpoint: CheckpointNumber,
    pub(crate) number: VirtualNumber,
}

/// Puts the end of a number's period behind other turns, if it has one. Refused by `Memory` alone.
fn push_end(
    turns: &mut Vec<Turn>,
    number: VirtualNumber,
    end: Option<CheckpointNumber>,
) -> Result<(), VolError>
    ensures ok { IfOk result (λ _.
        turns.new.items ≡ turns.old.items ++ map (turn_at number) (option_to_list end)) }
    ensures refused { IfErr result (λ e. e ≡ VolError.Memory) }
{
    match end {
        Some(checkpoint) => {
            turns.push(Turn { checkpoint, number })?;
            Ok(())
        }
        None => Ok(()),
    }
}

/// Puts the turns of a number behind others, if it is in use. Refused by `Memory` alone.
fn push_turns(
    turns: &mut Vec<Turn>,
    number: VirtualNumber,
    period: Option<Period>,
) -> Result<(), VolError>
    ensures ok { IfOk result (λ _.
        turns.new.items ≡ turns.old.items ++ turns_of number period) }
    ensures refused { IfErr result (λ e. e ≡ VolError.Memory) }
{
    match period {
        Some(period) => {
            let checkpoint = period.start;
            turns.push(Turn { checkpoint, number })?;
            push_end(turns, number, period.end)
        }
        None => Ok(()),
    }
}

/// The turns of the numbers below a count, by the numbers. Refused by `Memory` alone.
fn turns_below<V: VRead>(alloc: Global, store: &V, count: usize) -> Result<Vec<Turn>, VolError>
    ensures all { IfOk result (λ turns. HasTurnsBelow (V.periods store.now) count turns.items) }
    ensures refused { IfErr result (λ e. e ≡ VolError.Memory) }
{
    let mut turns = Vec::new(alloc);
    for at in 0..count {
        let number = VirtualNumber::new(at as u64);
        push_turns(&mut turns, number, store.period(number))?;
    }
    Ok(turns)
}

/// The turns of all numbers, by their checkpoints. The numbers in use lie below a count. Refused by `Memory`
/// alone.
pub(crate) fn all_turns<V: VRead>(
    alloc: Global,
    store: &V,
    count: usize,
) -> Result<Vec<Turn>, VolError>
    requires { (v : ℕ) → IsSome (V.periods store.now v) → v < count }
    ensures turns { IfOk result (λ turns. AreTurns (V.periods store.now) turns.items) }
    ensures refused { IfErr result (λ e. e ≡ VolError.Memory) }
{
    let mut turns = turns_below(alloc, store, count)?;
    turns.sort_unstable_by_key(|turn| turn.checkpoint.get());
    Ok(turns)
}

/// How many turns are not behind a checkpoint, in a list that ascends.
pub(crate) fn reach(turns: &[Turn], checkpoint: CheckpointNumber) -> usize
    requires { IsNonDecreasingBy checkpoint_of turns.now }
    ensures bound { result ≤ length turns.now }
    ensures point { IsPartitionPoint (λ turn. nat_le (checkpoint_of turn) checkpoint ≡ true)
        (λ turn. nat_le (checkpoint_of turn) checkpoint ≡ false) turns.now result }
{
    turns.partition_point(|turn| turn.checkpoint <= checkpoint)
}
