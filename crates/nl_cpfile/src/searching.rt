//! Look-up of checkpoints by their numbers, in a list that ascends.
ghost use Rattle.std.specs.Prelude.{MatchOption};
ghost use Rattle.nl_cpfile.specs.Tables.{IsRising, kept_numbers};
ghost use Rattle.nl_cpfile.specs.Searching.{IsLeastAbove, IsPlaceOf, NoneAbove};

use crate::checkpoint::Checkpoint;
use nl_types::CheckpointNumber;

/// Where the checkpoint of a number stands.
pub(crate) fn place_of(kept: &[Checkpoint], number: CheckpointNumber) -> Option<usize>
    requires { IsRising kept.now }
    ensures { IsPlaceOf kept.now number result }
{
    let index = kept.partition_point(|checkpoint| checkpoint.number < number);
    let checkpoint = kept.get(index)?;
    if checkpoint.number == number {
        Some(index)
    } else {
        None
    }
}

/// The least number above another one.
pub(crate) fn least_above(kept: &[Checkpoint], number: CheckpointNumber) -> Option<CheckpointNumber>
    requires { IsRising kept.now }
    ensures { MatchOption result (NoneAbove number (kept_numbers kept.now))
        (IsLeastAbove number (kept_numbers kept.now)) }
{
    let index = kept.partition_point(|checkpoint| checkpoint.number <= number);
    let checkpoint = kept.get(index)?;
    Some(checkpoint.number)
}
