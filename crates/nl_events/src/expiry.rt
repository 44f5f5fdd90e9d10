//! The expiry of checkpoints that no protection period protects.
ghost use Rattle.std.specs.Prelude.{◌≡◌, ◌<◌, [], if◌then◌else◌, All, IfOk, IsOkUnless, OnErr};
ghost use Rattle.std.specs.List.{AllPairs};
ghost use Rattle.nl_cpfile.specs.Tables as cpfile;
ghost use Rattle.nl_commit.specs.Volume.{gone_from, is_memory};

use nl_cpfile::Checkpoints;
use nl_protect::boundary;
use nl_types::{CheckpointNumber, Items, Moment, VolError};
use std::alloc::Global;

fn is_memory(refusal: VolError) -> bool
    ensures { result ≡ is_memory refusal }
{
    matches!(refusal, VolError::Memory)
}

/// A removal that is refused, but not for memory, has no number to remove.
fn none_unless_memory(alloc: Global, refusal: VolError) -> Result<Items<CheckpointNumber>, VolError>
    ensures { result ≡ if is_memory refusal then Err VolError.Memory else Ok [] }
{
    if is_memory(refusal) {
        Err(VolError::Memory)
    } else {
        Ok(Items::new(alloc))
    }
}

/// Removes the plain checkpoints below the boundary of protection but for the latest one, and answers their
/// numbers: the removal of the range from 1 to just below it, where that is one. Refused by `Memory` alone.
pub fn expire(
    alloc: Global,
    kept: &mut Checkpoints,
    now: Moment,
    period: u64,
) -> Result<Items<CheckpointNumber>, VolError>
    ensures gone { IfOk result (λ gone. gone ≡ gone_from kept.old.table now period) }
    ensures removed { IfOk result (λ gone. kept.new.table ≡ cpfile.without gone kept.old.table) }
    ensures rising { IfOk result (λ gone. AllPairs ◌<◌ gone) }
    ensures low { IfOk result (λ gone. All (λ n. n < kept.old.table.latest.number) gone) }
    ensures refused { IsOkUnless result VolError.Memory }
    ensures same { OnErr result (kept.new ≡ kept.old) }
{
    let last = boundary(kept, now, period).get().saturating_sub(1);
    let first = CheckpointNumber::new(1);
    match kept.remove_range(alloc, first, CheckpointNumber::new(last)) {
        Ok(range) => Ok(range.removed),
        Err(refusal) => none_unless_memory(alloc, refusal),
    }
}
