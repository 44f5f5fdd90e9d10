//! The current tree made another one, by the calls of a plan.
ghost use Rattle.std.specs.Prelude.{◌≡◌, [], ◌∷◌, IfErr, IfOk, OnOk};
ghost use Rattle.nl_folders.specs.Spelled.{IsNameable};
ghost use Rattle.nl_keep.specs.Made.{DoesCall, DoesCalls, bytes_of};
ghost use Rattle.nl_keep.specs.Private.Costs.{IsMade, cost_of, with_more};
ghost use Rattle.nl_types.specs.Plain.Worlds.{World};
ghost use Rattle.nl_keep.specs.Private.Refused.{RefusesCalls};
ghost use Rattle.nl_keep.specs.Volumes.{LeadsTo};

use crate::volume::{Volume, applied};
use nl_folders::{Path, Plan};
use nl_types::{Change, Event, Items, Object, VolError};
use std::alloc::Global;

// ---- what calls cost

/// How many calls there were, and how many bytes they wrote.
#[derive(Clone, Copy)]
pub(crate) struct Cost {
    pub(crate) calls: u64,
    pub(crate) bytes: u64,
}

/// How many bytes a call writes.
fn bytes_of(call: &Change) -> u64
    ensures { result ≡ bytes_of call.now }
{
    match call {
        Change::Write { bytes, .. } => bytes.len() as u64,
        _ => 0,
    }
}

/// What calls cost behind others.
fn with_more(cost: Cost, calls: &[Change]) -> Cost
    ensures { result ≡ with_more cost calls.now }
{
    let mut bytes = cost.bytes;
    for call in calls {
        bytes = bytes.saturating_add(bytes_of(call));
    }
    Cost {
        calls: cost.calls.saturating_add(calls.len() as u64),
        bytes,
    }
}

// ---- calls

/// One call.
fn apply_call<V: Volume>(volume: &mut V, call: Change) -> Result<(), VolError>
    ensures done { OnOk result (LeadsTo (DoesCall call) (V.means volume.old) (V.means volume.new)) }
    ensures refused { IfErr result (λ e. (w : World) → V.means volume.old w
        → RefusesCalls (call ∷ []) w e) }
{
    drop(applied(volume, Event::Apply(call))?);
    Ok(())
}

/// Calls in order, up to the first that is refused.
fn apply_all<V: Volume>(volume: &mut V, calls: Items<Change>) -> Result<(), VolError>
    ensures done { OnOk result (LeadsTo (DoesCalls calls) (V.means volume.old) (V.means volume.new)) }
    ensures refused { IfErr result (λ e. (w : World) → V.means volume.old w → RefusesCalls calls w e) }
{
    for call in calls.into_vec() {
        apply_call(volume, call)?;
    }
    Ok(())
}

/// Makes the current tree another one. Refused by `Memory`, and by other calls' refusals only where the tree
/// that is there isn't the current one.
pub(crate) fn make<V: Volume>(
    alloc: Global,
    volume: &mut V,
    present: &[(Path, Object)],
    wanted: &[(Path, Object)],
) -> Result<Cost, VolError>
    requires present { IsNameable present.now }
    requires wanted { IsNameable wanted.now }
    ensures made { IfOk result (λ cost.
        IsMade present.now wanted.now cost (V.means volume.old) (V.means volume.new)) }
    ensures refused { IfErr result (λ e. (w : World) → V.means volume.old w → w.tree ≡ present.now
        → e ≡ VolError.Memory) }
{
    let mut plan = Plan::new(alloc, present, wanted)?;
    let mut cost = Cost { calls: 0, bytes: 0 };
    while let Some(calls) = plan.next(alloc)? {
        cost = with_more(cost, calls.as_slice());
        apply_all(volume, calls)?;
    }
    Ok(cost)
}
