//! Segments are emptied, once nothing in them is needed.
ghost use Rattle.std.specs.Prelude.{◌≡◌, ◌<◌, ◌≤◌, IfOk, OnErr, length};
ghost use Rattle.nl_vstore.specs.Stores.{IsStore, IsReclaimed};
ghost use Rattle.nl_reclaim.specs.Cleaning.{freed, retired_with};

use crate::judging::judge;
use nl_types::{Segment, VolError};
use nl_vstore::Vstore;

/// Empties a segment in which no number is needed.
fn free_unneeded<V: Vstore>(store: &mut V, needed: u32, segment: Segment) -> Result<u32, VolError>
    requires segment { segment < length (V.store store.old).segments.each }
    requires store { IsStore (V.store store.old) }
    ensures answers { result ≡ freed (V.store store.old) needed segment }
    ensures freed { IfOk result (λ count.
        IsReclaimed segment count (V.store store.old) (V.store store.new)) }
    ensures same { OnErr result (V.store store.new ≡ V.store store.old) }
    ensures counted { (V.store store.old).failures ≤ (V.store store.new).failures }
{
    if needed != 0 {
        return Err(VolError::StillNeeded);
    }
    Ok(store.reclaim(segment))
}

/// Takes the numbers out of use whose pages stand in a segment, and makes the segment clean. It answers how
/// many they were. The caller tells how many of them are needed: they are not counted here.
///
/// Refused as `judge` says, and then by `StillNeeded` where one of the numbers is needed. It takes no memory.
pub fn retire<V: Vstore>(store: &mut V, needed: u32, segment: Segment) -> Result<u32, VolError>
    ensures answers { result ≡ retired_with (V.store store.old) needed segment }
    ensures freed { IfOk result (λ count.
        IsReclaimed segment count (V.store store.old) (V.store store.new)) }
    ensures same { OnErr result (V.store store.new ≡ V.store store.old) }
    ensures counted { (V.store store.old).failures ≤ (V.store store.new).failures }
{
    match judge(store.table(), segment) {
        Ok(_) => free_unneeded(store, needed, segment),
        Err(refusal) => Err(refusal),
    }
}
