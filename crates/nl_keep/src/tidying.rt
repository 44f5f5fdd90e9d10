//! Checkpoints that the volume made by itself, taken out.
ghost use Rattle.std.specs.Prelude.{◌≡◌, [], ◌∷◌, IfErr, OnOk};
ghost use Rattle.nl_types.specs.Plain.Worlds.{World};
ghost use Rattle.nl_keep.specs.MinorOnes.{RemovesMinor, TakesOutAll, is_plain_minor, minor_ones};
ghost use Rattle.nl_keep.specs.Private.Refused.{RefusesMinor, RefusesMinorOnes};
ghost use Rattle.nl_keep.specs.Volumes.{LeadsTo};

use crate::forgetting::rows_from;
use crate::volume::{Volume, applied};
use nl_types::{CheckpointNumber, Event, Mode, Row, VolError};

/// Whether the volume made a checkpoint by itself, and nobody made a snapshot of it.
fn is_plain_minor(row: &Row) -> bool
    ensures { result ≡ is_plain_minor row.now }
{
    match row.mode {
        Mode::Plain => row.minor,
        Mode::Snapshot => false,
    }
}

/// Takes out a checkpoint, if it is a plain minor one.
fn remove_if_minor<V: Volume>(volume: &mut V, row: &Row) -> Result<(), VolError>
    ensures taken { OnOk result (LeadsTo (TakesOutAll (minor_ones (row.now ∷ [])))
        (V.means volume.old) (V.means volume.new)) }
    ensures refused { IfErr result (λ e. (w : World) → V.means volume.old w → RefusesMinor row.now w e) }
{
    if !is_plain_minor(row) {
        return Ok(());
    }
    drop(applied(volume, Event::Remove(row.number))?);
    Ok(())
}

/// Takes out those of these checkpoints that are plain minor ones.
fn remove_each<V: Volume>(volume: &mut V, rows: &[Row]) -> Result<(), VolError>
    ensures taken { OnOk result (LeadsTo (TakesOutAll (minor_ones rows.now))
        (V.means volume.old) (V.means volume.new)) }
    ensures refused { IfErr result (λ e. (w : World) → V.means volume.old w
        → RefusesMinorOnes rows.now w e) }
{
    for row in rows {
        remove_if_minor(volume, row)?;
    }
    Ok(())
}

/// Takes out the plain checkpoints that the volume made by itself, but for the latest checkpoint of all. What
/// they alone need can be freed then. Where it is refused, some of them may be gone.
///
/// # Errors
/// `Memory`.
pub fn remove_minor<V: Volume>(volume: &mut V) -> Result<(), VolError>
    ensures removed { OnOk result (LeadsTo RemovesMinor (V.means volume.old) (V.means volume.new)) }
    ensures refused { IfErr result (λ e. (w : World) → V.means volume.old w → e ≡ VolError.Memory) }
{
    let rows = rows_from(volume, CheckpointNumber::new(1))?;
    let count = rows.len().saturating_sub(1);
    remove_each(volume, &rows.as_slice()[..count])
}
