//! Whole trees of a volume.
ghost use Rattle.std.specs.Prelude.{◌≡◌, ◌⊎◌, IfErr, IfOk, None, OnOk, Some};
ghost use Rattle.nl_types.specs.Plain.Worlds.{World, Copy, copy_at};
ghost use Rattle.nl_folders.specs.Refusals.{RefusesTree};
ghost use Rattle.nl_keep.specs.Stored.{IsKept, KeepsTree};
ghost use Rattle.nl_keep.specs.Volumes.{LeadsTo, Stays};

use crate::checkpoint_folder::CheckpointFolder;
use crate::current_folder::CurrentFolder;
use crate::volume::Volume;
use nl_folders::{FolderError, Tree, spelled, whole_tree};
use nl_types::{Ask, CheckpointNumber, VolError};
use std::alloc::Global;

/// The current tree. The volume is given back as it was.
///
/// # Errors
/// `Refused` by `Memory`, or by `BadPath` where a path of it is too long for any call.
pub fn current_tree<V: Volume>(alloc: Global, volume: V) -> Result<(Tree, V), FolderError>
    ensures tree { IfOk result (λ read. (w : World) → V.means volume w → read.0 ≡ w.tree) }
    ensures stays { IfOk result (λ read. LeadsTo Stays (V.means volume) (V.means read.1)) }
    ensures refused { IfErr result (λ e. (w : World) → V.means volume w → RefusesTree w.tree e) }
{
    let mut folder = CurrentFolder { volume };
    let tree = whole_tree(alloc, &mut folder)?;
    Ok((tree, folder.volume))
}

/// Judges whether a checkpoint is kept: its root stands there then.
///
/// # Errors
/// `Refused` by `NoCheckpoint` where it isn't kept, and by `Memory`.
pub fn judge_kept<V: Volume>(
    alloc: Global,
    volume: &V,
    number: CheckpointNumber,
) -> Result<(), FolderError>
    ensures kept { OnOk result ((w : World) → V.means volume.now w → IsKept number w) }
    ensures refused { IfErr result (λ e. (w : World) → V.means volume.now w
        → (e ≡ FolderError.Refused VolError.Memory)
        ⊎ ((e ≡ FolderError.Refused VolError.NoCheckpoint) × (copy_at w number ≡ None))) }
{
    let path = spelled(alloc, &[])?;
    let ask = Ask::Stat { path };
    let reply = volume.read_at(number, &ask);
    drop(ask);
    match reply {
        Ok(answer) => {
            drop(answer);
            Ok(())
        }
        Err(error) => Err(FolderError::Refused(error)),
    }
}

/// The whole tree of a kept checkpoint, be it a snapshot or plain. The volume stays as it is.
///
/// # Errors
/// `Refused` by `NoCheckpoint` where it isn't kept, or by `Memory`; of one that is kept by `BadPath` where a
/// path of it is too long for any call.
pub fn checkpoint_tree<V: Volume>(
    alloc: Global,
    volume: &V,
    number: CheckpointNumber,
) -> Result<Tree, FolderError>
    ensures tree { IfOk result (λ tree. (w : World) → V.means volume.now w → KeepsTree number tree w) }
    ensures missing { (w : World) → V.means volume.now w → copy_at w number ≡ None
        → IfErr result (λ e. (e ≡ FolderError.Refused VolError.Memory)
        ⊎ (e ≡ FolderError.Refused VolError.NoCheckpoint)) }
    ensures refused { IfErr result (λ e. (w : World) (copy : Copy) → V.means volume.now w
        → copy_at w number ≡ Some copy → RefusesTree copy.tree e) }
{
    judge_kept(alloc, volume, number)?;
    let mut folder = CheckpointFolder { volume, number };
    let tree = whole_tree(alloc, &mut folder)?;
    Ok(tree)
}
