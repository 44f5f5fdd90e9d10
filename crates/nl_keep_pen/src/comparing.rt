//! What differs between two kept checkpoints of a volume, at the cost of what differs.
ghost use Rattle.std.specs.Prelude.{◌≡◌, ◌⊎◌, Err, IfErr, IfOk, None, OnOk};
ghost use Rattle.nl_types.specs.Plain.Trees.{Tree};
ghost use Rattle.nl_types.specs.Plain.Worlds.{World, copy_at};
ghost use Rattle.nl_commit.specs.Layout.{MeansWorld};
ghost use Rattle.nl_folders.specs.Passing.{AreSameFiles};
ghost use Rattle.nl_folders.specs.Refusals.{RefusesTree};
ghost use Rattle.nl_keep.specs.Stored.{IsKept, KeepsTree};
ghost use Rattle.nl_keep_pen.specs.Compared.{DifferBy, KnownFiles, KnownFiles-prop};

use crate::PenVolume;
use nl_device::Device;
use nl_folders::{Difference, FolderError, Knowledge, Path, folder_differences};
use nl_keep::CheckpointFolder;
use nl_names::Name;
use nl_types::{CheckpointNumber, Items, VolError};
use std::alloc::Global;

/// The files that are one in two kept checkpoints of a volume, as their inodes tell: kind, size and root are
/// equal. No block of a file is read to see it.
#[derive(Drop)]
pub(crate) struct SameFiles<'a, D: Device> {
    volume: &'a PenVolume<D>,
    old: CheckpointNumber,
    new: CheckpointNumber,
    ghost files: { KnownFiles volume.now.pen old new } by { KnownFiles-prop volume.now.pen old new },
}

impl<'a, D: Device> SameFiles<'a, D> {
    /// What is known of the files of these two, which is nothing where one of them isn't kept. It takes no
    /// memory.
    pub fn new(volume: &'a PenVolume<D>, old: CheckpointNumber, new: CheckpointNumber) -> Self
        ensures { (w : World) (one other : Tree) → MeansWorld volume.now.pen w
            → KeepsTree old one w → KeepsTree new other w
            → AreSameFiles (⟦<SameFiles<'a, D> as Knowledge>⟧.known result) one other }
    {
        volume.pen.means_a_world();
        SameFiles { volume, old, new }
    }
}

impl<D: Device> Knowledge for SameFiles<'_, D> {
    ghost known = { λ k. k.files.known };

    fn is_known(&self, path: &[Name]) -> bool {
        self.volume.pen.is_same_file(self.old, self.new, path)
    }
}

/// Judges whether a checkpoint is kept, without memory. Refused by `NoCheckpoint` alone.
pub(crate) fn judge_kept<D: Device>(
    volume: &PenVolume<D>,
    number: CheckpointNumber,
) -> Result<(), FolderError>
    ensures kept { OnOk result ((w : World) → MeansWorld volume.now.pen w → IsKept number w) }
    ensures refused { IfErr result (λ e. e ≡ FolderError.Refused VolError.NoCheckpoint) }
    ensures missing { IfErr result (λ e. (w : World) → MeansWorld volume.now.pen w
        → copy_at w number ≡ None) }
{
    match volume.pen.cpinfo(number) {
        Ok(_) => Ok(()),
        Err(error) => Err(FolderError::Refused(error)),
    }
}

/// The same of two checkpoints.
fn judge_both<D: Device>(
    volume: &PenVolume<D>,
    old: CheckpointNumber,
    new: CheckpointNumber,
) -> Result<(), FolderError>
    ensures old { OnOk result ((w : World) → MeansWorld volume.now.pen w → IsKept old w) }
    ensures new { OnOk result ((w : World) → MeansWorld volume.now.pen w → IsKept new w) }
    ensures refused { IfErr result (λ e. e ≡ FolderError.Refused VolError.NoCheckpoint) }
    ensures missing { IfErr result (λ e. (w : World) → MeansWorld volume.now.pen w
        → (copy_at w old ≡ None) ⊎ (copy_at w new ≡ None)) }
{
    judge_kept(volume, old)?;
    judge_kept(volume, new)
}

/// All that differs from one kept checkpoint to another, in the order of the paths. The directories of both
/// are listed, and files are read that differ: those whose inodes are equal are not.
///
/// # Errors
/// `Refused` by `NoCheckpoint` where one of the two isn't kept; else as `folder_differences` of `nl_folders`.
pub(crate) fn checkpoint_differences<D: Device>(
    alloc: Global,
    volume: &PenVolume<D>,
    old: CheckpointNumber,
    new: CheckpointNumber,
) -> Result<Items<(Path, Difference)>, FolderError>
    ensures differ { IfOk result (λ all. (w : World) → MeansWorld volume.now.pen w
        → DifferBy old new all w) }
    ensures missing { (w : World) → MeansWorld volume.now.pen w
        → (copy_at w old ≡ None) ⊎ (copy_at w new ≡ None)
        → result ≡ Err (FolderError.Refused VolError.NoCheckpoint) }
    ensures refused { IfErr result (λ e. (w : World) (one other : Tree) → MeansWorld volume.now.pen w
        → KeepsTree old one w → KeepsTree new other w → RefusesTree one e ⊎ RefusesTree other e) }
{
    judge_both(volume, old, new)?;
    folder_differences(
        alloc,
        &mut CheckpointFolder {
            volume,
            number: old,
        },
        &mut CheckpointFolder {
            volume,
            number: new,
        },
        &SameFiles::new(volume, old, new),
    )
}
