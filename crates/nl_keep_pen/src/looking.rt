//! What is looked at in a volume that was opened of an image.
ghost use Rattle.std.specs.Prelude.{◌≡◌, ◌⊎◌, ℕ, List, [], ◌∷◌, Err, IfErr, IfOk, None, Ok, Some};
ghost use Rattle.nl_types.specs.Plain.Calls.{file_at};
ghost use Rattle.nl_types.specs.Plain.Worlds.{World, Copy, copy_at};
ghost use Rattle.nl_commit.specs.Layout.{MeansWorld};
ghost use Rattle.nl_folders.specs.Refusals.{RefusesPath, RefusesTree};
ghost use Rattle.nl_keep_pen.specs.History.{AreKept, LacksOne, RefusesOne};
ghost use Rattle.nl_keep_pen.specs.Looking.{ChangesFromImage, ReadsFile, ShowsUnread, TellsFromImage};
ghost use Rattle.nl_keep_pen.specs.Opened.{IsOpenedOf};

use crate::comparing::judge_kept;
use crate::history::{ShownDifferences, changed_at, shown_differences, unread_shown};
use crate::opened::OpenedVolume;
use nl_folders::{Folder, FolderError};
use nl_keep::CheckpointFolder;
use nl_manifests::Opened;
use nl_names::Name;
use nl_types::{CheckpointNumber, Items, VolError};
use std::alloc::Global;

impl OpenedVolume {
    /// What a kept checkpoint shows, but for the bytes of files: of these, manifests alone are read. Pins are no
    /// part of it.
    ///
    /// # Errors
    /// `Refused` by `NoCheckpoint` where it isn't kept, or by `Memory`; of one that is kept by `BadPath` where a path
    /// of it is too long for any call.
    pub fn unread(&self, alloc: Global, number: CheckpointNumber) -> Result<Opened, FolderError>
        ensures shows { IfOk result (λ opened. (image : List ℕ) → IsOpenedOf image self.now.volume.pen
            → ShowsUnread number opened image) }
        ensures missing { (w : World) → MeansWorld self.now.volume.pen w → copy_at w number ≡ None
            → IfErr result (λ e. (e ≡ FolderError.Refused VolError.Memory)
            ⊎ (e ≡ FolderError.Refused VolError.NoCheckpoint)) }
        ensures refused { IfErr result (λ e. (w : World) (copy : Copy)
            → MeansWorld self.now.volume.pen w → copy_at w number ≡ Some copy
            → RefusesTree copy.tree e) }
    {
        nl_core::laws::pens_of_one_image_mean_one_world();
        let opened = unread_shown(alloc, &self.volume, number)?;
        Ok(opened)
    }

    /// The bytes of the file at a path of a kept checkpoint.
    ///
    /// # Errors
    /// `Refused` by `NoCheckpoint` where it isn't kept. A file that is there is refused by `Memory` alone, or by
    /// `BadPath` where no call can name its path; where none is, as a call is.
    pub fn file(
        &self,
        alloc: Global,
        number: CheckpointNumber,
        path: &[Name],
    ) -> Result<Items<u8>, FolderError>
        ensures read { IfOk result (λ bytes. (image : List ℕ) → IsOpenedOf image self.now.volume.pen
            → ReadsFile number path.now bytes image) }
        ensures missing { (w : World) → MeansWorld self.now.volume.pen w → copy_at w number ≡ None
            → result ≡ Err (FolderError.Refused VolError.NoCheckpoint) }
        ensures refused { IfErr result (λ e. (w : World) (copy : Copy) (bytes : List ℕ)
            → MeansWorld self.now.volume.pen w → copy_at w number ≡ Some copy
            → file_at copy.tree path.now ≡ Ok bytes → RefusesPath path.now e) }
    {
        nl_core::laws::pens_of_one_image_mean_one_world();
        judge_kept(&self.volume, number)?;
        let mut folder = CheckpointFolder {
            volume: &self.volume,
            number,
        };
        let bytes = folder.read(alloc, path)?;
        Ok(bytes)
    }

    /// All that differs between what two kept checkpoints show, with what they show but for the bytes of files. No
    /// file is read that both have by one inode.
    ///
    /// # Errors
    /// `Refused` by `NoCheckpoint` where one of the two isn't kept; else as `folder_differences` of `nl_folders`.
    pub fn differences(
        &self,
        alloc: Global,
        old: CheckpointNumber,
        new: CheckpointNumber,
    ) -> Result<ShownDifferences, FolderError>
        ensures tells { IfOk result (λ told. (image : List ℕ) → IsOpenedOf image self.now.volume.pen
            → TellsFromImage old new told image) }
        ensures missing { (w : World) → MeansWorld self.now.volume.pen w
            → (copy_at w old ≡ None) ⊎ (copy_at w new ≡ None)
            → result ≡ Err (FolderError.Refused VolError.NoCheckpoint) }
        ensures refused { IfErr result (λ e. (w : World) → MeansWorld self.now.volume.pen w
            → AreKept (old ∷ new ∷ []) w → RefusesOne (old ∷ new ∷ []) e w) }
    {
        nl_core::laws::pens_of_one_image_mean_one_world();
        let told = shown_differences(alloc, &self.volume, old, new)?;
        Ok(told)
    }

    /// The checkpoints of a list, in order, of which something shown at a path or below it is other than at the one
    /// before in the list: which directories, files and links there are, the bytes of files, modes and owners as far
    /// as both are known, and where links lead. Times and pins don't count. The first one is told where it shows
    /// anything at the path itself.
    ///
    /// # Errors
    /// `Refused` by `NoCheckpoint` where one of the list isn't kept; else as `folder_differences` of `nl_folders`, for
    /// one of its trees.
    pub fn changes(
        &self,
        alloc: Global,
        numbers: &[CheckpointNumber],
        path: &[Name],
    ) -> Result<Items<CheckpointNumber>, FolderError>
        ensures changes { IfOk result (λ changes. (image : List ℕ) → IsOpenedOf image self.now.volume.pen
            → ChangesFromImage path.now numbers.now changes image) }
        ensures missing { (w : World) → MeansWorld self.now.volume.pen w → LacksOne numbers.now w
            → result ≡ Err (FolderError.Refused VolError.NoCheckpoint) }
        ensures refused { IfErr result (λ e. (w : World) → MeansWorld self.now.volume.pen w
            → AreKept numbers.now w → RefusesOne numbers.now e w) }
    {
        nl_core::laws::pens_of_one_image_mean_one_world();
        let changes = changed_at(alloc, &self.volume, numbers, path)?;
        Ok(changes)
    }
}
