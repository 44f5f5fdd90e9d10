//! The trees of a volume's checkpoints as folders.
ghost use Rattle.std.specs.Prelude.{◌≡◌, ℕ, List, IfErr, Ok, OnOk};
ghost use Rattle.nl_types.specs.Plain.Calls.{file_at};
ghost use Rattle.nl_types.specs.Plain.Trees.{Tree};
ghost use Rattle.nl_folders.specs.Refusals.{RefusesPath};
ghost use Rattle.nl_keep.specs.Shown.{ShowsKept};

use crate::answering::{Answering, bytes_answered, names_answered};
use crate::asking::{bytes_of, first_bytes};
use crate::volume::Volume;
use nl_folders::{Folder, FolderError};
use nl_names::Name;
use nl_types::{Ask, CheckpointNumber, Items, Named, Reply};
use std::alloc::Global;

/// The tree of a kept checkpoint, be it a snapshot or plain. Its calls are refused as the volume's `read_at`
/// is, and by `BadName` where a name of the path may not stand in one.
#[derive(Drop)]
pub struct CheckpointFolder<'a, V: Volume> {
    pub volume: &'a V,
    pub number: CheckpointNumber,
}

impl<V: Volume> CheckpointFolder<'_, V> {
    /// Judges whether a file stands at a path. None of its bytes is read.
    ///
    /// # Errors
    /// As reading it.
    pub fn judge_file(&self, alloc: Global, path: &[Name]) -> Result<(), FolderError>
        ensures file { OnOk result ((tree : Tree)
            → ShowsKept (V.means self.now.volume.now) self.now.number tree
            → (bytes : List ℕ) × (file_at tree path.now ≡ Ok bytes)) }
        ensures refused { IfErr result (λ e. (tree : Tree) (bytes : List ℕ)
            → ShowsKept (V.means self.now.volume.now) self.now.number tree
            → file_at tree path.now ≡ Ok bytes → RefusesPath path.now e) }
    {
        let ask = first_bytes(alloc, path, 0)?;
        bytes_of(self.volume.read_at(self.number, &ask))?;
        Ok(())
    }
}

impl<V: Volume> Answering for CheckpointFolder<'_, V> {
    ghost use Rattle.nl_keep.specs.Shown.{ShowsKept};

    ghost answers = { λ f. ShowsKept (V.means f.volume.now) f.number };

    ghost sound = { λ f tree shown. shown.is_tree };

    fn answer(&self, ask: &Ask) -> Reply {
        self.volume.read_at(self.number, ask)
    }
}

impl<V: Volume> Folder for CheckpointFolder<'_, V> {
    ghost use Rattle.std.specs.Prelude.{⊤};
    ghost use Rattle.nl_keep.specs.Shown.{ShowsKept};

    ghost shows = { λ f. ShowsKept (V.means f.volume.now) f.number };

    ghost keeps = { λ f g. ⊤ };

    ghost keeps_itself = { λ f. tt };

    ghost keeps_on = { λ f g h one other. tt };

    fn list(&mut self, alloc: Global, path: &[Name]) -> Result<Items<Named>, FolderError> {
        names_answered(alloc, self, path)
    }

    fn read(&mut self, alloc: Global, path: &[Name]) -> Result<Items<u8>, FolderError> {
        bytes_answered(alloc, self, path)
    }
}
