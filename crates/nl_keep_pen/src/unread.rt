//! Checkpoints of which no file is read but manifests.
ghost use Rattle.std.specs.Prelude.{◌≡◌, ◌⊎◌, IfErr, IfOk, None, OnOk, Some};
ghost use Rattle.nl_types.specs.Plain.Paths.{same_name};
ghost use Rattle.nl_types.specs.Plain.Worlds.{World, Copy, copy_at};
ghost use Rattle.nl_folders.specs.Refusals.{RefusesTree};
ghost use Rattle.nl_keep.specs.Stored.{IsKept};
ghost use Rattle.nl_manifests.specs.HostTrees.{last_name, manifest_name, parted};
ghost use Rattle.nl_manifests.specs.Unread.{unread};

use nl_folders::{Folder, FolderError, Tree, whole_tree};
use nl_keep::{CheckpointFolder, Volume, judge_kept};
use nl_names::Name;
use nl_types::{CheckpointNumber, Items, Named, VolError};
use std::alloc::Global;

fn is_manifest_name(name: &[u8]) -> bool
    ensures { result ≡ same_name name.now manifest_name }
{
    name.cmp(&b".nlkeep".as_slice()).is_eq()
}

/// Whether a path has the name of a manifest.
pub fn is_manifest_path(path: &[Name]) -> bool
    ensures { result ≡ same_name (last_name (parted path.now)) manifest_name }
{
    match path {
        [] => false,
        [_, ..] => {
            let last = path.len() - 1;
            is_manifest_name(path[last].as_slice())
        }
    }
}

/// The tree of a kept checkpoint, in which files but manifests are empty.
#[derive(Drop)]
struct UnreadFolder<'a, V: Volume> {
    folder: CheckpointFolder<'a, V>,
}

impl<V: Volume> Folder for UnreadFolder<'_, V> {
    ghost use Rattle.std.specs.Prelude.{⊤};
    ghost use Rattle.nl_keep_pen.specs.UnreadTrees.{ShowsUnread};

    ghost shows = { λ f. ShowsUnread (V.means f.folder.volume.now) f.folder.number };

    ghost keeps = { λ f g. ⊤ };

    ghost keeps_itself = { λ f. tt };

    ghost keeps_on = { λ f g h one other. tt };

    fn list(&mut self, alloc: Global, path: &[Name]) -> Result<Items<Named>, FolderError> {
        self.folder.list(alloc, path)
    }

    fn read(&mut self, alloc: Global, path: &[Name]) -> Result<Items<u8>, FolderError> {
        if is_manifest_path(path) {
            self.folder.read(alloc, path)
        } else {
            self.folder.judge_file(alloc, path)?;
            Ok(Items::new(alloc))
        }
    }
}

/// The whole tree of a kept checkpoint, be it a snapshot or plain, in which files but manifests are empty: their
/// bytes are not read. The volume stays as it is.
///
/// # Errors
/// As `checkpoint_tree` of `nl_keep`.
pub(crate) fn unread_tree<V: Volume>(
    alloc: Global,
    volume: &V,
    number: CheckpointNumber,
) -> Result<Tree, FolderError>
    ensures tree { IfOk result (λ tree. (w : World) (copy : Copy) → V.means volume.now w
        → copy_at w number ≡ Some copy → tree ≡ unread copy.tree) }
    ensures kept { OnOk result ((w : World) → V.means volume.now w → IsKept number w) }
    ensures missing { (w : World) → V.means volume.now w → copy_at w number ≡ None
        → IfErr result (λ e. (e ≡ FolderError.Refused VolError.Memory)
        ⊎ (e ≡ FolderError.Refused VolError.NoCheckpoint)) }
    ensures refused { IfErr result (λ e. (w : World) (copy : Copy) → V.means volume.now w
        → copy_at w number ≡ Some copy → RefusesTree copy.tree e) }
{
    judge_kept(alloc, volume, number)?;
    let mut folder = UnreadFolder {
        folder: CheckpointFolder { volume, number },
    };
    let tree = whole_tree(alloc, &mut folder)?;
    Ok(tree)
}
