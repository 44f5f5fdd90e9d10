//! Folders that are compared without a read of files that are known to be one in both.
ghost use Rattle.std.specs.Prelude.{◌≡◌, ◌⊎◌, Bool, IfErr, IfOk};
ghost use Rattle.nl_types.specs.Plain.Paths.{Path};
ghost use Rattle.nl_types.specs.Plain.Trees.{Tree, IsTree};
ghost use Rattle.nl_folders.specs.Differences.{differences};
ghost use Rattle.nl_folders.specs.Passing.{AreSameFiles};
ghost use Rattle.nl_folders.specs.Refusals.{RefusesTree};

use crate::differences::{Difference, all_differences};
use crate::folder::{Folder, FolderError, whole_tree};
use crate::paths::Path;
use nl_names::Name;
use nl_types::{Items, Named};
use std::alloc::Global;

/// What is known of two folders before a file of them is read.
pub trait Knowledge {
    /// The paths at which both are known to have the same file.
    ghost known: { Self → Path → Bool };

    /// Whether both are known to have the same file at a path.
    fn is_known(&self, path: &[Name]) -> bool
        ensures { result ≡ known self.now path.now };
}

/// A folder in which files that are known count as empty, and are not read.
#[derive(Drop)]
struct Passing<'a, F: Folder, K: Knowledge> {
    folder: &'a mut F,
    knowledge: &'a K,
}

impl<F: Folder, K: Knowledge> Folder for Passing<'_, F, K> {
    ghost use Rattle.std.specs.Prelude.{◌≡◌, refl};
    ghost use Rattle.std.proofs.Common.{◌∙◌};
    ghost use Rattle.nl_folders.specs.Passing.{ShowsEmptied};

    ghost shows = { λ p. ShowsEmptied (F.shows p.folder.now) (K.known p.knowledge.now) };

    ghost keeps = { λ p q. (p.folder.ghost_name ≡ q.folder.ghost_name) × F.keeps p.folder.now q.folder.now };

    ghost keeps_itself = { λ p. (refl, F.keeps_itself p.folder.now) };

    ghost keeps_on = { λ p q r one other.
        (one.0 ∙ other.0, F.keeps_on p.folder.now q.folder.now r.folder.now one.1 other.1) };

    fn list(&mut self, alloc: Global, path: &[Name]) -> Result<Items<Named>, FolderError> {
        self.folder.list(alloc, path)
    }

    fn read(&mut self, alloc: Global, path: &[Name]) -> Result<Items<u8>, FolderError> {
        if self.knowledge.is_known(path) {
            Ok(Items::new(alloc))
        } else {
            self.folder.read(alloc, path)
        }
    }
}

/// All that differs from one folder to another, in the order of the paths. It lists all directories of both,
/// and reads each file but those that are known to be one in both: so a caller that tells files apart by where
/// their blocks stand pays for those that differ alone. No directory is passed over.
///
/// # Errors
/// As `whole_tree`, for each of the two.
pub fn folder_differences<F: Folder, G: Folder, K: Knowledge>(
    alloc: Global,
    old: &mut F,
    new: &mut G,
    knowledge: &K,
) -> Result<Items<(Path, Difference)>, FolderError>
    ensures differ { IfOk result (λ all. (one other : Tree) → IsTree one → IsTree other → F.shows old.old one
        → G.shows new.old other → AreSameFiles (K.known knowledge.now) one other
        → all ≡ differences one other) }
    ensures refused { IfErr result (λ e. (one other : Tree) → IsTree one → IsTree other → F.shows old.old one
        → G.shows new.old other → AreSameFiles (K.known knowledge.now) one other
        → RefusesTree one e ⊎ RefusesTree other e) }
    ensures keeps_old { F.keeps old.old old.new }
    ensures keeps_new { G.keeps new.old new.new }
{
    let one = whole_tree(
        alloc,
        &mut Passing {
            folder: old,
            knowledge,
        },
    )?;
    let other = whole_tree(
        alloc,
        &mut Passing {
            folder: new,
            knowledge,
        },
    )?;
    let all = all_differences(alloc, one.as_slice(), other.as_slice())?;
    Ok(all)
}
