//! The tree of a checkpoint that is sound, in an image that may be damaged elsewhere.
ghost use Rattle.std.specs.Prelude.{◌≡◌, true, IfErr, IfOk, Some};
ghost use Rattle.nl_types.specs.declared.error.VolError;
ghost use Rattle.nl_types.specs.Plain.Trees.{Tree};
ghost use Rattle.nl_layout.specs.Root.{root_of};
ghost use Rattle.nl_folders.specs.Spelled.{IsNameable};
ghost use Rattle.nl_check.specs.Judging.{told};
ghost use Rattle.nl_damage.specs.Pages.{RefusesPages, pages_of};
ghost use Rattle.nl_damage.specs.WholeTrees.{HasTree, StandsForTree};

use crate::pages::{ImagePages, judge_by};
use nl_files::ReadTree;
use nl_folders::{Folder, FolderError, Tree, whole_tree};
use nl_keep::{Answering, bytes_answered, names_answered};
use nl_layout::{CheckpointEntry, Root};
use nl_names::Name;
use nl_tree::answer;
use nl_types::{Ask, Geometry, Items, Named, Reply, VolError};
use nl_vstore::VRead;
use std::alloc::Global;

/// The tree of a root, as a folder.
#[derive(Drop)]
struct RootFolder<'a, V: VRead> {
    alloc: Global,
    pages: &'a V,
    root: Root,
}

impl<V: VRead> Answering for RootFolder<'_, V> {
    ghost use Rattle.nl_layout.specs.Root.{root_of};
    ghost use Rattle.nl_damage.specs.WholeTrees.{HoldsWithin};

    ghost answers = { λ f. HoldsWithin (V.pages f.pages.now) (root_of f.root) };

    ghost sound = { λ f tree holds. holds.limits };

    fn answer(&self, ask: &Ask) -> Reply {
        answer(self.alloc, &ReadTree::new(self.pages, self.root), ask)
    }
}

impl<V: VRead> Folder for RootFolder<'_, V> {
    ghost use Rattle.std.specs.Prelude.{⊤};
    ghost use Rattle.nl_layout.specs.Root.{root_of};
    ghost use Rattle.nl_damage.specs.WholeTrees.{HoldsWithin};

    ghost shows = { λ f. HoldsWithin (V.pages f.pages.now) (root_of f.root) };

    ghost keeps = { λ f g. ⊤ };

    ghost keeps_itself = { λ f. tt };

    ghost keeps_on = { λ f g h one other. tt };

    fn list(&mut self, alloc: Global, path: &[Name]) -> Result<Items<Named>, FolderError> {
        names_answered(alloc, self, path)
    }

    fn read(&mut self, alloc: Global, path: &[Name]) -> Result<Items<u8>, FolderError> {
        bytes_answered(alloc, self, path)
    }
}

/// The tree of a root. None where no call can name one of its paths, or it has none.
fn tree_of(alloc: Global, pages: &ImagePages, root: Root) -> Result<Option<Tree>, VolError>
    ensures tree { IfOk result (λ read. (tree : Tree)
        → StandsForTree (pages_of pages.now) (root_of root) tree → IsNameable tree → read ≡ Some tree) }
    ensures refused { IfErr result (λ e. e ≡ VolError.Memory) }
{
    match whole_tree(alloc, &mut RootFolder { alloc, pages, root }) {
        Ok(tree) => Ok(Some(tree)),
        Err(FolderError::Refused(VolError::Memory)) => Err(VolError::Memory),
        Err(_) => Ok(None),
    }
}

/// Whether the files of a checkpoint have their shape and its inodes hold a tree.
fn is_sound(
    alloc: Global,
    pages: &ImagePages,
    geometry: Geometry,
    entry: &CheckpointEntry,
) -> Result<bool, VolError>
    ensures sound { IfOk result (λ is. (tree : Tree)
        → HasTree (pages_of pages.now) (told entry.now) tree → is ≡ true) }
    ensures refused { IfErr result (RefusesPages pages.now geometry) }
{
    let kept = [*entry];
    match judge_by(alloc, pages, geometry, &kept)? {
        Some(verdict) => Ok(verdict.trees),
        None => Ok(false),
    }
}

/// The tree of a checkpoint whose files have their shape and whose inodes hold a tree. None of another one, or
/// where no call can name one of its paths.
///
/// # Errors
/// `Memory`, or `Fault` where the pages are of more numbers than a volume of this geometry has.
pub(crate) fn sound_tree(
    alloc: Global,
    pages: &ImagePages,
    geometry: Geometry,
    entry: &CheckpointEntry,
) -> Result<Option<Tree>, VolError>
    ensures tree { IfOk result (λ read. (tree : Tree)
        → HasTree (pages_of pages.now) (told entry.now) tree → IsNameable tree → read ≡ Some tree) }
    ensures refused { IfErr result (RefusesPages pages.now geometry) }
{
    if !is_sound(alloc, pages, geometry, entry)? {
        return Ok(None);
    }
    match entry.root.root() {
        Some(root) => tree_of(alloc, pages, root),
        None => Ok(None),
    }
}
