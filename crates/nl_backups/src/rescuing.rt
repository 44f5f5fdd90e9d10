//! What is rescued of a checkpoint of an image that may be damaged.
ghost use Rattle.std.specs.Prelude.{◌≡◌, [], IfErr, IfOk};
ghost use Rattle.nl_types.specs.Plain.Trees.{IsTree, Tree};
ghost use Rattle.nl_folders.specs.Spelled.{IsNameable};
ghost use Rattle.nl_shown.specs.Kept.{ShowsFolder};
ghost use Rattle.nl_check.specs.Judging.{told};
ghost use Rattle.nl_damage.specs.Pages.{RefusesPages, pages_of};
ghost use Rattle.nl_damage.specs.WholeTrees.{HasTree};
ghost use Rattle.nl_backups.specs.Rescuing.{RescuesWhole};

use nl_damage::{ImagePages, Ruin};
use nl_folders::{Path, Tree};
use nl_layout::CheckpointEntry;
use nl_manifests::Opened;
use nl_shown::shown_tree;
use nl_types::{Geometry, Items, VolError};
use std::alloc::{AllocError, Global};

/// What is rescued of a checkpoint.
#[derive(Drop)]
pub struct Rescued {
    /// What of it can be read, as it is shown beside its pins.
    pub opened: Opened,
    /// The paths of what can't be read. Of a directory it is so where one of its names is lost.
    pub lost: Items<Path>,
}

/// What is rescued where this was read and this is lost.
fn rescued_of(alloc: Global, tree: Tree, lost: Items<Path>) -> Result<Rescued, AllocError>
    ensures shows { IfOk result (λ rescued. IsTree tree → ShowsFolder tree rescued.opened.tree) }
    ensures lost { IfOk result (λ rescued. rescued.lost ≡ lost) }
{
    let opened = shown_tree(alloc, tree)?;
    Ok(Rescued { opened, lost })
}

/// What is rescued of the checkpoint of an entry, by the pages of its image. None where not even its root can be
/// read.
///
/// # Errors
/// `Memory`, or `Fault` where the pages are of more numbers than a volume of this geometry has.
pub fn rescue_checkpoint(
    alloc: Global,
    pages: &ImagePages,
    geometry: Geometry,
    entry: &CheckpointEntry,
) -> Result<Option<Rescued>, VolError>
    ensures whole { IfOk result (λ rescued. (tree : Tree)
        → HasTree (pages_of pages.now) (told entry.now) tree → IsNameable tree
        → RescuesWhole tree rescued) }
    ensures refused { IfErr result (RefusesPages pages.now geometry) }
{
    let Ruin { tree, lost } = Ruin::read(alloc, pages, geometry, entry)?;
    if tree.is_empty() {
        return Ok(None);
    }
    let rescued = rescued_of(alloc, tree, Items::from_vec(lost))?;
    Ok(Some(rescued))
}
