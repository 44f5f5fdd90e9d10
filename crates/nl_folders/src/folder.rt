//! What can be read by paths: a folder of the host, or a checkpoint of a volume.
ghost use Rattle.std.specs.Prelude.{◌≡◌, ◌++◌, [], ℕ, List, IfErr, IfOk, OnOk, Ok};
ghost use Rattle.nl_types.specs.declared.reply.Named.{Named};
ghost use Rattle.nl_types.specs.declared.reply.Object.TheVariants.{Dir};
ghost use Rattle.nl_types.specs.Plain.Trees.{Tree, IsTree};
ghost use Rattle.nl_types.specs.Plain.Calls.{file_at, list};
ghost use Rattle.nl_folders.specs.Refusals.{RefusesPath, RefusesTree};
ghost use Rattle.nl_folders.specs.Walks.{IsVisit, IsWalk, StandsIn, stacked};

use crate::paths::{Path, copied, with_name};
use crate::trees::{MOST_PATHS, Tree, is_in_order};
use nl_names::Name;
use nl_types::{Items, Kind, Named, Object, VolError};
use std::alloc::{AllocError, AllocFailed, Global};

/// Why a folder isn't read.
#[derive(Clone, Copy)]
pub enum FolderError {
    /// The volume refuses it, or there is no memory.
    Refused(VolError),
    /// The host doesn't give it. The folder knows more.
    Unread,
    /// What was read is no tree: a name stands twice, or the names are not in order.
    Disordered,
}

impl From<AllocError> for FolderError {
    ghost use Rattle.std.specs.Prelude.{◌≡◌};
    ghost use Rattle.nl_types.specs.declared.error.VolError.TheVariants.{Memory};
    ghost use Rattle.nl_folders.specs.declared.folder.FolderError.TheVariants.{Refused};

    ghost from_gives = { λ _ e. e ≡ Refused Memory };

    fn from(_: AllocError) -> FolderError {
        FolderError::Refused(VolError::Memory)
    }
}

impl<T: Drop> From<AllocFailed<T>> for FolderError {
    ghost use Rattle.std.specs.Prelude.{◌≡◌};
    ghost use Rattle.nl_types.specs.declared.error.VolError.TheVariants.{Memory};
    ghost use Rattle.nl_folders.specs.declared.folder.FolderError.TheVariants.{Refused};

    ghost from_gives = { λ _ e. e ≡ Refused Memory };

    fn from(_: AllocFailed<T>) -> FolderError {
        FolderError::Refused(VolError::Memory)
    }
}

/// What is read by paths. What a volume's checkpoint shows is known to contracts, and so is what a folder in
/// memory shows; of a folder of the host nothing is known.
pub trait Folder {
    /// That it is known to show a tree.
    ghost shows: { Self → Tree → Type 0 };

    /// What reading leaves as it was.
    ghost keeps: { Self → Self → Type 0 };

    /// The names in a directory with their kinds, ascending by bytes. Those of a directory that is known to be
    /// shown are refused by `Memory` alone, or by `BadPath` where no call can name it.
    fn list(&mut self, alloc: Global, path: &[Name]) -> Result<Items<Named>, FolderError>
        ensures listed { IfOk result (λ names. (tree : Tree) → shows self.old tree
            → list tree path.now ≡ Ok names) }
        ensures refused { IfErr result (λ e. (tree : Tree) (names : List Named) → shows self.old tree
            → list tree path.now ≡ Ok names → RefusesPath path.now e) }
        ensures keeps { keeps self.old self.new }
        ensures stays { (tree : Tree) → shows self.old tree → shows self.new tree };

    /// All bytes of a file. Those of one that is known to be shown are refused as the names are.
    fn read(&mut self, alloc: Global, path: &[Name]) -> Result<Items<u8>, FolderError>
        ensures read { IfOk result (λ bytes. (tree : Tree) → shows self.old tree
            → file_at tree path.now ≡ Ok bytes) }
        ensures refused { IfErr result (λ e. (tree : Tree) (bytes : List ℕ) → shows self.old tree
            → file_at tree path.now ≡ Ok bytes → RefusesPath path.now e) }
        ensures keeps { keeps self.old self.new }
        ensures stays { (tree : Tree) → shows self.old tree → shows self.new tree };

    ghost keeps_itself: { (f : Self) → keeps f f };

    ghost keeps_on: { (f g h : Self) → keeps f g → keeps g h → keeps f h };
}

/// A directory whose names are yet to be listed, or a file to be read.
#[derive(Drop)]
struct Pending {
    path: Path,
    kind: Kind,
}

/// Puts the names of a directory on the stack, the first one on top.
fn add_names(
    alloc: Global,
    directory: &[Name],
    names: &[Named],
    pending: &mut Vec<Pending>,
) -> Result<(), AllocError>
    ensures { OnOk result (pending.new.items ≡ pending.old.items ++ stacked directory.now names.now) }
{
    let mut left = names.len();
    while left > 0 {
        let named = &names[left - 1];
        let path = with_name(alloc, directory, named.name.as_slice())?;
        pending.push(Pending {
            path,
            kind: named.kind,
        })?;
        left -= 1;
    }
    Ok(())
}

fn visit_directory<F: Folder>(
    alloc: Global,
    folder: &mut F,
    next: &Pending,
    pending: &mut Vec<Pending>,
) -> Result<(), FolderError>
    ensures visit { OnOk result ((tree : Tree) → F.shows folder.old tree
        → IsVisit tree next.now pending.old.items pending.new.items Dir) }
    ensures refused { IfErr result (λ e. (tree : Tree) (names : List Named) → F.shows folder.old tree
        → list tree next.now.path ≡ Ok names → RefusesPath next.now.path e) }
    ensures keeps { F.keeps folder.old folder.new }
    ensures stays { (tree : Tree) → F.shows folder.old tree → F.shows folder.new tree }
{
    let names = folder.list(alloc, next.path.as_slice())?;
    add_names(alloc, next.path.as_slice(), names.as_slice(), pending)?;
    Ok(())
}

/// What stands at a path. The names of a directory come onto those that are pending.
fn visit<F: Folder>(
    alloc: Global,
    folder: &mut F,
    next: &Pending,
    pending: &mut Vec<Pending>,
) -> Result<Object, FolderError>
    ensures visit { IfOk result (λ object. (tree : Tree) → F.shows folder.old tree
        → IsVisit tree next.now pending.old.items pending.new.items object) }
    ensures refused { IfErr result (λ e. (tree : Tree) → IsTree tree → F.shows folder.old tree
        → StandsIn tree next.now → RefusesPath next.now.path e) }
    ensures keeps { F.keeps folder.old folder.new }
    ensures stays { (tree : Tree) → F.shows folder.old tree → F.shows folder.new tree }
{
    match next.kind {
        Kind::File => {
            let bytes = folder.read(alloc, next.path.as_slice())?;
            Ok(Object::File(bytes))
        }
        Kind::Directory => {
            visit_directory(alloc, folder, next, pending)?;
            Ok(Object::Dir)
        }
    }
}

/// The entries of a folder, depth first.
fn entries<F: Folder>(alloc: Global, folder: &mut F) -> Result<Tree, FolderError>
    ensures walk { IfOk result (λ all. (tree : Tree) → IsTree tree → F.shows folder.old tree
        → IsWalk tree all []) }
    ensures refused { IfErr result (λ e. (tree : Tree) → IsTree tree → F.shows folder.old tree
        → RefusesTree tree e) }
    ensures keeps { F.keeps folder.old folder.new }
{
    let mut tree = Items::new(alloc);
    let mut pending = Vec::new(alloc);
    pending.push(Pending {
        path: Items::new(alloc),
        kind: Kind::Directory,
    })?;
    while let Some(next) = pending.pop() {
        if tree.len() == MOST_PATHS {
            return Err(FolderError::Refused(VolError::TooBig));
        }
        let object = visit(alloc, folder, &next, &mut pending)?;
        tree.push((next.path, object))?;
    }
    Ok(tree)
}

/// All of a folder, in the order of a tree. Where it is known to show a tree, it is that one.
///
/// # Errors
/// Of a tree that is known to be shown, `Memory` alone, or `BadPath` where no call can name one of its paths.
/// Else `Disordered` where a name comes twice, or the names don't ascend; `TooBig` where there are more paths
/// than in any tree; and as the folder.
pub fn whole_tree<F: Folder>(alloc: Global, folder: &mut F) -> Result<Tree, FolderError>
    ensures whole { IfOk result (λ all. (tree : Tree) → IsTree tree → F.shows folder.old tree → all ≡ tree) }
    ensures refused { IfErr result (λ e. (tree : Tree) → IsTree tree → F.shows folder.old tree
        → RefusesTree tree e) }
    ensures keeps { F.keeps folder.old folder.new }
{
    let tree = entries(alloc, folder)?;
    if is_in_order(tree.as_slice()) {
        Ok(tree)
    } else {
        Err(FolderError::Disordered)
    }
}
