//! Files that are one in two checkpoints, as their inodes tell: equal virtual block numbers are equal blocks,
//! so that no block of a file is read.
ghost use Rattle.std.specs.Prelude.{◌≡◌, ◌↔◌, IsTrue, Some};
ghost use Rattle.std.specs.Result.{result_ok};
ghost use Rattle.nl_types.specs.Resolving.{resolve, step_to};
ghost use Rattle.nl_layout.specs.Root.{root_of};
ghost use Rattle.nl_layout.specs.declared.inode.Inode.{Inode};
ghost use Rattle.nl_tree.specs.Held.{Holding, inodes_of_holding};
ghost use Rattle.nl_files.specs.CheckpointTrees.{HoldsTree};
ghost use Rattle.nl_events.specs.SameFiles.{AreHeld, HasFileInode, IsOneInode, file_inode};

use nl_cpfile::Checkpoints;
use nl_files::ReadTree;
use nl_ifile::inode;
use nl_layout::{Inode, Root};
use nl_names::Name;
use nl_tree::{Link, TreeRead};
use nl_types::limits::ROOT_INODE;
use nl_types::{CheckpointNumber, InodeNumber, Kind};
use nl_vstore::VRead;

/// One step of a walk, which goes on through a directory alone.
fn step<T: TreeRead>(tree: &T, at: Link, name: &[u8]) -> Option<Link>
    ensures { (held : Holding) → T.holds tree.now held
        → result ≡ result_ok (step_to (inodes_of_holding held) at name.now) }
{
    let (inode, kind) = at;
    match kind {
        Kind::File => None,
        Kind::Directory => tree.find(inode, name),
    }
}

/// Where the walk from the root by these names comes to.
fn walk<T: TreeRead>(tree: &T, names: &[Name]) -> Option<Link>
    ensures { (held : Holding) → T.holds tree.now held
        → result ≡ result_ok (resolve (inodes_of_holding held) names.now) }
{
    let mut at = (InodeNumber::new(ROOT_INODE), Kind::Directory);
    for name in names {
        at = step(tree, at, name.as_slice())?;
    }
    Some(at)
}

/// The inode of the file at a path, in the tree under a root.
fn file_inode<V: VRead>(store: &V, root: &Root, path: &[Name]) -> Option<Inode>
    ensures { (held : Holding) → HoldsTree (V.pages store.now) (root_of root.now) held
        → result ≡ file_inode (V.pages store.now) (root_of root.now) held path.now }
{
    let (number, kind) = walk(&ReadTree::new(store, *root), path)?;
    match kind {
        Kind::File => inode(store, *root, number),
        Kind::Directory => None,
    }
}

/// The inode of the file at a path, in the tree of a kept checkpoint.
fn kept_inode<V: VRead>(
    store: &V,
    kept: &Checkpoints,
    number: CheckpointNumber,
    path: &[Name],
) -> Option<Inode>
    requires { AreHeld (V.pages store.now) kept.now.table }
    ensures { (inode : Inode) → (result ≡ Some inode)
        ↔ HasFileInode (V.pages store.now) kept.now.table number path.now inode }
{
    let checkpoint = kept.kept(number)?;
    file_inode(store, &checkpoint.root, path)
}

/// Whether a path leads to a file in the trees of two kept checkpoints, by one inode: equal in kind, size and
/// root. It reads no block of the file, and takes no memory.
pub fn is_same_file<V: VRead>(
    store: &V,
    kept: &Checkpoints,
    old: CheckpointNumber,
    new: CheckpointNumber,
    path: &[Name],
) -> bool
    requires { AreHeld (V.pages store.now) kept.now.table }
    ensures { IsTrue result
        ↔ IsOneInode (V.pages store.now) kept.now.table old new path.now }
{
    let Some(one) = kept_inode(store, kept, old, path) else {
        return false;
    };
    let Some(other) = kept_inode(store, kept, new, path) else {
        return false;
    };
    one == other
}
