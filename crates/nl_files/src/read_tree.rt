//! The tree of a checkpoint, read from its blocks.
ghost use Rattle.std.specs.Prelude.{◌≡◌, IfSome, MatchOption, Option};
ghost use Rattle.nl_types.specs.Blocks.Roots.{page_at};
ghost use Rattle.nl_layout.specs.Root.{root_of};
ghost use Rattle.nl_layout.specs.declared.inode.InodeKind.TheVariants as inode_kind;
ghost use Rattle.nl_ifile.specs.Inodes.{inode_at};
ghost use Rattle.nl_tree.specs.Held.{Held, Holding};
ghost use Rattle.nl_files.specs.CheckpointRoots.{StandsAs, StandsFor};
ghost use Rattle.nl_files.specs.CheckpointTrees.{HoldsTree, IsNoDirectory, IsNoFile};

use crate::copying::copy_bytes;
use crate::directory::Directory;
use nl_blocktree::get;
use nl_dirs::Record;
use nl_ifile::{inode, next_ino};
use nl_layout::{Inode, InodeKind, Root};
use nl_tree::{Base, Link, TreeRead};
use nl_types::{InodeNumber, Page, VolError};
use nl_vstore::VRead;
use std::alloc::Global;

/// The tree of a checkpoint, by the root of its file of inodes. Its calls answer on any pages; their
/// contracts speak of those where the root stands for a tree.
#[derive(Drop)]
pub struct ReadTree<'a, V: VRead> {
    store: &'a V,
    root: Root,
}

impl<'a, V: VRead> ReadTree<'a, V> {
    /// The tree under a root of the file of inodes. It takes no memory.
    pub fn new(store: &'a V, root: Root) -> Self
        ensures { (held : Holding) → HoldsTree (V.pages store.now) (root_of root) held
            → ⟦<ReadTree<'a, V> as TreeRead>⟧.holds result held }
    {
        ReadTree { store, root }
    }

    /// The blocks of a directory, if the number has one.
    fn directory(&self, number: InodeNumber) -> Option<Directory<'a, V>>
        ensures store { IfSome result (λ directory. directory.store.now ≡ self.now.store.now) }
        ensures stands { (held : Option Held)
            → StandsFor (V.pages self.now.store.now)
            (inode_at (V.pages self.now.store.now) (root_of self.now.root) number) held
            → MatchOption result (IsNoDirectory held) (λ directory.
            StandsAs (page_at (V.pages self.now.store.now) (root_of directory.root))
            inode_kind.Directory directory.size held) }
    {
        let inode = inode(self.store, self.root, number)?;
        match inode.kind {
            InodeKind::Directory => Some(Directory {
                store: self.store,
                root: inode.root,
                size: inode.size,
            }),
            InodeKind::File | InodeKind::InodeFile => None,
        }
    }

    /// The inode of a file, if the number has one.
    fn file(&self, number: InodeNumber) -> Option<Inode>
        ensures { (held : Option Held)
            → StandsFor (V.pages self.now.store.now)
            (inode_at (V.pages self.now.store.now) (root_of self.now.root) number) held
            → MatchOption result (IsNoFile held) (λ file.
            StandsAs (page_at (V.pages self.now.store.now) (root_of file.root))
            inode_kind.File file.size held) }
    {
        let inode = inode(self.store, self.root, number)?;
        match inode.kind {
            InodeKind::File => Some(inode),
            InodeKind::Directory | InodeKind::InodeFile => None,
        }
    }
}

impl<V: VRead> TreeRead for ReadTree<'_, V> {
    ghost use Rattle.nl_layout.specs.Root.{root_of};
    ghost use Rattle.nl_files.specs.CheckpointTrees.{HoldsTree};

    ghost holds = { λ tree held. HoldsTree (V.pages tree.store.now) (root_of tree.root) held };

    fn find(&self, dir: InodeNumber, name: &[u8]) -> Option<Link> {
        match self.directory(dir) {
            Some(directory) => directory.find(name),
            None => None,
        }
    }

    fn size(&self, file: InodeNumber) -> u64 {
        match self.file(file) {
            Some(inode) => inode.size,
            None => 0,
        }
    }

    fn block(&self, file: InodeNumber, index: u64) -> Option<&Page> {
        get(self.store, self.file(file)?.root, index)
    }

    fn read_bytes(&self, file: InodeNumber, offset: u64, into: &mut [u8]) {
        match self.file(file) {
            Some(inode) => copy_bytes(self.store, inode.root, offset, into),
            None => into.fill(0),
        }
    }

    fn name_count(&self, dir: InodeNumber) -> u64 {
        match self.directory(dir) {
            Some(directory) => directory.count(),
            None => 0,
        }
    }

    fn records(&self, alloc: Global, dir: InodeNumber) -> Result<Vec<Record>, VolError> {
        match self.directory(dir) {
            Some(directory) => directory.records(alloc),
            None => Ok(Vec::new(alloc)),
        }
    }
}

impl<V: VRead> Base for ReadTree<'_, V> {
    fn free_from(&self, from: InodeNumber) -> Option<InodeNumber> {
        next_ino(self.store, self.root, &[], from)
    }
}
