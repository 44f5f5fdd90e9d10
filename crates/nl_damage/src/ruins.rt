//! The trees of checkpoints of a damaged image, as far as their blocks can be read.
ghost use Rattle.std.specs.Prelude.{◌≡◌, [], IfErr, IfOk};
ghost use Rattle.nl_types.specs.declared.error.VolError;
ghost use Rattle.nl_types.specs.Plain.Trees.{Tree};
ghost use Rattle.nl_folders.specs.Spelled.{IsNameable};
ghost use Rattle.nl_check.specs.Judging.{told};
ghost use Rattle.nl_damage.specs.Pages.{RefusesPages, pages_of};
ghost use Rattle.nl_damage.specs.WholeTrees.{HasTree, IsWhole};

use crate::pages::ImagePages;
use crate::sound::sound_tree;
use nl_blocktree::{Met, get, walk};
use nl_dirs::{Record, records};
use nl_files::ReadTree;
use nl_folders::{Path, Tree, with_name};
use nl_ifile::inode;
use nl_layout::{CheckpointEntry, Inode, InodeKind, Root};
use nl_names::Name;
use nl_tree::TreeRead;
use nl_types::limits::{
    FILE_LIMIT, INODE_LIMIT, PATH_LENGTH_LIMIT, ROOT_INODE, VOLUME_BLOCK_LIMIT,
};
use nl_types::{BLOCK_SIZE, Geometry, InodeNumber, Items, Kind, Object, VolError, is_name};
use std::alloc::{AllocError, Global};

/// What a name leads to that is yet to be looked at.
#[derive(Drop)]
struct Pending {
    path: Path,
    number: InodeNumber,
    kind: Kind,
}

/// What can be read of a checkpoint.
#[derive(Drop)]
pub struct Ruin {
    pub tree: Tree,
    /// The paths of what can't be read. Of a directory it is so where one of its names is lost.
    pub lost: Vec<Path>,
}

/// A walk by names through a checkpoint, as far as they lead.
#[derive(Drop)]
struct Walk<'a> {
    alloc: Global,
    pages: &'a ImagePages,
    root: Root,
    /// Which inodes were looked at. One that comes again is left out.
    taken: Vec<bool>,
    pending: Vec<Pending>,
    ruin: Ruin,
}

/// How many bytes a path has that calls name it by.
pub(crate) fn length_of(path: &[Name]) -> usize {
    let mut length: usize = 0;
    for name in path {
        length = length.saturating_add(1).saturating_add(name.len());
    }
    length
}

/// Whether an inode is of a kind.
pub(crate) fn is_of(kind: Kind, inode: &Inode) -> bool {
    matches!(
        (kind, inode.kind),
        (Kind::File, InodeKind::File) | (Kind::Directory, InodeKind::Directory)
    )
}

/// The records of a directory, and whether all of its blocks have some.
pub(crate) fn records_of(
    alloc: Global,
    pages: &ImagePages,
    inode: &Inode,
) -> Result<(Vec<Record>, bool), VolError>
    ensures { IfErr result (λ e. e ≡ VolError.Memory) }
{
    let mut all = Vec::new(alloc);
    let mut is_whole = inode.size % BLOCK_SIZE as u64 == 0;
    let count = (inode.size / BLOCK_SIZE as u64).min(u64::from(VOLUME_BLOCK_LIMIT));
    for index in 0..count {
        let block = match get(pages, inode.root, index) {
            Some(page) => records(alloc, page)?,
            None => None,
        };
        match block {
            Some(mut block) => all.append(&mut block)?,
            None => is_whole = false,
        }
    }
    Ok((all, is_whole))
}

impl Ruin {
    /// Nothing, where nothing is read yet.
    fn new(alloc: Global) -> Ruin {
        Ruin {
            tree: Items::new(alloc),
            lost: Vec::new(alloc),
        }
    }

    /// All of a tree.
    fn whole(alloc: Global, tree: Tree) -> Ruin
        ensures { IsWhole tree result }
    {
        Ruin {
            tree,
            lost: Vec::new(alloc),
        }
    }

    /// All that can be read of the checkpoint of an entry, by these pages. One that is sound is read as any kept
    /// one is, whatever else of the image is damaged. Through another one names lead, as far as they can be read;
    /// where its entry has no root, nothing is read and nothing lost.
    ///
    /// # Errors
    /// `Memory`, or `Fault` where the pages are of more numbers than a volume of this geometry has.
    pub fn read(
        alloc: Global,
        pages: &ImagePages,
        geometry: Geometry,
        entry: &CheckpointEntry,
    ) -> Result<Ruin, VolError>
        ensures whole { IfOk result (λ ruin. (tree : Tree)
            → HasTree (pages_of pages.now) (told entry.now) tree → IsNameable tree → IsWhole tree ruin) }
        ensures refused { IfErr result (RefusesPages pages.now geometry) }
    {
        match sound_tree(alloc, pages, geometry, entry)? {
            Some(tree) => Ok(Ruin::whole(alloc, tree)),
            None => Ruin::of_pieces(alloc, pages, entry),
        }
    }

    /// What of a checkpoint names lead to.
    fn of_pieces(
        alloc: Global,
        pages: &ImagePages,
        entry: &CheckpointEntry,
    ) -> Result<Ruin, VolError>
        ensures { IfErr result (λ e. e ≡ VolError.Memory) }
    {
        match entry.root.root() {
            Some(root) => Walk::through(alloc, pages, root),
            None => Ok(Ruin::new(alloc)),
        }
    }
}

impl<'a> Walk<'a> {
    /// Through the checkpoint whose file of inodes has this root. Nothing of it is read yet.
    fn new(alloc: Global, pages: &'a ImagePages, root: Root) -> Result<Walk<'a>, AllocError> {
        let mut pending = Vec::new(alloc);
        pending.push(Pending {
            path: Items::new(alloc),
            number: InodeNumber::new(ROOT_INODE),
            kind: Kind::Directory,
        })?;
        Ok(Walk {
            alloc,
            pages,
            root,
            taken: vec![in alloc; false; INODE_LIMIT]?,
            pending,
            ruin: Ruin::new(alloc),
        })
    }

    /// All that can be read of it.
    fn through(alloc: Global, pages: &'a ImagePages, root: Root) -> Result<Ruin, VolError>
        ensures { IfErr result (λ e. e ≡ VolError.Memory) }
    {
        let mut walk = Walk::new(alloc, pages, root)?;
        // Each inode is read once.
        for _ in 0..INODE_LIMIT {
            let Some(next) = walk.pending.pop() else {
                break;
            };
            walk.visit(next)?;
        }
        walk.lose_rest()?;
        Ok(walk.ruin)
    }

    /// Loses what is left where more names than there can be inodes lead anywhere.
    fn lose_rest(&mut self) -> Result<(), AllocError> {
        for _ in 0..self.pending.len() {
            if let Some(Pending { path, .. }) = self.pending.pop() {
                self.lose(path)?;
            }
        }
        Ok(())
    }

    fn lose(&mut self, path: Path) -> Result<(), AllocError> {
        self.ruin.lost.push(path)?;
        Ok(())
    }

    /// Takes an inode that wasn't taken before. False where it was, or where there is no such number.
    fn take(&mut self, number: InodeNumber) -> bool {
        match self.taken.as_mut_slice().get_mut(number.get() as usize) {
            Some(is_taken) if !*is_taken => {
                *is_taken = true;
                true
            }
            _ => false,
        }
    }

    /// Whether the blocks of a file can be read, each of which has a place for it.
    fn has_blocks(&self, inode: &Inode) -> Result<bool, VolError>
        ensures { IfErr result (λ e. e ≡ VolError.Memory) }
    {
        let last = self.pages.last();
        if last > u64::from(VOLUME_BLOCK_LIMIT) {
            return Ok(false);
        }
        let mut met = Met::none(self.alloc, last)?;
        Ok(walk(self.pages, &mut met, inode.root).is_ok())
    }

    /// The inode of a number that is of this kind, and whose blocks can be read.
    fn sound_inode(&self, number: InodeNumber, kind: Kind) -> Result<Option<Inode>, VolError>
        ensures { IfErr result (λ e. e ≡ VolError.Memory) }
    {
        let Some(inode) = inode(self.pages, self.root, number) else {
            return Ok(None);
        };
        if is_of(kind, &inode) && self.has_blocks(&inode)? {
            Ok(Some(inode))
        } else {
            Ok(None)
        }
    }

    /// Reads what a name leads to.
    fn visit(&mut self, next: Pending) -> Result<(), VolError>
        ensures { IfErr result (λ e. e ≡ VolError.Memory) }
    {
        let Pending { path, number, kind } = next;
        if length_of(path.as_slice()) > PATH_LENGTH_LIMIT || !self.take(number) {
            self.lose(path)?;
            return Ok(());
        }
        match self.sound_inode(number, kind)? {
            Some(inode) => match kind {
                Kind::File => self.add_file(path, number, &inode),
                Kind::Directory => self.add_directory(path, &inode),
            },
            None => {
                self.lose(path)?;
                Ok(())
            }
        }
    }

    fn add_file(&mut self, path: Path, number: InodeNumber, inode: &Inode) -> Result<(), VolError>
        ensures { IfErr result (λ e. e ≡ VolError.Memory) }
    {
        if inode.size > FILE_LIMIT {
            self.lose(path)?;
            return Ok(());
        }
        let mut bytes = vec![in self.alloc; 0; inode.size as usize]?;
        let tree = ReadTree::new(self.pages, self.root);
        tree.read_bytes(number, 0, bytes.as_mut_slice());
        let object = Object::File(Items::from_vec(bytes));
        self.ruin.tree.push((path, object))?;
        Ok(())
    }

    fn add_directory(&mut self, path: Path, inode: &Inode) -> Result<(), VolError>
        ensures { IfErr result (λ e. e ≡ VolError.Memory) }
    {
        let (records, is_whole) = records_of(self.alloc, self.pages, inode)?;
        let has_all = self.add_names(path.as_slice(), records.as_slice())?;
        if !is_whole || !has_all {
            let copy = nl_folders::copied(self.alloc, path.as_slice())?;
            self.lose(copy)?;
        }
        self.ruin.tree.push((path, Object::Dir))?;
        Ok(())
    }

    /// Puts what the names of a directory lead to on those that are pending, the first name on top. Answers
    /// whether all may stand in paths, and ascend.
    fn add_names(&mut self, path: &[Name], records: &[Record]) -> Result<bool, AllocError> {
        let mut is_whole = true;
        let mut later: Option<&Record> = None;
        for record in records.iter().rev() {
            if is_name(record.name.as_slice()) && is_before(record, later) {
                self.pending.push(Pending {
                    path: with_name(self.alloc, path, record.name.as_slice())?,
                    number: record.inode,
                    kind: record.kind,
                })?;
                later = Some(record);
            } else {
                is_whole = false;
            }
        }
        Ok(is_whole)
    }
}

/// Whether the name of a record is before that of another one, if there is one.
pub(crate) fn is_before(record: &Record, later: Option<&Record>) -> bool {
    match later {
        Some(later) => record.name.as_slice().cmp(&later.name.as_slice()).is_lt(),
        None => true,
    }
}
