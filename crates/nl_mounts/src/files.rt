//! Files of mounts that are open: their reads walk no path.
ghost use Rattle.std.specs.Prelude.{◌≡◌, ◌+◌, ◌<◌, ◌≤◌, ◌^◌, ℕ, List, None, IfErr, IfOk, IfSome, OnErr, length};
ghost use Rattle.nl_types.specs.Plain.Trees.{Tree};
ghost use Rattle.nl_commit.specs.Commits.{shown_after};
ghost use Rattle.nl_commit.specs.Shown.{pages_shown};
ghost use Rattle.nl_publish.specs.Told.{TreeOn};
ghost use Rattle.nl_publish.specs.Reading.{IsLater, Looked, Told};
ghost use Rattle.nl_mounts.specs.OpenFiles.{ArePartsRead, HasReadMore, HoldsAsTold, IsFileRead, IsOpenOf, IsPartRefused, IsReadUpTo, IsTakenOf};
ghost use Rattle.nl_mounts.specs.Ports.{IsNotRead, IsOfTree, IsUngiven, seeing};

use crate::enters::Enters;
use crate::looks::MountedTree;
use crate::port::Port;
use crate::taken::{MOST_TAKEN, TakenBytes};
use nl_files::ReadTree;
use nl_publish::{Mount, ReaderState, Volumes};
use nl_tree::{find_file, read_file_into};
use nl_types::{InodeNumber, VolError};
use std::marker::Model;

/// A file of a mount whose path was walked. Any port of the volume reads it, as long as the mount isn't given
/// back: that needs the mount, which is lent to the file.
#[derive(Drop)]
pub struct FileAt<'a, J: Volumes> {
    mount: &'a Mount<J>,
    path: &'a [u8],
    inode: InodeNumber,
}

impl<'a, J: Volumes> Model for FileAt<'a, J> {
    ghost use Rattle.nl_mounts.specs.OpenFiles.{FileView, IsFileOf};

    ghost Value = { FileView };

    ghost view = { λ f. record { mount = f.mount.now; path = f.path.now; inode = f.inode } };

    ghost invariant = { λ f. IsFileOf f.mount.now f.path.now f.inode };
}

/// What a read in parts came to.
#[derive(Clone, Copy)]
pub struct PartsRead {
    /// How many bytes were read.
    pub count: usize,
    /// Why no more were, where a part was refused.
    pub refusal: Option<VolError>,
}

/// Opens the file at a path of the tree that a mount has; `BadMount` where there is none.
fn open_in<'a, J: Volumes>(
    state: &ReaderState,
    tree: Option<MountedTree>,
    mount: &'a Mount<J>,
    path: &'a [u8],
) -> Result<FileAt<'a, J>, VolError>
    requires { HoldsAsTold mount.now (pages_shown state.now.tables) tree }
    ensures opens { IsOfTree (pages_shown state.now.tables) tree (result ≡ Err VolError.BadMount)
        (λ t. IsOpenOf t path.now result) }
    ensures mount { IfOk result (λ f. f.mount ≡ mount.now) }
    ensures path { IfOk result (λ f. f.path ≡ path.now) }
{
    let Some(found) = tree else {
        return Err(VolError::BadMount);
    };
    match find_file(&ReadTree::new(&state.tables, found.root), path) {
        Err(refusal) => Err(refusal),
        Ok(inode) => Ok(FileAt { mount, path, inode }),
    }
}

impl<J: Volumes, E: Enters> Port<J, E> {
    /// Opens the file at a path of the mount's tree, whose reads walk the path no more. It takes no memory, and
    /// never waits.
    ///
    /// # Errors
    /// `BadMount` as `read_into`, before the path is looked at; `BadPath` and `BadName` as the path's syntax
    /// is; `NotDir` where a file is on the way; `NotFound` where nothing stands; `IsDir` where a directory does.
    pub fn open<'a>(
        &mut self,
        mount: &'a Mount<J>,
        path: &'a [u8],
    ) -> Result<FileAt<'a, J>, VolError>
        ensures later { IsLater self.old.known self.new.known }
        ensures looked { Looked mount.now self.old.known self.new.known
            (IsUngiven E.gives self.old.known self.old.seated)
            (result ≡ Err VolError.BadMount) (λ t. IsOpenOf t path.now result) }
        ensures told { Told mount.now (result ≡ Err VolError.BadMount) (λ t. IsOpenOf t path.now result) }
        ensures mount { IfOk result (λ f. f.mount ≡ mount.now) }
        ensures path { IfOk result (λ f. f.path ≡ path.now) }
        ensures kept { self.new ≡ seeing self.old self.new.known }
    {
        mount.told().volume();
        match self.look(mount) {
            Err(refusal) => Err(refusal),
            Ok(look) => {
                let result = open_in(look.state(), look.tree(), mount, path);
                self.come_back(look);
                result
            }
        }
    }
}

impl<J: Volumes> FileAt<'_, J> {
    /// Reads bytes in the tree that the mount has.
    fn read_in(
        &self,
        state: &ReaderState,
        tree: Option<MountedTree>,
        offset: u64,
        into: &mut [u8],
    ) -> Result<usize, VolError>
        requires { HoldsAsTold self.now.mount (pages_shown state.now.tables) tree }
        ensures reads { IsOfTree (pages_shown state.now.tables) tree (IsNotRead result into.old into.new)
            (λ t. IsFileRead t self.now.path offset into.old result into.new) }
        ensures refused { OnErr result (tree ≡ None) }
        ensures within { IfOk result (λ count. count ≤ length into.new) }
        ensures end { IfOk result (λ count. offset + count < 2 ^ 64) }
    {
        match tree {
            None => Err(VolError::BadMount),
            Some(found) => {
                let tree = ReadTree::new(&state.tables, found.root);
                Ok(read_file_into(&tree, self.inode, offset, into))
            }
        }
    }

    /// Reads bytes of the file as `Port::read_into` does, but walks no path, and looks at no pages that the port
    /// keeps. It takes no memory, and never waits. All bytes are read in one state, which holds up publications
    /// as `Port::read_into` does.
    ///
    /// # Errors
    /// `BadMount` as `Port::read_into`, and no other.
    pub fn read_into<E: Enters>(
        &self,
        port: &mut Port<J, E>,
        offset: u64,
        into: &mut [u8],
    ) -> Result<usize, VolError>
        ensures later { IsLater port.old.known port.new.known }
        ensures looked { Looked self.now.mount port.old.known port.new.known
            (IsUngiven E.gives port.old.known port.old.seated)
            (IsNotRead result into.old into.new)
            (λ t. IsFileRead t self.now.path offset into.old result into.new) }
        ensures told { Told self.now.mount (IsNotRead result into.old into.new)
            (λ t. IsFileRead t self.now.path offset into.old result into.new) }
        ensures refused { IfErr result (IsPartRefused self.now.mount port.old.known port.new.known
            (λ k. IsUngiven E.gives k port.old.seated)) }
        ensures same { OnErr result (into.new ≡ into.old) }
        ensures within { IfOk result (λ count. count ≤ length into.new) }
        ensures end { IfOk result (λ count. offset + count < 2 ^ 64) }
        ensures kept { port.new ≡ seeing port.old port.new.known }
    {
        self.mount.told().volume();
        match port.look(self.mount) {
            Err(refusal) => Err(refusal),
            Ok(look) => {
                let result = self.read_in(look.state(), look.tree(), offset, into);
                port.come_back(look);
                result
            }
        }
    }

    /// Takes bytes of the file in the tree that the mount has, as many as there are up to a length; None where
    /// a page has too many owners.
    fn take_in(
        &self,
        state: &ReaderState,
        tree: Option<MountedTree>,
        offset: u64,
        len: usize,
    ) -> Result<Option<TakenBytes>, VolError>
        requires holds { HoldsAsTold self.now.mount (pages_shown state.now.tables) tree }
        requires most { len ≤ 65536 }
        ensures taken { IsOfTree (pages_shown state.now.tables) tree (result ≡ Err VolError.BadMount)
            (λ t. IsTakenOf t self.now.path offset len result) }
        ensures refused { OnErr result (tree ≡ None) }
        ensures within { IfOk result (λ found. IfSome found (λ taken. taken.count ≤ len)) }
        ensures end { IfOk result (λ found. IfSome found (λ taken. offset + taken.count < 2 ^ 64)) }
    {
        match tree {
            None => Err(VolError::BadMount),
            Some(found) => {
                let tree = ReadTree::new(&state.tables, found.root);
                Ok(TakenBytes::of_file(&tree, self.inode, offset, len).ok())
            }
        }
    }

    /// Takes bytes of the file as `take_in` does, in the state that the port enters. Refused as `read_into` is.
    fn take<E: Enters>(
        &self,
        port: &mut Port<J, E>,
        offset: u64,
        len: usize,
    ) -> Result<Option<TakenBytes>, VolError>
        requires { len ≤ 65536 }
        ensures later { IsLater port.old.known port.new.known }
        ensures told { Told self.now.mount (result ≡ Err VolError.BadMount)
            (λ t. IsTakenOf t self.now.path offset len result) }
        ensures refused { IfErr result (IsPartRefused self.now.mount port.old.known port.new.known
            (λ k. IsUngiven E.gives k port.old.seated)) }
        ensures within { IfOk result (λ found. IfSome found (λ taken. taken.count ≤ len)) }
        ensures end { IfOk result (λ found. IfSome found (λ taken. offset + taken.count < 2 ^ 64)) }
        ensures kept { port.new ≡ seeing port.old port.new.known }
    {
        self.mount.told().volume();
        match port.look(self.mount) {
            Err(refusal) => Err(refusal),
            Ok(look) => {
                let result = self.take_in(look.state(), look.tree(), offset, len);
                port.come_back(look);
                result
            }
        }
    }

    /// Reads bytes as `read_into` does, but copies them once the port has left the state: a publication waits
    /// for no copy, also where the system stops this thread amid one.
    fn read_apart<E: Enters>(
        &self,
        port: &mut Port<J, E>,
        offset: u64,
        into: &mut [u8],
    ) -> Result<usize, VolError>
        requires { length into.old ≤ 65536 }
        ensures later { IsLater port.old.known port.new.known }
        ensures told { Told self.now.mount (IsNotRead result into.old into.new)
            (λ t. IsFileRead t self.now.path offset into.old result into.new) }
        ensures refused { IfErr result (IsPartRefused self.now.mount port.old.known port.new.known
            (λ k. IsUngiven E.gives k port.old.seated)) }
        ensures same { OnErr result (into.new ≡ into.old) }
        ensures within { IfOk result (λ count. count ≤ length into.new) }
        ensures end { IfOk result (λ count. offset + count < 2 ^ 64) }
        ensures kept { port.new ≡ seeing port.old port.new.known }
    {
        match self.take(port, offset, into.len()) {
            Err(refusal) => Err(refusal),
            Ok(None) => self.read_into(port, offset, into),
            Ok(Some(taken)) => {
                let count = taken.count();
                taken.copy_into(&mut into[..count]);
                Ok(count)
            }
        }
    }

    /// Reads so many bytes more behind those that were read. Refused as `read_into` is.
    fn read_part<E: Enters>(
        &self,
        port: &mut Port<J, E>,
        offset: u64,
        count: usize,
        len: usize,
        into: &mut [u8],
    ) -> Result<usize, VolError>
        requires room { count + len ≤ length into.old }
        requires fits { offset + count < 2 ^ 64 }
        requires most { len ≤ 65536 }
        ensures later { IsLater port.old.known port.new.known }
        ensures more { IfOk result (λ more. (t : Tree) (was : List ℕ)
            → TreeOn (shown_after self.now.mount.told.commits) self.now.mount.checkpoint t
            → IsReadUpTo t self.now.path offset was count into.old
            → HasReadMore t self.now.path offset was count len more into.new) }
        ensures refused { IfErr result (IsPartRefused self.now.mount port.old.known port.new.known
            (λ k. IsUngiven E.gives k port.old.seated)) }
        ensures same { OnErr result (into.new ≡ into.old) }
        ensures size { length into.new ≡ length into.old }
        ensures within { IfOk result (λ more. more ≤ len) }
        ensures end { IfOk result (λ more. offset + (count + more) < 2 ^ 64) }
        ensures kept { port.new ≡ seeing port.old port.new.known }
    {
        self.read_apart(port, offset + count as u64, &mut into[count..count + len])
    }

    /// Reads bytes of the file as `read_into` does, but part by part, of 64 KiB at most. Each part is an entry
    /// of its own, in which it shares the part's pages; it copies their bytes outside. So publications go on
    /// meanwhile. All bytes are of the one tree that the mount's checkpoint had when it was mounted. It takes no
    /// memory, and never waits. If a part is refused, it answers how many bytes were read before, and the
    /// refusal, which is `BadMount`.
    pub fn read_parts<E: Enters>(
        &self,
        port: &mut Port<J, E>,
        offset: u64,
        into: &mut [u8],
    ) -> PartsRead
        ensures later { IsLater port.old.known port.new.known }
        ensures told { (t : Tree) → TreeOn (shown_after self.now.mount.told.commits) self.now.mount.checkpoint t
            → ArePartsRead t self.now.path offset into.old result into.new }
        ensures refused { IfSome result.refusal (IsPartRefused self.now.mount port.old.known port.new.known
            (λ k. IsUngiven E.gives k port.old.seated)) }
        ensures kept { port.new ≡ seeing port.old port.new.known }
    {
        let _ = &self.inode;
        let mut count = 0;
        while count < into.len() {
            let len = (into.len() - count).min(MOST_TAKEN);
            match self.read_part(port, offset, count, len, into) {
                Err(refusal) => return PartsRead {
                    count,
                    refusal: Some(refusal),
                },
                Ok(more) => {
                    count += more;
                    if more < len {
                        return PartsRead {
                            count,
                            refusal: None,
                        };
                    }
                }
            }
        }
        PartsRead {
            count,
            refusal: None,
        }
    }
}
