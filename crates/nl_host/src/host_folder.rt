//! A folder of the host, read.
ghost use Rattle.std.specs.Prelude.{◌≡◌, []};

use crate::attributes::attributes_of;
use crate::host_paths::host_path;
use crate::identity::Identity;
use crate::left_out::{LeftOut, Reason, TooBig};
use crate::open_folders::OpenFolders;
use crate::selection::{Selection, is_reserved};
use nl_folders::FolderError;
use nl_manifests::Attributes;
use nl_names::Name;
use nl_types::limits::{FILE_LIMIT, PATH_LENGTH_LIMIT, VOLUME_BLOCK_LIMIT};
use nl_types::{BLOCK_SIZE, Items, VolError};
use std::alloc::{AllocError, Global};
use std::fs::{DirEntry, File, Metadata, OpenFile};
use std::io::{ErrorKind, Read};
use std::os::unix::fs::MetadataExt;
use std::path::PathBuf;
use std::rt::{Env, Files};
use std::{fs, io};

/// The most bytes that a volume has. Once the files of a folder have more, no more of them is read.
const MOST_BYTES_IN_ALL: u64 = VOLUME_BLOCK_LIMIT as u64 * BLOCK_SIZE as u64;

/// How many bytes the path of a manifest has behind that of its directory.
const MANIFEST_BYTES: usize = 8;

/// A folder of the host. Links aren't followed. What can't be kept is left out and noted.
#[derive(Drop)]
pub struct HostFolder<'a, R: Files> {
    files: &'a R,
    /// Its path, links followed.
    pub root: &'a str,
    /// What of it is passed over.
    pub selection: Selection<'a>,
    /// Whether names and bytes alone are kept.
    pub is_plain: bool,
    /// What is left out, in the order in which it was found.
    pub left_out: Vec<LeftOut>,
    /// Files that no volume takes. They are left out too.
    pub too_big: Vec<TooBig>,
    /// How many bytes all files have, those that are too big not counted.
    pub bytes: u64,
    /// Why the folder itself couldn't be read, if it couldn't.
    pub failure: Option<io::Error>,
}

/// What stands under a name in a folder.
#[derive(Clone, Copy, PartialEq, Eq)]
pub(crate) enum Kind {
    Directory,
    File,
    Link,
}

/// What is done with something in a folder.
enum Judged {
    Kept(Kind),
    LeftOut(Reason),
    TooBig(u64),
    Excluded,
}

/// What the listing of a folder told of something in it.
#[derive(Clone, Copy)]
pub(crate) struct Listed {
    pub(crate) kind: Kind,
    pub(crate) identity: Identity,
    /// How many bytes it has.
    pub(crate) size: u64,
    /// None where none are kept.
    pub(crate) attributes: Option<Attributes>,
}

/// Something in a folder that is kept.
#[derive(Drop)]
pub(crate) struct Found {
    pub(crate) name: Items<u8>,
    pub(crate) listed: Listed,
}

/// What a folder has.
#[derive(Drop)]
pub(crate) struct Listing {
    /// What is kept of it, ascending by names.
    pub(crate) all: Vec<Found>,
    /// Those of the folder itself. None where none are kept.
    pub(crate) attributes: Option<Attributes>,
}

/// What was read of a file.
#[derive(Drop)]
pub(crate) struct FileRead {
    pub(crate) bytes: Vec<u8>,
    pub(crate) attributes: Attributes,
    /// Whether it stayed as it was meanwhile.
    is_same: bool,
}

/// What tells one state of a file from another.
#[derive(Clone, Copy, PartialEq)]
struct State {
    size: u64,
    seconds: i64,
    nanoseconds: i64,
}

fn state_of(metadata: &Metadata) -> State {
    State {
        size: metadata.len(),
        seconds: metadata.mtime(),
        nanoseconds: metadata.mtime_nsec(),
    }
}

impl<'a, R: AllocGlobal + Files<File = File> + Env + Clone + Drop> HostFolder<'a, R> {
    /// The folder at a path, in which no link is to be followed any more.
    pub fn new(
        files: &'a R,
        root: &'a str,
        selection: Selection<'a>,
        is_plain: bool,
    ) -> HostFolder<'a, R>
        ensures root { result.root.now ≡ root.entry.now }
        ensures selection { result.selection ≡ selection.entry }
        ensures plain { result.is_plain ≡ is_plain }
        ensures left_out { result.left_out.items ≡ [] }
        ensures too_big { result.too_big.items ≡ [] }
        ensures bytes { result.bytes ≡ 0 }
        ensures failure { result.failure ≡ None }
    {
        let alloc = files.alloc();
        HostFolder {
            files,
            root,
            selection,
            is_plain,
            left_out: Vec::new(alloc),
            too_big: Vec::new(alloc),
            bytes: 0,
            failure: None,
        }
    }

    /// The folder, opened.
    ///
    /// # Errors
    /// `Unread` where it can't be, and the folder then knows why.
    pub(crate) fn opened(&mut self) -> Result<OpenFolders<'a, R>, FolderError> {
        match OpenFolders::at(self.files, self.root) {
            Ok(opened) => Ok(opened),
            Err(error) => Err(self.fault(&error)),
        }
    }

    fn fault(&mut self, error: &io::Error) -> FolderError {
        if error.kind() == ErrorKind::OutOfMemory {
            return FolderError::Refused(VolError::Memory);
        }
        self.failure = Some(*error);
        FolderError::Unread
    }

    /// The host's path of what stands at a path below the folder.
    fn path_of(&self, alloc: Global, path: &[Name]) -> Result<String, FolderError> {
        if path.is_empty() {
            return Ok(String::from_str(alloc, self.root)?);
        }
        let (text, count) = host_path(alloc, self.root.trim_end_matches('/'), path)?;
        if count == path.len() {
            Ok(text)
        } else {
            Err(FolderError::Unread)
        }
    }
}

// ---- what is left out

impl<R: AllocGlobal + Files<File = File> + Env + Clone + Drop> HostFolder<'_, R> {
    fn leave_out(&mut self, path: String, reason: Reason) -> Result<(), FolderError> {
        self.left_out.push(LeftOut { path, reason })?;
        Ok(())
    }

    /// Leaves out what the system doesn't give.
    fn leave_out_for(&mut self, path: String, error: &io::Error) -> Result<(), FolderError> {
        if error.kind() == ErrorKind::OutOfMemory {
            return Err(FolderError::Refused(VolError::Memory));
        }
        self.leave_out(path, Reason::of(error))
    }

    /// Leaves out what stands at a path below the folder, which the system doesn't give.
    ///
    /// # Errors
    /// `Unread` where that is the folder itself, and memory.
    pub(crate) fn give_up(
        &mut self,
        alloc: Global,
        path: &[Name],
        error: &io::Error,
    ) -> Result<(), FolderError> {
        if path.is_empty() {
            return Err(self.fault(error));
        }
        let path = self.path_of(alloc, path)?;
        self.leave_out_for(path, error)
    }

    fn note(&mut self, alloc: Global, path: &[Name], reason: Reason) -> Result<(), FolderError> {
        let path = self.path_of(alloc, path)?;
        self.leave_out(path, reason)
    }
}

// ---- what is done with what a folder has

impl<R: AllocGlobal + Files<File = File> + Env + Clone + Drop> HostFolder<'_, R> {
    /// A path without the root's in front, and without a slash there.
    fn below<'p>(&self, path: &'p str) -> &'p str {
        match path.strip_prefix(self.root) {
            Some(rest) => rest.trim_start_matches('/'),
            None => path,
        }
    }

    /// What is done with what stands somewhere, by what is told of it.
    fn judge_kind(&self, metadata: &Metadata) -> Judged {
        if metadata.is_dir() {
            Judged::Kept(Kind::Directory)
        } else if metadata.is_file() && metadata.len() > FILE_LIMIT {
            Judged::TooBig(metadata.len())
        } else if metadata.is_file() {
            Judged::Kept(Kind::File)
        } else if metadata.is_symlink() && !self.is_plain {
            Judged::Kept(Kind::Link)
        } else if metadata.is_symlink() {
            Judged::LeftOut(Reason::Link)
        } else {
            Judged::LeftOut(Reason::Special)
        }
    }

    /// How many bytes the longest path has that something at a path needs, the slash in front counted: a
    /// directory needs that of its manifest too.
    fn path_bytes(&self, below: &str, metadata: &Metadata) -> usize {
        let count = below.len().saturating_add(1);
        if metadata.is_dir() && !self.is_plain {
            count.saturating_add(MANIFEST_BYTES)
        } else {
            count
        }
    }

    /// Why something is passed over by what it is, whatever its name, if it is. The first folder is on a
    /// device.
    fn passed_over(&self, metadata: &Metadata, device: u64) -> Option<Reason> {
        let identity = Identity::of(metadata);
        if metadata.is_dir() {
            self.selection.passed_over(identity.device, device)
        } else if self.selection.is_image(identity) {
            Some(Reason::Image)
        } else if self.selection.is_side(identity) {
            Some(Reason::Side)
        } else {
            None
        }
    }

    fn judge(&self, path: &str, name: &str, metadata: &Metadata, device: u64) -> Judged {
        let below = self.below(path);
        if self.selection.excludes(below, name) {
            return Judged::Excluded;
        }
        if let Some(reason) = self.passed_over(metadata, device) {
            return Judged::LeftOut(reason);
        }
        if is_reserved(name) {
            return Judged::LeftOut(Reason::Reserved);
        }
        if self.path_bytes(below, metadata) > PATH_LENGTH_LIMIT {
            return Judged::LeftOut(Reason::LongPath);
        }
        self.judge_kind(metadata)
    }

    /// The attributes that are kept of a file.
    fn kept_attributes(&self, metadata: &Metadata) -> Option<Attributes> {
        if self.is_plain {
            None
        } else {
            Some(attributes_of(metadata))
        }
    }

    fn keep(
        &self,
        alloc: Global,
        name: &str,
        kind: Kind,
        metadata: &Metadata,
        all: &mut Vec<Found>,
    ) -> Result<(), FolderError> {
        let listed = Listed {
            kind,
            identity: Identity::of(metadata),
            size: metadata.len(),
            attributes: self.kept_attributes(metadata),
        };
        let name = Items::from_slice(alloc, name.as_bytes())?;
        all.push(Found { name, listed })?;
        Ok(())
    }
}

// ---- listing

/// The path of what has a name in a folder of a path.
fn path_in(alloc: Global, folder: &str, name: &str) -> Result<String, AllocError> {
    let mut path = String::from_str(alloc, folder.trim_end_matches('/'))?;
    path.push('/')?;
    path.push_str(name)?;
    Ok(path)
}

impl<R: AllocGlobal + Files<File = File> + Env + Clone + Drop> HostFolder<'_, R> {
    fn add(
        &mut self,
        alloc: Global,
        path: String,
        entry: &DirEntry<R>,
        device: u64,
        all: &mut Vec<Found>,
    ) -> Result<(), FolderError> {
        let name = entry.file_name();
        let metadata = match entry.metadata() {
            Ok(metadata) => metadata,
            Err(error) => return self.leave_out_for(path, &error),
        };
        match self.judge(path.as_str(), name, &metadata, device) {
            Judged::Kept(kind) => self.keep(alloc, name, kind, &metadata, all),
            Judged::LeftOut(reason) => self.leave_out(path, reason),
            Judged::TooBig(size) => {
                self.too_big.push(TooBig { path, size })?;
                Ok(())
            }
            Judged::Excluded => Ok(()),
        }
    }

    /// Adds what is kept in an open folder of a path, in no order. Answers why the system doesn't tell all of
    /// it, if it doesn't.
    fn add_all(
        &mut self,
        alloc: Global,
        opened: &OpenFolders<'_, R>,
        folder: &str,
        all: &mut Vec<Found>,
    ) -> Result<Option<io::Error>, FolderError> {
        let entries = match opened.entries() {
            Ok(entries) => entries,
            Err(error) => return Ok(Some(error)),
        };
        let device = opened.first().device;
        for entry in entries {
            match entry {
                Ok(entry) => {
                    let path = path_in(alloc, folder, entry.file_name())?;
                    self.add(alloc, path, &entry, device, all)?;
                }
                Err(error) if error.kind() == ErrorKind::InvalidFilename => {
                    let path = String::from_str(alloc, folder)?;
                    self.leave_out(path, Reason::NameNoText)?;
                }
                Err(error) => return Ok(Some(error)),
            }
        }
        Ok(None)
    }

    /// What is kept in the folder at a path, in which we stand. None where it can't be read, which is noted.
    ///
    /// # Errors
    /// `Unread` where it is the folder itself that can't be read, and memory.
    pub(crate) fn list(
        &mut self,
        alloc: Global,
        opened: &OpenFolders<'_, R>,
        path: &[Name],
    ) -> Result<Option<Listing>, FolderError> {
        let attributes = match opened.metadata() {
            Ok(metadata) => self.kept_attributes(&metadata),
            Err(error) => {
                self.give_up(alloc, path, &error)?;
                return Ok(None);
            }
        };
        let folder = self.path_of(alloc, path)?;
        let mut all = Vec::new(alloc);
        if let Some(error) = self.add_all(alloc, opened, folder.as_str(), &mut all)? {
            self.give_up(alloc, path, &error)?;
            return Ok(None);
        }
        all.sort_by(|a, b| a.name.as_slice().cmp(&b.name.as_slice()))?;
        Ok(Some(Listing { all, attributes }))
    }

    /// What stands at a place now, if that is a folder that isn't passed over.
    fn other_folder(
        &self,
        opened: &OpenFolders<'_, R>,
        name: &[u8],
    ) -> io::Result<Option<Identity>> {
        let place = opened.place(name)?;
        let metadata = fs::symlink_metadata(self.files, place.as_str())?;
        let reason = self.passed_over(&metadata, opened.first().device);
        if metadata.is_dir() && reason.is_none() {
            Ok(Some(Identity::of(&metadata)))
        } else {
            Ok(None)
        }
    }

    /// Goes down to a folder of ours, or to the one that took its place. Answers false where none stands
    /// there.
    fn enter_any(
        &self,
        opened: &mut OpenFolders<'_, R>,
        name: &[u8],
        listed: Identity,
    ) -> io::Result<bool> {
        if opened.enter(name, Some(listed))? {
            return Ok(true);
        }
        match self.other_folder(opened, name)? {
            Some(other) => opened.enter(name, Some(other)),
            None => Ok(false),
        }
    }

    /// Goes down to the folder at a path, in the one above which we stand. Answers false, and stays, where it
    /// can't be read, which is noted.
    pub(crate) fn enter(
        &mut self,
        alloc: Global,
        opened: &mut OpenFolders<'_, R>,
        path: &[Name],
        listed: Identity,
    ) -> Result<bool, FolderError> {
        let Some(name) = path.last() else {
            return Ok(true);
        };
        match self.enter_any(opened, name.as_slice(), listed) {
            Ok(true) => Ok(true),
            Ok(false) => {
                self.note(alloc, path, Reason::Replaced)?;
                Ok(false)
            }
            Err(error) => {
                self.give_up(alloc, path, &error)?;
                Ok(false)
            }
        }
    }
}

// ---- files and links

impl<R: AllocGlobal + Files<File = File> + Env + Clone + Drop> HostFolder<'_, R> {
    /// What the file at a place has. None where it isn't the file that is meant.
    fn read_once(
        &self,
        alloc: Global,
        place: &str,
        meant: Identity,
    ) -> io::Result<Option<FileRead>> {
        let mut file = fs::open(self.files, place)?;
        let metadata = file.metadata()?;
        if !metadata.is_file() || !Identity::of(&metadata).is_same(meant) {
            return Ok(None);
        }
        let before = state_of(&metadata);
        let room = usize::try_from(before.size.min(FILE_LIMIT)).unwrap_or(0);
        let mut bytes = Vec::with_capacity(alloc, room)?;
        file.by_ref().take(FILE_LIMIT).read_to_end(&mut bytes)?;
        let metadata = file.metadata()?;
        let after = state_of(&metadata);
        let is_same = before == after && bytes.len() as u64 == after.size;
        Ok(Some(FileRead {
            bytes,
            attributes: attributes_of(&metadata),
            is_same,
        }))
    }

    /// The same. A file that changes meanwhile is read once more.
    fn read_twice(
        &self,
        alloc: Global,
        place: &str,
        meant: Identity,
    ) -> io::Result<Option<FileRead>> {
        match self.read_once(alloc, place, meant)? {
            Some(first) if !first.is_same => self.read_once(alloc, place, meant),
            read => Ok(read),
        }
    }

    /// The same of the file that was listed, or of the one that took its place.
    fn read_any(
        &self,
        alloc: Global,
        opened: &OpenFolders<'_, R>,
        name: &[u8],
        listed: Identity,
    ) -> io::Result<Option<FileRead>> {
        let place = opened.place(name)?;
        if let Some(read) = self.read_twice(alloc, place.as_str(), listed)? {
            return Ok(Some(read));
        }
        let metadata = fs::symlink_metadata(self.files, place.as_str())?;
        let reason = self.passed_over(&metadata, opened.first().device);
        if !metadata.is_file() || reason.is_some() {
            return Ok(None);
        }
        self.read_twice(alloc, place.as_str(), Identity::of(&metadata))
    }

    /// What a file has, in the folder in which we stand. None once all files have more bytes than a volume
    /// takes, and where it can't be read, which is noted.
    pub(crate) fn read(
        &mut self,
        alloc: Global,
        opened: &OpenFolders<'_, R>,
        path: &[Name],
        listed: &Listed,
    ) -> Result<Option<FileRead>, FolderError> {
        let before = self.bytes;
        self.bytes = before.saturating_add(listed.size);
        if self.bytes > MOST_BYTES_IN_ALL {
            return Ok(None);
        }
        let name = last_of(path);
        match self.read_any(alloc, opened, name, listed.identity) {
            Ok(Some(read)) => {
                if !read.is_same {
                    self.note(alloc, path, Reason::Changed)?;
                }
                // Of some files, as those of /proc, the system tells fewer bytes than they give.
                let count = listed.size.max(read.bytes.len() as u64);
                self.bytes = before.saturating_add(count);
                return Ok(Some(read));
            }
            Ok(None) => self.note(alloc, path, Reason::Replaced)?,
            Err(error) => self.give_up(alloc, path, &error)?,
        }
        self.bytes = before;
        Ok(None)
    }

    fn link_at(&self, opened: &OpenFolders<'_, R>, name: &[u8]) -> io::Result<PathBuf> {
        let place = opened.place(name)?;
        fs::read_link(self.files, place.as_str())
    }

    /// Where a link leads to, in the folder in which we stand. None where that is no text, or can't be read,
    /// which is noted.
    pub(crate) fn target(
        &mut self,
        alloc: Global,
        opened: &OpenFolders<'_, R>,
        path: &[Name],
    ) -> Result<Option<Items<u8>>, FolderError> {
        match self.link_at(opened, last_of(path)) {
            Ok(target) => {
                let bytes = target.as_path().as_str().as_bytes();
                return Ok(Some(Items::from_slice(alloc, bytes)?));
            }
            Err(error) if error.kind() == ErrorKind::InvalidFilename => {
                self.note(alloc, path, Reason::TargetNoText)?;
            }
            Err(error) => self.give_up(alloc, path, &error)?,
        }
        Ok(None)
    }
}

/// The last name of a path, which the first folder's has none of.
fn last_of(path: &[Name]) -> &[u8] {
    match path {
        [.., name] => name.as_slice(),
        [] => &[],
    }
}
