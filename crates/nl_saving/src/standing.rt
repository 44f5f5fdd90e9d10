//! What stands at a path, and where its links lead to. What the system tells is known to no contract.
ghost use Rattle.std.specs.Prelude.{◌≡◌, ◌↔◌, IsTrue, option_map};
ghost use Rattle.std.specs.Fs.{metadata_len};
ghost use Rattle.nl_saving.specs.FilesFound.{AreOneFile, IsFoundOf};

use std::fs::{File, Metadata, OpenFile};
use std::io::ErrorKind;
use std::os::unix::fs::MetadataExt;
use std::path::{Path, PathBuf};
use std::rt::Files;
use std::{fs, io};

/// How many links are followed at most, one after the other: as many as path_resolution(7) has.
const MOST_LINKS: usize = 40;

/// What tells one state of a regular file from another.
#[derive(Clone, Copy, PartialEq)]
pub struct FileState {
    device: u64,
    inode: u64,
    size: u64,
    /// When it was last modified, in seconds and nanoseconds.
    seconds: i64,
    nanoseconds: i64,
}

/// What stands at a path.
#[derive(Clone, Copy, PartialEq)]
pub enum Found {
    /// Nothing.
    Nothing,
    /// A regular file in this state.
    Regular(FileState),
    /// What no regular file replaces, such as a device, a pipe or a directory.
    Other,
}

/// Whether an error says that nothing is there. Any other one leaves it open.
fn is_absent(error: &io::Error) -> bool {
    error.kind() == ErrorKind::NotFound
}

impl FileState {
    /// Whether it is a state of the same file, by any name.
    pub fn is_same_file(self, other: FileState) -> bool
        ensures { IsTrue result ↔ AreOneFile self other }
    {
        self.device == other.device && self.inode == other.inode
    }
}

pub fn state_of(metadata: &Metadata) -> FileState
    ensures { result.size ≡ metadata_len metadata.now }
{
    FileState {
        device: metadata.dev(),
        inode: metadata.ino(),
        size: metadata.size(),
        seconds: metadata.mtime(),
        nanoseconds: metadata.mtime_nsec(),
    }
}

/// What this is told of.
pub fn found_of(told: Option<&Metadata>) -> Found
    ensures { IsFoundOf (option_map (λ m. m.now) told.entry) result }
{
    match told {
        None => Found::Nothing,
        Some(metadata) if metadata.is_file() => Found::Regular(state_of(metadata)),
        Some(_) => Found::Other,
    }
}

/// Nothing where an error says that nothing is there.
fn unless_absent(asked: io::Result<Metadata>) -> io::Result<Option<Metadata>> {
    match asked {
        Err(error) if is_absent(&error) => Ok(None),
        asked => asked.map(Some),
    }
}

/// What stands at a path, or where its links lead to.
pub fn found_at<R: Files>(files: &R, path: &str) -> io::Result<Found> {
    let told = unless_absent(fs::metadata(files, path))?;
    Ok(found_of(told.as_ref()))
}

/// What is told of what stands at a path itself, a link too.
pub fn told_at<R: Files>(files: &R, path: Path<'_>) -> io::Result<Option<Metadata>> {
    unless_absent(fs::symlink_metadata(files, path))
}

/// Whether an open file stands at a path itself: no link leads there.
pub fn stands_at<R: Files>(files: &R, path: Path<'_>, file: &File) -> io::Result<bool> {
    let told = told_at(files, path)?;
    let open = file.metadata()?;
    match (found_of(told.as_ref()), found_of(Some(&open))) {
        (Found::Regular(there), Found::Regular(state)) => Ok(there.is_same_file(state)),
        _ => Ok(false),
    }
}

/// Stores the folder of a path, so that a name that was given in it stays when the power fails. One that can't be
/// stored is no fault.
pub fn sync_folder<R: Files>(files: &R, path: Path<'_>) {
    let folder = match path.parent() {
        Some(folder) if !folder.as_str().is_empty() => folder,
        _ => Path::new("."),
    };
    if let Ok(folder) = fs::open(files, folder) {
        let _ = folder.sync_all();
    }
}

/// Whether a link stands at a path.
fn is_link<R: Files>(files: &R, path: Path<'_>) -> io::Result<bool> {
    match told_at(files, path)? {
        Some(metadata) => Ok(metadata.is_symlink()),
        None => Ok(false),
    }
}

/// The path that a link leads to, or none where no link stands at the path.
fn next_path<R: AllocGlobal + Files>(rt: &R, path: Path<'_>) -> io::Result<Option<PathBuf>> {
    if !is_link(rt, path)? {
        return Ok(None);
    }
    let link = fs::read_link(rt, path)?;
    let folder = path.parent().unwrap_or(Path::new(""));
    let next = folder.join(rt.alloc(), link)?;
    Ok(Some(next))
}

/// The path that a path leads to through links, or itself where no link stands there. Nothing need stand
/// where it leads to.
pub fn behind_links<R: AllocGlobal + Files>(rt: &R, path: &str) -> io::Result<PathBuf> {
    let mut path = PathBuf::from_str(rt.alloc(), path)?;
    for _ in 0..MOST_LINKS {
        match next_path(rt, path.as_path())? {
            None => return Ok(path),
            Some(next) => path = next,
        }
    }
    Err(io::Error::from(ErrorKind::FilesystemLoop))
}
