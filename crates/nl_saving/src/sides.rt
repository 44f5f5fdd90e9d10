//! New files beside the ones that they are to replace.
ghost use Rattle.std.specs.Prelude.{◌≡◌, ◌<◌, ◌≤◌, IfOk, length, string_bytes};
ghost use Rattle.nl_saving.specs.SideNames.{IsSideName, kept_bits};

use crate::sparse::write_sparse;
use crate::standing::stands_at;
use std::alloc::{AllocError, Global};
use std::fs::{File, Metadata, OpenOptions, TryLockError};
use std::io::ErrorKind;
use std::os::unix::fs::{MetadataExt, OpenOptionsExt, PermissionsExt, fchown};
use std::path::{Path, PathBuf};
use std::rt::Files;
use std::{fs, io};

/// How many names a new file may have.
pub const NAMES: u8 = 100;

/// How much of the old file's name a new one's has at most. With what stands around it that is 255 bytes, the
/// longest name of Linux: a dot, `.nlvol-save-` and two digits.
const MOST_BYTES: usize = 240;

/// Who may do what with a new file, until it has an old one's mode: its owner may read and write it.
const OWNER_ALONE: u32 = 0o600;

/// The name of a new file beside the one of this name, which is cut where it is long.
pub fn side_name(alloc: Global, name: &str, number: u8) -> Result<String, AllocError>
    ensures name { IfOk result (λ side. IsSideName name.now number (string_bytes side)) }
    ensures fits { number < 100 → IfOk result (λ side. length (string_bytes side) ≤ 255) }
{
    let begin = &name[..name.floor_char_boundary(MOST_BYTES)];
    format!(in alloc; ".{begin}.nlvol-save-{number}")
}

/// The names that a new file beside a file may have, by their ends.
#[derive(Drop)]
pub struct SideNames {
    pub first: String,
    pub last: String,
}

/// The names that a new file beside the one of this name may have.
pub fn side_names(alloc: Global, name: &str) -> Result<SideNames, AllocError>
    ensures first { IfOk result (λ names. IsSideName name.now 0 (string_bytes names.first)) }
    ensures last { IfOk result (λ names. IsSideName name.now 99 (string_bytes names.last)) }
{
    let first = side_name(alloc, name, 0)?;
    let last = side_name(alloc, name, NAMES - 1)?;
    Ok(SideNames { first, last })
}

/// A new file, and its path. It is locked where the system has locks, and its path leads to it then.
#[derive(Drop)]
pub struct Side {
    pub file: File,
    pub path: PathBuf,
}

/// Opens a file that nobody has made yet, nor put a link there.
fn create_new<R: Files<File = File>>(files: &R, path: Path<'_>) -> io::Result<File> {
    let mut how = OpenOptions::new();
    let _ = how.write(true);
    let _ = how.create_new(true);
    let _ = how.mode(OWNER_ALONE);
    how.open(files, path)
}

/// The path of a new file beside a path.
fn side_path(alloc: Global, target: Path<'_>, name: &str, number: u8) -> io::Result<PathBuf> {
    let side_name = side_name(alloc, name, number)?;
    let path = target.with_file_name(alloc, side_name.as_str())?;
    Ok(path)
}

/// A new file that is locked, if its path still leads to it: who removes files that saves left may have taken it
/// for one of these just before.
fn if_named<R: Files>(files: &R, side: Side) -> io::Result<Option<Side>> {
    match stands_at(files, side.path.as_path(), &side.file) {
        Ok(true) => Ok(Some(side)),
        Ok(false) => Ok(None),
        Err(error) => {
            side.remove(files);
            Err(error)
        }
    }
}

/// Locks a new file. None where it isn't to be used, since another program has it.
fn if_locked<R: Files>(files: &R, side: Side) -> io::Result<Option<Side>> {
    match side.file.try_lock() {
        Ok(()) => if_named(files, side),
        Err(TryLockError::WouldBlock) => Ok(None),
        // Where there are no locks it has none, and nobody removes it.
        Err(TryLockError::Error(_)) => Ok(Some(side)),
    }
}

/// Makes a new file at a path, unless the path is taken.
fn create_at<R: Files<File = File>>(files: &R, path: PathBuf) -> io::Result<Option<Side>> {
    match create_new(files, path.as_path()) {
        Ok(file) => if_locked(files, Side { file, path }),
        Err(error) if error.kind() == ErrorKind::AlreadyExists => Ok(None),
        Err(error) => Err(error),
    }
}

/// Makes a new file beside a path, under the first of its names that is free. What stands at one of them is
/// neither opened nor moved.
fn create_beside<R: AllocGlobal + Files<File = File>>(
    rt: &R,
    target: Path<'_>,
) -> io::Result<Side> {
    let Some(name) = target.file_name() else {
        return Err(io::Error::from(ErrorKind::InvalidInput));
    };
    for number in 0..NAMES {
        let path = side_path(rt.alloc(), target, name, number)?;
        if let Some(side) = create_at(rt, path)? {
            return Ok(side);
        }
    }
    Err(io::Error::from(ErrorKind::AlreadyExists))
}

/// The bits of a mode that a new file has too. Without the old owner it isn't run as its own, and without the
/// old group its own one may do nothing.
fn kept_bits(has_owner: bool, has_group: bool) -> u32
    ensures { result ≡ kept_bits has_owner has_group }
{
    match (has_owner, has_group) {
        (true, true) => 0o7777,
        (true, false) => 0o5707,
        (false, true) => 0o3777,
        (false, false) => 0o1707,
    }
}

impl Side {
    /// Makes a new file beside a path, which its owner alone may use.
    pub fn create<R: AllocGlobal + Files<File = File>>(
        rt: &R,
        target: Path<'_>,
    ) -> io::Result<Side> {
        create_beside(rt, target)
    }

    /// Gives it the owner, the group and the mode of an old file. The owner and the group stay as they are
    /// where the system doesn't let them be given.
    fn give_mode(&self, old: &Metadata) -> io::Result<()> {
        let _ = fchown(&self.file, Some(old.uid()), None);
        let _ = fchown(&self.file, None, Some(old.gid()));
        let now = self.file.metadata()?;
        let bits = kept_bits(now.uid() == old.uid(), now.gid() == old.gid());
        // Last, since a new owner takes bits of the mode away.
        let mode = old.mode() & bits;
        self.file.set_permissions(PermissionsExt::from_mode(mode))
    }

    /// Writes it, with holes for zeros, stores it whole, and gives it what an old file had.
    pub fn fill(&mut self, old: Option<&Metadata>, bytes: &[u8]) -> io::Result<()> {
        write_sparse(&mut self.file, bytes)?;
        if let Some(old) = old {
            self.give_mode(old)?;
        }
        self.file.sync_all()
    }

    /// Lets its owner alone use it, whatever mode it had.
    pub fn shut(&self) {
        let _ = self
            .file
            .set_permissions(PermissionsExt::from_mode(OWNER_ALONE));
    }

    /// Takes its name away. Where that fails it stays.
    pub fn remove<R: Files>(&self, files: &R) {
        let _ = fs::remove_file(files, self.path.as_path());
    }
}
