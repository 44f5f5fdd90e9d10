//! Files that are written whole, and not over what another program put there meanwhile.
ghost use Rattle.std.specs.Prelude.{◌≡◌, IfOk};

use crate::keeping::put_aside;
use crate::putting::fill_and_put;
use crate::sides::Side;
use crate::standing::{Found, behind_links, found_at, found_of, state_of, sync_folder, told_at};
use std::fs::{File, Metadata, OpenFile, OpenOptions, TryLockError};
use std::io::{ErrorKind, Write};
use std::path::{Path, PathBuf};
use std::rt::Files;
use std::{io, str};

/// How often a file is opened to be locked, if another one takes its place each time.
const TRIES: usize = 100;

/// Another program has the lock of the file.
#[derive(Clone, Copy)]
pub struct InUse;

/// Where a file is written in the end, and what stood there at the start. A regular file is locked from then
/// on, if it can be.
#[derive(Drop)]
pub struct SavePlace<'a> {
    /// The path as it was given. Its links are followed.
    pub path: &'a [u8],
    /// What stood there; none if that couldn't be told.
    pub(crate) found: Option<Found>,
    /// Holds the lock until the place is dropped.
    pub(crate) locked: Option<File>,
}

/// What became of bytes that were to be in a file.
#[derive(Drop)]
pub enum Saved {
    /// They are.
    There,
    /// Another program changed the file. It is left as it is, and they are in the file at this path.
    Beside(PathBuf),
}

// ---- the start

/// A file that is there, open to be read or written; none where it can't be. It is neither made nor changed.
fn open_to<R: Files<File = File>>(
    files: &R,
    path: &str,
    reads: bool,
    writes: bool,
) -> Option<File> {
    let mut how = OpenOptions::new();
    let _ = how.read(reads);
    let _ = how.write(writes);
    how.open(files, path).ok()
}

/// A file that is there, open to be locked; none where it can't be opened. Network file systems lock only
/// what is open to be written. If a pipe came to stand there just now, one that may be read and written is
/// opened at once; else its other end is awaited.
pub(crate) fn open_old<R: Files<File = File>>(files: &R, path: &str) -> Option<File> {
    if let Some(file) = open_to(files, path, true, true) {
        return Some(file);
    }
    if let Some(file) = open_to(files, path, true, false) {
        return Some(file);
    }
    open_to(files, path, false, true)
}

/// What came of one try to lock what stands at a path.
#[derive(Drop)]
enum Try {
    /// Another program has the lock.
    Busy,
    /// Another file took the place of the one that was opened.
    Replaced,
    /// It is locked, or can't be. This is what stands there.
    Done(Option<Found>, Option<File>),
}

/// Whether a file is the one that is found, in whatever state.
fn is_of(file: &File, found: Found) -> bool {
    match (file.metadata(), found) {
        (Ok(metadata), Found::Regular(state)) => state_of(&metadata).is_same_file(state),
        _ => false,
    }
}

/// What came of it once the file is locked: it may have been replaced before that.
fn locked<R: Files>(files: &R, path: &str, file: File) -> Try {
    let Ok(found) = found_at(files, path) else {
        return Try::Replaced;
    };
    if is_of(&file, found) {
        Try::Done(Some(found), Some(file))
    } else {
        Try::Replaced
    }
}

/// What came of one try to lock a regular file that was opened at a path.
fn try_file<R: Files>(files: &R, path: &str, file: File) -> Try {
    match file.try_lock() {
        Ok(()) => locked(files, path, file),
        Err(TryLockError::WouldBlock) => Try::Busy,
        // Opening it may have made another file of it, where a layer of the system is only read.
        Err(TryLockError::Error(_)) => Try::Done(found_at(files, path).ok(), None),
    }
}

fn try_once<R: Files<File = File>>(files: &R, path: &str) -> Try {
    let Ok(found) = found_at(files, path) else {
        return Try::Done(None, None);
    };
    if !matches!(found, Found::Regular(_)) {
        return Try::Done(Some(found), None);
    }
    match open_old(files, path) {
        Some(file) => try_file(files, path, file),
        None => Try::Done(Some(found), None),
    }
}

/// What stands at a path, and its lock; none where another program has that, or replaces the file time and
/// again.
fn hold<R: Files<File = File>>(files: &R, path: &str) -> Option<(Option<Found>, Option<File>)> {
    for _ in 0..TRIES {
        match try_once(files, path) {
            Try::Busy => return None,
            Try::Replaced => {}
            Try::Done(found, locked) => return Some((found, locked)),
        }
    }
    None
}

impl<'a> SavePlace<'a> {
    /// Looks at what stands at a path, and locks it if it is a regular file. One that can't be looked at,
    /// opened or locked is no fault: whether it can be written shows in the end.
    ///
    /// # Errors
    /// `InUse` where another program has the lock.
    pub fn take<R: Files<File = File>>(files: &R, path: &'a [u8]) -> Result<SavePlace<'a>, InUse>
        ensures { IfOk result (λ place. place.path.now ≡ path.entry.now) }
    {
        let Ok(text) = str::from_utf8(path) else {
            return Ok(SavePlace {
                path,
                found: None,
                locked: None,
            });
        };
        match hold(files, text) {
            Some((found, locked)) => Ok(SavePlace {
                path,
                found,
                locked,
            }),
            None => Err(InUse),
        }
    }
}

// ---- the end

/// Writes to what can't be replaced by a file, such as a device or a pipe. No file is made.
fn write_into<R: Files<File = File>>(files: &R, path: &str, bytes: &[u8]) -> io::Result<()> {
    let mut how = OpenOptions::new();
    let _ = how.write(true);
    let mut file = how.open(files, path)?;
    if file.metadata()?.is_file() {
        return Err(io::Error::from(ErrorKind::ResourceBusy));
    }
    file.write_all(bytes)
}

/// What is told of an old file that may be replaced: a regular one as it was found.
fn old_file(told: Option<Metadata>, found: Option<Found>) -> Option<Metadata> {
    match found {
        Some(Found::Regular(_)) if Some(found_of(told.as_ref())) == found => told,
        _ => None,
    }
}

impl SavePlace<'_> {
    /// Keeps the lock of a new file that was put in its place. Another one is kept beside it.
    fn keep<R: AllocGlobal + Files>(
        &mut self,
        rt: &R,
        target: Path<'_>,
        side: Side,
        is_put: bool,
    ) -> Saved {
        if is_put {
            self.locked = Some(side.file);
            return Saved::There;
        }
        side.shut();
        Saved::Beside(put_aside(rt, side, target))
    }

    /// Writes a new file beside the old one, and then puts it there.
    fn replace<R: AllocGlobal + Files<File = File>>(
        &mut self,
        rt: &R,
        target: Path<'_>,
        bytes: &[u8],
    ) -> io::Result<Saved> {
        let told = told_at(rt, target)?;
        let old = old_file(told, self.found);
        let mut side = Side::create(rt, target)?;
        match fill_and_put(rt, &mut side, target, old.as_ref(), self.found, bytes) {
            Ok(is_put) => {
                let saved = self.keep(rt, target, side, is_put);
                sync_folder(rt, target);
                Ok(saved)
            }
            Err(error) => {
                side.remove(rt);
                Err(error)
            }
        }
    }

    /// Writes the file, if what stands there is what stood there at the start. It is replaced whole or not at
    /// all: a new one is written beside it, and renamed once all is stored; then the folder is stored. It has the
    /// old one's owner and group where the system lets them be given, and its mode; where there is no old one,
    /// its owner alone may read and write it. What is no regular file, such as a device, is written to as it is.
    ///
    /// # Errors
    /// Those of the system; `AlreadyExists` where no name is free for the new file, which `side_names` tells; and
    /// `ResourceBusy` where what was no regular file became one just now. The file is as it was then, if it is a
    /// regular one, and no other one is left.
    pub fn save<R: AllocGlobal + Files<File = File>>(
        &mut self,
        rt: &R,
        bytes: &[u8],
    ) -> io::Result<Saved> {
        let Ok(path) = str::from_utf8(self.path) else {
            return Err(io::Error::from(ErrorKind::InvalidInput));
        };
        if self.found == Some(Found::Other) && found_at(rt, path)? == Found::Other {
            write_into(rt, path, bytes)?;
            return Ok(Saved::There);
        }
        let target = behind_links(rt, path)?;
        self.replace(rt, target.as_path(), bytes)
    }
}
