//! Files that saves left beside the file that they were to replace, since they were cut off.
ghost use Rattle.std.specs.Prelude.{◌≡◌, ◌++◌, ◌<◌, ◌≤◌, IfOk, IfSome, MatchOption, codes, length};
ghost use Rattle.std.specs.Prelude.{string_bytes};
ghost use Rattle.std.specs.Fmt.{decimal};
ghost use Rattle.nl_saving.specs.Files.{IsUnread};
ghost use Rattle.std.specs.Prelude.{IfErr};

use crate::files::{FileFault, read_all};
use crate::saving::{SavePlace, open_old};
use crate::sides::NAMES;
use crate::standing::{Found, stands_at, told_at};
use std::alloc::{AllocError, Global};
use std::fs::{File, Metadata, TryLockError};
use std::os::unix::fs::MetadataExt;
use std::path::{Path, PathBuf};
use std::rt::Files;
use std::{fs, io};

/// The longest name that a new file's name has whole.
const MOST_BYTES: usize = 240;

/// A file that a save left. It is locked, so no program writes it.
#[derive(Drop)]
pub struct Leftover {
    file: File,
    pub path: PathBuf,
}

/// What saves left beside a file.
#[derive(Drop)]
pub struct Leftovers {
    pub files: Vec<Leftover>,
    /// Whether each one that may be such a file could be locked, or is another program's.
    pub has_locks: bool,
}

/// The name that a save gives its file beside the one of this name. None where that is cut, so that other files may
/// have it too.
pub fn whole_name(alloc: Global, name: &str, number: u8) -> Result<Option<String>, AllocError>
    ensures cut { IfOk result (λ whole. MatchOption whole (240 < length name.now)
        (λ side. length name.now ≤ 240)) }
    ensures name { IfOk result (λ whole. IfSome whole (λ side. string_bytes side
        ≡ codes "." ++ (name.now ++ (codes ".nlvol-save-" ++ decimal number)))) }
{
    if name.len() > MOST_BYTES {
        return Ok(None);
    }
    let side = format!(in alloc; ".{name}.nlvol-save-{number}")?;
    Ok(Some(side))
}

/// Who runs the program: the owner of what the system tells of it. None where the system has no /proc.
fn user<R: Files>(files: &R) -> Option<u32> {
    match fs::metadata(files, "/proc/self") {
        Ok(told) => Some(told.uid()),
        Err(_) => None,
    }
}

/// Whether this is told of a regular file of one name that belongs to a user.
fn is_own(told: &Metadata, user: u32) -> bool {
    told.is_file() && told.nlink() == 1 && told.uid() == user
}

/// What is found under a name that a save gives its file.
#[derive(Drop)]
enum Look {
    /// Nothing that a save left.
    Nothing,
    /// What a save may have left, where there are no locks.
    Unlocked,
    Left(Leftover),
}

/// What a file is once it is locked: another one may have taken its name before that.
fn still_left<R: Files>(files: &R, file: File, path: PathBuf, user: u32) -> Look {
    let is_one = match file.metadata() {
        Ok(told) => is_own(&told, user),
        Err(_) => false,
    };
    match stands_at(files, path.as_path(), &file) {
        Ok(true) if is_one => Look::Left(Leftover { file, path }),
        _ => Look::Nothing,
    }
}

fn locked<R: Files>(files: &R, file: File, path: PathBuf, user: u32) -> Look {
    match file.try_lock() {
        Ok(()) => still_left(files, file, path, user),
        Err(TryLockError::WouldBlock) => Look::Nothing,
        Err(TryLockError::Error(_)) => Look::Unlocked,
    }
}

/// What stands at a path that a save gives its file. Without locks it isn't opened.
fn look_at<R: Files<File = File>>(files: &R, path: PathBuf, user: u32, has_locks: bool) -> Look {
    match told_at(files, path.as_path()) {
        Ok(Some(told)) if is_own(&told, user) => {}
        _ => return Look::Nothing,
    }
    if !has_locks {
        return Look::Unlocked;
    }
    match open_old(files, path.as_str()) {
        Some(file) => locked(files, file, path, user),
        None => Look::Nothing,
    }
}

impl Leftovers {
    fn note(&mut self, look: Look) -> Result<(), AllocError> {
        match look {
            Look::Nothing => Ok(()),
            Look::Unlocked => {
                self.has_locks = false;
                Ok(())
            }
            Look::Left(left) => Ok(self.files.push(left)?),
        }
    }

    /// Looks at each name that a save gives its file beside a path.
    fn find<R: AllocGlobal + Files<File = File>>(
        &mut self,
        rt: &R,
        target: Path<'_>,
        name: &str,
        has_locks: bool,
    ) -> io::Result<()> {
        let Some(user) = user(rt) else {
            return Ok(());
        };
        for number in 0..NAMES {
            let Some(side) = whole_name(rt.alloc(), name, number)? else {
                return Ok(());
            };
            let path = target.with_file_name(rt.alloc(), side.as_str())?;
            self.note(look_at(rt, path, user, has_locks))?;
        }
        Ok(())
    }
}

impl Leftover {
    /// How many bytes it has, where that is told.
    pub fn size(&self) -> u64 {
        match self.file.metadata() {
            Ok(told) => told.len(),
            Err(_) => 0,
        }
    }

    /// All that it has.
    pub fn read(&mut self, alloc: Global) -> Result<Vec<u8>, FileFault>
        ensures { IfErr result IsUnread }
    {
        read_all(alloc, &mut self.file)
    }

    /// Takes its name away.
    pub fn remove<R: Files>(&self, files: &R) -> io::Result<()> {
        fs::remove_file(files, self.path.as_path())
    }
}

impl SavePlace<'_> {
    /// What saves left beside a file that this place's lock stands for: its own or another one that is saved under
    /// the same lock. Without a lock all that may be such a file is passed over, and that is told. Where no file
    /// stood at the place in the beginning there is no lock, and nothing is looked at; nor is it where the system doesn't
    /// tell who runs the program.
    ///
    /// # Errors
    /// Want of memory.
    pub fn leftovers<R: AllocGlobal + Files<File = File>>(
        &self,
        rt: &R,
        target: Path<'_>,
    ) -> io::Result<Leftovers> {
        let mut left = Leftovers {
            files: Vec::new(rt.alloc()),
            has_locks: true,
        };
        if let (Some(Found::Regular(_)), Some(name)) = (self.found, target.file_name()) {
            left.find(rt, target, name, self.locked.is_some())?;
        }
        Ok(left)
    }
}
