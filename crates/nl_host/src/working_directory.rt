//! Folders that are reached by the working directory of the process. It goes from one to the next by one name, or by
//! `..`, and has to be the one that is meant each time. A path of more names could lead elsewhere, since somebody
//! may rename folders meanwhile.
ghost use Rattle.std.specs.Prelude.{◌≡◌, IfOk, true};
ghost use Rattle.nl_host.specs.Identities.{is_same};

use crate::host_paths::path_below;
use crate::identity::Identity;
use crate::trail::Trail;
use std::alloc::{AllocError, Global};
use std::io::ErrorKind;
use std::rt::{Env, Files};
use std::{env, fs, io};

/// What is said where no path leads back to the working directory.
const NO_WAY_BACK: &str = "there is no /proc, and no path leads to the working directory";

/// What is said where the working directory isn't any more where it was.
const IS_MOVED: &str = "the working directory was moved meanwhile, and there is no /proc";

/// The working directory, while it is a folder of a trail.
#[derive(Drop)]
pub(crate) struct WorkingDirectory {
    /// The path of where it was before.
    before: String,
    identity_before: Identity,
    /// Whether it is our folder now. Else it is another one, in which nothing is done.
    is_ours: bool,
}

/// What the working directory is now.
fn present<R: Files>(rt: &R) -> io::Result<Identity> {
    Ok(Identity::of(&fs::metadata(rt, ".")?))
}

/// Makes the folder at a path the working directory. Where that fails, it may be any other.
///
/// # Errors
/// Those of the system, and `NotFound` where the folder there isn't the one that is meant.
fn step_to<R: Files + Env>(rt: &R, path: &str, meant: Identity) -> io::Result<Identity>
    ensures { IfOk result (λ there. is_same there meant ≡ true) }
{
    env::set_current_dir(rt, path)?;
    let there = present(rt)?;
    there.expect(meant)?;
    Ok(there)
}

/// The working directory's path, if it leads there.
fn path_back<R: AllocGlobal + Files + Env>(rt: &R, present: Identity) -> io::Result<String> {
    let path = env::current_dir(rt)?;
    let path = path.as_path().as_str();
    Identity::of(&fs::metadata(rt, path)?).expect(present)?;
    Ok(String::from_str(rt.alloc(), path)?)
}

/// The error that tells more of one, but for a want of memory.
fn told_of(error: io::Error, words: &str) -> io::Error {
    if error.kind() == ErrorKind::OutOfMemory {
        error
    } else {
        io::Error::new(ErrorKind::NotFound, words)
    }
}

// ---- there and back

impl WorkingDirectory {
    /// In the first folder of a trail, at a path.
    ///
    /// # Errors
    /// Where the folder can't be reached, or the working directory has no path by which it could be again
    /// what it is. It stays that.
    pub(crate) fn at<R: AllocGlobal + Files + Env>(
        rt: &R,
        root: &str,
        first: Identity,
    ) -> io::Result<WorkingDirectory> {
        let identity_before = present(rt)?;
        let before = match path_back(rt, identity_before) {
            Ok(before) => before,
            Err(error) => return Err(told_of(error, NO_WAY_BACK)),
        };
        let mut directory = WorkingDirectory {
            before,
            identity_before,
            is_ours: true,
        };
        if let Err(error) = step_to(rt, root, first) {
            directory.go_back(rt)?;
            return Err(error);
        }
        Ok(directory)
    }

    /// Makes that the working directory again which was it before.
    ///
    /// # Errors
    /// Where it isn't any more where it was. No relative path leads then to where it led before.
    pub(crate) fn go_back<R: Files + Env>(&mut self, rt: &R) -> io::Result<()> {
        self.is_ours = false;
        match step_to(rt, self.before.as_str(), self.identity_before) {
            Ok(_) => Ok(()),
            Err(error) => Err(told_of(error, IS_MOVED)),
        }
    }

    /// A path that leads to our folder. None where it can't be reached.
    pub(crate) fn here(&self, alloc: Global) -> Result<Option<String>, AllocError> {
        if self.is_ours {
            Ok(Some(String::from_str(alloc, ".")?))
        } else {
            Ok(None)
        }
    }
}

// ---- down

impl WorkingDirectory {
    /// Goes to the last folder of a trail from where we were before, by way of the first one. A relative path of
    /// the first one counts from there.
    fn go_from_first<R: AllocGlobal + Files + Env>(
        &self,
        rt: &R,
        trail: &Trail<'_>,
    ) -> io::Result<()> {
        let _ = step_to(rt, self.before.as_str(), self.identity_before)?;
        let _ = step_to(rt, trail.root, trail.first)?;
        for step in trail.steps.as_slice() {
            let path = path_below(rt.alloc(), ".", step.name.as_str())?;
            let _ = step_to(rt, path.as_str(), step.identity)?;
        }
        Ok(())
    }

    /// Stays in our folder, where a step led to another one.
    fn take_back<R: AllocGlobal + Files + Env>(&mut self, rt: &R, trail: &Trail<'_>) {
        let ours = trail.ours();
        self.is_ours = step_to(rt, ".", ours).is_ok()
            || step_to(rt, "..", ours).is_ok()
            || self.go_from_first(rt, trail).is_ok();
    }

    /// Goes down to the folder at a place in ours, which is the last one of a trail. None, and we stay, where it
    /// isn't the one that was listed.
    ///
    /// # Errors
    /// Those of the system, among them `NotADirectory` for a link and a file. We stay.
    pub(crate) fn enter<R: AllocGlobal + Files + Env>(
        &mut self,
        rt: &R,
        place: &str,
        listed: Option<Identity>,
        trail: &Trail<'_>,
    ) -> io::Result<Option<Identity>> {
        let told = Identity::of_folder(rt, place)?;
        if let Some(listed) = listed {
            if !told.is_same(listed) {
                return Ok(None);
            }
        }
        match step_to(rt, place, told) {
            Ok(_) => Ok(Some(told)),
            Err(error) => {
                self.take_back(rt, trail);
                Err(error)
            }
        }
    }
}

// ---- up

impl WorkingDirectory {
    /// Goes up to the folder above ours. It isn't our folder then where another one is above ours by now.
    pub(crate) fn leave<R: Files + Env>(&mut self, rt: &R, above: Identity) {
        self.is_ours = self.is_ours && step_to(rt, "..", above).is_ok();
    }

    /// Goes to our folder, where we aren't there, from the first one down.
    ///
    /// # Errors
    /// Where it can't be reached.
    pub(crate) fn reach<R: AllocGlobal + Files + Env>(
        &mut self,
        rt: &R,
        trail: &Trail<'_>,
    ) -> io::Result<()> {
        if !self.is_ours {
            self.go_from_first(rt, trail)?;
            self.is_ours = true;
        }
        Ok(())
    }
}
