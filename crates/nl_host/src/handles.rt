//! Folders that are reached by handles: the system has paths that lead through what is open.
ghost use Rattle.std.specs.Prelude.{◌≡◌, IfOk, true};
ghost use Rattle.nl_host.specs.Identities.{is_same};

use crate::host_paths::path_below;
use crate::identity::Identity;
use crate::trail::Trail;
use std::alloc::Global;
use std::fs::{File, OpenFile};
use std::os::fd::AsRawFd;
use std::rt::Files;
use std::{fs, io};

/// How many of the folders are open at most. A program may have as few as ten handles for all that it does.
const MOST_OPEN: usize = 4;

/// A folder that is open, and what tells it from others.
#[derive(Drop)]
pub(crate) struct Opened {
    handle: File,
    pub(crate) identity: Identity,
}

/// A path that leads to what is open.
fn path_through(alloc: Global, handle: &File) -> io::Result<String> {
    let number = handle.as_raw_fd();
    Ok(format!(in alloc; "/proc/self/fd/{number}")?)
}

/// A path that leads to what has a name in an open folder.
fn path_from(alloc: Global, folder: &File, name: &str) -> io::Result<String> {
    let path = path_through(alloc, folder)?;
    Ok(path_below(alloc, path.as_str(), name)?)
}

impl Opened {
    /// The folder at a path. The slash and the point behind it lead into a folder alone, so a pipe that came to
    /// stand there just now isn't awaited.
    fn into<R: AllocGlobal + Files<File = File>>(rt: &R, path: &str) -> io::Result<Opened> {
        let alloc = rt.alloc();
        let inside = format!(in alloc; "{path}/.")?;
        let handle = fs::open(rt, inside.as_str())?;
        let identity = Identity::of(&handle.metadata()?);
        Ok(Opened { handle, identity })
    }

    /// The folder at a path, if it is the one that is meant.
    fn meant<R: AllocGlobal + Files<File = File>>(
        rt: &R,
        path: &str,
        meant: Identity,
    ) -> io::Result<Opened>
        ensures { IfOk result (λ opened. is_same opened.identity meant ≡ true) }
    {
        let opened = Opened::into(rt, path)?;
        opened.identity.expect(meant)?;
        Ok(opened)
    }

    /// The folder at a path, if it is the one that stands there by what the system tells. A link isn't followed:
    /// where one came to stand there just now, another folder is opened.
    pub(crate) fn at<R: AllocGlobal + Files<File = File>>(
        rt: &R,
        path: &str,
    ) -> io::Result<Opened> {
        let told = Identity::of_folder(rt, path)?;
        Opened::meant(rt, path, told)
    }

    /// Whether the system has paths that lead through handles.
    pub(crate) fn is_path<R: AllocGlobal + Files<File = File>>(&self, rt: &R) -> io::Result<bool> {
        let path = path_through(rt.alloc(), &self.handle)?;
        Ok(match fs::metadata(rt, path.as_str()) {
            Ok(told) => Identity::of(&told).is_same(self.identity),
            Err(_) => false,
        })
    }
}

/// Handles of the last folders of a trail, ours last. There is none where ours can't be reached.
#[derive(Drop)]
pub(crate) struct Handles {
    open: Vec<File>,
}

impl Handles {
    /// That of the first folder.
    pub(crate) fn new(alloc: Global, first: Opened) -> io::Result<Handles> {
        let mut open = Vec::with_capacity(alloc, MOST_OPEN)?;
        open.push(first.handle)?;
        Ok(Handles { open })
    }

    /// A path that leads to our folder. None where it can't be reached.
    pub(crate) fn here(&self, alloc: Global) -> io::Result<Option<String>> {
        match self.open.last() {
            Some(handle) => Ok(Some(path_through(alloc, handle)?)),
            None => Ok(None),
        }
    }

    fn add(&mut self, handle: File) -> io::Result<()> {
        if self.open.len() >= MOST_OPEN {
            drop(self.open.remove(0));
        }
        self.open.push(handle)?;
        Ok(())
    }

    /// Goes down to the folder at a place in ours. None, and we stay, where it isn't the one that was listed.
    ///
    /// # Errors
    /// Those of the system, among them `NotADirectory` for a link and a file. We stay.
    pub(crate) fn enter<R: AllocGlobal + Files<File = File>>(
        &mut self,
        rt: &R,
        place: &str,
        listed: Option<Identity>,
    ) -> io::Result<Option<Identity>> {
        let Opened { handle, identity } = Opened::at(rt, place)?;
        if let Some(listed) = listed {
            if !identity.is_same(listed) {
                return Ok(None);
            }
        }
        self.add(handle)?;
        Ok(Some(identity))
    }

    /// The folder above the one that is left, opened by that, if it is the one that is meant.
    fn add_above<R: AllocGlobal + Files<File = File>>(
        &mut self,
        rt: &R,
        left: &File,
        meant: Identity,
    ) -> io::Result<()> {
        let path = path_from(rt.alloc(), left, "..")?;
        let opened = Opened::meant(rt, path.as_str(), meant)?;
        self.add(opened.handle)
    }

    /// Goes up to the folder above ours. It has no handle then where another one is above ours by now.
    pub(crate) fn leave<R: AllocGlobal + Files<File = File>>(&mut self, rt: &R, above: Identity) {
        if let Some(left) = self.open.pop() {
            if self.open.is_empty() {
                let _ = self.add_above(rt, &left, above);
            }
        }
    }

    /// Opens our folder, where it isn't open, from the first one down.
    ///
    /// # Errors
    /// Where it can't be reached.
    pub(crate) fn reach<R: AllocGlobal + Files<File = File>>(
        &mut self,
        rt: &R,
        trail: &Trail<'_>,
    ) -> io::Result<()> {
        if !self.open.is_empty() {
            return Ok(());
        }
        let mut opened = Opened::meant(rt, trail.root, trail.first)?;
        for step in trail.steps.as_slice() {
            let path = path_from(rt.alloc(), &opened.handle, step.name.as_str())?;
            opened = Opened::meant(rt, path.as_str(), step.identity)?;
        }
        self.add(opened.handle)
    }
}
