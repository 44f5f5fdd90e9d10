//! Folders of the host that are entered one after another, from a first one down. Each is entered by its name in
//! the one above, where no link is followed, and is known again by its device and its inode. So nobody who
//! renames folders meanwhile leads elsewhere, and no path that the system gets is longer than a name.
ghost use Rattle.std.specs.Prelude.{◌≡◌, ◌<◌, ◌++◌, ◌∷◌, [], IfOk, OnErr, OnOk, if◌then◌else◌, take, true, vec_capacity, vec_len};
ghost use Rattle.nl_host.specs.HostPaths.{is_host_name};
ghost use Rattle.nl_host.specs.Trails.{but_last, names};

use crate::handles::{Handles, Opened};
use crate::host_paths::{self, path_below};
use crate::identity::{Identity, not_there};
use crate::trail::{Step, Trail};
use crate::working_directory::WorkingDirectory;
use std::alloc::Global;
use std::fs::{File, Metadata, ReadDir};
use std::io::ErrorKind;
use std::rt::{Env, Files};
use std::{fs, io};

/// By what folders are reached.
#[derive(Drop)]
enum Way {
    Handles(Handles),
    /// Where the system has no paths that lead through handles.
    WorkingDirectory(WorkingDirectory),
}

/// A folder of the host and some below it, each of them in the one before. The last one is where we stand.
#[derive(Drop)]
pub(crate) struct OpenFolders<'a, R: Files> {
    files: &'a R,
    trail: Trail<'a>,
    way: Way,
}

/// A name as text, where a path of the host may have it.
fn name_text(name: &[u8]) -> io::Result<&str>
    ensures may { OnOk result (is_host_name name.now ≡ true) }
    ensures text { IfOk result (λ text. text.now ≡ name.now) }
{
    match host_paths::name_text(name) {
        Some(text) => Ok(text),
        None => Err(io::Error::from(ErrorKind::InvalidFilename)),
    }
}

// ---- both ways

impl Way {
    /// To the folder at a path, which is open.
    fn to<R: AllocGlobal + Files<File = File> + Env>(
        files: &R,
        root: &str,
        first: Opened,
    ) -> io::Result<Way> {
        if first.is_path(files)? {
            return Ok(Way::Handles(Handles::new(files.alloc(), first)?));
        }
        let identity = first.identity;
        drop(first);
        let directory = WorkingDirectory::at(files, root, identity)?;
        Ok(Way::WorkingDirectory(directory))
    }

    /// A path that leads to our folder. None where it can't be reached.
    fn here(&self, alloc: Global) -> io::Result<Option<String>> {
        match self {
            Way::Handles(handles) => handles.here(alloc),
            Way::WorkingDirectory(directory) => Ok(directory.here(alloc)?),
        }
    }

    /// Goes down to the folder at a place in ours, which is the last one of a trail. None, and we stay, where it
    /// isn't the one that was listed.
    fn enter<R: AllocGlobal + Files<File = File> + Env>(
        &mut self,
        files: &R,
        place: &str,
        listed: Option<Identity>,
        trail: &Trail<'_>,
    ) -> io::Result<Option<Identity>> {
        match self {
            Way::Handles(handles) => handles.enter(files, place, listed),
            Way::WorkingDirectory(directory) => directory.enter(files, place, listed, trail),
        }
    }

    /// Goes up to the folder above ours, if the one that is meant is there.
    fn leave<R: AllocGlobal + Files<File = File> + Env>(&mut self, files: &R, above: Identity) {
        match self {
            Way::Handles(handles) => handles.leave(files, above),
            Way::WorkingDirectory(directory) => directory.leave(files, above),
        }
    }

    /// Goes to the last folder of a trail, where we aren't there.
    fn reach<R: AllocGlobal + Files<File = File> + Env>(
        &mut self,
        files: &R,
        trail: &Trail<'_>,
    ) -> io::Result<()> {
        match self {
            Way::Handles(handles) => handles.reach(files, trail),
            Way::WorkingDirectory(directory) => directory.reach(files, trail),
        }
    }

    /// Leads nowhere any more. The working directory is what it was before.
    fn end<R: Files + Env>(&mut self, files: &R) -> io::Result<()> {
        match self {
            Way::Handles(_) => Ok(()),
            Way::WorkingDirectory(directory) => directory.go_back(files),
        }
    }
}

// ---- the first folder

impl<'a, R: AllocGlobal + Files<File = File> + Env> OpenFolders<'a, R> {
    /// The folder at a path, in which no link is to be followed any more. Until all are closed, a relative path may
    /// lead elsewhere.
    ///
    /// # Errors
    /// Those of the system, such as for a folder that can't be read.
    pub(crate) fn at(files: &'a R, root: &'a str) -> io::Result<OpenFolders<'a, R>>
        ensures { IfOk result (λ folders. names folders.trail ≡ []) }
    {
        let first = Opened::at(files, root)?;
        let trail = Trail {
            root,
            first: first.identity,
            steps: Vec::new(files.alloc()),
        };
        let way = Way::to(files, root, first)?;
        Ok(OpenFolders { files, trail, way })
    }

    /// Closes all of them. Relative paths lead to where they led before.
    ///
    /// # Errors
    /// Where they don't, since somebody moved the working directory.
    pub(crate) fn close(&mut self) -> io::Result<()> {
        self.way.end(self.files)
    }

    /// What tells the first folder from others.
    pub(crate) fn first(&self) -> Identity {
        self.trail.first
    }
}

// ---- paths

impl<R: AllocGlobal + Files<File = File> + Env> OpenFolders<'_, R> {
    /// A path that leads to our folder.
    ///
    /// # Errors
    /// `NotFound` where it can't be reached any more, and memory.
    pub(crate) fn here(&self) -> io::Result<String> {
        match self.way.here(self.files.alloc())? {
            Some(here) => Ok(here),
            None => Err(not_there()),
        }
    }

    /// A path that leads to what has a name in our folder. A link that stands there is followed or not, as
    /// the call has it that gets the path.
    ///
    /// # Errors
    /// Those of `here`, and `InvalidFilename`.
    pub(crate) fn place(&self, name: &[u8]) -> io::Result<String>
        ensures { OnOk result (is_host_name name.now ≡ true) }
    {
        let name = name_text(name)?;
        let here = self.here()?;
        Ok(path_below(self.files.alloc(), here.as_str(), name)?)
    }
}

// ---- what stands in our folder

impl<R: AllocGlobal + Files<File = File> + Env + Clone + Drop> OpenFolders<'_, R> {
    /// What the system tells of our folder itself.
    pub(crate) fn metadata(&self) -> io::Result<Metadata> {
        fs::metadata(self.files, self.here()?.as_str())
    }

    /// What stands in our folder, in no order.
    pub(crate) fn entries(&self) -> io::Result<ReadDir<R>> {
        fs::read_dir(self.files, self.here()?.as_str())
    }
}

// ---- down and up

impl<R: AllocGlobal + Files<File = File> + Env> OpenFolders<'_, R> {
    /// Goes down to the folder of a name in ours, for which there is memory in the trail then. It isn't there yet.
    fn step_down(&mut self, name: &[u8], listed: Option<Identity>) -> io::Result<Option<Identity>>
        ensures name { OnOk result (is_host_name name.now ≡ true) }
        ensures trail { names self.new.trail ≡ names self.old.trail }
        ensures room { OnOk result (vec_len self.new.trail.steps < vec_capacity self.new.trail.steps) }
    {
        self.trail.reserve()?;
        let place = self.place(name)?;
        self.way
            .enter(self.files, place.as_str(), listed, &self.trail)
    }

    /// Goes down to the folder of a name in ours. Answers false, and stays, where another folder stands there
    /// than was listed.
    ///
    /// # Errors
    /// Those of the system, among them `NotADirectory` for a link and a file. We stay.
    pub(crate) fn enter(&mut self, name: &[u8], listed: Option<Identity>) -> io::Result<bool>
        ensures name { OnOk result (is_host_name name.now ≡ true) }
        ensures down { IfOk result (λ is_down. names self.new.trail
            ≡ (if is_down then names self.old.trail ++ name.now ∷ [] else names self.old.trail)) }
        ensures err { OnErr result (names self.new.trail ≡ names self.old.trail) }
    {
        let text = String::from_str(self.files.alloc(), name_text(name)?)?;
        match self.step_down(name, listed)? {
            Some(identity) => {
                self.trail.push(Step {
                    name: text,
                    identity,
                });
                Ok(true)
            }
            None => Ok(false),
        }
    }

    /// Goes up to the folder above ours.
    fn leave(&mut self)
        ensures { names self.new.trail ≡ but_last (names self.old.trail) }
    {
        self.trail.pop();
        let above = self.trail.ours();
        self.way.leave(self.files, above);
    }

    /// Goes up until our folder lies so many folders below the first one.
    ///
    /// # Errors
    /// Where that folder can't be reached any more. We stand there all the same.
    pub(crate) fn climb_to(&mut self, depth: usize) -> io::Result<()>
        ensures { names self.new.trail ≡ take depth (names self.old.trail) }
    {
        let count = self.trail.steps.len().saturating_sub(depth);
        for _ in 0..count {
            self.leave();
        }
        self.way.reach(self.files, &self.trail)
    }
}
