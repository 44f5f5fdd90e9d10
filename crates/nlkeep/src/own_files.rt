//! The files of an image on the host: itself, its sum, and those that saves left or kept beside these.
use crate::faults::{Fault, fault_at, system_fault};
use nl_host::{Identity, is_side_name};
use std::fs::DirEntry;
use std::path::{Path, PathBuf};
use std::rt::Files;
use std::{fs, io};

/// What tells the files of an image from others.
#[derive(Drop)]
pub struct OwnFiles {
    /// The image and its sum.
    pub image: Vec<Identity>,
    /// What saves left or kept beside these.
    pub sides: Vec<Identity>,
}

/// The folder of a path with its links followed, and the name in it, which need not stand there.
fn folder_and_name(rt: &HostRuntime, path: &str) -> io::Result<(PathBuf, String)> {
    let path = Path::new(path);
    let folder = match path.parent() {
        Some(folder) if !folder.as_str().is_empty() => folder,
        _ => Path::new("."),
    };
    let name = String::from_str(rt.alloc(), path.file_name().unwrap_or(""))?;
    Ok((fs::canonicalize(rt, folder)?, name))
}

/// What the system tells of the regular file at a path, if one stands there. A link isn't followed.
fn file_at(rt: &HostRuntime, path: &str) -> io::Result<Option<Identity>> {
    match fs::symlink_metadata(rt, path) {
        Ok(told) if told.is_file() => Ok(Some(Identity::of(&told))),
        Ok(_) => Ok(None),
        Err(error) if error.kind() == io::ErrorKind::NotFound => Ok(None),
        Err(error) => Err(error),
    }
}

impl OwnFiles {
    /// Adds a file of a folder whose name is that of a side file.
    fn add_side(
        &mut self,
        entry: &DirEntry<HostRuntime>,
        image: &str,
        sum: &str,
    ) -> io::Result<()> {
        let name = entry.file_name();
        if !is_side_name(image, name) && !is_side_name(sum, name) {
            return Ok(());
        }
        match entry.metadata() {
            Ok(told) => self.sides.push(Identity::of(&told))?,
            // A save that goes on takes it away again.
            Err(error) if error.kind() == io::ErrorKind::NotFound => {}
            Err(error) => return Err(error),
        }
        Ok(())
    }

    /// Adds the side files of an image and its sum in the folder where these stand. One that nobody may list
    /// can't be read for a backup either.
    fn add_sides(
        &mut self,
        rt: &HostRuntime,
        folder: &str,
        image: &str,
        sum: &str,
    ) -> io::Result<()> {
        let entries = match fs::read_dir(rt, folder) {
            Ok(entries) => entries,
            Err(error) if error.kind() == io::ErrorKind::PermissionDenied => return Ok(()),
            Err(error) => return Err(error),
        };
        for entry in entries {
            match entry {
                Ok(entry) => self.add_side(&entry, image, sum)?,
                Err(error) if error.kind() == io::ErrorKind::InvalidFilename => {}
                Err(error) => return Err(error),
            }
        }
        Ok(())
    }

    /// Adds the sum that stands beside an image of a name in a folder, and the side files of both.
    fn add_beside(&mut self, rt: &HostRuntime, folder: &str, image: &str) -> io::Result<()> {
        let alloc = rt.alloc();
        let sum = format!(in alloc; "{image}.sum")?;
        let path = format!(in alloc; "{folder}/{sum}")?;
        if let Some(sum) = file_at(rt, path.as_str())? {
            self.image.push(sum)?;
        }
        self.add_sides(rt, folder, image, sum.as_str())
    }

    /// The same of the image that the links of a path lead to, unless it stands in this folder under this
    /// name.
    fn add_behind(
        &mut self,
        rt: &HostRuntime,
        path: &str,
        folder: &str,
        image: &str,
    ) -> io::Result<()> {
        let real = fs::canonicalize(rt, path)?;
        let real = real.as_path();
        let (Some(real_folder), Some(name)) = (real.parent(), real.file_name()) else {
            return Ok(());
        };
        if real_folder.as_str() == folder && name == image {
            return Ok(());
        }
        self.add_beside(rt, real_folder.as_str(), name)
    }

    fn add_all(&mut self, rt: &HostRuntime, path: &str) -> io::Result<()> {
        self.image.push(Identity::of(&fs::metadata(rt, path)?))?;
        let (folder, name) = folder_and_name(rt, path)?;
        let (folder, name) = (folder.as_path().as_str(), name.as_str());
        self.add_beside(rt, folder, name)?;
        self.add_behind(rt, path, folder, name)
    }

    /// Those of the image at a path. Its sum stands beside it, or beside a link that leads to it.
    ///
    /// # Errors
    /// Where the image or what stands beside it can't be looked at.
    pub fn of(rt: &HostRuntime, path: &str) -> Result<OwnFiles, Fault> {
        let alloc = rt.alloc();
        let mut own = OwnFiles {
            image: Vec::new(alloc),
            sides: Vec::new(alloc),
        };
        match own.add_all(rt, path) {
            Ok(()) => Ok(own),
            Err(error) => Err(system_fault(alloc, path, "cannot be read", &error)),
        }
    }
}

// ---- an image that isn't there

/// Why an image at a path can't be read.
pub fn unread_image<R: AllocGlobal + Files>(rt: &R, path: &str) -> Fault {
    let alloc = rt.alloc();
    match fs::metadata(rt, path) {
        Err(error) if error.kind() == io::ErrorKind::NotFound => fault_at(
            alloc,
            path,
            "there is no such file; `nlkeep init` makes a new one",
        ),
        Err(error) => system_fault(alloc, path, "cannot be read", &error),
        Ok(told) if told.is_dir() => fault_at(alloc, path, "is a folder and no regular file"),
        Ok(_) => match fs::open(rt, path) {
            Err(error) => system_fault(alloc, path, "cannot be read", &error),
            Ok(_) => fault_at(alloc, path, "cannot be read"),
        },
    }
}

/// Sees to it that something stands at the path of an image, and no folder.
pub fn judge_image(rt: &HostRuntime, path: &str) -> Result<(), Fault> {
    match fs::metadata(rt, path) {
        Ok(told) if !told.is_dir() => Ok(()),
        _ => Err(unread_image(rt, path)),
    }
}
