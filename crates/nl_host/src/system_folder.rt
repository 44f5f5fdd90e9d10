//! The folder of the system in which a tree is laid out.
ghost use Rattle.std.specs.Prelude.{◌≡◌, [], IfOk};
ghost use Rattle.nl_host.specs.Trails.{names};

use crate::attributes::{set_attributes, set_link_owners};
use crate::identity::not_there;
use crate::laying::Laying;
use crate::left_out::Reason;
use crate::open_folders::OpenFolders;
use nl_manifests::Attributes;
use std::fs::{DirBuilder, File, OpenOptions};
use std::io::Write;
use std::os::unix::fs::{DirBuilderExt, OpenOptionsExt, symlink};
use std::rt::{Env, Files};
use std::{fs, io};

/// How a tree is laid out.
#[derive(Clone, Copy)]
pub struct Manner {
    /// Whether owners are set.
    pub with_owners: bool,
    /// Whether that of which no attributes are known is its owner's alone. Else the system says who may do what
    /// with it.
    pub is_private: bool,
}

/// A folder of the system, and those that are made and entered below it.
#[derive(Drop)]
pub(crate) struct SystemFolder<'a, R: Files> {
    rt: &'a R,
    manner: Manner,
    folders: OpenFolders<'a, R>,
}

impl<'a, R: AllocGlobal + Files<File = File> + Env> SystemFolder<'a, R> {
    /// The folder that the system finds at a path, where no link is followed. Until it is closed, a relative path
    /// may lead elsewhere.
    ///
    /// # Errors
    /// Those of `OpenFolders::at`.
    pub(crate) fn at(rt: &'a R, root: &'a str, manner: Manner) -> io::Result<SystemFolder<'a, R>>
        ensures { IfOk result (λ folder. names folder.folders.trail ≡ []) }
    {
        Ok(SystemFolder {
            rt,
            manner,
            folders: OpenFolders::at(rt, root)?,
        })
    }

    /// Closes all folders.
    ///
    /// # Errors
    /// Those of `OpenFolders::close`.
    pub(crate) fn close(&mut self) -> io::Result<()> {
        self.folders.close()
    }

    fn is_private(&self, attributes: Option<Attributes>) -> bool {
        self.manner.is_private || attributes.is_some()
    }

    /// A new file of these bytes. What stands there, a link too, is neither written to nor replaced. A file that
    /// isn't whole is taken away again.
    fn put_file(
        &self,
        name: &[u8],
        bytes: &[u8],
        attributes: Option<Attributes>,
    ) -> io::Result<Option<Reason>> {
        let mut how = OpenOptions::new();
        let _ = how.write(true);
        let _ = how.create_new(true);
        if self.is_private(attributes) {
            let _ = how.mode(0o600);
        }
        let place = self.folders.place(name)?;
        let mut file = how.open(self.rt, place.as_str())?;
        if let Err(error) = file.write_all(bytes) {
            let _ = fs::remove_file(self.rt, place.as_str());
            return Err(error);
        }
        Ok(match attributes {
            Some(attributes) => set_attributes(&file, attributes, self.manner.with_owners),
            None => None,
        })
    }

    /// A new link. It has no mode of its own, and std can't set its time.
    fn put_link(
        &self,
        name: &[u8],
        target: &str,
        attributes: Option<Attributes>,
    ) -> io::Result<Option<Reason>> {
        let place = self.folders.place(name)?;
        symlink(self.rt, target, place.as_str())?;
        Ok(match attributes {
            Some(attributes) if self.manner.with_owners => {
                set_link_owners(self.rt, place.as_str(), attributes)
            }
            _ => None,
        })
    }
}

impl<R: AllocGlobal + Files<File = File> + Env> Laying for SystemFolder<'_, R> {
    ghost use Rattle.std.specs.Prelude.{None};

    ghost trail = { λ s. names s.folders.trail };

    ghost asked = { λ s. None };

    fn make_folder(&mut self, name: &[u8], attributes: Option<Attributes>) -> io::Result<()> {
        let mut how = DirBuilder::new();
        if self.is_private(attributes) {
            let _ = how.mode(0o700);
        }
        how.create(self.rt, self.folders.place(name)?.as_str())
    }

    fn enter(&mut self, name: &[u8]) -> io::Result<()> {
        if self.folders.enter(name, None)? {
            Ok(())
        } else {
            Err(not_there())
        }
    }

    fn make_file(
        &mut self,
        name: &[u8],
        bytes: &[u8],
        attributes: Option<Attributes>,
    ) -> io::Result<Option<Reason>> {
        self.put_file(name, bytes, attributes)
    }

    fn make_link(
        &mut self,
        name: &[u8],
        target: &str,
        attributes: Option<Attributes>,
    ) -> io::Result<Option<Reason>> {
        self.put_link(name, target, attributes)
    }

    /// By its handle.
    fn set_ours(&mut self, attributes: Attributes) -> Option<Reason> {
        let Ok(place) = self.folders.here() else {
            return Some(Reason::Mode);
        };
        match fs::open(self.rt, place.as_str()) {
            Ok(file) => set_attributes(&file, attributes, self.manner.with_owners),
            Err(_) => Some(Reason::Mode),
        }
    }

    fn climb_to(&mut self, depth: usize) -> io::Result<()> {
        self.folders.climb_to(depth)
    }
}
