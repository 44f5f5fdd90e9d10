//! Calls that make and take away names.
ghost use Rattle.std.specs.Prelude.{◌≡◌, OnErr};
ghost use Rattle.nl_types.specs.Plain.Calls.{and_then, create, rmdir, unlink};
ghost use Rattle.nl_types.specs.Plain.Paths.{path_of};
ghost use Rattle.nl_types.specs.declared.kind.Kind.TheVariants as kind;
ghost use Rattle.nl_tree.specs.CurrentTrees.{AltersAs, AnswersAs, CanCall, HasCreated, HasRemoved};
ghost use Rattle.nl_tree.specs.Held.{new_object};

use crate::current::CurrentTree;
use crate::paths::{find_place, names_behind};
use crate::tree_read::{Base, TreeRead};
use nl_types::{Answer, Kind, VolError};
use std::alloc::Global;

impl CurrentTree {
    /// Makes an empty file or directory at a path, in the lowest free inode from 11 on (open(2), mkdir(2)).
    ///
    /// Refused by `BadPath` and `BadName` as the path's syntax is, by `NotDir` where a file is on the way, by
    /// `NotFound` where nothing is, by `Exists` where something stands there, by `TooBig` where there are
    /// 524,277 paths beside the root, and by `Memory`. Then the tree is as before.
    pub fn create<B: Base>(
        &mut self,
        alloc: Global,
        base: &B,
        path: &[u8],
        kind: Kind,
    ) -> Result<(), VolError>
        requires { CanCall (B.TreeRead.holds base.now) self.old }
        ensures done { AnswersAs (B.TreeRead.holds base.now) (λ _. Answer.Done) result self.old self.new
            (λ tree. and_then (path_of path.now) (create tree (new_object kind))) }
        ensures changes { AltersAs (B.TreeRead.holds base.now) result self.old self.new
            (HasCreated path.now kind) }
        ensures same { OnErr result (self.new ≡ self.old) }
    {
        let names = names_behind(path)?;
        if names.is_empty() {
            return Err(VolError::Exists);
        }
        // a match here and below, as `?` has no proof yet where a struct holds a reference beside a modelled
        // number
        let place = match find_place(&self.view(base), names) {
            Ok(place) => place,
            Err(refusal) => return Err(refusal),
        };
        if place.link.is_some() {
            return Err(VolError::Exists);
        }
        self.overlay
            .create(alloc, base, place.directory, place.name, kind)?;
        Ok(())
    }

    /// Takes away the file at a path (unlink(2)).
    ///
    /// Refused by `BadPath` and `BadName` as the path's syntax is, by `NotDir` where a file is on the way, by
    /// `NotFound` where nothing stands, by `IsDir` where a directory does, and by `Memory`. Then the tree is
    /// as before.
    pub fn unlink<B: Base>(&mut self, alloc: Global, base: &B, path: &[u8]) -> Result<(), VolError>
        requires { CanCall (B.TreeRead.holds base.now) self.old }
        ensures done { AnswersAs (B.TreeRead.holds base.now) (λ _. Answer.Done) result self.old self.new
            (λ tree. and_then (path_of path.now) (unlink tree)) }
        ensures changes { AltersAs (B.TreeRead.holds base.now) result self.old self.new
            (HasRemoved path.now kind.File) }
        ensures same { OnErr result (self.new ≡ self.old) }
    {
        let names = names_behind(path)?;
        if names.is_empty() {
            return Err(VolError::IsDir);
        }
        let place = match find_place(&self.view(base), names) {
            Ok(place) => place,
            Err(refusal) => return Err(refusal),
        };
        match place.link {
            None => Err(VolError::NotFound),
            Some((_, Kind::Directory)) => Err(VolError::IsDir),
            Some((inode, Kind::File)) => {
                self.overlay
                    .remove(alloc, base, place.directory, place.name, inode)
            }
        }
    }

    /// Takes away the empty directory at a path (rmdir(2)).
    ///
    /// Refused by `BadPath` and `BadName` as the path's syntax is, by `BadPath` for the root, by `NotDir`
    /// where a file stands there or is on the way, by `NotFound` where nothing stands, by `NotEmpty` where
    /// the directory has names, and by `Memory`. Then the tree is as before.
    pub fn rmdir<B: Base>(&mut self, alloc: Global, base: &B, path: &[u8]) -> Result<(), VolError>
        requires { CanCall (B.TreeRead.holds base.now) self.old }
        ensures done { AnswersAs (B.TreeRead.holds base.now) (λ _. Answer.Done) result self.old self.new
            (λ tree. and_then (path_of path.now) (rmdir tree)) }
        ensures changes { AltersAs (B.TreeRead.holds base.now) result self.old self.new
            (HasRemoved path.now kind.Directory) }
        ensures same { OnErr result (self.new ≡ self.old) }
    {
        let names = names_behind(path)?;
        if names.is_empty() {
            return Err(VolError::BadPath);
        }
        let place = match find_place(&self.view(base), names) {
            Ok(place) => place,
            Err(refusal) => return Err(refusal),
        };
        match place.link {
            None => Err(VolError::NotFound),
            Some((_, Kind::File)) => Err(VolError::NotDir),
            Some((inode, Kind::Directory)) => {
                if self.view(base).name_count(inode) > 0 {
                    return Err(VolError::NotEmpty);
                }
                self.overlay
                    .remove(alloc, base, place.directory, place.name, inode)
            }
        }
    }
}
