//! What is made of a tree on the host, in the order of its paths.
ghost use Rattle.std.specs.Prelude.{◌≡◌, ◌+◌, ◌<◌, ◌≤◌, ◌++◌, ◌∷◌, [], ◌&&◌, if◌then◌else◌, Contains, IsTrue, OnOk, is_ok, length, take, true, vec_len};
ghost use Rattle.nl_host.specs.HostPaths.{is_host_name};
ghost use Rattle.nl_host.specs.Puts.{Asked, AsksAll, AsksOnly, asked_also, directory, folder_at, given_if, is_walk, leads_to_text, made_if};
ghost use Rattle.nl_host.specs.Standing.{IsInFolder, KeepsAbove, LaysInOrder, Stands, is_above};
ghost use Rattle.nl_host.specs.Trails.{but_last};

use crate::host_paths::{host_path, name_text, text_of};
use crate::laying::Laying;
use crate::left_out::{LeftOut, Reason};
use crate::refusals::{Laid, Refused, is_of_all};
use nl_folders::{Path, begins_with};
use nl_manifests::{Attributes, HostEntry, HostObject};
use nl_names::Name;
use std::alloc::Global;
use std::io;

/// A tree that is laid out in a folder.
#[derive(Drop)]
pub(crate) struct Putting<'a, 'e> {
    alloc: Global,
    /// The path that is told of the folder.
    folder: &'a str,
    tree: &'e [(Path, HostEntry)],
    /// The folder in which we stand, by its names from below the first one.
    here: &'e [Name],
    /// What is to be set of the first folder once all that is in it is there.
    first: Option<Attributes>,
    /// And of each folder from below that one to ours.
    due: Vec<Option<Attributes>>,
}

impl<'a, 'e> Putting<'a, 'e> {
    /// Nothing of it is laid out yet. `folder` is told.
    pub(crate) fn new(
        alloc: Global,
        folder: &'a str,
        tree: &'e [(Path, HostEntry)],
    ) -> Putting<'a, 'e>
        ensures stands { Stands result.tree.now [] result.first result.due.items [] }
        ensures tree { result.tree.now ≡ tree.now }
        ensures here { result.here.now ≡ [] }
    {
        Putting {
            alloc,
            folder,
            tree,
            here: &[],
            first: None,
            due: Vec::new(alloc),
        }
    }
}

// ---- what comes of it

impl Putting<'_, '_> {
    /// Notes what of the attributes at a path isn't set, if anything.
    fn note(&self, path: &[Name], reason: Option<Reason>, laid: &mut Laid) -> io::Result<()>
        ensures { laid.new.refused ≡ laid.old.refused }
    {
        if let Some(reason) = reason {
            let (path, _) = host_path(self.alloc, self.folder, path)?;
            laid.unset.push(LeftOut { path, reason })?;
        }
        Ok(())
    }

    /// Notes what came of an entry. What the system refuses alone ends nothing.
    fn take(
        &self,
        path: &[Name],
        put: io::Result<Option<Reason>>,
        laid: &mut Laid,
    ) -> io::Result<()>
        ensures { OnOk result (vec_len laid.new.refused
            ≡ vec_len laid.old.refused + (if is_ok put then 0 else 1)) }
    {
        match put {
            Ok(reason) => {
                laid.count = laid.count.saturating_add(1);
                self.note(path, reason, laid)
            }
            Err(error) if is_of_all(&error) => Err(error),
            Err(error) => {
                let (path, _) = host_path(self.alloc, self.folder, path)?;
                laid.refused.push(Refused { path, error })?;
                Ok(())
            }
        }
    }
}

// ---- up

/// The folder above another one, by its names. Above the first one there is none.
fn above(folder: &[Name]) -> &[Name]
    ensures { result.now ≡ but_last folder.now }
{
    match folder {
        [above @ .., _] => above,
        [] => folder,
    }
}

impl Putting<'_, '_> {
    /// Sets what is to be set of our folder.
    fn finish<L: Laying>(
        &self,
        site: &mut L,
        attributes: Option<Attributes>,
        laid: &mut Laid,
    ) -> io::Result<()>
        ensures stays { L.trail site.new ≡ L.trail site.old }
        ensures asked { L.asked site.new
            ≡ asked_also (L.asked site.old) (given_if (L.trail site.old) attributes) }
        ensures refused { laid.new.refused ≡ laid.old.refused }
    {
        match attributes {
            Some(attributes) => {
                let reason = site.set_ours(attributes);
                self.note(self.here, reason, laid)
            }
            None => Ok(()),
        }
    }

    /// Goes up to the folder above ours. Where that can't be reached any more, all that is asked there is
    /// refused.
    fn climb<L: Laying>(&mut self, site: &mut L) -> io::Result<()>
        ensures here { self.new.here.now ≡ but_last self.old.here.now }
        ensures tree { self.new.tree.now ≡ self.old.tree.now }
        ensures due { self.new.due.items ≡ self.old.due.items }
        ensures first { self.new.first ≡ self.old.first }
        ensures trail { L.trail site.new ≡ take (length self.old.due.items) (L.trail site.old) }
        ensures asked { L.asked site.new ≡ L.asked site.old }
    {
        self.here = above(self.here);
        match site.climb_to(self.due.len()) {
            Err(error) if is_of_all(&error) => Err(error),
            _ => Ok(()),
        }
    }

    /// Goes out of our folder, of which all is there. That something of it can't be noted doesn't keep us there.
    fn leave<L: Laying>(&mut self, site: &mut L, laid: &mut Laid) -> io::Result<()>
        requires { Stands self.old.tree.now self.old.here.now self.old.first self.old.due.items
            (L.trail site.old) }
        ensures stands { Stands self.new.tree.now self.new.here.now self.new.first self.new.due.items
            (L.trail site.new) }
        ensures up { self.new.here.now ≡ but_last self.old.here.now }
        ensures tree { self.new.tree.now ≡ self.old.tree.now }
        ensures asked { Asked self.old.tree.now [] (L.asked site.old) (L.asked site.new) }
        ensures refused { laid.new.refused ≡ laid.old.refused }
    {
        let Some(attributes) = self.due.pop() else {
            return Ok(());
        };
        let finished = self.finish(site, attributes, laid);
        let climbed = self.climb(site);
        finished?;
        climbed
    }

    /// Whether our folder is above a path.
    fn leads_to(&self, path: &[Name]) -> bool
        ensures { result ≡ is_above self.now.here.now path.now }
    {
        self.here.len() < path.len() && begins_with(path, self.here)
    }

    /// Goes out of folders until ours is above a path, which isn't the first one's.
    fn leave_up_to<L: Laying>(
        &mut self,
        site: &mut L,
        path: &[Name],
        laid: &mut Laid,
    ) -> io::Result<()>
        requires stands { Stands self.old.tree.now self.old.here.now self.old.first self.old.due.items
            (L.trail site.old) }
        requires below { 0 < length path.now }
        ensures stands { Stands self.new.tree.now self.new.here.now self.new.first self.new.due.items
            (L.trail site.new) }
        ensures tree { self.new.tree.now ≡ self.old.tree.now }
        ensures asked { Asked self.old.tree.now [] (L.asked site.old) (L.asked site.new) }
        ensures refused { laid.new.refused ≡ laid.old.refused }
        ensures above { OnOk result (IsTrue (is_above self.new.here.now path.now)) }
        ensures keeps { KeepsAbove path.now self.old.here.now self.new.here.now }
    {
        while !self.leads_to(path) {
            self.leave(site, laid)?;
        }
        Ok(())
    }

    /// Goes out of all folders, and sets what is to be set of the first one. What can't be set of one keeps
    /// no other from being set.
    pub(crate) fn leave_all<L: Laying>(&mut self, site: &mut L, laid: &mut Laid) -> io::Result<()>
        requires { Stands self.old.tree.now self.old.here.now self.old.first self.old.due.items
            (L.trail site.old) }
        ensures asked { Asked self.old.tree.now [] (L.asked site.old) (L.asked site.new) }
        ensures refused { laid.new.refused ≡ laid.old.refused }
    {
        let mut done = Ok(());
        for _ in 0..self.due.len() {
            if let Err(error) = self.leave(site, laid) {
                done = Err(error);
            }
        }
        self.finish(site, self.first, laid)?;
        done
    }
}

// ---- down

impl<'e> Putting<'_, 'e> {
    /// Makes a folder under a name in ours, and goes into it. `path` is its own below the first one.
    fn put_folder<L: Laying>(
        &mut self,
        site: &mut L,
        path: &'e [Name],
        name: &[u8],
        attributes: Option<Attributes>,
    ) -> io::Result<()>
        requires stands { Stands self.old.tree.now self.old.here.now self.old.first self.old.due.items
            (L.trail site.old) }
        requires path { path.now ≡ self.old.here.now ++ name.now ∷ [] }
        requires name { is_host_name name.now ≡ true }
        requires entry { Contains self.old.tree.now (path.now, directory attributes) }
        ensures stands { Stands self.new.tree.now self.new.here.now self.new.first self.new.due.items
            (L.trail site.new) }
        ensures tree { self.new.tree.now ≡ self.old.tree.now }
        ensures asked { Asked self.old.tree.now ((path.now, directory attributes) ∷ [])
            (L.asked site.old) (L.asked site.new) }
        ensures down { OnOk result (self.new.here.now ≡ path.now) }
    {
        site.make_folder(name, attributes)?;
        self.due.push(attributes)?;
        if let Err(error) = site.enter(name) {
            drop(self.due.pop());
            return Err(error);
        }
        self.here = path;
        Ok(())
    }

    /// Makes what stands under a name in our folder. Answers what isn't set of it, if anything.
    fn put<L: Laying>(
        &mut self,
        site: &mut L,
        path: &'e [Name],
        name: &[u8],
        entry: &HostEntry,
    ) -> io::Result<Option<Reason>>
        requires stands { Stands self.old.tree.now self.old.here.now self.old.first self.old.due.items
            (L.trail site.old) }
        requires path { path.now ≡ self.old.here.now ++ name.now ∷ [] }
        requires name { is_host_name name.now ≡ true }
        requires entry { Contains self.old.tree.now (path.now, entry.now) }
        ensures stands { Stands self.new.tree.now self.new.here.now self.new.first self.new.due.items
            (L.trail site.new) }
        ensures tree { self.new.tree.now ≡ self.old.tree.now }
        ensures asked { Asked self.old.tree.now
            (made_if (leads_to_text entry.now.object) (path.now, entry.now))
            (L.asked site.old) (L.asked site.new) }
        ensures stays { OnOk result (self.new.here.now ≡ folder_at entry.now.object path.now) }
    {
        let attributes = entry.attributes;
        match &entry.object {
            HostObject::Directory => {
                self.put_folder(site, path, name, attributes)?;
                Ok(None)
            }
            HostObject::File(bytes) => site.make_file(name, bytes.as_slice(), attributes),
            HostObject::Link(target) => match text_of(target.as_slice()) {
                Some(target) => site.make_link(name, target, attributes),
                None => Ok(None),
            },
        }
    }

    /// Lays out an entry of our folder, if its name may stand on the host.
    fn lay_here<L: Laying>(
        &mut self,
        site: &mut L,
        path: &'e [Name],
        name: &[u8],
        entry: &HostEntry,
        laid: &mut Laid,
    ) -> io::Result<()>
        requires stands { Stands self.old.tree.now self.old.here.now self.old.first self.old.due.items
            (L.trail site.old) }
        requires path { path.now ≡ self.old.here.now ++ name.now ∷ [] }
        requires entry { Contains self.old.tree.now (path.now, entry.now) }
        ensures stands { Stands self.new.tree.now self.new.here.now self.new.first self.new.due.items
            (L.trail site.new) }
        ensures tree { self.new.tree.now ≡ self.old.tree.now }
        ensures asked { Asked self.old.tree.now
            (made_if (is_host_name name.now && leads_to_text entry.now.object) (path.now, entry.now))
            (L.asked site.old) (L.asked site.new) }
        ensures refused { OnOk result (vec_len laid.old.refused ≤ vec_len laid.new.refused) }
        ensures here { OnOk result (vec_len laid.new.refused ≡ vec_len laid.old.refused
            → IsInFolder name.now entry.now.object path.now self.old.here.now self.new.here.now) }
    {
        if name_text(name).is_none() {
            return Ok(());
        }
        let put = self.put(site, path, name, entry);
        self.take(path, put, laid)
    }

    /// Lays out an entry, where its folder is there and its name may stand on the host.
    fn lay<L: Laying>(
        &mut self,
        site: &mut L,
        entry: &'e (Path, HostEntry),
        laid: &mut Laid,
    ) -> io::Result<()>
        requires stands { Stands self.old.tree.now self.old.here.now self.old.first self.old.due.items
            (L.trail site.old) }
        requires entry { Contains self.old.tree.now entry.now }
        ensures stands { Stands self.new.tree.now self.new.here.now self.new.first self.new.due.items
            (L.trail site.new) }
        ensures tree { self.new.tree.now ≡ self.old.tree.now }
        ensures asked { AsksOnly self.old.tree.now (L.asked site.old) (L.asked site.new) }
        ensures refused { OnOk result (vec_len laid.old.refused ≤ vec_len laid.new.refused) }
        ensures order { OnOk result (vec_len laid.new.refused ≡ vec_len laid.old.refused
            → LaysInOrder self.old.tree.now entry.now (L.asked site.old) (L.asked site.new)
            self.old.here.now self.new.here.now) }
    {
        let path = entry.0.as_slice();
        let [folder @ .., name] = path else {
            self.first = entry.1.attributes;
            laid.count = laid.count.saturating_add(1);
            return Ok(());
        };
        self.leave_up_to(site, path, laid)?;
        if self.here.len() != folder.len() {
            return Ok(());
        }
        self.lay_here(site, path, name.as_slice(), &entry.1, laid)
    }

    /// Lays out all entries, in the order of their paths.
    pub(crate) fn lay_all<L: Laying>(&mut self, site: &mut L, laid: &mut Laid) -> io::Result<()>
        requires stands { Stands self.old.tree.now self.old.here.now self.old.first self.old.due.items
            (L.trail site.old) }
        requires first { self.old.here.now ≡ [] }
        ensures stands { Stands self.new.tree.now self.new.here.now self.new.first self.new.due.items
            (L.trail site.new) }
        ensures tree { self.new.tree.now ≡ self.old.tree.now }
        ensures asked { AsksOnly self.old.tree.now (L.asked site.old) (L.asked site.new) }
        ensures all { OnOk result (vec_len laid.new.refused ≡ vec_len laid.old.refused
            → IsTrue (is_walk [] self.old.tree.now)
            → AsksAll self.old.tree.now (L.asked site.old) (L.asked site.new)) }
    {
        let tree = self.tree;
        for entry in tree {
            self.lay(site, entry, laid)?;
        }
        Ok(())
    }
}
