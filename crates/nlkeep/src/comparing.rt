//! What differs between two trees.
use crate::faults::Fault;
use crate::json::{DifferenceObject, object};
use crate::manifests::tell_bad_manifests;
use crate::printing::{Printer, Seen};
use crate::views::{View, shown_alone};
use nl_folders::{Path, all_differences, begins_with, find_in};
use nl_keep_pen::ShownDifferences;
use nl_manifests::{HostDifference, HostTree, host_differences};
use nl_names::Name;
use nl_types::{CheckpointNumber, Items, Object};
use std::alloc::{AllocError, Global};
use std::io::{self, Write};

/// A tree of a volume, and what it shows but for the bytes of files.
#[derive(Drop)]
struct Side<'t> {
    tree: &'t [(Path, Object)],
    shown: HostTree,
}

impl<'t> Side<'t> {
    fn of(alloc: Global, tree: &'t [(Path, Object)]) -> Result<Side<'t>, Fault> {
        let shown = shown_alone(alloc, tree)?;
        Ok(Side { tree, shown })
    }

    /// What is shown at a path.
    fn at(&self, path: &[Name]) -> Option<Seen<'_>> {
        let entry = find_in(self.shown.as_slice(), path)?;
        let size = match find_in(self.tree, path) {
            Some(Object::File(bytes)) => bytes.len() as u64,
            _ => 0,
        };
        Some(Seen { entry, size })
    }
}

/// All that differs from what one tree shows to what another one does, in the order of the paths.
fn differences(
    alloc: Global,
    old: &Side<'_>,
    new: &Side<'_>,
) -> Result<Items<(Path, HostDifference)>, AllocError> {
    let of_objects = all_differences(alloc, old.tree, new.tree)?;
    host_differences(
        alloc,
        old.shown.as_slice(),
        new.shown.as_slice(),
        of_objects.as_slice(),
    )
}

fn tell_lines<W: Write>(
    old: &Side<'_>,
    new: &Side<'_>,
    all: &[(Path, HostDifference)],
    printer: &mut Printer<W>,
) -> io::Result<()> {
    for (path, difference) in all {
        let path = path.as_slice();
        printer.difference(path, *difference, old.at(path), new.at(path))?;
    }
    Ok(())
}

/// At how many paths what one tree shows differs from what another one does.
pub fn count_differences(
    alloc: Global,
    old: &[(Path, Object)],
    new: &[(Path, Object)],
) -> Result<usize, Fault> {
    let all = differences(alloc, &Side::of(alloc, old)?, &Side::of(alloc, new)?)?;
    Ok(all.len())
}

/// Tells what differs from what one tree shows to what another one does, in the order of the paths, a line
/// each. Answers how many paths that are.
pub fn tell_differences<W: Write>(
    alloc: Global,
    old: &[(Path, Object)],
    new: &[(Path, Object)],
    printer: &mut Printer<W>,
) -> Result<usize, Fault> {
    let old = Side::of(alloc, old)?;
    let new = Side::of(alloc, new)?;
    let all = differences(alloc, &old, &new)?;
    tell_lines(&old, &new, all.as_slice(), printer)?;
    Ok(all.len())
}

/// Whether one of two checkpoints shows something at a path.
fn show_any(told: &ShownDifferences, path: &[Name]) -> bool {
    let (old, new) = (told.before.tree.as_slice(), told.after.tree.as_slice());
    find_in(old, path).is_some() || find_in(new, path).is_some()
}

/// Two kept checkpoints of a volume that are compared.
#[derive(Clone, Copy)]
pub struct Comparing<'a> {
    pub view: &'a View<'a>,
    pub old: CheckpointNumber,
    pub new: CheckpointNumber,
    /// Nothing is told but of what lies at and below it.
    pub top: &'a [Name],
    /// Whether it is told by objects.
    pub is_json: bool,
}

impl Comparing<'_> {
    fn compared(&self, alloc: Global) -> Result<ShownDifferences, Fault> {
        self.view.differences(alloc, self.old, self.new)
    }

    /// Tells what differs at a path.
    fn tell_one<W: Write>(
        &self,
        alloc: Global,
        compared: &ShownDifferences,
        path: &[Name],
        difference: HostDifference,
        printer: &mut Printer<W>,
    ) -> Result<(), Fault> {
        let old = self
            .view
            .seen(alloc, self.old, compared.before.tree.as_slice(), path)?;
        let new = self
            .view
            .seen(alloc, self.new, compared.after.tree.as_slice(), path)?;
        if self.is_json {
            let told = DifferenceObject::of(alloc, path, difference, old, new)?;
            return object(alloc, &told, printer);
        }
        printer.difference(path, difference, old, new)?;
        Ok(())
    }

    fn tell_all<W: Write>(
        &self,
        alloc: Global,
        compared: &ShownDifferences,
        printer: &mut Printer<W>,
    ) -> Result<usize, Fault> {
        let top = self.top;
        let mut count: usize = 0;
        for (path, difference) in compared.all.as_slice() {
            let path = path.as_slice();
            if begins_with(path, top) {
                self.tell_one(alloc, compared, path, *difference, printer)?;
                count = count.saturating_add(1);
            }
        }
        Ok(count)
    }

    /// Tells the manifests of both checkpoints that are none. Answers whether there are none.
    fn tell_bad(&self, rt: &HostRuntime, compared: &ShownDifferences) -> bool {
        let (old, new) = (Some(self.old.get()), Some(self.new.get()));
        let are_old_good = tell_bad_manifests(rt, compared.before.tree.as_slice(), self.top, old);
        let are_new_good = tell_bad_manifests(rt, compared.after.tree.as_slice(), self.top, new);
        are_old_good && are_new_good
    }

    /// Tells what differs from one checkpoint to another, as `tell_differences` does. Answers how much
    /// differs.
    pub fn tell<W: Write>(&self, alloc: Global, printer: &mut Printer<W>) -> Result<usize, Fault> {
        let compared = self.compared(alloc)?;
        self.tell_all(alloc, &compared, printer)
    }

    /// The same, and tells which manifests are none. Answers whether there are none, too; or nothing where
    /// neither checkpoint shows anything at the path.
    pub fn tell_judged<W: Write>(
        &self,
        rt: &HostRuntime,
        printer: &mut Printer<W>,
    ) -> Result<Option<(usize, bool)>, Fault> {
        let alloc = rt.alloc();
        let compared = self.compared(alloc)?;
        if !show_any(&compared, self.top) {
            return Ok(None);
        }
        let are_good = self.tell_bad(rt, &compared);
        let count = self.tell_all(alloc, &compared, printer)?;
        Ok(Some((count, are_good)))
    }
}
