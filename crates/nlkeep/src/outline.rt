//! `tree` and `du`: a checkpoint's tree with its branches drawn, and how many bytes its folders have.
use crate::asking::{Clock, Outcome, word};
use crate::faults::{Fault, fault_at};
use crate::json::{object, path_text};
use crate::manifests::tell_bad_manifests;
use crate::parts::path_said;
use crate::printing::{Printer, Seen, tell_refused};
use crate::views::View;
use clap::ArgMatches;
use nl_folders::{Path, begins_with};
use nl_manifests::{HostObject, Opened};
use nl_names::Name;
use nl_types::{CheckpointNumber, Items};
use serde::Serialize;
use std::alloc::{AllocError, Global};
use std::io::{self, Write};

/// What a checkpoint shows, and where a command looks.
#[derive(Drop)]
pub struct Shown {
    pub number: CheckpointNumber,
    pub opened: Opened,
    pub top: Path,
}

/// That nothing stands at the path that a command names.
pub fn nothing_there(alloc: Global, matches: &ArgMatches<'_>) -> Fault {
    fault_at(alloc, word(matches, "PATH"), "nothing is there")
}

impl Shown {
    pub fn of(
        alloc: Global,
        matches: &ArgMatches<'_>,
        clock: &Clock<'_>,
        view: &View<'_>,
    ) -> Result<Shown, Fault> {
        let number = view.number(alloc, word(matches, "CNO"), clock)?;
        let opened = view.shown(alloc, number)?;
        let top = path_said(alloc, word(matches, "PATH"))?;
        Ok(Shown {
            number,
            opened,
            top,
        })
    }

    /// What stands at and below the path, with the bytes of files.
    fn seen<'s>(&'s self, alloc: Global, view: &View<'_>) -> Result<Vec<Below<'s>>, Fault> {
        let mut all = Vec::new(alloc);
        let top = self.top.as_slice();
        for (path, entry) in self.opened.tree.as_slice() {
            let path = path.as_slice();
            if begins_with(path, top) {
                let seen = view.seen_entry(alloc, self.number, path, entry)?;
                let depth = path.len().saturating_sub(top.len());
                all.push(Below { path, depth, seen })?;
            }
        }
        Ok(all)
    }

    /// The same. It is refused where nothing stands there.
    fn found<'s>(
        &'s self,
        alloc: Global,
        matches: &ArgMatches<'_>,
        view: &View<'_>,
    ) -> Result<Vec<Below<'s>>, Fault> {
        let all = self.seen(alloc, view)?;
        if all.is_empty() {
            return Err(nothing_there(alloc, matches));
        }
        Ok(all)
    }

    /// Tells the manifests that are none, and the lines of others there that show nothing.
    pub fn outcome(&self, rt: &HostRuntime) -> Outcome {
        let (shown, top) = (self.opened.tree.as_slice(), self.top.as_slice());
        let are_good = tell_bad_manifests(rt, shown, top, None);
        Outcome::of(tell_refused(rt, self.opened.refused.as_slice(), top) && are_good)
    }
}

/// What stands at or below a path.
#[derive(Clone, Copy)]
struct Below<'s> {
    path: &'s [Name],
    /// How many names it has behind the path where a command looks.
    depth: usize,
    seen: Seen<'s>,
}

// ---- tree

fn is_set(flags: &[bool], place: usize) -> bool {
    match flags.get(place) {
        Some(flag) => *flag,
        None => false,
    }
}

/// Sets the flag of a depth, and takes away those of greater ones.
fn set_last(flags: &mut Vec<bool>, depth: usize) -> Result<(), AllocError> {
    flags.truncate(depth);
    for _ in flags.len()..depth {
        flags.push(false)?;
    }
    flags.push(true)?;
    Ok(())
}

/// Whether of each entry none comes behind it in its folder. They stand in the order of the paths, and the
/// answers in the other one.
fn are_last(alloc: Global, all: &[Below<'_>]) -> Result<Vec<bool>, AllocError> {
    let mut last = Vec::with_capacity(alloc, all.len())?;
    // Whether at each depth one came that stands in the folder of what comes next.
    let mut came: Vec<bool> = Vec::new(alloc);
    for below in all.iter().rev() {
        last.push(!is_set(came.as_slice(), below.depth))?;
        set_last(&mut came, below.depth)?;
    }
    Ok(last)
}

impl<W: Write> Printer<W> {
    /// What stands before the name: of each folder above but the first whether it is the last one there.
    fn branch(&mut self, above: &[bool], is_last: bool) -> io::Result<()> {
        for is_last in above {
            let text = if *is_last { "    " } else { "│   " };
            self.out.write_all(text.as_bytes())?;
        }
        let text = if is_last { "└── " } else { "├── " };
        self.out.write_all(text.as_bytes())
    }

    /// An entry by its name with its branch, and the first one by its path.
    fn outline(&mut self, below: &Below<'_>, above: &[bool], is_last: bool) -> io::Result<()> {
        match below.path {
            [.., name] if below.depth > 0 => {
                self.branch(above, is_last)?;
                self.named(name.as_slice(), &below.seen)?;
            }
            _ => self.place(below.path, &below.seen)?,
        }
        self.line()
    }
}

fn draw<W: Write>(alloc: Global, all: &[Below<'_>], printer: &mut Printer<W>) -> Result<(), Fault> {
    let mut last = are_last(alloc, all)?;
    let mut above: Vec<bool> = Vec::new(alloc);
    for below in all {
        let is_last = last.pop().unwrap_or(true);
        above.truncate(below.depth.saturating_sub(1));
        printer.outline(below, above.as_slice(), is_last)?;
        if below.depth > 0 {
            above.push(is_last)?;
        }
    }
    Ok(())
}

/// Draws what a checkpoint shows at and below a path.
pub fn tree<W: Write>(
    rt: &HostRuntime,
    matches: &ArgMatches<'_>,
    clock: &Clock<'_>,
    view: &View<'_>,
    printer: &mut Printer<W>,
) -> Result<Outcome, Fault> {
    let alloc = rt.alloc();
    let shown = Shown::of(alloc, matches, clock, view)?;
    let all = shown.found(alloc, matches, view)?;
    draw(alloc, all.as_slice(), printer)?;
    Ok(shown.outcome(rt))
}

// ---- du

/// Adds bytes to each folder in which they lie.
fn add_to_all(sums: &mut [u64], places: &[usize], bytes: u64) {
    for place in places {
        if let Some(sum) = sums.get_mut(*place) {
            *sum = sum.saturating_add(bytes);
        }
    }
}

/// How many bytes all files have that lie at and below each of the paths.
fn sums(alloc: Global, all: &[Below<'_>]) -> Result<Vec<u64>, AllocError> {
    let mut sums = Vec::with_capacity(alloc, all.len())?;
    // The places of what is above.
    let mut above: Vec<usize> = Vec::new(alloc);
    for below in all {
        above.truncate(below.depth);
        above.push(sums.len())?;
        sums.push(0)?;
        add_to_all(sums.as_mut_slice(), above.as_slice(), below.seen.size);
    }
    Ok(sums)
}

fn is_folder(below: &Below<'_>) -> bool {
    matches!(below.seen.entry.object, HostObject::Directory)
}

fn is_told(below: &Below<'_>) -> bool {
    below.depth == 0 || is_folder(below)
}

impl<W: Write> Printer<W> {
    /// How many bytes lie at and below a path, in a line.
    fn sum(&mut self, below: &Below<'_>, sum: u64) -> io::Result<()> {
        write!(self.out, "{sum:>10}  ")?;
        self.path(below.path, is_folder(below))?;
        self.line()
    }
}

fn tell_sums<W: Write>(
    alloc: Global,
    all: &[Below<'_>],
    printer: &mut Printer<W>,
) -> Result<(), Fault> {
    let sums = sums(alloc, all)?;
    for (below, sum) in all.iter().zip(sums.iter()) {
        if is_told(below) {
            printer.sum(below, *sum)?;
        }
    }
    Ok(())
}

/// Tells how many bytes the files of each folder have, at and below a path of a checkpoint.
pub fn du<W: Write>(
    rt: &HostRuntime,
    matches: &ArgMatches<'_>,
    clock: &Clock<'_>,
    view: &View<'_>,
    printer: &mut Printer<W>,
) -> Result<Outcome, Fault> {
    let alloc = rt.alloc();
    let shown = Shown::of(alloc, matches, clock, view)?;
    let all = shown.found(alloc, matches, view)?;
    tell_sums(alloc, all.as_slice(), printer)?;
    Ok(shown.outcome(rt))
}

/// A folder, and how many bytes all files have that lie in it, at any depth.
#[derive(Drop, Serialize)]
struct FolderObject {
    folder: String,
    bytes: u64,
}

fn tell_folder<W: Write>(
    alloc: Global,
    path: &[Name],
    bytes: u64,
    printer: &mut Printer<W>,
) -> Result<(), Fault> {
    let folder = path_text(alloc, path)?;
    object(alloc, &FolderObject { folder, bytes }, printer)
}

fn tell_all_folders<W: Write>(
    alloc: Global,
    all: &[Below<'_>],
    printer: &mut Printer<W>,
) -> Result<(), Fault> {
    let sums = sums(alloc, all)?;
    for (below, sum) in all.iter().zip(sums.iter()) {
        if is_folder(below) {
            tell_folder(alloc, below.path, *sum, printer)?;
        }
    }
    Ok(())
}

/// Tells each folder of a kept checkpoint by an object, in the order of their paths.
pub fn tell_folders<W: Write>(
    alloc: Global,
    view: &View<'_>,
    number: CheckpointNumber,
    printer: &mut Printer<W>,
) -> Result<(), Fault> {
    let shown = Shown {
        number,
        opened: view.shown(alloc, number)?,
        top: Items::new(alloc),
    };
    let all = shown.seen(alloc, view)?;
    tell_all_folders(alloc, all.as_slice(), printer)
}
