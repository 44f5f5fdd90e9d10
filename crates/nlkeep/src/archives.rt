//! `tar` and `untar`: a checkpoint's tree as an archive, and the tree of an archive as the next snapshot.
use crate::asking::{Clock, Outcome, word};
use crate::faults::{Fault, fault_at};
use crate::gauge::Gauge;
use crate::keeping::{Given, keep};
use crate::manifests::tell_bad_manifests;
use crate::parts::{part_wanted, path_said};
use crate::printing::{Printer, tell_paths_left_out, tell_refused_below};
use crate::progress::Progress;
use crate::unpacking::{INPUT, Kept, LIMITS, input_fault, kept_of};
use crate::views::View;
use clap::ArgMatches;
use nl_folders::Path;
use nl_manifests::{HostEntry, HostTree, Opened};
use nl_shown::with_private;
use std::alloc::Global;
use std::io::{IsTerminal, Write};

/// What is said of an archive that has such a tree.
pub const UNSHOWN: &str = "has a tree that no volume shows";

/// Writes an archive to what is no terminal.
fn write_archive<W: Write>(
    alloc: Global,
    part: &[(Path, HostEntry)],
    printer: &mut Printer<W>,
) -> Result<(), Fault> {
    if printer.is_terminal {
        return Err(fault_at(
            alloc,
            "standard output",
            "is a terminal, and an archive is no text",
        ));
    }
    nl_tar::write(alloc, part, &mut printer.out)?;
    Ok(())
}

/// Writes the archive of what a checkpoint shows, or of what lies at and below a path of it.
pub fn tar<W: Write>(
    rt: &HostRuntime,
    matches: &ArgMatches<'_>,
    clock: &Clock<'_>,
    view: &View<'_>,
    printer: &mut Printer<W>,
) -> Result<Outcome, Fault> {
    let alloc = rt.alloc();
    let top = word(matches, "PATH");
    let Opened { tree, refused } = view.opened(alloc, word(matches, "CNO"), clock)?;
    let are_good = tell_bad_manifests(rt, tree.as_slice(), path_said(alloc, top)?.as_slice(), None);
    let mut part = part_wanted(alloc, tree, top)?;
    if !are_good {
        part = with_private(alloc, part)?;
    }
    write_archive(alloc, part.as_slice(), printer)?;
    let is_whole = tell_refused_below(rt, refused.as_slice(), top)?;
    Ok(Outcome::of(is_whole && are_good))
}

/// Sees to it that standard input is no terminal.
fn judge_input(rt: &HostRuntime) -> Result<(), Fault> {
    if rt.stdin().is_terminal() {
        return Err(fault_at(
            rt.alloc(),
            INPUT,
            "is a terminal, and an archive is no text",
        ));
    }
    Ok(())
}

/// What is to be kept of the archive that comes from standard input, and whether that is all. What is left out
/// is told.
pub fn unpacked(rt: &HostRuntime, progress: &mut Progress<'_>) -> Result<(HostTree, bool), Fault> {
    let alloc = rt.alloc();
    judge_input(rt)?;
    progress.tell("reading the archive");
    let mut gauge = Gauge::new(rt);
    let unpacked = nl_tar::read_from(alloc, Some(LIMITS), &mut gauge);
    progress.end();
    let Kept { folder, left_out } = match unpacked {
        Ok(unpacked) => kept_of(alloc, unpacked)?,
        Err(error) => return Err(input_fault(alloc, error, &gauge)),
    };
    tell_paths_left_out(rt, left_out.as_slice());
    Ok((folder, left_out.is_empty()))
}

/// Keeps the tree of an archive as the next snapshot.
pub fn untar<W: Write>(
    rt: &HostRuntime,
    matches: &ArgMatches<'_>,
    clock: &Clock<'_>,
    printer: &mut Printer<W>,
) -> Result<Outcome, Fault> {
    keep(rt, matches, clock, Given::Archive, printer)
}
