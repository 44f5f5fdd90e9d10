//! `backup`: the volume's tree becomes that of a folder of the host, and is kept as the next snapshot.
use crate::asking::{Clock, Outcome, word};
use crate::comparing::{count_differences, tell_differences};
use crate::excluding::{patterns, tell_unmet};
use crate::faults::Fault;
use crate::keeping::{Given, keep};
use crate::own_files::judge_image;
use crate::printing::{Printer, tell_left_out};
use crate::progress::Progress;
use crate::scanning::{Scan, Selected, kept_tree, scan_folder};
use crate::storing::Keeping;
use crate::views::View;
use clap::ArgMatches;
use nl_folders::{Path, Tree};
use nl_manifests::HostTree;
use nl_types::Object;
use std::alloc::Global;
use std::io::Write;

/// What is to be kept of the folder that a command names, for an image that is there; and whether that is
/// all. What is left out is told.
pub fn gathered(
    rt: &HostRuntime,
    matches: &ArgMatches<'_>,
    progress: &mut Progress<'_>,
) -> Result<(HostTree, bool), Fault> {
    let image = word(matches, "IMAGE");
    judge_image(rt, image)?;
    let excluded = patterns(rt.alloc(), matches)?;
    let selected = Selected {
        folder: word(matches, "FOLDER"),
        excluded: excluded.as_slice(),
        is_plain: matches.get_flag("plain"),
        is_one_system: matches.get_flag("one-file-system"),
    };
    progress.tell("reading");
    let scan = scan_folder(rt, selected, image, progress);
    progress.end();
    let Scan { folder, left_out } = scan?;
    tell_left_out(rt, left_out.as_slice());
    tell_unmet(rt, matches, folder.as_slice())?;
    let is_whole = !left_out.iter().any(|left| left.reason.is_lack());
    Ok((folder, is_whole))
}

// ---- what a backup would do

/// The tree of the latest checkpoint of the image at a path. A late date is told.
fn present_tree(rt: &HostRuntime, path: &str, clock: &Clock<'_>) -> Result<Tree, Fault> {
    let view = View::read(rt, path, clock)?;
    view.present_tree(rt.alloc())
}

/// Tells how many paths a backup would change.
fn tell_count<W: Write>(
    alloc: Global,
    old: &[(Path, Object)],
    new: &[(Path, Object)],
    printer: &mut Printer<W>,
) -> Result<(), Fault> {
    let count = count_differences(alloc, old, new)?;
    let ending = if count == 1 { "" } else { "s" };
    writeln!(printer.out, "{count} path{ending} would change")?;
    Ok(())
}

/// Tells what a backup would change.
fn rehearse<W: Write>(
    rt: &HostRuntime,
    matches: &ArgMatches<'_>,
    clock: &Clock<'_>,
    printer: &mut Printer<W>,
) -> Result<Outcome, Fault> {
    let keeping = Keeping::said(rt, matches, clock)?;
    let mut progress = Progress::begin(rt, matches);
    let (folder, is_whole) = gathered(rt, matches, &mut progress)?;
    let tree = kept_tree(rt.alloc(), word(matches, "FOLDER"), folder)?;
    let present = present_tree(rt, keeping.path, clock)?;
    if keeping.is_quiet {
        tell_count(rt.alloc(), present.as_slice(), tree.as_slice(), printer)?;
    } else {
        tell_differences(rt.alloc(), present.as_slice(), tree.as_slice(), printer)?;
    }
    Ok(Outcome::of(is_whole))
}

// ---- a backup

/// Keeps a folder as the next snapshot, or tells what that would change.
pub fn backup<W: Write>(
    rt: &HostRuntime,
    matches: &ArgMatches<'_>,
    clock: &Clock<'_>,
    printer: &mut Printer<W>,
) -> Result<Outcome, Fault> {
    if matches.get_flag("dry-run") {
        return rehearse(rt, matches, clock, printer);
    }
    keep(rt, matches, clock, Given::Folder, printer)
}
