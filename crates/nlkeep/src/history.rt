//! `history` and `find`: where in the history of a volume something stood.
use crate::asking::{Clock, Outcome, word};
use crate::checkpoints::is_minor;
use crate::faults::{Fault, fault_at};
use crate::json::{StandingObject, object};
use crate::moments::shown;
use crate::parts::path_said;
use crate::printing::{Printer, Seen};
use crate::views::View;
use clap::ArgMatches;
use nl_folders::Path;
use nl_manifests::HostEntry;
use nl_names::Name;
use nl_types::{CheckpointNumber, Items, Row};
use std::alloc::{AllocError, Global};
use std::io::Write;

/// The checkpoints that aren't minor.
fn numbers_of(alloc: Global, rows: &[Row]) -> Result<Items<CheckpointNumber>, AllocError> {
    let mut numbers = Items::new(alloc);
    for row in rows {
        if !is_minor(row) {
            numbers.push(row.number)?;
        }
    }
    Ok(numbers)
}

/// Those of which something at or below a path is other than at the one before.
fn changes(
    alloc: Global,
    view: &View<'_>,
    path: &[Name],
) -> Result<Items<CheckpointNumber>, Fault> {
    let numbers = numbers_of(alloc, view.rows.as_slice())?;
    view.changes(alloc, numbers.as_slice(), path)
}

fn tell_object<W: Write>(
    alloc: Global,
    row: &Row,
    date: &str,
    seen: Option<Seen<'_>>,
    printer: &mut Printer<W>,
) -> Result<(), Fault> {
    let told = StandingObject::of(alloc, row, date, seen)?;
    object(alloc, &told, printer)
}

/// Tells what was seen of a checkpoint.
fn tell_seen<W: Write>(
    alloc: Global,
    row: &Row,
    seen: Option<Seen<'_>>,
    clock: &Clock<'_>,
    is_json: bool,
    printer: &mut Printer<W>,
) -> Result<(), Fault> {
    let date = shown(alloc, &clock.zone, row.stamp)?;
    if is_json {
        tell_object(alloc, row, date.as_str(), seen, printer)
    } else {
        printer.standing(row.number.get(), date.as_str(), seen)?;
        Ok(())
    }
}

/// Tells what stands at a path of a checkpoint.
fn tell_standing<W: Write>(
    alloc: Global,
    view: &View<'_>,
    row: &Row,
    path: &[Name],
    clock: &Clock<'_>,
    is_json: bool,
    printer: &mut Printer<W>,
) -> Result<(), Fault> {
    let tree = view.shown_tree(alloc, row.number)?;
    let seen = view.seen(alloc, row.number, tree.as_slice(), path)?;
    tell_seen(alloc, row, seen, clock, is_json, printer)
}

/// Tells each kept checkpoint whose tree differs at or below a path from that of the one before, the oldest
/// first, with its date and what stands there, in a line or an object. Minor ones, which no person made, are
/// passed over.
pub fn history<W: Write>(
    alloc: Global,
    matches: &ArgMatches<'_>,
    clock: &Clock<'_>,
    view: &View<'_>,
    printer: &mut Printer<W>,
) -> Result<Outcome, Fault> {
    let word = word(matches, "PATH");
    let is_json = matches.get_flag("json");
    let path = path_said(alloc, word)?;
    let changes = changes(alloc, view, path.as_slice())?;
    for row in view.rows.as_slice() {
        if changes.as_slice().contains(&row.number) {
            tell_standing(alloc, view, row, path.as_slice(), clock, is_json, printer)?;
        }
    }
    if changes.is_empty() {
        Err(fault_at(alloc, word, "nothing was ever there"))
    } else {
        Ok(Outcome::Done)
    }
}

/// Whether the last name of a path is this one.
fn is_named(path: &[Name], name: &str) -> bool {
    match path {
        [.., last] => last.as_slice() == name.as_bytes(),
        [] => false,
    }
}

/// Tells what the tree of a checkpoint shows under a name, wherever that is, a line each. Answers how many
/// they are.
fn find_in<W: Write>(
    alloc: Global,
    view: &View<'_>,
    number: CheckpointNumber,
    tree: &[(Path, HostEntry)],
    name: &str,
    printer: &mut Printer<W>,
) -> Result<u64, Fault> {
    let mut count: u64 = 0;
    for (path, entry) in tree {
        let path = path.as_slice();
        if is_named(path, name) {
            let seen = view.seen_entry(alloc, number, path, entry)?;
            printer.found(number.get(), path, &seen)?;
            count = count.saturating_add(1);
        }
    }
    Ok(count)
}

/// The same of a kept checkpoint.
fn find_there<W: Write>(
    alloc: Global,
    view: &View<'_>,
    number: CheckpointNumber,
    name: &str,
    printer: &mut Printer<W>,
) -> Result<u64, Fault> {
    let tree = view.shown_tree(alloc, number)?;
    find_in(alloc, view, number, tree.as_slice(), name, printer)
}

/// Tells what each kept checkpoint has under a name, the oldest first.
pub fn find<W: Write>(
    alloc: Global,
    view: &View<'_>,
    name: &str,
    printer: &mut Printer<W>,
) -> Result<Outcome, Fault> {
    let mut count: u64 = 0;
    for row in view.rows.as_slice() {
        if !is_minor(row) {
            count = count.saturating_add(find_there(alloc, view, row.number, name, printer)?);
        }
    }
    if count > 0 {
        Ok(Outcome::Done)
    } else {
        Err(fault_at(alloc, name, "no kept checkpoint has such a name"))
    }
}
