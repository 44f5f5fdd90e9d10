//! What a volume keeps: `list`, `ls`, `cat` and `diff`, and the way to the other commands that look at one.
use crate::amounts::{Amount, amount_of};
use crate::archives::tar;
use crate::asking::{Clock, Outcome, word};
use crate::checkpoints::is_minor;
use crate::commands::Look;
use crate::comparing::Comparing;
use crate::df::df;
use crate::faults::{Fault, volume_fault};
use crate::history::{find, history};
use crate::json::{CheckpointObject, PlacedObject, object};
use crate::moments::{shown, shown_in_zone};
use crate::outline::{Shown, du, nothing_there, tree};
use crate::parts::path_said;
use crate::printing::{Printer, Seen, tell_no_pins};
use crate::showing::show;
use crate::views::View;
use clap::ArgMatches;
use nl_folders::begins_with;
use nl_names::Name;
use nl_pins::Pins;
use nl_types::{CheckpointNumber, Mode, Row};
use std::alloc::Global;
use std::io::{self, Write};

fn kind(row: &Row) -> &'static str {
    match row.mode {
        Mode::Snapshot => "ss",
        Mode::Plain if row.minor => "cp minor",
        Mode::Plain => "cp",
    }
}

/// How much a checkpoint shows. Where it has the tree of the one before, that isn't looked at again.
pub fn amount_behind(
    alloc: Global,
    view: &View<'_>,
    before: Option<&Counted>,
    number: CheckpointNumber,
) -> Result<Amount, Fault> {
    match before {
        Some(before) if view.pen().is_same_tree(before.number, number) => {
            return Ok(before.amount);
        }
        _ => {}
    }
    let shown = view.shown_tree(alloc, number)?;
    match amount_of(alloc, view.volume(), number, shown.as_slice()) {
        Ok(amount) => Ok(amount),
        Err(error) => Err(volume_fault(alloc, view.path, error)),
    }
}

/// A checkpoint with how much its tree has.
#[derive(Clone, Copy)]
pub struct Counted {
    pub number: CheckpointNumber,
    pub amount: Amount,
}

/// Tells of a checkpoint by an object.
pub fn tell_object<W: Write>(
    alloc: Global,
    clock: &Clock<'_>,
    row: &Row,
    pin: Option<&[u8]>,
    counted: Option<&Counted>,
    printer: &mut Printer<W>,
) -> Result<(), Fault> {
    let date = shown(alloc, &clock.zone, row.stamp)?;
    let mut told = CheckpointObject::of(alloc, row, date.as_str(), pin)?;
    if let Some(counted) = counted {
        told.set_amount(counted.amount.paths, counted.amount.bytes);
    }
    object(alloc, &told, printer)
}

impl<W: Write> Printer<W> {
    /// A checkpoint in a line.
    fn row(
        &mut self,
        row: &Row,
        date: &str,
        pin: Option<&[u8]>,
        counted: Option<&Counted>,
    ) -> io::Result<()> {
        let (number, inodes, kind) = (row.number.get(), row.inodes, kind(row));
        write!(self.out, "{number:>8}  {date}  {kind:<8}  {inodes:>8}")?;
        if let Some(Counted { amount, .. }) = counted {
            write!(self.out, "  {:>8}  {:>10}", amount.paths, amount.bytes)?;
        }
        if let Some(text) = pin {
            self.pin(text)?;
        }
        self.line()
    }
}

/// What a command asks that looks at a volume.
#[derive(Clone, Copy)]
struct Asked<'q, 'm> {
    alloc: Global,
    matches: &'q ArgMatches<'m>,
    clock: &'q Clock<'q>,
    view: &'q View<'q>,
}

impl Asked<'_, '_> {
    /// How much the tree of a checkpoint has, where that is asked for.
    fn counted(
        &self,
        before: Option<&Counted>,
        number: CheckpointNumber,
    ) -> Result<Option<Counted>, Fault> {
        if !self.matches.get_flag("long") {
            return Ok(None);
        }
        let amount = amount_behind(self.alloc, self.view, before, number)?;
        Ok(Some(Counted { number, amount }))
    }

    /// Tells of a checkpoint by a line.
    fn tell_line<W: Write>(
        &self,
        row: &Row,
        pin: Option<&[u8]>,
        counted: Option<&Counted>,
        printer: &mut Printer<W>,
    ) -> Result<(), Fault> {
        let date = shown_in_zone(self.alloc, &self.clock.zone, row.stamp)?;
        printer.row(row, date.as_str(), pin, counted)?;
        Ok(())
    }

    /// Lists a checkpoint, if it is asked for. It answers the one that was counted last.
    fn list_row<W: Write>(
        &self,
        row: &Row,
        pins: Option<&Pins>,
        before: Option<Counted>,
        printer: &mut Printer<W>,
    ) -> Result<Option<Counted>, Fault> {
        if is_minor(row) && !self.matches.get_flag("all") {
            return Ok(before);
        }
        let counted = self.counted(before.as_ref(), row.number)?;
        let pin = pins.and_then(|pins| pins.text(row.number));
        if self.matches.get_flag("json") {
            tell_object(self.alloc, self.clock, row, pin, counted.as_ref(), printer)?;
        } else {
            self.tell_line(row, pin, counted.as_ref(), printer)?;
        }
        Ok(counted)
    }

    /// Lists the checkpoints, the oldest first.
    fn list<W: Write>(&self, rt: &HostRuntime, printer: &mut Printer<W>) -> Result<Outcome, Fault> {
        let pins = self.view.pins(self.alloc)?;
        let mut counted = None;
        for row in self.view.rows.as_slice() {
            counted = self.list_row(row, pins.as_ref(), counted, printer)?;
        }
        if pins.is_none() {
            tell_no_pins(rt);
        }
        Ok(Outcome::of(pins.is_some()))
    }

    /// Tells what stands at a path.
    fn tell_entry<W: Write>(
        &self,
        path: &[Name],
        seen: &Seen<'_>,
        printer: &mut Printer<W>,
    ) -> Result<(), Fault> {
        if self.matches.get_flag("json") {
            let told = PlacedObject::of(self.alloc, path, seen)?;
            return object(self.alloc, &told, printer);
        }
        printer.entry(path, seen)?;
        Ok(())
    }

    /// Tells what stands at and below a path. Answers whether something does.
    fn tell_entries<W: Write>(
        &self,
        shown: &Shown,
        printer: &mut Printer<W>,
    ) -> Result<bool, Fault> {
        let top = shown.top.as_slice();
        let mut is_there = false;
        for (path, entry) in shown.opened.tree.as_slice() {
            let path = path.as_slice();
            if begins_with(path, top) {
                let seen = self.view.seen_entry(self.alloc, shown.number, path, entry)?;
                self.tell_entry(path, &seen, printer)?;
                is_there = true;
            }
        }
        Ok(is_there)
    }

    /// Lists what lies at and below a path of a checkpoint, with the bytes of files.
    fn ls<W: Write>(&self, rt: &HostRuntime, printer: &mut Printer<W>) -> Result<Outcome, Fault> {
        let shown = Shown::of(self.alloc, self.matches, self.clock, self.view)?;
        if self.tell_entries(&shown, printer)? {
            Ok(shown.outcome(rt))
        } else {
            let _ = shown.outcome(rt);
            Err(nothing_there(self.alloc, self.matches))
        }
    }
}

/// The kept checkpoint that an argument means.
fn number_said(
    alloc: Global,
    matches: &ArgMatches<'_>,
    id: &str,
    clock: &Clock<'_>,
    view: &View<'_>,
) -> Result<CheckpointNumber, Fault> {
    view.number(alloc, word(matches, id), clock)
}

/// Writes the bytes of a file, and nothing else.
fn cat<W: Write>(
    alloc: Global,
    matches: &ArgMatches<'_>,
    clock: &Clock<'_>,
    view: &View<'_>,
    printer: &mut Printer<W>,
) -> Result<Outcome, Fault> {
    let number = number_said(alloc, matches, "CNO", clock, view)?;
    let bytes = view.file(alloc, number, word(matches, "PATH"))?;
    printer.out.write_all(bytes.as_slice())?;
    Ok(Outcome::Done)
}

/// Tells what differs from one checkpoint to another, at and below a path. A manifest that is none is told
/// too; where nothing differs beside that, so is the status.
fn diff<W: Write>(
    rt: &HostRuntime,
    matches: &ArgMatches<'_>,
    clock: &Clock<'_>,
    view: &View<'_>,
    printer: &mut Printer<W>,
) -> Result<Outcome, Fault> {
    let alloc = rt.alloc();
    let old = number_said(alloc, matches, "A", clock, view)?;
    let new = number_said(alloc, matches, "B", clock, view)?;
    let top = path_said(alloc, word(matches, "PATH"))?;
    let comparing = Comparing {
        view,
        old,
        new,
        top: top.as_slice(),
        is_json: matches.get_flag("json"),
    };
    let Some((count, are_good)) = comparing.tell_judged(rt, printer)? else {
        return Err(nothing_there(alloc, matches));
    };
    Ok(if count == 0 {
        Outcome::of(are_good)
    } else {
        Outcome::Differs
    })
}

/// Does a command that looks at a volume. A late date is told first.
fn look_at<W: Write>(
    rt: &HostRuntime,
    look: Look,
    matches: &ArgMatches<'_>,
    clock: &Clock<'_>,
    view: &View<'_>,
    printer: &mut Printer<W>,
) -> Result<Outcome, Fault> {
    view.tell_late(rt, clock)?;
    let alloc = rt.alloc();
    let asked = Asked {
        alloc,
        matches,
        clock,
        view,
    };
    match look {
        Look::List => asked.list(rt, printer),
        Look::Ls => asked.ls(rt, printer),
        Look::Cat => cat(alloc, matches, clock, view, printer),
        Look::Diff => diff(rt, matches, clock, view, printer),
        Look::History => history(alloc, matches, clock, view, printer),
        Look::Find => find(alloc, view, word(matches, "NAME"), printer),
        Look::Tree => tree(rt, matches, clock, view, printer),
        Look::Du => du(rt, matches, clock, view, printer),
        Look::Df => df(alloc, matches, view, printer),
        Look::Show => show(alloc, clock, view, printer),
        Look::Tar => tar(rt, matches, clock, view, printer),
    }
}

/// Opens the image that a command names, and does that command, which looks at it.
pub fn look<W: Write>(
    rt: &HostRuntime,
    look: Look,
    matches: &ArgMatches<'_>,
    clock: &Clock<'_>,
    printer: &mut Printer<W>,
) -> Result<Outcome, Fault> {
    let view = View::at(rt, word(matches, "IMAGE"))?;
    look_at(rt, look, matches, clock, &view, printer)
}
