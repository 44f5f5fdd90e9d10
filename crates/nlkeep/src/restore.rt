//! `restore`: a checkpoint's tree is laid out in a folder of the host.
use crate::asking::{Clock, Outcome, word};
use crate::checkpoints::kept_number;
use crate::faults::{Fault, fault_at, system_fault};
use crate::hosting::{ReadImage, refusal_fault};
use crate::manifests::tell_bad_manifests;
use crate::parts::path_said;
use crate::printing::{Printer, errors, tell_left_out, tell_refused};
use crate::views::tell_late;
use clap::ArgMatches;
use nl_backups::{Asker, HostFault, Refusal, Target};
use nl_folders::Path;
use nl_host::{Laid, Manner, Refused, lay_out};
use nl_keep_pen::OpenedVolume;
use nl_manifests::{HostEntry, HostTree, Opened};
use nl_names::Name;
use nl_types::{CheckpointNumber, Row};
use std::alloc::Global;
use std::fs::{self, DirBuilder};
use std::io::{self, ErrorKind, Write};
use std::os::unix::fs::DirBuilderExt;

/// Whether nothing is in a folder.
fn is_empty(rt: &HostRuntime, folder: &str) -> io::Result<bool> {
    let mut entries = fs::read_dir(rt, folder)?;
    Ok(entries.next().is_none())
}

/// Makes a new folder in which a tree is to be laid out. It is its owner's alone where its mode is set later,
/// or isn't known.
pub fn make_new(
    rt: &HostRuntime,
    folder: &str,
    part: &[(Path, HostEntry)],
    manner: Manner,
) -> io::Result<()> {
    let has_mode = match part {
        [(path, entry), ..] => path.is_empty() && entry.attributes.is_some(),
        [] => false,
    };
    let mut how = DirBuilder::new();
    if has_mode || manner.is_private {
        let _ = how.mode(0o700);
    }
    how.create(rt, folder)
}

/// Sees to it that a folder is there, and empty. It is made where nothing stands.
fn make_folder(
    rt: &HostRuntime,
    folder: &str,
    part: &[(Path, HostEntry)],
    manner: Manner,
) -> Result<(), Fault> {
    match make_new(rt, folder, part, manner) {
        Ok(()) => return Ok(()),
        Err(error) if error.kind() == ErrorKind::AlreadyExists => {}
        Err(error) => return Err(system_fault(rt.alloc(), folder, "cannot be made", &error)),
    }
    match is_empty(rt, folder) {
        Ok(true) => Ok(()),
        Ok(false) => Err(fault_at(rt.alloc(), folder, "is there and not empty")),
        Err(error) => Err(system_fault(rt.alloc(), folder, "is no folder to write to", &error)),
    }
}

/// What came of a tree that was laid out.
#[derive(Clone, Copy, PartialEq, Eq)]
pub enum Put {
    Whole,
    /// Something was left out, and told.
    Partly,
    /// So it would be with each further tree: the system takes no more.
    Ended,
}

impl<W: Write> Printer<W> {
    /// A path of the host that the system refused.
    fn refused_path(&mut self, refused: &Refused) -> io::Result<()> {
        self.out.write_all(b"nlkeep: left out: ")?;
        self.text(refused.path.as_str())?;
        writeln!(self.out, ": cannot be written: {}", refused.error)
    }

    /// That the system takes no more in a folder, and how much of what is due there lacks.
    fn ended(
        &mut self,
        folder: &str,
        error: &io::Error,
        lacking: usize,
        due: usize,
    ) -> io::Result<()> {
        self.out.write_all(b"nlkeep: left out: ")?;
        self.text(folder)?;
        writeln!(
            self.out,
            ": cannot be written: {error}: {lacking} of {due} paths are not there"
        )
    }
}

/// Tells what the system refused of a tree of so many entries, a line each, on standard error.
fn tell_refusals(
    rt: &HostRuntime,
    folder: &str,
    laid: &Laid,
    due: usize,
    ended: Option<&io::Error>,
) {
    let mut printer = errors(rt);
    for refused in laid.refused.as_slice() {
        let _ = printer.refused_path(refused);
    }
    if let Some(error) = ended {
        let _ = printer.ended(folder, error, due.saturating_sub(laid.count), due);
    }
}

/// Lays out a tree in a folder, and tells what was left out.
pub fn put_told(rt: &HostRuntime, folder: &str, part: &[(Path, HostEntry)], manner: Manner) -> Put {
    let mut laid = Laid::new(rt.alloc());
    let mut left_out = Vec::new(rt.alloc());
    let done = lay_out(rt, folder, part, manner, &mut laid, &mut left_out);
    tell_left_out(rt, left_out.as_slice());
    tell_left_out(rt, laid.unset.as_slice());
    match done {
        Ok(()) => {
            tell_refusals(rt, folder, &laid, part.len(), None);
            if left_out.is_empty() && laid.unset.is_empty() && laid.refused.is_empty() {
                Put::Whole
            } else {
                Put::Partly
            }
        }
        Err(error) => {
            tell_refusals(rt, folder, &laid, part.len(), Some(&error));
            Put::Ended
        }
    }
}

/// The checkpoint that a word means.
#[derive(Drop)]
struct Wished<'r, 'c, 'z, 'w> {
    rt: &'r HostRuntime,
    clock: &'c Clock<'z>,
    path: &'w str,
    word: &'w str,
    fault: Option<Fault>,
}

impl Wished<'_, '_, '_, '_> {
    /// Its number. A late date is told first.
    fn number_said(&self, rows: &[Row]) -> Result<CheckpointNumber, Fault> {
        tell_late(self.rt, self.path, rows, self.clock)?;
        kept_number(self.rt.alloc(), self.word, rows, self.clock)
    }
}

impl Asker<CheckpointNumber> for Wished<'_, '_, '_, '_> {
    fn asked(&mut self, _: &OpenedVolume, rows: &[Row]) -> Result<CheckpointNumber, HostFault> {
        match self.number_said(rows) {
            Ok(number) => Ok(number),
            Err(fault) => {
                self.fault = Some(fault);
                Err(HostFault)
            }
        }
    }
}

/// The folder of the host in which a tree is laid out. It is made last of all that may be refused.
#[derive(Drop)]
struct NewFolder<'r, 'w, 't> {
    rt: &'r HostRuntime,
    folder: &'w str,
    top: &'t [Name],
    with_owners: bool,
    /// Whether no manifest has to do with it that is none. Else what is of no known mode is its owner's
    /// alone.
    are_good: bool,
    /// Whether nothing was left out.
    is_whole: bool,
    fault: Option<Fault>,
}

impl<'r, 'w, 't> NewFolder<'r, 'w, 't> {
    /// The one that a command names, for what lies at and below a path.
    fn named(
        rt: &'r HostRuntime,
        matches: &ArgMatches<'w>,
        top: &'t [Name],
    ) -> NewFolder<'r, 'w, 't> {
        NewFolder {
            rt,
            folder: word(matches, "FOLDER"),
            top,
            with_owners: matches.get_flag("owners"),
            are_good: true,
            is_whole: true,
            fault: None,
        }
    }

    fn put(&mut self, part: &[(Path, HostEntry)]) -> Result<(), Fault> {
        let manner = Manner {
            with_owners: self.with_owners,
            is_private: !self.are_good,
        };
        make_folder(self.rt, self.folder, part, manner)?;
        if put_told(self.rt, self.folder, part, manner) != Put::Whole {
            self.is_whole = false;
        }
        Ok(())
    }
}

impl Target for NewFolder<'_, '_, '_> {
    ghost use Rattle.std.specs.Prelude.{None};

    ghost laid = { λ t. None };

    fn look(&mut self, shown: &Opened) -> Result<(), HostFault> {
        self.are_good = tell_bad_manifests(self.rt, shown.tree.as_slice(), self.top, None);
        let is_told_whole = tell_refused(self.rt, shown.refused.as_slice(), self.top);
        self.is_whole = self.are_good && is_told_whole;
        Ok(())
    }

    fn lay_out(&mut self, tree: HostTree) -> Result<(), HostFault> {
        match self.put(tree.as_slice()) {
            Ok(()) => Ok(()),
            Err(fault) => {
                self.fault = Some(fault);
                Err(HostFault)
            }
        }
    }
}

/// Why nothing is laid out.
fn restore_fault(
    alloc: Global,
    path: &str,
    top: &str,
    known: Option<Fault>,
    refusal: Refusal,
) -> Fault {
    match refusal {
        Refusal::NothingThere => fault_at(alloc, top, "nothing is there"),
        refusal => refusal_fault(alloc, path, known, refusal),
    }
}

/// Lays out what a checkpoint shows, or what lies at and below a path of it.
pub fn restore(
    rt: &HostRuntime,
    matches: &ArgMatches<'_>,
    clock: &Clock<'_>,
) -> Result<Outcome, Fault> {
    let (alloc, path, top) = (rt.alloc(), word(matches, "IMAGE"), word(matches, "path"));
    let names = path_said(alloc, top)?;
    let mut image = ReadImage {
        rt,
        path,
        fault: None,
    };
    let mut wished = Wished {
        rt,
        clock,
        path,
        word: word(matches, "CNO"),
        fault: None,
    };
    let mut folder = NewFolder::named(rt, matches, names.as_slice());
    match nl_backups::restore(
        alloc,
        &mut image,
        &mut wished,
        names.as_slice(),
        &mut folder,
    ) {
        Ok(_) => Ok(Outcome::of(folder.is_whole)),
        Err(refusal) => {
            let known = image
                .fault
                .take()
                .or(wished.fault.take())
                .or(folder.fault.take());
            Err(restore_fault(alloc, path, top, known, refusal))
        }
    }
}
