//! `revert`: a file or a folder of a checkpoint comes back into the current tree.
use crate::asking::{Clock, Outcome, word};
use crate::checkpoints::kept_number;
use crate::faults::{Fault, fault_at};
use crate::hosting::LockedImage;
use crate::keeping::Follower;
use crate::manifests::tell_bad_manifests;
use crate::parts::path_said;
use crate::printing::{Printer, tell_refused};
use crate::storing::Keeping;
use crate::telling::tell_news;
use crate::unpacking::seal_fault;
use clap::ArgMatches;
use nl_backups::{Asker, BackedUp, HostFault, Listener, Refusal, Reviewer};
use nl_folders::Path;
use nl_keep_pen::OpenedVolume;
use nl_manifests::{LineFault, Opened};
use nl_names::Name;
use nl_types::{CheckpointNumber, Object, Row};
use std::io::Write;

/// Who brings something back.
#[derive(Drop)]
struct Reverter<'r, 'c, 'z, 'w, 't> {
    follower: Follower<'r, 'c, 'z, 'w>,
    /// Of which checkpoint.
    checkpoint: &'w str,
    /// The path at and below which it comes back.
    top: &'t [Name],
    /// Whether nothing was left out of both trees.
    is_whole: bool,
}

impl Reverter<'_, '_, '_, '_, '_> {
    /// The number of the checkpoint. Odd dates are told first.
    fn number_said(&self, rows: &[Row]) -> Result<CheckpointNumber, Fault> {
        self.follower.tell_dates(rows)?;
        let alloc = self.follower.rt.alloc();
        kept_number(alloc, self.checkpoint, rows, self.follower.clock)
    }

    /// Notes whether something is left out.
    fn note(&mut self, are_good: bool) {
        self.is_whole = self.is_whole && are_good;
    }
}

impl Asker<CheckpointNumber> for Reverter<'_, '_, '_, '_, '_> {
    fn asked(&mut self, _: &OpenedVolume, rows: &[Row]) -> Result<CheckpointNumber, HostFault> {
        match self.number_said(rows) {
            Ok(number) => Ok(number),
            Err(fault) => {
                self.follower.fault = Some(fault);
                Err(HostFault)
            }
        }
    }
}

impl Reviewer for Reverter<'_, '_, '_, '_, '_> {
    fn look(&mut self, earlier: &Opened, later: &Opened) {
        let rt = self.follower.rt;
        self.note(tell_bad_manifests(rt, earlier.tree.as_slice(), self.top, None));
        self.note(tell_bad_manifests(rt, later.tree.as_slice(), &[], None));
    }

    fn drop_lines(&mut self, earlier: &[(Path, LineFault)], later: &[(Path, LineFault)]) {
        let rt = self.follower.rt;
        self.note(tell_refused(rt, earlier, self.top));
        self.note(tell_refused(rt, later, &[]));
        self.follower.progress.tell("storing");
    }
}

impl Listener<BackedUp> for Reverter<'_, '_, '_, '_, '_> {
    fn done(&mut self, news: &BackedUp) -> Result<(), HostFault> {
        self.follower.done(news)
    }

    fn full(&mut self, image: &[u8], wanted: &[(Path, Object)]) {
        self.follower.full(image, wanted);
    }
}

/// Why nothing comes back. `path` is the word that says where.
fn revert_fault(
    path: &str,
    refusal: Refusal,
    follower: &mut Follower<'_, '_, '_, '_>,
    image: &mut LockedImage<'_, '_>,
) -> Fault {
    let alloc = follower.rt.alloc();
    match refusal {
        Refusal::NothingThere => fault_at(alloc, path, "nothing is there"),
        Refusal::NoFolder => fault_at(alloc, path, "lies below what is no folder now"),
        Refusal::Folder(error) => { seal_fault(alloc, path, error, "a file .nlkeep is in the way") }
        refusal => image.fault_of(follower.fault.take(), refusal),
    }
}

/// Keeps the current tree as the next snapshot, in which a file or a folder stands as a checkpoint has it.
pub fn revert<W: Write>(
    rt: &HostRuntime,
    matches: &ArgMatches<'_>,
    clock: &Clock<'_>,
    printer: &mut Printer<W>,
) -> Result<Outcome, Fault> {
    let (alloc, path) = (rt.alloc(), word(matches, "PATH"));
    let mut image = LockedImage::take(rt, word(matches, "IMAGE"))?;
    let keeping = Keeping::said(rt, matches, clock)?;
    let top = path_said(alloc, path)?;
    let mut reverter = Reverter {
        follower: Follower::new(rt, matches, clock, keeping, printer.is_terminal),
        checkpoint: word(matches, "CNO"),
        top: top.as_slice(),
        is_whole: true,
    };
    let done = nl_backups::revert(
        alloc,
        &mut image,
        &mut reverter,
        top.as_slice(),
        keeping.terms(),
    );
    let Reverter {
        mut follower,
        is_whole,
        ..
    } = reverter;
    if done.is_err() || !printer.is_terminal {
        follower.progress.end();
    }
    match done {
        Ok(_) => {
            tell_news(follower.news.take(), printer)?;
            Ok(image.outcome.and(Outcome::of(is_whole)))
        }
        Err(refusal) => Err(revert_fault(path, refusal, &mut follower, &mut image)),
    }
}
