//! What is given to be kept, a folder or an archive, becomes the next snapshot of an image.
use crate::archives::{UNSHOWN, unpacked};
use crate::asking::{Clock, Outcome, word};
use crate::backup::gathered;
use crate::faults::Fault;
use crate::fullness::full_fault;
use crate::hosting::LockedImage;
use crate::printing::Printer;
use crate::progress::Progress;
use crate::scanning::CHANGED;
use crate::storing::Keeping;
use crate::telling::{News, tell_news};
use crate::unpacking::{INPUT, seal_fault};
use crate::views::{Made, tell_earlier, tell_late};
use clap::ArgMatches;
use nl_backups::{Asker, BackedUp, HostFault, Listener, Refusal, Source};
use nl_folders::Path;
use nl_keep_pen::OpenedVolume;
use nl_manifests::{HostTree, SealError};
use nl_types::{Object, Row};
use std::alloc::Global;
use std::io::Write;

/// What is to be kept.
#[derive(Clone, Copy)]
pub enum Given {
    /// The folder that a command names.
    Folder,
    /// The archive that comes from standard input.
    Archive,
}

/// What a command is given to keep.
#[derive(Drop)]
struct GivenSource<'r, 'm, 'w> {
    rt: &'r HostRuntime,
    matches: &'m ArgMatches<'w>,
    given: Given,
    /// Whether nothing was left out of it.
    is_whole: bool,
    fault: Option<Fault>,
}

impl GivenSource<'_, '_, '_> {
    /// What is to be kept, and whether that is all.
    fn gather(&self) -> Result<(HostTree, bool), Fault> {
        let mut progress = Progress::begin(self.rt, self.matches);
        match self.given {
            Given::Folder => gathered(self.rt, self.matches, &mut progress),
            Given::Archive => unpacked(self.rt, &mut progress),
        }
    }

    /// Why no tree of a volume keeps it.
    fn seal_fault(&self, error: SealError) -> Fault {
        let alloc = self.rt.alloc();
        match self.given {
            Given::Folder => seal_fault(alloc, word(self.matches, "FOLDER"), error, CHANGED),
            Given::Archive => seal_fault(alloc, INPUT, error, UNSHOWN),
        }
    }
}

impl Source for GivenSource<'_, '_, '_> {
    ghost use Rattle.std.specs.Prelude.{None};

    ghost folder = { λ s. None };

    fn read(&mut self, _: Global) -> Result<HostTree, HostFault> {
        match self.gather() {
            Ok((folder, is_whole)) => {
                self.is_whole = is_whole;
                Ok(folder)
            }
            Err(fault) => {
                self.fault = Some(fault);
                Err(HostFault)
            }
        }
    }
}

/// Who is told of what is kept.
#[derive(Drop)]
pub struct Follower<'r, 'c, 'z, 'w> {
    pub rt: &'r HostRuntime,
    pub clock: &'c Clock<'z>,
    keeping: Keeping<'w>,
    pub progress: Progress<'r>,
    is_terminal: bool,
    /// What is told once the image is saved.
    pub news: Option<News>,
    pub fault: Option<Fault>,
}

impl<'r, 'c, 'z, 'w> Follower<'r, 'c, 'z, 'w> {
    pub fn new(
        rt: &'r HostRuntime,
        matches: &ArgMatches<'_>,
        clock: &'c Clock<'z>,
        keeping: Keeping<'w>,
        is_terminal: bool,
    ) -> Follower<'r, 'c, 'z, 'w> {
        Follower {
            rt,
            clock,
            keeping,
            progress: Progress::begin(rt, matches),
            is_terminal,
            news: None,
            fault: None,
        }
    }

    /// Tells that the latest checkpoint is later than the clock, or than the moment that is asked for.
    pub fn tell_dates(&self, rows: &[Row]) -> Result<(), Fault> {
        let Keeping { path, moment, .. } = self.keeping;
        tell_late(self.rt, path, rows, self.clock)?;
        tell_earlier(self.rt, path, rows, self.clock, moment, Made::Checkpoint)
    }

    fn news_of(&self, done: &BackedUp) -> Result<News, Fault> {
        let alloc = self.rt.alloc();
        let tree = done.tree.as_slice();
        self.keeping.told_of(
            alloc,
            &done.stored,
            done.grown,
            tree,
            &self.progress,
            self.is_terminal,
        )
    }
}

impl Asker<()> for Follower<'_, '_, '_, '_> {
    fn asked(&mut self, _: &OpenedVolume, rows: &[Row]) -> Result<(), HostFault> {
        match self.tell_dates(rows) {
            Ok(()) => {
                self.progress.tell("storing");
                Ok(())
            }
            Err(fault) => {
                self.fault = Some(fault);
                Err(HostFault)
            }
        }
    }
}

impl Listener<BackedUp> for Follower<'_, '_, '_, '_> {
    fn done(&mut self, news: &BackedUp) -> Result<(), HostFault> {
        self.progress.tell("digesting and saving");
        match self.news_of(news) {
            Ok(news) => {
                self.news = Some(news);
                Ok(())
            }
            Err(fault) => {
                self.fault = Some(fault);
                Err(HostFault)
            }
        }
    }

    fn full(&mut self, image: &[u8], wanted: &[(Path, Object)]) {
        let Keeping { path, most, .. } = self.keeping;
        self.fault = Some(full_fault(self.rt.alloc(), path, image, wanted, most));
    }
}

/// Keeps what a command is given as the next snapshot of its image, and tells what that came to.
pub fn keep<W: Write>(
    rt: &HostRuntime,
    matches: &ArgMatches<'_>,
    clock: &Clock<'_>,
    given: Given,
    printer: &mut Printer<W>,
) -> Result<Outcome, Fault> {
    let mut image = LockedImage::take(rt, word(matches, "IMAGE"))?;
    let keeping = Keeping::said(rt, matches, clock)?;
    let mut source = GivenSource {
        rt,
        matches,
        given,
        is_whole: true,
        fault: None,
    };
    let mut follower = Follower::new(rt, matches, clock, keeping, printer.is_terminal);
    let done = nl_backups::backup(
        rt.alloc(),
        &mut image,
        &mut source,
        &mut follower,
        keeping.terms(),
    );
    if done.is_err() || !printer.is_terminal {
        follower.progress.end();
    }
    match done {
        Ok(_) => {
            tell_news(follower.news.take(), printer)?;
            Ok(image.outcome.and(Outcome::of(source.is_whole)))
        }
        Err(Refusal::Folder(error)) => Err(source.seal_fault(error)),
        Err(refusal) => {
            let told = source.fault.take().or(follower.fault.take());
            Err(image.fault_of(told, refusal))
        }
    }
}
