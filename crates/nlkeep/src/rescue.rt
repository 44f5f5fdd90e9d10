//! `rescue`: what can be read of a damaged image, checkpoint by checkpoint.
use crate::asking::{Outcome, word};
use crate::complaining::complain;
use crate::faults::{Fault, fault_at, system_fault, volume_fault};
use crate::image_files::{Purpose, read_for};
use crate::judging::SumBeside;
use crate::manifests::tell_bad_manifests;
use crate::printing::{Printer, errors, tell_paths_left_out, tell_refused};
use crate::restore::{Put, make_new, put_told};
use clap::ArgMatches;
use nl_backups::{judge, rescue_checkpoint};
use nl_damage::{Doubt, Doubts, ImagePages, Sections};
use nl_folders::Path;
use nl_host::{Manner, Reason};
use nl_layout::CheckpointEntry;
use nl_manifests::{LineFault, Opened};
use nl_names::Name;
use nl_pins::is_of_pins;
use nl_types::{CheckpointNumber, Geometry, Items, VolError};
use std::alloc::{AllocError, Global};
use std::fs;
use std::io::{self, Write};

/// A path of a checkpoint, below the folder of all of them.
fn below_number(
    alloc: Global,
    number: CheckpointNumber,
    mut path: Path,
) -> Result<Path, AllocError> {
    let name = format!(in alloc; "{}", number.get())?;
    path.push_front(Name::new(alloc, name.as_bytes())?)?;
    Ok(path)
}

/// What of a checkpoint is lost, as it is told.
fn lost_below(
    alloc: Global,
    number: CheckpointNumber,
    lost: Vec<Path>,
) -> Result<Vec<(Path, Reason)>, AllocError> {
    let mut below = Vec::with_capacity(alloc, lost.len())?;
    for path in lost {
        below.push((below_number(alloc, number, path)?, Reason::Unread))?;
    }
    Ok(below)
}

/// What of a checkpoint is refused, as it is told.
fn refused_below(
    alloc: Global,
    number: CheckpointNumber,
    refused: Vec<(Path, LineFault)>,
) -> Result<Vec<(Path, LineFault)>, AllocError> {
    let mut below = Vec::with_capacity(alloc, refused.len())?;
    for (path, fault) in refused {
        below.push((below_number(alloc, number, path)?, fault))?;
    }
    Ok(below)
}

/// What a checkpoint shows, with the paths of what is refused as they are told.
fn named_below(
    alloc: Global,
    number: CheckpointNumber,
    opened: Opened,
) -> Result<Opened, AllocError> {
    let Opened { tree, refused } = opened;
    let refused = refused_below(alloc, number, refused.into_vec())?;
    let refused = Items::from_vec(refused);
    Ok(Opened { tree, refused })
}

fn make_new_folder(rt: &HostRuntime, folder: &str) -> Result<(), Fault> {
    match fs::create_dir(rt, folder) {
        Ok(()) => Ok(()),
        Err(error) => Err(system_fault(rt.alloc(), folder, "cannot be made", &error)),
    }
}

impl<W: Write> Printer<W> {
    /// A path of what was read and isn't to be trusted.
    fn doubtful(&mut self, path: &Path, doubt: Doubt) -> io::Result<()> {
        self.out.write_all(b"nlkeep: doubtful: ")?;
        self.path(path.as_slice(), false)?;
        writeln!(self.out, ": {doubt}")
    }
}

/// Tells what was read and isn't to be trusted, a line each, on standard error.
fn tell_doubts(rt: &HostRuntime, all: &[(Path, Doubt)]) {
    let mut printer = errors(rt);
    for (path, doubt) in all {
        let _ = printer.doubtful(path, *doubt);
    }
}

/// What was read of a checkpoint.
#[derive(Drop)]
struct Rescued {
    opened: Opened,
    /// Whether nothing is lost.
    is_whole: bool,
    /// Whether all that was read is to be trusted.
    is_trusted: bool,
}

/// An image from which checkpoints are rescued.
#[derive(Clone, Copy)]
struct Rescuing<'a> {
    rt: &'a HostRuntime,
    geometry: Geometry,
    pages: &'a ImagePages,
    /// None of an image that is sound.
    doubts: Option<&'a Doubts>,
    folder: &'a str,
}

impl Rescuing<'_> {
    /// Tells what of a checkpoint is lost. Answers whether nothing is.
    fn tell_lost(&self, number: CheckpointNumber, lost: Vec<Path>) -> Result<bool, AllocError> {
        let lost = lost_below(self.rt.alloc(), number, lost)?;
        tell_paths_left_out(self.rt, lost.as_slice());
        Ok(lost.is_empty())
    }

    /// Tells what of a checkpoint isn't to be trusted. Answers whether all is.
    fn tell_doubtful(&self, entry: &CheckpointEntry) -> Result<bool, VolError> {
        let Some(doubts) = self.doubts else {
            return Ok(true);
        };
        let alloc = self.rt.alloc();
        let mut all = Vec::new(alloc);
        for (path, doubt) in doubts.in_checkpoint(alloc, self.pages, entry)? {
            if !is_of_pins(path.as_slice()) {
                all.push((below_number(alloc, entry.number, path)?, doubt))?;
            }
        }
        tell_doubts(self.rt, all.as_slice());
        Ok(all.is_empty())
    }

    /// What a checkpoint shows, as far as it can be read. None where its root can't be. What is lost is told,
    /// and what isn't to be trusted.
    fn opened(&self, entry: &CheckpointEntry) -> Result<Option<Rescued>, VolError> {
        let alloc = self.rt.alloc();
        let Some(nl_backups::Rescued { opened, lost }) = rescue_checkpoint(
            alloc,
            self.pages,
            self.geometry,
            entry,
        )?
        else {
            return Ok(None);
        };
        let is_whole = self.tell_lost(entry.number, lost.into_vec())?;
        let is_trusted = self.tell_doubtful(entry)?;
        let opened = named_below(alloc, entry.number, opened)?;
        Ok(Some(Rescued {
            opened,
            is_whole,
            is_trusted,
        }))
    }

    /// Lays a tree out in a new folder of a checkpoint. Where a manifest is none, or may be lost, what is of
    /// no known mode is its owner's alone.
    fn lay_out(&self, number: CheckpointNumber, rescued: &Rescued) -> Result<Put, AllocError> {
        let (alloc, number) = (self.rt.alloc(), number.get());
        let tree = rescued.opened.tree.as_slice();
        let folder = format!(in alloc; "{}/{number}", self.folder)?;
        let are_good = tell_bad_manifests(self.rt, tree, &[], Some(number));
        let manner = Manner {
            with_owners: false,
            is_private: !are_good || !rescued.is_whole,
        };
        if let Err(error) = make_new(self.rt, folder.as_str(), tree, manner) {
            complain(
                self.rt,
                format_args!("left out: {folder}: cannot be made: {error}"),
            );
            return Ok(Put::Partly);
        }
        let put = put_told(self.rt, folder.as_str(), tree, manner);
        let is_told_whole = tell_refused(self.rt, rescued.opened.refused.as_slice(), &[]);
        Ok(match put {
            Put::Whole if is_told_whole && are_good => Put::Whole,
            Put::Whole => Put::Partly,
            put => put,
        })
    }

    /// Lays out what a checkpoint shows.
    fn put<W: Write>(
        &self,
        number: CheckpointNumber,
        rescued: &Rescued,
        printer: &mut Printer<W>,
    ) -> Result<Put, Fault> {
        let put = self.lay_out(number, rescued)?;
        let (number, paths) = (number.get(), rescued.opened.tree.len());
        let ending = if paths == 1 { "" } else { "s" };
        let rest = if rescued.is_whole {
            ""
        } else {
            ", and not all"
        };
        writeln!(
            printer.out,
            "checkpoint {number}: {paths} path{ending}{rest}"
        )?;
        Ok(match put {
            Put::Whole if rescued.is_whole && rescued.is_trusted => Put::Whole,
            Put::Whole => Put::Partly,
            put => put,
        })
    }

    /// Rescues a checkpoint.
    fn checkpoint<W: Write>(
        &self,
        image: &str,
        entry: &CheckpointEntry,
        printer: &mut Printer<W>,
    ) -> Result<Put, Fault> {
        match self.opened(entry) {
            Ok(Some(rescued)) => self.put(entry.number, &rescued, printer),
            Ok(None) => {
                let number = entry.number.get();
                complain(self.rt, format_args!("left out: /{number}: cannot be read"));
                Ok(Put::Partly)
            }
            Err(error) => Err(volume_fault(self.rt.alloc(), image, error)),
        }
    }

    /// Rescues the checkpoint of an entry, by its place.
    fn entry<W: Write>(
        &self,
        image: &str,
        sections: &Sections<'_>,
        place: usize,
        printer: &mut Printer<W>,
    ) -> Result<Put, Fault> {
        match sections.checkpoint(place) {
            Some(entry) => self.checkpoint(image, &entry, printer),
            None => {
                complain(
                    self.rt,
                    format_args!("left out: entry {place} of the checkpoints: cannot be read"),
                );
                Ok(Put::Partly)
            }
        }
    }

    /// Tells how many checkpoints are left out behind the one at which the system took no more.
    fn tell_later(&self, count: usize) {
        if count > 0 {
            let folder = self.folder;
            complain(
                self.rt,
                format_args!("left out: {folder}: the last {count} checkpoints"),
            );
        }
    }

    /// Rescues each checkpoint of an image whose entry can be read. Answers whether all of all of them is
    /// there.
    fn all<W: Write>(
        &self,
        image: &str,
        sections: &Sections<'_>,
        printer: &mut Printer<W>,
    ) -> Result<bool, Fault> {
        let mut is_whole = true;
        for place in 0..sections.entries() {
            let put = self.entry(image, sections, place, printer)?;
            is_whole = is_whole && put == Put::Whole;
            if put == Put::Ended {
                let later = sections.entries().saturating_sub(place).saturating_sub(1);
                self.tell_later(later);
                break;
            }
        }
        Ok(is_whole)
    }
}

/// Whether the bytes at a path are those of a sound image, as far as its conditions and its sum tell.
fn is_sound(rt: &HostRuntime, path: &str, image: &[u8]) -> Result<bool, Fault> {
    let mut sum = SumBeside::of(rt, path);
    match judge(rt.alloc(), image, &mut sum, false) {
        Ok(verdict) => Ok(verdict.is_sound()),
        Err(refusal) => Err(sum.fault_of(None, refusal)),
    }
}

/// What of an image that isn't sound is to be trusted.
fn doubts_of(
    rt: &HostRuntime,
    path: &str,
    image: &[u8],
    sections: &Sections<'_>,
    pages: &ImagePages,
) -> Result<Option<Doubts>, Fault> {
    if is_sound(rt, path, image)? {
        return Ok(None);
    }
    Ok(Some(Doubts::of(rt.alloc(), sections, pages)?))
}

/// Lays out what can be read of each checkpoint of an image. Answers whether all of all of them is there.
fn rescue_pages<W: Write>(
    rt: &HostRuntime,
    matches: &ArgMatches<'_>,
    sections: &Sections<'_>,
    pages: &ImagePages,
    doubts: Option<&Doubts>,
    printer: &mut Printer<W>,
) -> Result<bool, Fault> {
    let folder = word(matches, "FOLDER");
    make_new_folder(rt, folder)?;
    let rescuing = Rescuing {
        rt,
        geometry: sections.geometry,
        pages,
        doubts,
        folder,
    };
    rescuing.all(word(matches, "IMAGE"), sections, printer)
}

/// The same of these bytes, and what of them is missing is told.
fn rescue_image<W: Write>(
    rt: &HostRuntime,
    matches: &ArgMatches<'_>,
    image: &[u8],
    printer: &mut Printer<W>,
) -> Result<Outcome, Fault> {
    let path = word(matches, "IMAGE");
    let Some(sections) = Sections::mended(image) else {
        return Err(fault_at(rt.alloc(), path, "has no superblock that can be read"));
    };
    let pages = ImagePages::of(rt.alloc(), &sections)?;
    let doubts = doubts_of(rt, path, image, &sections, &pages)?;
    let is_whole = rescue_pages(rt, matches, &sections, &pages, doubts.as_ref(), printer)?;
    let missing = sections.places.end.saturating_sub(image.len());
    if missing > 0 {
        complain(
            rt,
            format_args!("left out: {path}: the last {missing} bytes are not there"),
        );
    }
    Ok(Outcome::of(is_whole && missing == 0))
}

/// Lays out what can be read of each checkpoint of an image, in a new folder that has one for each.
pub fn rescue<W: Write>(
    rt: &HostRuntime,
    matches: &ArgMatches<'_>,
    printer: &mut Printer<W>,
) -> Result<Outcome, Fault> {
    let image = read_for(rt, word(matches, "IMAGE"), Purpose::Rescuing)?;
    rescue_image(rt, matches, image.bytes.as_slice(), printer)
}
