//! A tree that becomes the current one of an image, and is kept as the next snapshot.
use crate::asking::{Clock, moment, most, word};
use crate::comparing::tell_differences;
use crate::faults::{Fault, fault_at, volume_fault};
use crate::fullness::full_fault;
use crate::printing::{Printer, last_line};
use crate::progress::Progress;
use crate::sizes::Size;
use crate::telling::{News, done_as};
use clap::ArgMatches;
use nl_backups::Terms;
use nl_folders::{Path, Tree};
use nl_keep::{KeepError, Stored};
use nl_keep_pen::OpenedVolume;
use nl_types::{Object, VolError};
use std::alloc::Global;
use std::io::{self, Write};

/// What is to be stored, when, and in how great a volume.
#[derive(Drop)]
pub struct Wanted {
    pub tree: Tree,
    pub moment: u64,
    /// The most bytes.
    pub most: u64,
}

/// A tree that is stored in the volume of an image.
#[derive(Drop)]
pub struct Stores {
    pub stored: Stored,
    /// The image that is to stand in the old one's place.
    pub image: Vec<u8>,
    /// How many bytes the volume had, and what it has where it was grown.
    pub grown: Option<(u64, u64)>,
}

/// What takes away the line of a terminal.
const CLEARING: &[u8] = b"\r\x1b[K";

/// Why a tree isn't stored.
fn keep_fault(alloc: Global, image: &str, error: KeepError) -> Fault {
    match error {
        KeepError::Refused(error) => volume_fault(alloc, image, error),
        KeepError::Disordered => fault_at(alloc, image, "what is to be stored is no tree"),
    }
}

/// Tells that the volume has become greater, where it has.
pub fn tell_growth<W: Write>(
    grown: Option<(u64, u64)>,
    printer: &mut Printer<W>,
) -> io::Result<()> {
    let Some((old, new)) = grown else {
        return Ok(());
    };
    let (old, new) = (Size(old), Size(new));
    writeln!(printer.out, "the volume has grown from {old} to {new}")
}

/// Tells what changed, and the snapshot's number.
fn tell_stored<W: Write>(
    alloc: Global,
    stored: &Stored,
    tree: &[(Path, Object)],
    printer: &mut Printer<W>,
) -> Result<(), Fault> {
    let count = tell_differences(alloc, stored.earlier.as_slice(), tree, printer)?;
    let (number, bytes) = (stored.number.get(), stored.bytes);
    let ending = if count == 1 { "" } else { "s" };
    writeln!(
        printer.out,
        "snapshot {number}: {count} path{ending} changed, {bytes} bytes written"
    )?;
    Ok(())
}

/// What is told of a tree that is stored, where the volume may have grown. It is put together before anything
/// is saved, as behind that nothing may be refused.
fn told_of(
    alloc: Global,
    stored: &Stored,
    grown: Option<(u64, u64)>,
    tree: &[(Path, Object)],
    is_terminal: bool,
) -> Result<News, Fault> {
    let mut printer = Printer {
        out: Vec::new(alloc),
        is_terminal,
    };
    tell_growth(grown, &mut printer)?;
    tell_stored(alloc, stored, tree, &mut printer)?;
    let text = printer.out;
    let done = done_as(alloc, stored.number.get())?;
    Ok(News { text, done })
}

/// Stores a tree in the volume of an image, which was opened, with more effort where there is no room.
pub fn store_in(
    alloc: Global,
    path: &str,
    image: &[u8],
    volume: OpenedVolume,
    wanted: &Wanted,
) -> Result<Stores, Fault> {
    let (tree, most) = (wanted.tree.as_slice(), wanted.most);
    let terms = Terms {
        moment: wanted.moment,
        most,
    };
    match nl_backups::store_in(alloc, image, volume, tree, terms) {
        Ok((stored, image, grown)) => Ok(Stores {
            stored,
            image,
            grown,
        }),
        Err(KeepError::Refused(VolError::NoSpace)) => Err(full_fault(
            alloc, path, image, tree, most,
        )),
        Err(error) => Err(keep_fault(alloc, path, error)),
    }
}

/// Where a tree is to be kept, when, and in how great a volume.
#[derive(Clone, Copy)]
pub struct Keeping<'a> {
    /// Where the image stands.
    pub path: &'a str,
    pub moment: u64,
    /// The most bytes.
    pub most: u64,
    /// Whether only the last line is told.
    pub is_quiet: bool,
}

/// Puts what takes away what is told of the work at a terminal before a text.
fn behind_progress(alloc: Global, text: &[u8]) -> io::Result<Vec<u8>> {
    let mut whole = Vec::with_capacity(alloc, text.len())?;
    whole.write_all(CLEARING)?;
    whole.write_all(text)?;
    Ok(whole)
}

impl<'a> Keeping<'a> {
    pub fn said(
        rt: &HostRuntime,
        matches: &ArgMatches<'a>,
        clock: &Clock<'_>,
    ) -> Result<Keeping<'a>, Fault> {
        Ok(Keeping {
            path: word(matches, "IMAGE"),
            moment: moment(rt, matches, clock.now)?,
            most: most(rt, matches)?,
            is_quiet: matches.get_flag("quiet"),
        })
    }

    pub fn terms(&self) -> Terms {
        Terms {
            moment: self.moment,
            most: self.most,
        }
    }

    /// What is told of a tree that is stored, as far as a person wants to know. At a terminal it takes the
    /// place of what is told of the work.
    pub fn told_of(
        &self,
        alloc: Global,
        stored: &Stored,
        grown: Option<(u64, u64)>,
        tree: &[(Path, Object)],
        progress: &Progress<'_>,
        is_terminal: bool,
    ) -> Result<News, Fault> {
        let News { text, done } = told_of(alloc, stored, grown, tree, is_terminal)?;
        let text = if self.is_quiet {
            Vec::from_slice(alloc, last_line(text.as_slice()))?
        } else if is_terminal && progress.is_shown() {
            behind_progress(alloc, text.as_slice())?
        } else {
            text
        };
        Ok(News { text, done })
    }
}
