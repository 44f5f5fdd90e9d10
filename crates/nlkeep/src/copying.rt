//! `copy`: later checkpoints of one image come into another one, which may lie on a second disk.
use crate::asking::{Clock, Outcome, most, word};
use crate::checking::tell_damage;
use crate::checkpoints::is_minor;
use crate::complaining::complain;
use crate::faults::{Fault, system_fault, told, volume_fault};
use crate::images::{open_image, read_image, take_place};
use crate::making::new_image;
use crate::moments::shown;
use crate::printing::{Printer, last_line};
use crate::storing::{Stores, Wanted, store_in};
use crate::telling::{News, done_to};
use crate::views::{View, latest_stamp};
use clap::ArgMatches;
use nl_folders::{Tree, same_trees};
use nl_keep_pen::OpenedVolume;
use nl_pins::with_pins;
use nl_saving::SavePlace;
use nl_types::{CheckpointNumber, Items, Mode, Row, VolError};
use nl_words::{Kept, coming, missing};
use std::alloc::{AllocError, Global};
use std::fs;
use std::io::{ErrorKind, Write};
use std::mem::replace;
use std::os::unix::fs::MetadataExt;

/// What stands in the image that checkpoints come into.
#[derive(Drop)]
struct Target {
    choice: Choice,
    /// The file of its pins.
    pins: Option<Items<u8>>,
}

impl Target {
    /// Of the bytes of the image at a path, into which those of a view come. A late date is told.
    fn of(
        rt: &HostRuntime,
        path: &str,
        clock: &Clock<'_>,
        view: &View<'_>,
        image: &[u8],
    ) -> Result<Target, Fault> {
        let other = View::of(rt, path, image, clock)?;
        let choice = Choice::of(rt.alloc(), view, &other)?;
        let pins = other.pins_file(rt.alloc())?;
        Ok(Target { choice, pins })
    }

    /// The file of its pins, once more.
    fn pins_again(&self, alloc: Global) -> Result<Option<Items<u8>>, AllocError> {
        match &self.pins {
            Some(bytes) => Ok(Some(Items::from_slice(alloc, bytes.as_slice())?)),
            None => Ok(None),
        }
    }
}

// ---- a new image

/// The moment that a new volume begins with, of which no checkpoint of another one is earlier: that of the
/// first one if this is of the empty tree, for which the first one of the new volume stands; else a second
/// before.
fn first_moment(rows: &[Row]) -> u64 {
    match rows {
        [row, ..] if row.inodes <= 1 => row.stamp,
        [row, ..] => row.stamp.saturating_sub(1),
        [] => 0,
    }
}

/// The image at a path, or where nothing stands there that of a new volume, as great as the one that is
/// copied; and whether it is new.
fn image_for(rt: &HostRuntime, path: &str, view: &View<'_>) -> Result<(Vec<u8>, bool), Fault> {
    let alloc = rt.alloc();
    match fs::symlink_metadata(rt, path) {
        Ok(_) => return Ok((read_image(rt, path)?, false)),
        Err(error) if error.kind() == ErrorKind::NotFound => {}
        Err(error) => return Err(system_fault(alloc, path, "cannot be read", &error)),
    }
    let table = view.pen().segments();
    let segments = u32::try_from(table.sustat().segments).unwrap_or(0);
    let moment = first_moment(view.rows.as_slice());
    match new_image(alloc, segments, table.blocks(), moment) {
        Ok(image) => Ok((image, true)),
        Err(error) => Err(volume_fault(alloc, path, error)),
    }
}

// ---- which checkpoints come over

/// Whether a checkpoint that isn't minor has this date.
fn is_of_date(row: &Row, stamp: u64) -> bool {
    !is_minor(row) && row.stamp == stamp
}

/// The place of a tree among these, how many they are where it isn't among them.
fn place_of(trees: &[Tree], tree: &Tree) -> usize {
    for place in 0..trees.len() {
        if same_trees(trees[place].as_slice(), tree.as_slice()) {
            return place;
        }
    }
    trees.len()
}

fn kept(row: &Row, place: usize) -> Kept {
    Kept {
        row: *row,
        tree: place as u64,
    }
}

/// The place of the tree of a checkpoint, which is added where it isn't there.
fn place_added(
    alloc: Global,
    other: &View<'_>,
    row: &Row,
    trees: &mut Vec<Tree>,
) -> Result<usize, Fault> {
    let tree = other.tree_of(alloc, row.number)?;
    let place = place_of(trees.as_slice(), &tree);
    if place == trees.len() {
        trees.push(tree)?;
    }
    Ok(place)
}

/// The checkpoints into which others come. Those of a date are told apart by the places of their trees, which
/// are added to these; the trees of all others count as one.
fn others_of(
    alloc: Global,
    other: &View<'_>,
    stamp: u64,
    trees: &mut Vec<Tree>,
) -> Result<Vec<Kept>, Fault> {
    let mut all = Vec::with_capacity(alloc, other.rows.len())?;
    for row in other.rows.as_slice() {
        let place = if is_of_date(row, stamp) {
            place_added(alloc, other, row, trees)?
        } else {
            0
        };
        all.push(kept(row, place))?;
    }
    Ok(all)
}

/// The checkpoints that may come over, told apart in the same way. The trees that the other volume doesn't
/// have at that date count as one: it lacks each of them.
fn rows_of(alloc: Global, view: &View<'_>, stamp: u64, trees: &[Tree]) -> Result<Vec<Kept>, Fault> {
    let mut all = Vec::with_capacity(alloc, view.rows.len())?;
    for row in view.rows.as_slice() {
        let place = if is_of_date(row, stamp) {
            place_of(trees, &view.tree_of(alloc, row.number)?)
        } else {
            0
        };
        all.push(kept(row, place))?;
    }
    Ok(all)
}

/// What comes over into another volume, and what can't any more.
#[derive(Drop)]
struct Choice {
    coming: Vec<Kept>,
    missing: Vec<Kept>,
}

impl Choice {
    fn of(alloc: Global, view: &View<'_>, other: &View<'_>) -> Result<Choice, Fault> {
        let stamp = latest_stamp(other.rows.as_slice());
        let mut trees = Vec::new(alloc);
        let others = others_of(alloc, other, stamp, &mut trees)?;
        let rows = rows_of(alloc, view, stamp, trees.as_slice())?;
        let (rows, others) = (rows.as_slice(), others.as_slice());
        Ok(Choice {
            coming: coming(alloc, rows, others)?,
            missing: missing(alloc, rows, others)?,
        })
    }
}

/// Tells of a checkpoint that can't come over any more.
fn tell_left_out(rt: &HostRuntime, clock: &Clock<'_>, path: &str, row: &Row) -> Result<(), Fault> {
    let (number, date) = (row.number.get(), shown(rt.alloc(), &clock.zone, row.stamp)?);
    complain(
        rt,
        format_args!("left out: checkpoint {number} of {date}: {path} has a later one"),
    );
    Ok(())
}

// ---- the image with them

/// An image that checkpoints have come into.
#[derive(Drop)]
struct Copied {
    image: Vec<u8>,
    /// Those of them that are to be plain.
    plain: Vec<CheckpointNumber>,
    count: u64,
}

impl Copied {
    /// Notes that a checkpoint came into it, which made it this image and is to have this mode.
    fn note(
        &mut self,
        number: CheckpointNumber,
        mode: Mode,
        image: Vec<u8>,
    ) -> Result<(), AllocError> {
        drop(replace(&mut self.image, image));
        self.count = self.count.saturating_add(1);
        match mode {
            Mode::Plain => Ok(self.plain.push(number)?),
            Mode::Snapshot => Ok(()),
        }
    }
}

/// What all copies have at hand.
#[derive(Clone, Copy)]
struct Copying<'a> {
    view: &'a View<'a>,
    /// Where the other image stands.
    path: &'a str,
    clock: &'a Clock<'a>,
    most: u64,
    /// Whether only the last line is told.
    is_quiet: bool,
}

impl Copying<'_> {
    /// Tells the checkpoints that can't come over any more.
    fn tell_missing(&self, rt: &HostRuntime, missing: &[Kept]) -> Result<(), Fault> {
        for earlier in missing {
            tell_left_out(rt, self.clock, self.path, &earlier.row)?;
        }
        Ok(())
    }

    /// The tree of a checkpoint beside the other volume's own pins, and its date.
    fn wanted(&self, alloc: Global, row: &Row, target: &Target) -> Result<Wanted, Fault> {
        let tree = self.view.tree_of(alloc, row.number)?;
        Ok(Wanted {
            tree: with_pins(alloc, target.pins_again(alloc)?, tree)?,
            moment: row.stamp,
            most: self.most,
        })
    }

    /// Lets one more checkpoint come in, as a snapshot of the same tree and date.
    fn add(
        &self,
        alloc: Global,
        row: &Row,
        target: &Target,
        copied: &mut Copied,
    ) -> Result<(), Fault> {
        let wanted = self.wanted(alloc, row, target)?;
        let earlier = copied.image.as_slice();
        let volume = open_image(alloc, self.path, earlier)?;
        let Stores { stored, image, .. } = store_in(alloc, self.path, earlier, volume, &wanted)?;
        copied.note(stored.number, row.mode, image)?;
        Ok(())
    }

    /// The image with all that come over, the oldest first, and what is told of them.
    fn with_all(
        &self,
        alloc: Global,
        image: Vec<u8>,
        target: &Target,
        text: &mut Vec<u8>,
    ) -> Result<Copied, Fault> {
        let mut copied = Copied {
            image,
            plain: Vec::new(alloc),
            count: 0,
        };
        for next in target.choice.coming.as_slice() {
            self.add(alloc, &next.row, target, &mut copied)?;
            self.tell_copied(alloc, &next.row, text)?;
        }
        Ok(copied)
    }

    /// What a person wants to know of what is told.
    fn part_of<'t>(&self, told: &'t [u8]) -> &'t [u8] {
        if self.is_quiet { last_line(told) } else { told }
    }

    fn tell_copied(&self, alloc: Global, row: &Row, text: &mut Vec<u8>) -> Result<(), Fault> {
        let (number, date) = (row.number.get(), shown(alloc, &self.clock.zone, row.stamp)?);
        writeln!(text, "{number:>8}  {date}")?;
        Ok(())
    }
}

// ---- plain ones

/// The image of a volume in which checkpoints are made plain.
fn plain_image(volume: OpenedVolume, numbers: &[CheckpointNumber]) -> Result<Vec<u8>, VolError> {
    let volume = volume.make_plain(numbers)?;
    volume.close()
}

/// An image in which checkpoints are made plain.
fn with_plain(
    alloc: Global,
    path: &str,
    image: &[u8],
    numbers: &[CheckpointNumber],
) -> Result<Vec<u8>, Fault> {
    let volume = open_image(alloc, path, image)?;
    match plain_image(volume, numbers) {
        Ok(next) => Ok(next),
        Err(error) => Err(volume_fault(alloc, path, error)),
    }
}

/// The image of what was copied, in which those are plain that are to be.
fn finished(alloc: Global, path: &str, copied: Copied) -> Result<Vec<u8>, Fault> {
    if copied.plain.is_empty() {
        return Ok(copied.image);
    }
    with_plain(
        alloc,
        path,
        copied.image.as_slice(),
        copied.plain.as_slice(),
    )
}

// ---- the command

impl Copying<'_> {
    /// Saves what was copied, where the image is other than before, and tells of it. Answers whether the sum
    /// of the image is left out.
    fn save<W: Write>(
        &self,
        rt: &HostRuntime,
        copied: Copied,
        is_new: bool,
        text: Vec<u8>,
        place: &mut SavePlace<'_>,
        printer: &mut Printer<W>,
    ) -> Result<Outcome, Fault> {
        if copied.count == 0 && !is_new {
            printer.out.write_all(text.as_slice())?;
            return Ok(Outcome::Done);
        }
        let done = done_to(rt.alloc(), copied.count, "copied")?;
        let next = finished(rt.alloc(), self.path, copied)?;
        News { text, done }.save(rt, self.path, place, next.as_slice(), printer)
    }

    /// Brings checkpoints into an image, and tells of them once it is saved. Answers whether one of them is
    /// left out, or the image's sum.
    fn copy_into<W: Write>(
        &self,
        rt: &HostRuntime,
        image: (Vec<u8>, bool),
        target: &Target,
        place: &mut SavePlace<'_>,
        printer: &mut Printer<W>,
    ) -> Result<Outcome, Fault> {
        let missing = target.choice.missing.as_slice();
        self.tell_missing(rt, missing)?;
        let (image, is_new) = image;
        let mut text = Vec::new(rt.alloc());
        let copied = self.with_all(rt.alloc(), image, target, &mut text)?;
        let count = copied.count;
        let ending = if count == 1 { "" } else { "s" };
        writeln!(text, "{count} checkpoint{ending} copied")?;
        let text = Vec::from_slice(rt.alloc(), self.part_of(text.as_slice()))?;
        let saved = self.save(rt, copied, is_new, text, place, printer)?;
        Ok(saved.and(Outcome::of(missing.is_empty())))
    }

    /// The same of the image that is locked.
    fn copy<W: Write>(
        &self,
        rt: &HostRuntime,
        place: &mut SavePlace<'_>,
        printer: &mut Printer<W>,
    ) -> Result<Outcome, Fault> {
        let image = image_for(rt, self.path, self.view)?;
        let target = Target::of(rt, self.path, self.clock, self.view, image.0.as_slice())?;
        self.copy_into(rt, image, &target, place, printer)
    }
}

fn copy_in<W: Write>(
    rt: &HostRuntime,
    matches: &ArgMatches<'_>,
    clock: &Clock<'_>,
    view: &View<'_>,
    place: &mut SavePlace<'_>,
    printer: &mut Printer<W>,
) -> Result<Outcome, Fault> {
    let most = most(rt, matches)?;
    view.tell_late(rt, clock)?;
    let copying = Copying {
        view,
        path: word(matches, "IMAGE2"),
        clock,
        most,
        is_quiet: matches.get_flag("quiet"),
    };
    copying.copy(rt, place, printer)
}

/// Whether one file is at both paths, by whatever names.
fn are_one_file(rt: &HostRuntime, path: &str, other: &str) -> bool {
    match (fs::metadata(rt, path), fs::metadata(rt, other)) {
        (Ok(one), Ok(two)) => one.dev() == two.dev() && one.ino() == two.ino(),
        _ => false,
    }
}

/// Sees to it that no image is copied onto itself.
fn judge_paths(rt: &HostRuntime, path: &str, other: &str) -> Result<(), Fault> {
    if are_one_file(rt, path, other) {
        return Err(told(format!(in rt.alloc(); "{other}: is the same file as {path}")));
    }
    Ok(())
}

/// Brings each checkpoint of an image into another one that isn't earlier than the latest of that, and that
/// it lacks, the oldest first, with its tree, its date and its mode, and saves that image. Minor ones are
/// passed over. Where nothing stands in the place of the other image, it is made. Bytes that differ from the
/// sum of the image are copied as they are, and told.
pub fn copy<W: Write>(
    rt: &HostRuntime,
    matches: &ArgMatches<'_>,
    clock: &Clock<'_>,
    printer: &mut Printer<W>,
) -> Result<Outcome, Fault> {
    let (path, other) = (word(matches, "IMAGE"), word(matches, "IMAGE2"));
    judge_paths(rt, path, other)?;
    let image = read_image(rt, path)?;
    let view = View::silent(rt.alloc(), path, image.as_slice())?;
    let mut place = take_place(rt, other)?;
    let damage = tell_damage(rt, path, image.as_slice())?;
    drop(image);
    let copied = copy_in(rt, matches, clock, &view, &mut place, printer)?;
    Ok(copied.and(damage))
}
