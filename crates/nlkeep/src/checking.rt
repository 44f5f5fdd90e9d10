//! `check`: whether an image is sound, and what of it changed since it was saved.
use crate::asking::{Outcome, word};
use crate::complaining::complain;
use crate::faults::Fault;
use crate::image_files::irregular;
use crate::judging::{JudgedImage, SumBeside};
use crate::printing::Printer;
use crate::sums::kept_in;
use crate::verdicts::tell_objects;
use clap::ArgMatches;
use nl_backups::{Beside, Checked, Verdict, beside_sum};
use nl_damage::sums::{Comparison, Kept};
use nl_damage::{Finding, Place, Sections, path_of, place_of};
use nl_types::BLOCK_SIZE;
use std::alloc::{AllocError, Global};
use std::io::{self, Write};

/// What a condition asks of an image, as docs/SPECIFICATION.md has it.
pub fn condition(number: u8) -> &'static str {
    match number {
        1 => "there are at least 1,024 bytes, and they begin with one of the two marks",
        2 => {
            "the superblock divides the volume within its limits and keeps a checkpoint, and its other bytes \
             are zero"
        }
        3 => "the length is that of all parts",
        4 => {
            "a clean segment's entry is all zero; a dirty or active one uses a block at least, and none more \
             than it has; one at most is active"
        }
        5 => {
            "the numbers of checkpoints ascend, their stamps never fall, their flags are known, and each entry \
             is one of a file of inodes"
        }
        6 => {
            "a virtual block number has a period up to the latest checkpoint, and a used block that no other \
             one has"
        }
        7 => {
            "the used part of each segment is whole logs, one right behind another, whose records name the \
             numbers of their blocks"
        }
        8 => {
            "in each checkpoint roots, nodes and blocks of inodes have their shape, and each number met is in \
             use and met once"
        }
        9 => "in each checkpoint the inodes hold a tree, which the entry tells rightly",
        10 => "in each checkpoint the numbers met are those whose period has it",
        _ => "the padding, and blocks outside used parts, are zero",
    }
}

/// The end of a word that counts so many.
fn ending(count: u64) -> &'static str {
    if count == 1 { "" } else { "s" }
}

/// What is said of an image and its sum where no segment differs.
fn said_of(beside: &Beside) -> &'static str {
    match beside {
        Beside::Missing => "is not there",
        Beside::Unread => "cannot be read",
        Beside::NoSum => "is no sum",
        Beside::Compared(Comparison::Same) => "has the same bytes",
        Beside::Compared(Comparison::OtherSave) => "is of another save",
        Beside::Compared(Comparison::Differs(_)) => "is damaged itself",
    }
}

/// What is found of a condition of an image.
#[derive(Clone, Copy)]
pub struct Judgement {
    pub number: u8,
    pub finding: Finding,
}

/// The last condition of an image.
const LAST: u8 = 11;

/// A place by the length of the file, of which no more was read than that it is too long.
fn with_length(place: Place, length: Option<u64>) -> Place {
    match place {
        Place::Length { bytes, parts } if bytes > parts => Place::Length {
            bytes: bytes.max(length.unwrap_or(bytes)),
            parts,
        },
        place => place,
    }
}

/// The first byte of a segment of an image and the one behind its last. None where that isn't divided.
fn place_in(image: &[u8], segment: u64) -> Option<(u64, u64)> {
    let sections = Sections::of(image)?;
    let size = BLOCK_SIZE as u64 * u64::from(sections.geometry.blocks);
    let begin = segment
        .checked_mul(size)?
        .checked_add(sections.places.blocks as u64)?;
    Some((begin, begin.checked_add(size)?))
}

/// An image that is told of.
#[derive(Clone, Copy)]
pub struct Told<'a> {
    pub path: &'a str,
    /// What was read of it: all, or a byte more than an image of its counts has.
    pub image: &'a [u8],
    /// How many bytes its file has, where the system tells that.
    pub length: Option<u64>,
    /// Where its sum stands.
    pub sum_path: &'a str,
    pub verdict: &'a Verdict,
}

impl Told<'_> {
    /// How many conditions are told behind the first that fails.
    pub fn later(&self, first: u8) -> u8 {
        if self.verdict.judged.is_some() {
            LAST.saturating_sub(first)
        } else {
            0
        }
    }

    /// The condition that is the first to fail, and where.
    pub fn first(&self, alloc: Global, first: u8) -> Result<Judgement, AllocError> {
        let place = place_of(alloc, self.image, first)?;
        Ok(Judgement {
            number: first,
            finding: Finding::Fails(place.map(|place| with_length(place, self.length))),
        })
    }

    /// What is found of the condition that stands at this place behind the first that fails.
    pub fn judgement(&self, alloc: Global, first: u8, place: u8) -> Result<Judgement, AllocError> {
        let number = first.saturating_add(place).saturating_add(1);
        let finding = match self.verdict.judged {
            Some(judged) => judged.finding(alloc, self.image, number)?,
            None => Finding::NotJudged,
        };
        Ok(Judgement { number, finding })
    }

    /// The first byte of a segment and the one behind its last. None where the image isn't divided.
    pub fn place(&self, segment: u64) -> Option<(u64, u64)> {
        place_in(self.image, segment)
    }

    /// Tells which segments differ from the sum, a line each.
    fn tell_segments<W: Write>(&self, printer: &mut Printer<W>) -> io::Result<()> {
        for segment in self.verdict.beside.differing() {
            write!(printer.out, "segment {segment} differs from ")?;
            printer.text(self.sum_path)?;
            if let Some((begin, end)) = self.place(*segment) {
                write!(printer.out, ": bytes {begin} to {}", end.saturating_sub(1))?;
            }
            printer.line()?;
        }
        Ok(())
    }

    /// Tells what the sum is, in the same line.
    fn tell_sum<W: Write>(&self, printer: &mut Printer<W>) -> io::Result<()> {
        printer.text(self.sum_path)?;
        writeln!(printer.out, " {}", said_of(&self.verdict.beside))
    }

    /// Tells the sum, or the segments that differ from it.
    fn tell_difference<W: Write>(&self, printer: &mut Printer<W>) -> io::Result<()> {
        if self.verdict.beside.differing().is_empty() {
            self.tell_sum(printer)
        } else {
            self.tell_segments(printer)
        }
    }

    /// Tells that all conditions hold.
    fn tell_sound<W: Write>(&self, printer: &mut Printer<W>) -> io::Result<()> {
        if !self.verdict.is_sound() {
            writeln!(
                printer.out,
                ": damaged: all conditions hold, and bytes of blocks differ"
            )?;
            return self.tell_segments(printer);
        }
        let Kept { count, latest } = kept_in(self.image);
        let end = ending(count);
        write!(
            printer.out,
            ": sound, {count} checkpoint{end} up to {latest}; "
        )?;
        self.tell_sum(printer)
    }

    /// Tells where a condition fails, with a path of the inode where one is known.
    fn tell_place<W: Write>(
        &self,
        alloc: Global,
        place: &Place,
        printer: &mut Printer<W>,
    ) -> Result<(), Fault> {
        write!(printer.out, "{place}")?;
        if let Some(path) = path_of(alloc, self.image, place)? {
            printer.out.write_all(b", ")?;
            printer.path(path.as_slice(), false)?;
        }
        printer.line()?;
        Ok(())
    }

    /// Tells what is found of a condition, and where it fails.
    fn tell_judgement<W: Write>(
        &self,
        alloc: Global,
        judgement: &Judgement,
        printer: &mut Printer<W>,
    ) -> Result<(), Fault> {
        let Judgement { number, finding } = *judgement;
        let text = condition(number);
        let what = match finding {
            Finding::Holds => " holds",
            Finding::NotJudged => ": not judged",
            Finding::Fails(_) => " fails",
        };
        writeln!(printer.out, "condition {number}{what}: {text}")?;
        match &judgement.finding {
            Finding::Fails(Some(place)) => self.tell_place(alloc, place, printer),
            _ => Ok(()),
        }
    }

    /// Tells the condition that is the first to fail, and where, and what is found of the later ones.
    fn tell_failing<W: Write>(
        &self,
        alloc: Global,
        first: u8,
        printer: &mut Printer<W>,
    ) -> Result<(), Fault> {
        printer.out.write_all(b": damaged: ")?;
        self.tell_judgement(alloc, &self.first(alloc, first)?, printer)?;
        for place in 0..self.later(first) {
            self.tell_judgement(alloc, &self.judgement(alloc, first, place)?, printer)?;
        }
        self.tell_difference(printer)?;
        Ok(())
    }

    /// Tells what is found, by lines.
    fn tell<W: Write>(&self, alloc: Global, printer: &mut Printer<W>) -> Result<(), Fault> {
        printer.text(self.path)?;
        match self.verdict.failing {
            Some(first) => self.tell_failing(alloc, first, printer),
            None => {
                self.tell_sound(printer)?;
                Ok(())
            }
        }
    }

    /// Tells what is found, by objects of JSON or by lines.
    fn tell_by<W: Write>(
        &self,
        alloc: Global,
        is_json: bool,
        printer: &mut Printer<W>,
    ) -> Result<(), Fault> {
        if is_json {
            tell_objects(alloc, self, printer)
        } else {
            self.tell(alloc, printer)
        }
    }

    /// What comes of the command.
    fn outcome(&self) -> Outcome {
        if self.verdict.is_sound() {
            Outcome::Done
        } else {
            Outcome::Differs
        }
    }
}

/// Tells a sum at a path that can't be read.
fn tell_unread(rt: &HostRuntime, path: &str, beside: &Beside) -> Outcome {
    if !matches!(beside, Beside::Unread) {
        return Outcome::Done;
    }
    let why = irregular(rt, path).unwrap_or("cannot be read");
    complain(rt, format_args!("left out: {path}: {why}"));
    Outcome::Partly
}

/// Tells each segment that differs from the sum of an image which is copied as it is.
pub fn tell_damage(rt: &HostRuntime, path: &str, image: &[u8]) -> Result<Outcome, Fault> {
    let mut place = SumBeside::of(rt, path);
    let beside = match beside_sum(rt.alloc(), image, &mut place) {
        Ok(beside) => beside,
        Err(refusal) => return Err(place.fault_of(None, refusal)),
    };
    let sum = place.path;
    for segment in beside.differing() {
        let (begin, end) = place_in(image, *segment).unwrap_or((0, 0));
        let last = end.saturating_sub(1);
        complain(
            rt,
            format_args!(
                "damaged, and copied as it is: segment {segment} differs from {sum}: bytes {begin} to {last}"
            ),
        );
    }
    let is_whole = beside.differing().is_empty();
    Ok(tell_unread(rt, sum.as_str(), &beside).and(Outcome::of(is_whole)))
}

/// Judges an image, reads its sum, and tells what is found.
pub fn check<W: Write>(
    rt: &HostRuntime,
    matches: &ArgMatches<'_>,
    printer: &mut Printer<W>,
) -> Result<Outcome, Fault> {
    let (alloc, path) = (rt.alloc(), word(matches, "IMAGE"));
    let (mut place, mut sum) = (JudgedImage::at(rt, path), SumBeside::of(rt, path));
    let is_all = matches.get_flag("all");
    let Checked { image, verdict } = match nl_backups::check(alloc, &mut place, &mut sum, is_all) {
        Ok(checked) => checked,
        Err(refusal) => return Err(sum.fault_of(place.fault.take(), refusal)),
    };
    let told = Told {
        path,
        image: image.as_slice(),
        length: place.length,
        sum_path: sum.path.as_str(),
        verdict: &verdict,
    };
    told.tell_by(alloc, matches.get_flag("json"), printer)?;
    let unread = tell_unread(rt, told.sum_path, &verdict.beside);
    Ok(told.outcome().and(unread))
}
