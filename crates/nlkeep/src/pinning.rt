//! `pin`: a checkpoint stays whatever rules of retention say, or no longer does.
use crate::asking::{Clock, Outcome, word};
use crate::checkpoints::{is_minor, kept_number};
use crate::faults::{Fault, fault_at};
use crate::fullness::full_fault;
use crate::hosting::LockedImage;
use crate::printing::Printer;
use crate::storing::{Keeping, tell_growth};
use crate::telling::{News, done_as, tell_news};
use crate::views::{Made, tell_earlier, tell_late};
use clap::ArgMatches;
use nl_backups::{Asker, BackedUp, HostFault, Listener, PinChange, PinWish, Pinned, Refusal};
use nl_folders::Path;
use nl_keep_pen::OpenedVolume;
use nl_types::{CheckpointNumber, Items, Object, Row};
use std::alloc::{AllocError, Global};
use std::io::Write;

/// What a person asks of a pin.
#[derive(Clone, Copy)]
enum Change<'a> {
    /// It is put on, with this text.
    On(&'a str),
    Off,
}

impl<'a> Change<'a> {
    fn said(alloc: Global, matches: &ArgMatches<'a>) -> Result<Change<'a>, Fault> {
        let text = word(matches, "TEXT");
        if matches.get_flag("off") {
            if !text.is_empty() {
                return Err(fault_at(alloc, text, "nothing is noted with -d"));
            }
            return Ok(Change::Off);
        }
        if text.chars().any(|character| character.is_control()) {
            return Err(fault_at(alloc, "TEXT", "has a control character in it"));
        }
        Ok(Change::On(text))
    }

    fn wished(self, alloc: Global) -> Result<PinChange, AllocError> {
        match self {
            Change::On(text) => Ok(PinChange::On(Items::from_slice(alloc, text.as_bytes())?)),
            Change::Off => Ok(PinChange::Off),
        }
    }

    /// What is told of a checkpoint of which the pin is changed so.
    fn done(self) -> &'static str {
        match self {
            Change::On(_) => "pinned",
            Change::Off => "not pinned any more",
        }
    }
}

/// The kept checkpoint that a word means, which no round of cleaning removes.
fn lasting(
    alloc: Global,
    rows: &[Row],
    word: &str,
    clock: &Clock<'_>,
) -> Result<CheckpointNumber, Fault> {
    let number = kept_number(alloc, word, rows, clock)?;
    if rows.iter().any(|row| row.number == number && is_minor(row)) {
        return Err(fault_at(
            alloc,
            word,
            "a minor one, which rounds of cleaning make and remove",
        ));
    }
    Ok(number)
}

/// Who changes a pin.
#[derive(Drop)]
struct Pinner<'r, 'c, 'z, 'w> {
    rt: &'r HostRuntime,
    clock: &'c Clock<'z>,
    keeping: Keeping<'w>,
    /// Which checkpoint.
    word: &'w str,
    change: Change<'w>,
    /// What is told once the image is saved.
    news: Option<News>,
    fault: Option<Fault>,
}

impl Pinner<'_, '_, '_, '_> {
    /// What is wished. A late date is told.
    fn wish(&self, rows: &[Row]) -> Result<PinWish, Fault> {
        let Keeping { path, moment, .. } = self.keeping;
        tell_late(self.rt, path, rows, self.clock)?;
        tell_earlier(self.rt, path, rows, self.clock, moment, Made::Checkpoint)?;
        let alloc = self.rt.alloc();
        Ok(PinWish {
            number: lasting(alloc, rows, self.word, self.clock)?,
            change: self.change.wished(alloc)?,
        })
    }

    /// What is told of a pin that is changed by a snapshot.
    fn news_of(&self, number: CheckpointNumber, backed: &BackedUp) -> Result<News, Fault> {
        let alloc = self.rt.alloc();
        let mut printer = Printer {
            out: Vec::new(alloc),
            is_terminal: false,
        };
        tell_growth(backed.grown, &mut printer)?;
        let (snapshot, number) = (backed.stored.number.get(), number.get());
        let what = self.change.done();
        writeln!(
            printer.out,
            "snapshot {snapshot}: checkpoint {number} is {what}"
        )?;
        let text = printer.out;
        let done = done_as(alloc, snapshot)?;
        Ok(News { text, done })
    }
}

impl Asker<PinWish> for Pinner<'_, '_, '_, '_> {
    fn asked(&mut self, _: &OpenedVolume, rows: &[Row]) -> Result<PinWish, HostFault> {
        match self.wish(rows) {
            Ok(wish) => Ok(wish),
            Err(fault) => {
                self.fault = Some(fault);
                Err(HostFault)
            }
        }
    }
}

impl Listener<Pinned> for Pinner<'_, '_, '_, '_> {
    fn done(&mut self, news: &Pinned) -> Result<(), HostFault> {
        let Some(backed) = &news.backed else {
            return Ok(());
        };
        match self.news_of(news.wish.number, backed) {
            Ok(news) => {
                self.news = Some(news);
                Ok(())
            }
            Err(fault) => {
                self.fault = Some(fault);
                Err(HostFault)
            }
        }
    }

    fn full(&mut self, image: &[u8], wanted: &[(Path, Object)]) {
        let Keeping { path, most, .. } = self.keeping;
        self.fault = Some(full_fault(self.rt.alloc(), path, image, wanted, most));
    }
}

/// Tells what became of a pin.
fn tell<W: Write>(
    pinned: &Pinned,
    news: Option<News>,
    outcome: Outcome,
    printer: &mut Printer<W>,
) -> Result<Outcome, Fault> {
    if pinned.backed.is_none() {
        let number = pinned.wish.number.get();
        writeln!(printer.out, "checkpoint {number} is pinned already")?;
        return Ok(Outcome::Done);
    }
    tell_news(news, printer)?;
    Ok(outcome)
}

fn pin_in<W: Write>(
    rt: &HostRuntime,
    matches: &ArgMatches<'_>,
    clock: &Clock<'_>,
    change: Change<'_>,
    image: &mut LockedImage<'_, '_>,
    printer: &mut Printer<W>,
) -> Result<Outcome, Fault> {
    let keeping = Keeping::said(rt, matches, clock)?;
    let mut pinner = Pinner {
        rt,
        clock,
        keeping,
        word: word(matches, "CNO"),
        change,
        news: None,
        fault: None,
    };
    match nl_backups::pin(rt.alloc(), image, &mut pinner, keeping.terms()) {
        Ok(pinned) => tell(&pinned, pinner.news.take(), image.outcome, printer),
        Err(Refusal::NotPinned) => Err(fault_at(rt.alloc(), pinner.word, "is not pinned")),
        Err(refusal) => Err(image.fault_of(pinner.fault.take(), refusal)),
    }
}

/// Changes the pin of a checkpoint, as the next snapshot, and saves the image. Where it is so already,
/// nothing changes.
pub fn pin<W: Write>(
    rt: &HostRuntime,
    matches: &ArgMatches<'_>,
    clock: &Clock<'_>,
    printer: &mut Printer<W>,
) -> Result<Outcome, Fault> {
    let change = Change::said(rt.alloc(), matches)?;
    let mut image = LockedImage::take(rt, word(matches, "IMAGE"))?;
    pin_in(rt, matches, clock, change, &mut image, printer)
}
