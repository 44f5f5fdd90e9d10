//! `forget`: checkpoints are removed, snapshots too.
use crate::asking::{Clock, Outcome, moment, most, word};
use crate::faults::{Fault, fault_at, told};
use crate::hosting::LockedImage;
use crate::printing::Printer;
use crate::telling::{News, done_to, tell_news};
use crate::views::{Made, tell_earlier, tell_late};
use clap::ArgMatches;
use nl_backups::{Asker, Forgotten, HostFault, Listener};
use nl_folders::Path;
use nl_keep_pen::{Cleaning, OpenedVolume};
use nl_types::{CheckpointNumber, Object, Row, decimal};
use nl_words::{Numbers, going, names_any, staying};
use std::alloc::Global;
use std::io::Write;

/// The numbers that a word says: `5`, or `2..5`.
fn numbers_of(word: &str) -> Option<Numbers> {
    match word.split_once("..") {
        Some((first, last)) => Some(Numbers {
            first: decimal(first)?,
            last: decimal(last)?,
        }),
        None => {
            let number = decimal(word)?;
            Some(Numbers {
                first: number,
                last: number,
            })
        }
    }
}

/// Sees to it that a range names a kept checkpoint, and none that stays.
fn judge(alloc: Global, word: &str, range: &Numbers, rows: &[Row]) -> Result<(), Fault> {
    if !names_any(range, rows) {
        return Err(fault_at(alloc, word, "no such checkpoint is kept"));
    }
    match staying(range, rows) {
        Some(number) => Err(told(format!(in alloc;
            "{word}: checkpoint {} is the latest and stays",
            number.get()
        ))),
        None => Ok(()),
    }
}

/// The ranges that words say, each of which names kept checkpoints, and none that stays.
fn ranges_said(alloc: Global, words: &[&str], rows: &[Row]) -> Result<Vec<Numbers>, Fault> {
    let mut ranges = Vec::with_capacity(alloc, words.len())?;
    for word in words {
        let Some(range) = numbers_of(word) else {
            return Err(fault_at(alloc, word, "neither a number nor two with .. between them"));
        };
        judge(alloc, word, &range, rows)?;
        ranges.push(range)?;
    }
    Ok(ranges)
}

/// What is told of so many checkpoints that were removed.
fn told_of(alloc: Global, count: usize) -> Result<News, Fault> {
    let ending = if count == 1 { "" } else { "s" };
    let mut text = Vec::new(alloc);
    writeln!(text, "{count} checkpoint{ending} removed")?;
    let done = done_to(alloc, count as u64, "removed")?;
    Ok(News { text, done })
}

/// Who removes checkpoints.
#[derive(Drop)]
struct Remover<'r, 'c, 'z, 'm, 'w> {
    rt: &'r HostRuntime,
    clock: &'c Clock<'z>,
    path: &'w str,
    words: &'m [&'w str],
    moment: u64,
    /// What is told once the image is saved.
    news: Option<News>,
    fault: Option<Fault>,
}

impl Remover<'_, '_, '_, '_, '_> {
    /// The checkpoints that are to be forgotten, one after another. A late date is told.
    fn numbers_said(&self, rows: &[Row]) -> Result<Vec<CheckpointNumber>, Fault> {
        let alloc = self.rt.alloc();
        tell_late(self.rt, self.path, rows, self.clock)?;
        let ranges = ranges_said(alloc, self.words, rows)?;
        tell_earlier(
            self.rt,
            self.path,
            rows,
            self.clock,
            self.moment,
            Made::Minor,
        )?;
        Ok(going(alloc, ranges.as_slice(), rows)?)
    }
}

impl Asker<Vec<CheckpointNumber>> for Remover<'_, '_, '_, '_, '_> {
    fn asked(
        &mut self,
        _: &OpenedVolume,
        rows: &[Row],
    ) -> Result<Vec<CheckpointNumber>, HostFault> {
        match self.numbers_said(rows) {
            Ok(numbers) => Ok(numbers),
            Err(fault) => {
                self.fault = Some(fault);
                Err(HostFault)
            }
        }
    }
}

impl Listener<Forgotten> for Remover<'_, '_, '_, '_, '_> {
    fn done(&mut self, news: &Forgotten) -> Result<(), HostFault> {
        match told_of(self.rt.alloc(), news.numbers.len()) {
            Ok(news) => {
                self.news = Some(news);
                Ok(())
            }
            Err(fault) => {
                self.fault = Some(fault);
                Err(HostFault)
            }
        }
    }

    // Nothing is stored.
    fn full(&mut self, _: &[u8], _: &[(Path, Object)]) {}
}

fn forget_in<W: Write>(
    rt: &HostRuntime,
    matches: &ArgMatches<'_>,
    clock: &Clock<'_>,
    image: &mut LockedImage<'_, '_>,
    printer: &mut Printer<W>,
) -> Result<Outcome, Fault> {
    let moment = moment(rt, matches, clock.now)?;
    most(rt, matches)?;
    let mut remover = Remover {
        rt,
        clock,
        path: word(matches, "IMAGE"),
        words: matches.get_strs("R").unwrap_or(&[]),
        moment,
        news: None,
        fault: None,
    };
    match nl_backups::forget(rt.alloc(), image, &mut remover, moment, Cleaning::IfShort) {
        Ok(_) => {
            tell_news(remover.news.take(), printer)?;
            Ok(image.outcome)
        }
        Err(refusal) => Err(image.fault_of(remover.fault.take(), refusal)),
    }
}

/// Removes checkpoints, and saves the image.
pub fn forget<W: Write>(
    rt: &HostRuntime,
    matches: &ArgMatches<'_>,
    clock: &Clock<'_>,
    printer: &mut Printer<W>,
) -> Result<Outcome, Fault> {
    let mut image = LockedImage::take(rt, word(matches, "IMAGE"))?;
    forget_in(rt, matches, clock, &mut image, printer)
}
