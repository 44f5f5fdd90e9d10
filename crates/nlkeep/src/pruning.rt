//! `prune`: checkpoints are removed that no rule keeps, snapshots too.
use crate::asking::{Clock, Outcome, moment, word};
use crate::faults::{Fault, fault_at};
use crate::hosting::{LockedImage, refusal_fault};
use crate::images::{open_image, read_image};
use crate::moments::{periods, shown};
use crate::printing::Printer;
use crate::telling::{News, done_to, tell_news};
use crate::views::{Made, tell_earlier, tell_late};
use clap::ArgMatches;
use jiff::tz::TimeZone;
use nl_backups::{Asker, HostFault, Listener, Pruned, prune_image};
use nl_folders::Path;
use nl_keep_pen::OpenedVolume;
use nl_pins::{Periods, Rules};
use nl_types::{Object, Row, decimal};
use std::alloc::Global;
use std::io::Write;

/// How many checkpoints a rule keeps, none where it isn't given.
fn count_said(alloc: Global, matches: &ArgMatches<'_>, rule: &str) -> Result<u64, Fault> {
    let Some(word) = matches.get_str(rule) else {
        return Ok(0);
    };
    match decimal(word) {
        Some(count) => Ok(count),
        None => Err(fault_at(alloc, word, "no number of checkpoints, as 7")),
    }
}

/// The rules that are given, one at least.
fn rules_said(alloc: Global, matches: &ArgMatches<'_>) -> Result<Rules, Fault> {
    let rules = Rules {
        last: count_said(alloc, matches, "last")?,
        hourly: count_said(alloc, matches, "hourly")?,
        daily: count_said(alloc, matches, "daily")?,
        weekly: count_said(alloc, matches, "weekly")?,
        monthly: count_said(alloc, matches, "monthly")?,
        yearly: count_said(alloc, matches, "yearly")?,
    };
    if rules == Rules::default() {
        return Err(fault_at(alloc, "prune", no_rule_text(matches)));
    }
    Ok(rules)
}

/// What is wrong where no rule keeps anything.
fn no_rule_text(matches: &ArgMatches<'_>) -> &'static str {
    let rules = ["last", "hourly", "daily", "weekly", "monthly", "yearly"];
    if rules.iter().any(|rule| matches.get_str(*rule).is_some()) {
        "no rule keeps a checkpoint: one of them needs a number above 0, as --last 7"
    } else {
        "no rule is given: --last, --hourly, --daily, --weekly, --monthly or --yearly"
    }
}

// ---- what is told

/// Tells of each checkpoint that goes, the oldest first.
fn tell_going<W: Write>(
    alloc: Global,
    pruned: &Pruned,
    zone: &TimeZone<'_>,
    printer: &mut Printer<W>,
) -> Result<(), Fault> {
    let going = pruned.numbers.as_slice();
    for row in pruned.rows.as_slice() {
        if going.contains(&row.number) {
            let (number, date) = (row.number.get(), shown(alloc, zone, row.stamp)?);
            writeln!(printer.out, "{number:>8}  {date}")?;
        }
    }
    Ok(())
}

/// Tells how many checkpoints no rule keeps.
fn tell_count<W: Write>(
    pruned: &Pruned,
    what: &str,
    printer: &mut Printer<W>,
) -> Result<(), Fault> {
    let count = pruned.numbers.len();
    let ending = if count == 1 { "" } else { "s" };
    writeln!(printer.out, "{count} checkpoint{ending} {what}")?;
    Ok(())
}

/// How many segments of an image are clean, and how many it has.
fn clean_of(alloc: Global, path: &str, image: &[u8]) -> Result<(usize, usize), Fault> {
    let volume = open_image(alloc, path, image)?;
    let stat = volume.volume().pen.segments().sustat();
    Ok((stat.clean, stat.segments))
}

/// Tells how many segments of an image are clean, or would be.
fn tell_clean<W: Write>(
    alloc: Global,
    path: &str,
    image: &[u8],
    are: &str,
    printer: &mut Printer<W>,
) -> Result<(), Fault> {
    let (clean, segments) = clean_of(alloc, path, image)?;
    writeln!(printer.out, "{clean} of {segments} segments {are} clean")?;
    Ok(())
}

// ---- what is asked

/// Who prunes.
#[derive(Drop)]
struct Pruner<'r, 'c, 'z, 'w> {
    rt: &'r HostRuntime,
    clock: &'c Clock<'z>,
    /// Where the image stands.
    path: &'w str,
    rules: Rules,
    moment: u64,
    /// Whether only the number of what was removed is told.
    is_quiet: bool,
    /// Whether the image is saved.
    is_done: bool,
    /// What is told once the image is saved.
    news: Option<News>,
    fault: Option<Fault>,
}

impl<'r, 'c, 'z, 'w> Pruner<'r, 'c, 'z, 'w> {
    fn said(
        rt: &'r HostRuntime,
        matches: &ArgMatches<'w>,
        clock: &'c Clock<'z>,
    ) -> Result<Pruner<'r, 'c, 'z, 'w>, Fault> {
        Ok(Pruner {
            rt,
            clock,
            path: word(matches, "IMAGE"),
            rules: rules_said(rt.alloc(), matches)?,
            moment: moment(rt, matches, clock.now)?,
            is_quiet: matches.get_flag("quiet"),
            is_done: !matches.get_flag("dry-run"),
            news: None,
            fault: None,
        })
    }

    /// In which periods the moments of checkpoints lie. A late date is told; where it is done, so is one later
    /// than its moment.
    fn periods_of(&self, rows: &[Row]) -> Result<Vec<Periods>, Fault> {
        tell_late(self.rt, self.path, rows, self.clock)?;
        if self.is_done {
            tell_earlier(
                self.rt,
                self.path,
                rows,
                self.clock,
                self.moment,
                Made::Minor,
            )?;
        }
        let mut all = Vec::with_capacity(self.rt.alloc(), rows.len())?;
        for row in rows {
            all.push(periods(&self.clock.zone, row.stamp))?;
        }
        Ok(all)
    }

    /// Tells of the checkpoints that no rule keeps, and of the image without them.
    fn tell<W: Write>(
        &self,
        pruned: &Pruned,
        what: &str,
        are: &str,
        printer: &mut Printer<W>,
    ) -> Result<(), Fault> {
        if self.is_quiet {
            return tell_count(pruned, what, printer);
        }
        let alloc = self.rt.alloc();
        tell_going(alloc, pruned, &self.clock.zone, printer)?;
        tell_count(pruned, what, printer)?;
        match &pruned.next {
            Some(next) => tell_clean(alloc, self.path, next.as_slice(), are, printer),
            None => Ok(()),
        }
    }

    /// What is told of checkpoints that were removed.
    fn news_of(&self, pruned: &Pruned) -> Result<News, Fault> {
        let alloc = self.rt.alloc();
        let mut printer = Printer {
            out: Vec::new(alloc),
            is_terminal: false,
        };
        self.tell(pruned, "removed", "are", &mut printer)?;
        let text = printer.out;
        let done = done_to(alloc, pruned.numbers.len() as u64, "removed")?;
        Ok(News { text, done })
    }

    /// Tells what pruning would do: it is done, but nothing is saved.
    fn rehearse<W: Write>(&mut self, printer: &mut Printer<W>) -> Result<Outcome, Fault> {
        let alloc = self.rt.alloc();
        let image = read_image(self.rt, self.path)?;
        let (rules, moment) = (self.rules, self.moment);
        match prune_image(alloc, image.as_slice(), self, &rules, moment) {
            Ok(pruned) => {
                self.tell(&pruned, "would be removed", "would be", printer)?;
                Ok(Outcome::Done)
            }
            Err(refusal) => {
                let known = self.fault.take();
                Err(refusal_fault(alloc, self.path, known, refusal))
            }
        }
    }

    fn prune<W: Write>(
        &mut self,
        image: &mut LockedImage<'_, '_>,
        printer: &mut Printer<W>,
    ) -> Result<Outcome, Fault> {
        let (rules, moment) = (self.rules, self.moment);
        match nl_backups::prune(self.rt.alloc(), image, self, &rules, moment) {
            Ok(pruned) if pruned.numbers.is_empty() => {
                writeln!(printer.out, "0 checkpoints removed")?;
                Ok(Outcome::Done)
            }
            Ok(_) => {
                tell_news(self.news.take(), printer)?;
                Ok(image.outcome)
            }
            Err(refusal) => Err(image.fault_of(self.fault.take(), refusal)),
        }
    }
}

impl Asker<Vec<Periods>> for Pruner<'_, '_, '_, '_> {
    fn asked(&mut self, _: &OpenedVolume, rows: &[Row]) -> Result<Vec<Periods>, HostFault> {
        match self.periods_of(rows) {
            Ok(periods) => Ok(periods),
            Err(fault) => {
                self.fault = Some(fault);
                Err(HostFault)
            }
        }
    }
}

impl Listener<Pruned> for Pruner<'_, '_, '_, '_> {
    fn done(&mut self, news: &Pruned) -> Result<(), HostFault> {
        if news.numbers.is_empty() {
            return Ok(());
        }
        match self.news_of(news) {
            Ok(news) => {
                self.news = Some(news);
                Ok(())
            }
            Err(fault) => {
                self.fault = Some(fault);
                Err(HostFault)
            }
        }
    }

    // Nothing is stored.
    fn full(&mut self, _: &[u8], _: &[(Path, Object)]) {}
}

/// Removes the checkpoints that no rule keeps, cleans the volume, and saves the image. Where all are kept,
/// nothing changes.
pub fn prune<W: Write>(
    rt: &HostRuntime,
    matches: &ArgMatches<'_>,
    clock: &Clock<'_>,
    printer: &mut Printer<W>,
) -> Result<Outcome, Fault> {
    let mut pruner = Pruner::said(rt, matches, clock)?;
    if !pruner.is_done {
        return pruner.rehearse(printer);
    }
    let mut image = LockedImage::take(rt, pruner.path)?;
    pruner.prune(&mut image, printer)
}
