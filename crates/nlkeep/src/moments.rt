//! Moments and dates: seconds since 1970, shown and said in the zone of the system.
use crate::faults::Fault;
use jiff::civil::{Date, DateTime};
use jiff::tz::{SystemTimeZone, TimeZone, TimeZoneDatabase};
use jiff::{Error, Timestamp, ToSpan};
use nl_pins::Periods;
use std::alloc::Global;
use std::time::{SystemTime, UNIX_EPOCH};

/// How a date is shown.
const FORM: &str = "%Y-%m-%d %H:%M:%S";

/// The same with how far its zone is from UTC then.
const ZONE_FORM: &str = "%Y-%m-%d %H:%M:%S%:z";

/// How many bytes a day has, as `2026-11-26`.
const DAY_BYTES: usize = 10;

/// What the system says of time zones. The zone itself borrows from it.
#[derive(Drop)]
pub struct Zones {
    database: TimeZoneDatabase,
    system: Option<SystemTimeZone>,
}

/// Whether the system's zone has to be looked up in a database by its name.
fn is_named(alloc: Global, system: &SystemTimeZone) -> bool {
    system.time_zone(&TimeZoneDatabase::new(alloc)).is_err()
}

/// The system's database, whose files are many, where it is needed; else an empty one.
fn database_for(rt: &HostRuntime, system: Option<&SystemTimeZone>) -> TimeZoneDatabase {
    let alloc = rt.alloc();
    match system {
        Some(system) if is_named(alloc, system) => match TimeZoneDatabase::from_env(rt) {
            Ok(database) => database,
            Err(_) => TimeZoneDatabase::new(alloc),
        },
        _ => TimeZoneDatabase::new(alloc),
    }
}

impl Zones {
    /// Where the system doesn't say, it is UTC.
    pub fn read(rt: &HostRuntime) -> Zones {
        let system = SystemTimeZone::read(rt).ok();
        Zones {
            database: database_for(rt, system.as_ref()),
            system,
        }
    }

    pub fn zone(&self) -> TimeZone<'_> {
        match &self.system {
            Some(system) => match system.time_zone(&self.database) {
                Ok(zone) => zone,
                Err(_) => TimeZone::UTC,
            },
            None => TimeZone::UTC,
        }
    }
}

/// The clock's moment.
pub fn now(rt: &HostRuntime) -> Result<u64, Fault> {
    let now = SystemTime::now(rt)?;
    Ok(match now.duration_since(UNIX_EPOCH) {
        Ok(since) => since.as_secs(),
        Err(_) => 0,
    })
}

/// A moment in seconds. Those that are too great have no date.
fn second_of(moment: u64) -> i64 {
    i64::try_from(moment).unwrap_or(i64::MAX)
}

fn date_of(zone: &TimeZone<'_>, moment: u64) -> Result<DateTime, Error> {
    let zoned = Timestamp::from_second(second_of(moment))?.to_zoned(*zone);
    Ok(zoned.datetime())
}

/// A part of a date. None is below 0 from 1970 on.
fn part(value: i16) -> u64 {
    u64::try_from(value).unwrap_or(0)
}

/// A number for a part of a period that has fewer than so many of them.
fn number_in(period: u64, parts: u64, part: u64) -> u64 {
    period.saturating_mul(parts).saturating_add(part)
}

/// The periods that a date lies in. Weeks are those of ISO 8601, from Monday on.
fn periods_of(date: DateTime) -> Periods {
    let year = part(date.year());
    let day = number_in(year, 367, part(date.date().day_of_year()));
    let week = date.date().iso_week_date();
    Periods {
        hour: number_in(day, 24, part(i16::from(date.hour()))),
        day,
        week: number_in(part(week.year()), 54, part(i16::from(week.week()))),
        month: number_in(year, 13, part(i16::from(date.month()))),
        year,
    }
}

/// The periods that a moment lies in, in a zone. Moments that have no date lie in one period, the last.
pub fn periods(zone: &TimeZone<'_>, moment: u64) -> Periods {
    match date_of(zone, moment) {
        Ok(date) => periods_of(date),
        Err(_) => Periods {
            hour: u64::MAX,
            day: u64::MAX,
            week: u64::MAX,
            month: u64::MAX,
            year: u64::MAX,
        },
    }
}

/// A moment as a date and time, or as the number of its seconds where it has no date.
pub fn shown(alloc: Global, zone: &TimeZone<'_>, moment: u64) -> Result<String, Fault> {
    match date_of(zone, moment) {
        Ok(date) => match date.strftime(alloc, FORM) {
            Ok(text) => Ok(text),
            // The form is a right one, so memory lacks.
            Err(_) => Err(Fault::Memory),
        },
        Err(_) => Ok(format!(in alloc; "{moment}")?),
    }
}

/// The same with how far the zone is from UTC then, as `+01:00`.
pub fn shown_in_zone(alloc: Global, zone: &TimeZone<'_>, moment: u64) -> Result<String, Fault> {
    let Ok(at) = Timestamp::from_second(second_of(moment)) else {
        return Ok(format!(in alloc; "{moment}")?);
    };
    match at.to_zoned(*zone).strftime(alloc, ZONE_FORM) {
        Ok(text) => Ok(text),
        // The form is a right one, so memory lacks.
        Err(_) => Err(Fault::Memory),
    }
}

fn last_second_of(date: Date, zone: &TimeZone<'_>) -> Result<i64, Error> {
    let end = DateTime::new(date.year(), date.month(), date.day(), 23, 59, 59, 0)?;
    Ok(end.to_zoned(*zone)?.timestamp().as_second())
}

fn yesterday(now: u64, zone: &TimeZone<'_>) -> Result<i64, Error> {
    let today = date_of(zone, now)?;
    let day = today.date().checked_sub(1i64.days())?;
    last_second_of(day, zone)
}

fn today(now: u64, zone: &TimeZone<'_>) -> Result<i64, Error> {
    last_second_of(date_of(zone, now)?.date(), zone)
}

/// The second of a time of a day, in the zone where none is given with it.
fn second_of_time(word: &str, zone: &TimeZone<'_>) -> Result<i64, Error> {
    let with_offset: Result<Timestamp, Error> = word.parse();
    if let Ok(at) = with_offset {
        return Ok(at.as_second());
    }
    let at: DateTime = word.parse()?;
    Ok(at.to_zoned(*zone)?.timestamp().as_second())
}

/// Whether a word has a time beside its day.
fn has_time(word: &str) -> bool {
    word.contains('T') || word.contains('t') || word.contains(':')
}

/// The last second of a day. The library would pass over a time behind it.
fn second_of_day(word: &str, zone: &TimeZone<'_>) -> Result<i64, Error> {
    let day: Date = word.parse()?;
    last_second_of(day, zone)
}

fn second_said(word: &str, now: u64, zone: &TimeZone<'_>) -> Option<i64> {
    match word {
        "now" => Some(second_of(now)),
        "today" => today(now, zone).ok(),
        "yesterday" => yesterday(now, zone).ok(),
        _ if has_time(word) => second_of_time(word, zone).ok(),
        _ if word.len() == DAY_BYTES => second_of_day(word, zone).ok(),
        _ => None,
    }
}

/// The moment that a date says: `2026-11-26T18:00` in the zone, with a blank or a `T` before the time; the
/// same with `Z` behind it, or with an offset as `+01:00`; the last second of `2026-11-26`, `today` or
/// `yesterday` in the zone; or `now`. None where it is no date, or one before 1970.
pub fn moment_said(word: &str, now: u64, zone: &TimeZone<'_>) -> Option<u64> {
    if word.contains('[') {
        // The name of a zone, which the library would pass over.
        return None;
    }
    let second = second_said(word, now, zone)?;
    u64::try_from(second).ok()
}
