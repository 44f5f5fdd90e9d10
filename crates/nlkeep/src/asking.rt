//! What a command is given, and what it has at hand.
use crate::faults::{Fault, PARTLY, fault_at};
use crate::sizes::{MOST, SEGMENT_BYTES, segments_said};
use clap::ArgMatches;
use jiff::tz::TimeZone;
use nl_types::decimal;
use std::alloc::Global;

/// The clock and the zone of the system.
#[derive(Clone, Copy)]
pub struct Clock<'z> {
    /// Seconds since 1970.
    pub now: u64,
    pub zone: TimeZone<'z>,
}

/// How a command ended that wasn't refused.
#[derive(Clone, Copy, PartialEq, Eq)]
pub enum Outcome {
    Done,
    /// `diff` or `check` found something.
    Differs,
    /// Something was left out.
    Partly,
}

impl Outcome {
    /// Of a command that leaves nothing out but what it tells.
    pub fn of(is_whole: bool) -> Outcome {
        if is_whole {
            Outcome::Done
        } else {
            Outcome::Partly
        }
    }

    /// Of two parts of a command that find nothing: something was left out where it was in one of them.
    pub fn and(self, other: Outcome) -> Outcome {
        if self == Outcome::Done { other } else { self }
    }

    /// The program's status.
    pub fn status(self) -> u8 {
        match self {
            Outcome::Done => 0,
            Outcome::Differs => 1,
            Outcome::Partly => PARTLY,
        }
    }
}

/// A word, empty where none is given.
pub fn word<'a>(matches: &ArgMatches<'a>, id: &str) -> &'a str {
    matches.get_str(id).unwrap_or("")
}

/// The words that say a path of a volume.
const PATHS: [&str; 2] = ["PATH", "path"];

/// Sees to it that no path of a volume is an empty word, as a variable of a shell is that isn't set: it would
/// mean the root, and so all that there is.
pub fn judge_paths(alloc: Global, matches: &ArgMatches<'_>) -> Result<(), Fault> {
    for id in &PATHS {
        if matches!(matches.get_str(*id), Some(word) if word.is_empty()) {
            return Err(fault_at(alloc, "PATH", "is empty; / is the root"));
        }
    }
    Ok(())
}

/// The moment of a change: the one that was given, or the clock's.
pub fn moment(rt: &HostRuntime, matches: &ArgMatches<'_>, now: u64) -> Result<u64, Fault> {
    let Some(word) = matches.get_str("at") else {
        return Ok(now);
    };
    match decimal(word) {
        Some(moment) => Ok(moment),
        None => Err(fault_at(rt.alloc(), word, "no number of seconds")),
    }
}

const NO_SIZE: &str = "no size from 512K to 256M, in the form of 8M, 8192K or 8388608";

/// How many segments the size has that an option gives.
pub fn segments(
    rt: &HostRuntime,
    matches: &ArgMatches<'_>,
    id: &str,
    default: u32,
) -> Result<u32, Fault> {
    let Some(word) = matches.get_str(id) else {
        return Ok(default);
    };
    match segments_said(word) {
        Some(segments) => Ok(segments),
        None => Err(fault_at(rt.alloc(), word, NO_SIZE)),
    }
}

/// How many bytes a volume may have.
pub fn most(rt: &HostRuntime, matches: &ArgMatches<'_>) -> Result<u64, Fault> {
    let segments = segments(rt, matches, "max", MOST)?;
    Ok(u64::from(segments) * SEGMENT_BYTES)
}
