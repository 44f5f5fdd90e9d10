//! Rules of retention, and checkpoints as these see them.
use nl_types::CheckpointNumber;

/// The periods in which a checkpoint was made, in whatever zone. Each is a number that no other period of its
/// kind has.
#[derive(Clone, Copy)]
pub struct Periods {
    pub hour: u64,
    pub day: u64,
    pub week: u64,
    pub month: u64,
    pub year: u64,
}

/// A checkpoint as rules see it.
#[derive(Clone, Copy)]
pub struct Dated {
    pub number: CheckpointNumber,
    /// Whether it stays, whatever rules say.
    pub is_pinned: bool,
    pub periods: Periods,
}

/// How many checkpoints stay: the last ones, and the newest of each of the last hours, days, weeks, months and
/// years that have a checkpoint.
#[derive(Clone, Copy, Default, PartialEq, Eq)]
pub struct Rules {
    pub last: u64,
    pub hourly: u64,
    pub daily: u64,
    pub weekly: u64,
    pub monthly: u64,
    pub yearly: u64,
}
