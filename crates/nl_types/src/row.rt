//! What is told of kept checkpoints.
ghost use Rattle.std.specs.Prelude.{◌≡◌};
ghost use Rattle.nl_types.specs.Plain.Rows as rows;

use crate::error::VolError;
use crate::event::Mode;
use crate::items::Items;
use crate::numbers::CheckpointNumber;

/// What is told of a kept checkpoint.
#[derive(Clone, Copy)]
pub struct Row {
    pub number: CheckpointNumber,
    pub stamp: u64,
    pub mode: Mode,
    /// Whether the volume made it by itself.
    pub minor: bool,
    /// How many inodes are in use: the paths of its tree, the root's included.
    pub inodes: u64,
}

/// A checkpoint that stays where a range is removed, and why.
#[derive(Clone, Copy)]
pub struct Stays {
    pub number: CheckpointNumber,
    pub reason: VolError,
}

/// What became of the checkpoints of a range. Both lists ascend.
#[derive(Drop)]
pub struct Range {
    pub removed: Items<CheckpointNumber>,
    pub stayed: Items<Stays>,
}

/// Which checkpoints a listing shows, and in which order.
#[derive(Clone, Copy)]
pub struct ListOptions {
    /// Descending, the latest one first.
    pub reverse: bool,
    /// Snapshots alone.
    pub snapshots_only: bool,
    /// Plain checkpoints that the volume made by itself, too.
    pub with_minor: bool,
    /// From this number on, in the order of the listing.
    pub from: Option<CheckpointNumber>,
    /// At most so many.
    pub count: Option<u64>,
}

impl Range {
    /// Whether no kept checkpoint was in it.
    pub fn is_empty(&self) -> bool
        ensures { result ≡ rows.is_empty_range self.now }
    {
        self.removed.is_empty() && self.stayed.is_empty()
    }
}

impl ListOptions {
    /// Whether the listing shows a checkpoint, if it comes so far.
    pub fn shows(&self, row: &Row) -> bool
        ensures { result ≡ rows.is_shown self.now row.now }
    {
        self.is_from(row) && self.is_wanted(row)
    }

    fn is_from(&self, row: &Row) -> bool
        ensures { result ≡ rows.is_from self.now row.now }
    {
        match self.from {
            None => true,
            Some(number) if self.reverse => row.number <= number,
            Some(number) => number <= row.number,
        }
    }

    fn is_wanted(&self, row: &Row) -> bool
        ensures { result ≡ rows.is_wanted self.now row.now }
    {
        let is_snapshot = row.mode.is_snapshot();
        (!self.snapshots_only || is_snapshot) && (self.with_minor || (!row.minor || is_snapshot))
    }
}
