//! A kept checkpoint, and what is judged of it alone.
ghost use Rattle.std.specs.Prelude.{◌≡◌};
ghost use Rattle.nl_types.specs.Plain.Rows as told;
ghost use Rattle.nl_cpfile.specs.Tables as tables;

use nl_layout::Root;
use nl_types::{CheckpointNumber, Mode, Row, VolError};

/// A kept checkpoint: its tree is read from the blocks under its root.
#[derive(Clone, Copy)]
pub struct Checkpoint {
    pub number: CheckpointNumber,
    pub mode: Mode,
    /// Whether the volume made it by itself, as it moved blocks.
    pub minor: bool,
    /// The moment at which it was made, in whole seconds. Stamps never fall.
    pub stamp: u64,
    /// The root of its file of inodes.
    pub root: Root,
    /// How many inodes are in use: the paths of its tree, the root's included.
    pub inodes: u64,
}

impl Checkpoint {
    /// What is told of it.
    pub fn row(&self) -> Row
        ensures { result ≡ tables.checkpoint_row self.now }
    {
        Row {
            number: self.number,
            stamp: self.stamp,
            mode: self.mode,
            minor: self.minor,
            inodes: self.inodes,
        }
    }

    /// Why it can't be removed, where the latest checkpoint has this number: snapshots stay, and so does the
    /// latest one.
    pub(crate) fn reason_to_stay(&self, latest: CheckpointNumber) -> Option<VolError>
        ensures { result ≡ told.reason_to_stay latest (tables.checkpoint_row self.now) }
    {
        if self.mode.is_snapshot() {
            Some(VolError::IsSnapshot)
        } else if self.number == latest {
            Some(VolError::Latest)
        } else {
            None
        }
    }

    pub(crate) fn is_between(&self, first: CheckpointNumber, last: CheckpointNumber) -> bool
        ensures { result ≡ told.is_between first last (tables.checkpoint_row self.now) }
    {
        first <= self.number && self.number <= last
    }
}
