//! How long a page belongs to the tree.
use crate::numbers::CheckpointNumber;

/// The checkpoints that have a page: those from `start` on, and before `end` where there is one.
#[derive(Clone, Copy)]
pub struct Period {
    pub start: CheckpointNumber,
    pub end: Option<CheckpointNumber>,
}
