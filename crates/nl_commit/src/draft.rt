//! A checkpoint that is not published yet.
use nl_cpfile::Checkpoint;
use nl_vstore::Batch;

/// The next checkpoint, and what a store has to write for it.
#[derive(Drop)]
pub struct Draft {
    pub checkpoint: Checkpoint,
    /// The blocks that differ from those of the latest checkpoint, each under a number of its own, and the
    /// numbers that end.
    pub batch: Batch,
}
