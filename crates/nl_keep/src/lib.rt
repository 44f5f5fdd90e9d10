//! Trees kept in the checkpoints of a volume: stored as snapshots, read back as they were, and forgotten.
#![tactic(auto)]

mod answering;
mod asking;
mod checkpoint_folder;
mod current_folder;
mod forgetting;
mod judging;
pub mod laws;
mod making;
mod storing;
mod tidying;
mod trees;
mod volume;

pub use answering::{Answering, bytes_answered, names_answered};
pub use checkpoint_folder::CheckpointFolder;
pub use forgetting::{forget, make_all_plain};
pub use storing::{KeepError, Stored, store_over};
pub use tidying::remove_minor;
pub use trees::{checkpoint_tree, current_tree, judge_kept};
pub use volume::Volume;
