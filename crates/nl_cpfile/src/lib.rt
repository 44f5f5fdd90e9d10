//! The checkpoint file: which checkpoints are kept, with their modes, and what is told of them.
#![tactic(auto)]

mod checkpoint;
mod earlier;
mod images;
mod judging;
mod listing;
mod searching;
mod table;

pub use checkpoint::Checkpoint;
pub use images::{read_checkpoints, write_checkpoints};
pub use table::{Checkpoints, Cpstat};
