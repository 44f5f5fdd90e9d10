//! The cleaner, after nilfs_cleanerd: it plans rounds of cleaning by a configuration, and takes a round event
//! by event.
#![tactic(auto)]

mod choice;
mod job;
pub mod laws;
mod planning;
mod shared_rounds;

pub use job::Job;
pub use planning::plan;
