//! Space for blocks: logs in the segments of a device, and their payload in memory.
#![tactic(auto)]

mod images;
mod log_space;
mod numbers;
mod payload;
mod put;
mod staging;

pub use images::Restored;
pub use log_space::LogSpace;
