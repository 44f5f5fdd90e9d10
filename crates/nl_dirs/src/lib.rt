//! Directories as blocks: a directory is a map from name to inode and kind.
#![tactic(auto)]

pub mod laws;
mod packing;
mod reading;
mod record;

pub use packing::pack;
pub use reading::{find, first_name, record_count, records};
pub use record::Record;
