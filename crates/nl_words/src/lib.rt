//! Which checkpoints words mean, and which come over into another volume: functions over what is told of the
//! checkpoints of a volume.
#![tactic(auto)]

mod copying;
mod forgetting;
pub mod laws;
mod own;
mod ranges;

pub use copying::{Kept, coming, latest_stamp, missing};
pub use forgetting::going;
pub use own::{is_plain_minor, latest_own};
pub use ranges::{Numbers, names_any, staying};
