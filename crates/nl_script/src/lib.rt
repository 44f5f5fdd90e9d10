//! Scripts over a volume: each line's command becomes events, and what these came to becomes text and a
//! status.
//!
//! What no other crate calls is public too, where its contract is one that docs/PROOFS.md names: a promise is
//! kept by public contracts alone.
#![tactic(auto)]

mod configurations;
mod events;
mod lines;
mod readers;
mod reading;
mod rounds;
mod runner;
mod running;
mod scripts;
mod status;
mod telling;
pub mod texts;
mod volume;

pub use configurations::configuration;
pub use events::{events_of, is_quiet};
pub use readers::{Readers, is_bad_mount, reply_of};
pub use rounds::RoundSum;
pub use runner::Runner;
pub use running::run_events;
pub use status::{LineResult, Status};
pub use telling::tell_all;
pub use volume::Volume;
