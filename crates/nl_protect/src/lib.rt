//! The protection of checkpoints: where they expire, which numbers the others need, and the configuration that
//! sets the protection period and the pace of cleaning.
#![tactic(auto)]

mod amount;
mod config;
mod keyword;
pub mod laws;
mod parsing;
mod protection;
mod setting;
mod words;

pub use amount::Amount;
pub use config::Config;
pub use protection::{boundary, expiring_run, first_staying, needed, needed_from};
