//! Retention: which checkpoints go by rules; and pins of checkpoints, which stay whatever the rules say, in a
//! file of the root of a tree, with trees that have that file and trees without it.
#![tactic(auto)]

mod changing;
mod counts;
mod expiring;
pub mod laws;
mod pins;
mod rules;
mod trees;

pub use expiring::{descends, expired};
pub use pins::Pins;
pub use rules::{Dated, Periods, Rules};
pub use trees::{is_of_pins, path_of_pins, with_pins, without_pins};
