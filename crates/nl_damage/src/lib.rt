//! What a damaged image tells: where it fails a condition, which of the later ones hold, and the trees of its
//! checkpoints, as far as they can be read.
#![tactic(auto)]

mod culprits;
mod doubts;
mod later;
pub mod laws;
mod leading;
mod pages;
mod places;
mod ruins;
mod searching;
mod sections;
mod sound;
pub mod sums;
mod tables;
mod unsound;

pub use culprits::Culprit;
pub use doubts::{Doubt, Doubts};
pub use later::{Finding, Judged};
pub use leading::path_of;
pub use pages::ImagePages;
pub use places::{Place, place_of};
pub use ruins::Ruin;
pub use sections::{Places, Sections};
