//! Checks of the checkpoints of an image: the shape of their blocks, the trees that their inodes hold, and the
//! periods of their numbers.
#![tactic(auto)]

mod beside;
mod checks;
mod conditions;
mod differing;
mod directories;
mod ends;
mod files;
mod found;
mod holding;
mod image;
mod inodes;
mod kinds;
pub mod laws;
mod leaving;
mod meeting_anew;
mod periods;
mod shape;
mod sizes;
mod subtrees;
mod trees;
mod turns;

pub use checks::{Verdict, first_fault, judge_checkpoints};
pub use conditions::ImageCondition;
pub use sizes::size_of_blocks;
