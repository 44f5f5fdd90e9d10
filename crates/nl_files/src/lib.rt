//! The tree of a checkpoint, read from its blocks, and what a checkpoint takes of the current tree.
#![tactic(auto)]

mod copying;
mod directory;
pub mod laws;
mod plan;
mod read_tree;
mod settling;
mod weighing;

pub use read_tree::ReadTree;
pub use settling::settle;
pub use weighing::most_births;
