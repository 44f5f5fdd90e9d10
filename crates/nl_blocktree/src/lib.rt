//! Files as trees of blocks, over any store of virtual block numbers: a root is a map from index to page.
#![tactic(auto)]

mod chain;
mod change;
mod cursor;
mod data;
mod height;
pub mod laws;
mod levels;
mod meeting;
mod path;
mod placed;
mod put;
mod read;
mod slots;
mod tree;
mod tree_walk;
mod walking;

pub use change::BlockChange;
pub use cursor::Cursor;
pub use meeting::{Met, WalkError, meet};
pub use placed::{PlacedBlock, blocks};
pub use put::put_all;
pub use read::{get, indexes_below};
pub use walking::walk;
