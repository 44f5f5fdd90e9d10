//! A volume as plain, slow code over whole copied trees: the definitions as a program, for tests. It
//! copies the tree at each change and each checkpoint, and recurses over a path's bytes and names
//! and over the paths, checkpoints and mounts that there are, so it is for small worlds.
#![tactic(auto)]

mod bytes;
mod calls;
mod copies;
mod dirs;
mod dispatch;
mod expiry;
mod judging;
mod listing;
mod mounts;
mod path;
mod runs;
mod tree;
mod walks;
mod world;

pub use calls::{Changed, create, mkdir, read, truncate, write};
pub use dirs::{list, rename, rmdir, stat, unlink};
pub use path::{Name, Path};
pub use runs::run;
pub use tree::{Tree, root_alone_tree};
pub use world::World;
