//! Inodes in the blocks of a file of their own: a root of it is a map from inode number to inode.
#![tactic(auto)]

mod change;
mod changed_block;
mod free;
mod put;
mod read;

pub use change::InodeChange;
pub use free::next_ino;
pub use put::put_inodes;
pub use read::inode;
