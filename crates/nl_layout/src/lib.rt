//! Blocks of the log as bytes: the summary block at the head of each log, the nodes above the data of a file,
//! and inodes; and of an image the superblock, and the entries of the files of segments and of checkpoints.
#![tactic(auto)]

mod checkpoint_entry;
mod inode;
pub mod laws;
mod level;
mod node;
mod root;
mod segment_entry;
mod summary;
mod superblock;
mod tag;

pub use checkpoint_entry::{CHECKPOINT_SIZE, CheckpointEntry};
pub use inode::{INODE_SIZE, Inode, InodeEntry, InodeKind};
pub use level::Level;
pub use node::{NEXT, Node, SLOTS};
pub use root::{Root, RootFields};
pub use segment_entry::{SEGMENT_SIZE, read_segment, write_segment};
pub use summary::Summary;
pub use superblock::{Mark, Superblock};
pub use tag::Tag;
