//! Changes of the file of inodes.
use nl_layout::Inode;
use nl_types::InodeNumber;

/// A change: the inode that a number is to have, or none where the number is to be free.
#[derive(Clone, Copy)]
pub struct InodeChange {
    pub number: InodeNumber,
    pub inode: Option<Inode>,
}
