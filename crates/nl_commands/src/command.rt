//! What a script can ask for.
use nl_types::{Change, CheckpointNumber, Items, ListOptions, Mode, MountNumber};

/// Checkpoints that are to be removed.
#[derive(Clone, Copy)]
pub enum CheckpointRange {
    /// `N`
    One(CheckpointNumber),
    /// `A..B`, or `..B`, which begins at 1.
    Between {
        first: CheckpointNumber,
        last: CheckpointNumber,
    },
    /// `A..`, which goes to the latest.
    Since(CheckpointNumber),
}

/// What is shown of a path.
#[derive(Clone, Copy)]
pub enum Shown {
    /// The bytes of a file.
    Content,
    /// The names in a directory.
    Names,
    /// Whether it is a file or a directory, and how large.
    Kind,
}

/// A command of a script. Its numbers are as they were written: the volume judges them.
#[derive(Drop)]
pub enum Command {
    /// Sets the moment of later commands, in whole seconds.
    At(u64),
    /// Makes a checkpoint.
    Mkcp(Mode),
    /// Changes the modes of checkpoints, in order.
    Chcp(Mode, Items<CheckpointNumber>),
    /// Lists checkpoints.
    Lscp(ListOptions),
    /// Removes checkpoints, in order. Where `quiet`, it tells of none that is not kept or a snapshot.
    Rmcp {
        quiet: bool,
        ranges: Items<CheckpointRange>,
    },
    /// Lists segments: all of them, or those alone that are not clean. Where `long`, it tells the needed
    /// blocks of each.
    Lssu {
        all: bool,
        long: bool,
    },
    /// Does one round of cleaning.
    Clean,
    /// Mounts a snapshot.
    Mount(CheckpointNumber),
    /// Gives a mount back.
    Umount(MountNumber),
    /// Makes the volume one of so many segments.
    Resize(u64),
    /// Changes the current tree.
    Change(Change),
    /// Writes so many bytes of one value from an offset on. There are at most 67,108,865.
    Fill {
        path: Items<u8>,
        offset: u64,
        byte: u8,
        count: u64,
    },
    /// Shows the files at paths of the tree that a mount gives.
    Catm {
        mount: MountNumber,
        paths: Items<Items<u8>>,
    },
    /// Shows what is at a path of the tree that a mount gives, or of the current one.
    Show {
        what: Shown,
        mount: Option<MountNumber>,
        path: Items<u8>,
    },
}
