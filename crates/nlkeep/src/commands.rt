//! The commands of the program.

/// A command that looks at the volume of an image, and leaves that as it is.
#[derive(Clone, Copy)]
pub enum Look {
    List,
    Ls,
    Cat,
    Diff,
    History,
    Find,
    Tree,
    Du,
    Df,
    Show,
    Tar,
}

/// What the program is asked to do.
#[derive(Clone, Copy)]
pub enum Command {
    Init,
    Backup,
    Restore,
    Revert,
    Untar,
    Copy,
    Forget,
    Pin,
    Prune,
    Check,
    Rescue,
    Looks(Look),
}
