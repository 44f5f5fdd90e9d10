//! What a path or a name of a directory stands for.

/// A file or a directory.
#[derive(Clone, Copy, PartialEq, Eq)]
pub enum Kind {
    File,
    Directory,
}
