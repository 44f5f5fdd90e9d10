//! What a line makes of the exit status.

use std::io;

/// What a line came to.
#[derive(Clone, Copy)]
pub enum Status {
    /// It did what it asked for.
    Fine,
    /// It was refused, or something that it asked for was.
    Refused,
    /// It was no command.
    Misread,
}

/// What a line makes of the status, and whether what is told of it was written.
pub type LineResult = (Status, io::Result<()>);
