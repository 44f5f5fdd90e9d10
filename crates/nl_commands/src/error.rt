//! Why a line asks for nothing that can be tried.
ghost use Rattle.std.specs.Prelude.{◌≡◌};

use clap::error::ErrorKind;
use std::alloc::{AllocError, AllocFailed};

/// A line that is no command that can be tried.
#[derive(Clone, Copy)]
pub enum LineError {
    /// It is no command, or not of its command's form.
    Usage,
    /// There is no memory for its parts.
    Memory,
}

impl From<AllocError> for LineError {
    ghost use Rattle.std.specs.Prelude.{◌≡◌};
    ghost use Rattle.nl_commands.specs.declared.error.LineError.TheVariants.{Memory};

    ghost from_gives = { λ _ e. e ≡ Memory };

    fn from(_: AllocError) -> LineError {
        LineError::Memory
    }
}

impl<T: Drop> From<AllocFailed<T>> for LineError {
    ghost use Rattle.std.specs.Prelude.{◌≡◌};
    ghost use Rattle.nl_commands.specs.declared.error.LineError.TheVariants.{Memory};

    ghost from_gives = { λ _ e. e ≡ Memory };

    fn from(_: AllocFailed<T>) -> LineError {
        LineError::Memory
    }
}

impl From<clap::Error> for LineError {
    ghost use Rattle.std.specs.Prelude.{◌≡◌};
    ghost use Rattle.nl_commands.specs.Kinds.{line_error};
    ghost use Rattle.clap.specs.Words.{kind_of};

    ghost from_gives = { λ e l. l ≡ line_error (kind_of e) };

    fn from(error: clap::Error) -> LineError {
        match error.kind() {
            ErrorKind::OutOfMemory => LineError::Memory,
            _ => LineError::Usage,
        }
    }
}
