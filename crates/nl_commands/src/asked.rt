//! What the words ask for, and why they ask for nothing.
ghost use Rattle.std.specs.Prelude.{◌≡◌};
ghost use Rattle.nl_commands.specs.Statuses.{fault_status};

use crate::arguments::Arguments;
use std::alloc::{AllocError, AllocFailed};

/// What the program is to do.
#[derive(Drop)]
pub enum Asked {
    /// To run a script.
    Run(Arguments),
    /// To write this text, which says how the program is used, to standard output.
    Help(String),
    /// To write this text, which names the program's version, to standard output.
    Version(String),
}

/// Why the words ask for nothing.
#[derive(Drop)]
pub enum ArgumentsFault {
    /// They are not the program's arguments. The text, for standard error, says what is wrong.
    Misread(String),
    /// There is no memory for reading them.
    Memory,
}

impl ArgumentsFault {
    /// The status that the program ends with.
    pub fn status(&self) -> u8
        ensures { result ≡ fault_status self.now }
    {
        match self {
            ArgumentsFault::Misread(_) => 2,
            ArgumentsFault::Memory => 1,
        }
    }
}

impl From<AllocError> for ArgumentsFault {
    ghost use Rattle.std.specs.Prelude.{◌≡◌};
    ghost use Rattle.nl_commands.specs.declared.asked.ArgumentsFault.TheVariants.{Memory};

    ghost from_gives = { λ _ e. e ≡ Memory };

    fn from(_: AllocError) -> ArgumentsFault {
        ArgumentsFault::Memory
    }
}

impl<T: Drop> From<AllocFailed<T>> for ArgumentsFault {
    ghost use Rattle.std.specs.Prelude.{◌≡◌};
    ghost use Rattle.nl_commands.specs.declared.asked.ArgumentsFault.TheVariants.{Memory};

    ghost from_gives = { λ _ e. e ≡ Memory };

    fn from(_: AllocFailed<T>) -> ArgumentsFault {
        ArgumentsFault::Memory
    }
}
