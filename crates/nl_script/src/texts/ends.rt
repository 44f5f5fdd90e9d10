//! How a script went, and the status that the program ends with.
ghost use Rattle.std.specs.Prelude.{◌≡◌};
ghost use Rattle.nl_script.specs.Ends.{exit_status};

use crate::texts::streams::StandardStream;

/// How a script went.
#[derive(Clone, Copy)]
pub struct Done {
    /// The moment that the last `at` set, in whole seconds.
    pub moment: u64,
    /// A line was no command.
    pub misread: bool,
    /// A line was refused.
    pub refused: bool,
    /// The stream that failed, and so ended the script.
    pub failed: Option<StandardStream>,
}

impl Done {
    /// What the process ends with: 2 where a line was no command, else 1 where one was refused or a stream
    /// failed, else 0.
    pub fn exit_status(self) -> u8
        ensures { result ≡ exit_status self }
    {
        if self.misread {
            2
        } else if self.refused || self.failed.is_some() {
            1
        } else {
            0
        }
    }
}
