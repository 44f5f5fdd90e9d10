//! The part of the help text that says what a script is, and how its run ends.
use crate::{COMMANDS, help_of};
use std::alloc::{AllocError, Global};

/// Stands behind the commands. No line is longer than 100 characters.
const RULES: &str = "\
Words are parted by blanks, or stand between quotation marks. With -m M a command reads the
snapshot of that mount. A line that begins with # does nothing.

Exit status: 2 where the arguments or a line are usage, else 1 where something was refused or a
file or a stream failed, else 0.
";

/// Each command of a script with what it does, how words are parted, and what the exit status says.
pub fn script_help(alloc: Global) -> Result<String, AllocError> {
    let commands = help_of(alloc, COMMANDS)?;
    format!(in alloc; "Commands of a script:\n{commands}{RULES}")
}
