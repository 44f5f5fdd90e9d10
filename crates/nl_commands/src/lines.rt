//! A line of a script, as a command.
ghost use Rattle.std.specs.Prelude.{◌≡◌, ◌≢◌, map};
ghost use Rattle.nl_types.specs.Plain.Calls.{IsUnless};
ghost use Rattle.nl_commands.specs.CommandNames.{command_meant};
ghost use Rattle.nl_commands.specs.LineMeanings.{MeansLine, MeansText, words_meant};

use crate::command::Command;
use crate::error::LineError;
use crate::names::read_named;
use crate::words::words_of;
use std::alloc::Global;
use std::str;

/// What the words of a line ask for. The first one names the command.
///
/// # Errors
/// `Usage` where they are no command, or not of its command's form; `Memory`.
pub fn read_words(alloc: Global, words: &[&str]) -> Result<Command, LineError>
    ensures { IsUnless LineError.Memory result (command_meant (map (λ w. w.now) words.now)) }
{
    let [word, rest @ ..] = words else {
        return Err(LineError::Usage);
    };
    read_named(alloc, word, rest)
}

fn read_if_any(alloc: Global, words: &[&str]) -> Result<Option<Command>, LineError>
    ensures { IsUnless LineError.Memory result (words_meant (map (λ w. w.now) words.now)) }
{
    if words.is_empty() {
        return Ok(None);
    }
    Ok(Some(read_words(alloc, words)?))
}

fn read_text(alloc: Global, text: &str) -> Result<Option<Command>, LineError>
    ensures { (result ≢ Err LineError.Memory) → MeansText text.now result }
{
    let words = words_of(alloc, text)?;
    read_if_any(alloc, &words)
}

/// What a line asks for, without its line break. One with no word, and one that begins with `#`,
/// ask for nothing.
///
/// # Errors
/// `Usage` where it is no text, no command or not of its command's form; `Memory`.
pub fn read_line(alloc: Global, line: &[u8]) -> Result<Option<Command>, LineError>
    ensures { MeansLine line.now result }
{
    let text = str::from_utf8(line).map_err(|_| LineError::Usage)?;
    if text.starts_with('#') {
        return Ok(None);
    }
    read_text(alloc, text)
}
