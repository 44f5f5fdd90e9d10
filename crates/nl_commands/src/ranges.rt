//! Ranges of checkpoints in words.
ghost use Rattle.std.specs.Prelude.{◌≡◌, []};
ghost use Rattle.std.specs.Option.{option_map};
ghost use Rattle.nl_commands.specs.RangeWords.{around_dot, behind_dot, range_between, first_in, range_in};

use crate::command::CheckpointRange;
use crate::error::LineError;
use crate::numbers::number;
use nl_types::CheckpointNumber;

fn around_dot(word: &str) -> Option<(&str, &str)>
    ensures { option_map (λ parts. (parts.0.now, parts.1.now)) result ≡ around_dot word.now }
{
    word.split_once('.')
}

fn behind_dot(text: &str) -> Option<&str>
    ensures { option_map (λ rest. rest.now) result ≡ behind_dot text.now }
{
    text.strip_prefix('.')
}

fn first_of_range(word: &str) -> Result<CheckpointNumber, LineError>
    ensures { result ≡ first_in word.now }
{
    if word.is_empty() {
        return Ok(CheckpointNumber::new(1));
    }
    Ok(CheckpointNumber::new(number(word)?))
}

fn since(first: &str) -> Result<CheckpointRange, LineError>
    ensures { result ≡ range_between first.now [] }
{
    let first = number(first)?;
    Ok(CheckpointRange::Since(CheckpointNumber::new(first)))
}

fn between(first: &str, last: &str) -> Result<CheckpointRange, LineError>
    ensures { result ≡ range_between first.now last.now }
{
    if last.is_empty() {
        return since(first);
    }
    let first = first_of_range(first)?;
    let last = number(last)?;
    Ok(CheckpointRange::Between {
        first,
        last: CheckpointNumber::new(last),
    })
}

/// `N`, `A..B`, `..B` or `A..`
///
/// # Errors
/// `Usage` where the word is none of these. A range that is none of the volume's, as `3..1`, is read.
pub fn range(word: &str) -> Result<CheckpointRange, LineError>
    ensures { result ≡ range_in word.now }
{
    match around_dot(word) {
        None => Ok(CheckpointRange::One(CheckpointNumber::new(number(word)?))),
        Some((first, behind)) => match behind_dot(behind) {
            Some(last) => between(first, last),
            None => Err(LineError::Usage),
        },
    }
}
