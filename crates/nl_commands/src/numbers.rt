//! Numbers in words.
ghost use Rattle.std.specs.Prelude.{◌≡◌};
ghost use Rattle.nl_commands.specs.NumberWords.{number_in};

use crate::error::LineError;
use nl_types::decimal;

/// # Errors
/// `Usage` where the word is not of digits alone, or its number is above `u64::MAX`.
pub fn number(word: &str) -> Result<u64, LineError>
    ensures { result ≡ number_in word.now }
{
    decimal(word).ok_or(LineError::Usage)
}
