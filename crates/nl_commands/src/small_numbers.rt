//! Numbers in words.
ghost use Rattle.std.specs.Prelude.{◌≡◌};
ghost use Rattle.nl_commands.specs.SmallNumbers.{number_in, small};

use nl_types::decimal;

fn small(number: u64) -> Option<u32>
    ensures { result ≡ small number }
{
    if number < 4_294_967_296 {
        Some(number as u32)
    } else {
        None
    }
}

/// The number that a word of decimal digits alone stands for, if it is a `u32`.
pub fn number(word: &str) -> Option<u32>
    ensures { result ≡ number_in word.now }
{
    let number = decimal(word)?;
    small(number)
}
