//! What a command is given, by the names of its grammar.
ghost use Rattle.std.specs.Prelude.{◌≡◌, Ok, map, nat_lt};
ghost use Rattle.nl_types.specs.Plain.Calls.{IsUnless};
ghost use Rattle.nl_commands.specs.GivenOperands.{byte_in, byte_of, number_at, numbers_at, numbers_in, optional_number_at, ranges_at, ranges_in, word_at, words_at};

use crate::command::CheckpointRange;
use crate::error::LineError;
use crate::grammar::Given;
use crate::numbers::number;
use crate::ranges::range;
use nl_types::{CheckpointNumber, Items, MountNumber};
use std::alloc::Global;

pub fn number_at(given: &Given<'_>, id: &str) -> Result<u64, LineError>
    ensures { result ≡ number_at id.now given.now }
{
    match given.text(id) {
        Some(word) => number(word),
        None => Err(LineError::Usage),
    }
}

/// The number, where one is given.
pub fn optional_number_at(given: &Given<'_>, id: &str) -> Result<Option<u64>, LineError>
    ensures { result ≡ optional_number_at id.now given.now }
{
    match given.text(id) {
        Some(word) => Ok(Some(number(word)?)),
        None => Ok(None),
    }
}

/// The checkpoint, where one is given.
pub fn checkpoint_at(given: &Given<'_>, id: &str) -> Result<Option<CheckpointNumber>, LineError>
    ensures { result ≡ optional_number_at id.now given.now }
{
    Ok(optional_number_at(given, id)?.map(CheckpointNumber::new))
}

/// The mount, where one is given.
pub fn mount_at(given: &Given<'_>, id: &str) -> Result<Option<MountNumber>, LineError>
    ensures { result ≡ optional_number_at id.now given.now }
{
    Ok(optional_number_at(given, id)?.map(MountNumber::new))
}

fn byte_of(number: u64) -> Result<u8, LineError>
    ensures { result ≡ byte_of number }
{
    if number < 256 {
        Ok(number as u8)
    } else {
        Err(LineError::Usage)
    }
}

/// A number up to 255.
pub fn byte_in(word: &str) -> Result<u8, LineError>
    ensures { result ≡ byte_in word.now }
{
    let number = number(word)?;
    byte_of(number)
}

/// The bytes of a word.
pub fn bytes_of(alloc: Global, word: &str) -> Result<Items<u8>, LineError>
    ensures { IsUnless LineError.Memory result (Ok word.now) }
{
    Ok(Items::from_slice(alloc, word.as_bytes())?)
}

/// The bytes of the word that is given.
pub fn bytes_at(alloc: Global, given: &Given<'_>, id: &str) -> Result<Items<u8>, LineError>
    ensures { IsUnless LineError.Memory result (word_at id.now given.now) }
{
    match given.text(id) {
        Some(word) => bytes_of(alloc, word),
        None => Err(LineError::Usage),
    }
}

fn paths_in(alloc: Global, words: &[&str]) -> Result<Items<Items<u8>>, LineError>
    ensures { IsUnless LineError.Memory result (Ok (map (λ w. w.now) words.now)) }
{
    let mut paths = Items::new(alloc);
    for word in words {
        paths.push(Items::from_slice(alloc, word.as_bytes())?)?;
    }
    Ok(paths)
}

/// Paths, in the order of their words.
pub fn paths_at(alloc: Global, given: &Given<'_>, id: &str) -> Result<Items<Items<u8>>, LineError>
    ensures { IsUnless LineError.Memory result (words_at id.now given.now) }
{
    match given.texts(id) {
        Some(words) => paths_in(alloc, words),
        None => Err(LineError::Usage),
    }
}

fn numbers_in(alloc: Global, words: &[&str]) -> Result<Items<CheckpointNumber>, LineError>
    ensures { IsUnless LineError.Memory result (numbers_in (map (λ w. w.now) words.now)) }
{
    let mut numbers = Items::new(alloc);
    for word in words {
        let number = number(word)?;
        numbers.push(CheckpointNumber::new(number))?;
    }
    Ok(numbers)
}

/// Checkpoints, in the order of their words.
pub fn numbers_at(
    alloc: Global,
    given: &Given<'_>,
    id: &str,
) -> Result<Items<CheckpointNumber>, LineError>
    ensures { IsUnless LineError.Memory result (numbers_at id.now given.now) }
{
    match given.texts(id) {
        Some(words) => numbers_in(alloc, words),
        None => Err(LineError::Usage),
    }
}

fn ranges_in(alloc: Global, words: &[&str]) -> Result<Items<CheckpointRange>, LineError>
    ensures { IsUnless LineError.Memory result (ranges_in (map (λ w. w.now) words.now)) }
{
    let mut ranges = Items::new(alloc);
    for word in words {
        let range = range(word)?;
        ranges.push(range)?;
    }
    Ok(ranges)
}

/// Ranges of checkpoints, in the order of their words.
pub fn ranges_at(
    alloc: Global,
    given: &Given<'_>,
    id: &str,
) -> Result<Items<CheckpointRange>, LineError>
    ensures { IsUnless LineError.Memory result (ranges_at id.now given.now) }
{
    match given.texts(id) {
        Some(words) => ranges_in(alloc, words),
        None => Err(LineError::Usage),
    }
}
