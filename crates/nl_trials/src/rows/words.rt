//! The words of a line. One that isn't there is empty, and a word that is no number stands for 0.
use crate::words::size;
use nl_types::decimal;
use std::alloc::Global;
use std::io;

pub(crate) fn words_of<'a>(alloc: Global, line: &'a str) -> io::Result<Vec<&'a str>> {
    let words = line.split_whitespace().collect(alloc)?;
    Ok(words)
}

pub(crate) fn word_at<'a>(words: &[&'a str], place: usize) -> &'a str {
    match words.get(place) {
        Some(word) => *word,
        None => "",
    }
}

/// The number at a place, or another one where there is none.
pub(crate) fn number_or(words: &[&str], place: usize, other: u64) -> u64 {
    decimal(word_at(words, place)).unwrap_or(other)
}

pub(crate) fn number_at(words: &[&str], place: usize) -> u64 {
    number_or(words, place, 0)
}

/// The number at a place, or the greatest one of 32 bits.
pub(crate) fn small_at(words: &[&str], place: usize) -> u32 {
    u32::try_from(number_at(words, place)).unwrap_or(u32::MAX)
}

pub(crate) fn has_word(words: &[&str], due: &str) -> bool {
    words.iter().any(|word| *word == due)
}

/// The number behind a word.
pub(crate) fn number_behind(words: &[&str], due: &str) -> Option<u64> {
    let place = words.iter().position(|word| *word == due)?;
    decimal(word_at(words, place.saturating_add(1)))
}

/// The byte at a place, or 0.
pub(crate) fn byte_at(words: &[&str], place: usize) -> u8 {
    u8::try_from(number_at(words, place)).unwrap_or(0)
}

/// A number of things in memory at a place, or 0.
pub(crate) fn size_at(words: &[&str], place: usize) -> usize {
    size(word_at(words, place)).unwrap_or(0)
}
