//! The words that the program is started with, and the numbers that they are.
use nl_types::decimal;
use std::{env, io};

fn read_words(rt: &HostRuntime) -> io::Result<Vec<String>> {
    let words = env::args(rt)?.collect(rt.alloc())?;
    Ok(words)
}

/// The program's name and the words behind it, which are read once more where memory is refused.
pub(crate) fn all_words(rt: &HostRuntime) -> io::Result<Vec<String>> {
    match read_words(rt) {
        Ok(words) => Ok(words),
        Err(_) => read_words(rt),
    }
}

/// A number of things in memory.
pub(crate) fn size(word: &str) -> Option<usize> {
    usize::try_from(decimal(word)?).ok()
}
