//! Files that come to their place: nothing that another program put there is replaced.
use crate::sides::Side;
use crate::standing::{Found, found_of, told_at};
use std::fs::Metadata;
use std::io::ErrorKind;
use std::path::Path;
use std::rt::Files;
use std::{fs, io};

/// Gives a new file the name of one that wasn't there. Returns whether it has it; another one of that name is
/// never replaced, where the system has hard links.
pub fn put_new<R: Files>(files: &R, side: Path<'_>, target: Path<'_>) -> io::Result<bool> {
    match fs::hard_link(files, side, target) {
        Ok(()) => {
            // A name that stays is one more of the same file.
            let _ = fs::remove_file(files, side);
            Ok(true)
        }
        Err(error) if error.kind() == ErrorKind::AlreadyExists => Ok(false),
        Err(_) => put_over(files, side, target, Found::Nothing),
    }
}

/// Puts a new file in the place of what was found, if that still stands there. Returns whether it did.
fn put_over<R: Files>(
    files: &R,
    side: Path<'_>,
    target: Path<'_>,
    found: Found,
) -> io::Result<bool> {
    let told = told_at(files, target)?;
    if found_of(told.as_ref()) != found {
        return Ok(false);
    }
    fs::rename(files, side, target)?;
    Ok(true)
}

/// Puts a new file at a path where this was found at the start. Returns whether it did.
fn put<R: Files>(
    files: &R,
    side: Path<'_>,
    target: Path<'_>,
    found: Option<Found>,
) -> io::Result<bool> {
    match found {
        Some(Found::Nothing) => put_new(files, side, target),
        Some(Found::Regular(state)) => put_over(files, side, target, Found::Regular(state)),
        Some(Found::Other) | None => Ok(false),
    }
}

/// Fills a new file, and puts it at a path where this was found at the start. Returns whether it did.
pub fn fill_and_put<R: Files>(
    files: &R,
    side: &mut Side,
    target: Path<'_>,
    old: Option<&Metadata>,
    found: Option<Found>,
    bytes: &[u8],
) -> io::Result<bool> {
    side.fill(old, bytes)?;
    put(files, side.path.as_path(), target, found)
}
