//! Files that are kept beside those whose place they were to take. No save removes them.
ghost use Rattle.std.specs.Prelude.{◌≡◌, ◌≤◌, IfOk, length, string_bytes};
ghost use Rattle.nl_saving.specs.SideNames.{IsKeptName};

use crate::putting::put_new;
use crate::sides::Side;
use std::alloc::{AllocError, Global};
use std::io;
use std::io::ErrorKind;
use std::path::{Path, PathBuf};
use std::rt::Files;

/// How much of a file's name that of a kept one has at most. With what stands around it that is 255 bytes, the
/// longest name of Linux: a dot, `.nlvol-kept-` and up to twenty digits.
const MOST_BYTES: usize = 222;

/// The name of a kept file beside the one of this name, which is cut where it is long.
pub fn kept_name(alloc: Global, name: &str, number: u64) -> Result<String, AllocError>
    ensures name { IfOk result (λ kept. IsKeptName name.now number (string_bytes kept)) }
    ensures fits { IfOk result (λ kept. length (string_bytes kept) ≤ 255) }
{
    let begin = &name[..name.floor_char_boundary(MOST_BYTES)];
    format!(in alloc; ".{begin}.nlvol-kept-{number}")
}

/// The path of a kept file beside a path.
fn kept_path(alloc: Global, target: Path<'_>, name: &str, number: u64) -> io::Result<PathBuf> {
    let kept_name = kept_name(alloc, name, number)?;
    let path = target.with_file_name(alloc, kept_name.as_str())?;
    Ok(path)
}

/// Gives a file the first name of a kept one beside a path that is free.
fn put_first<R: AllocGlobal + Files>(
    rt: &R,
    side: Path<'_>,
    target: Path<'_>,
) -> io::Result<PathBuf> {
    let Some(name) = target.file_name() else {
        return Err(io::Error::from(ErrorKind::InvalidInput));
    };
    for number in 0..u64::MAX {
        let path = kept_path(rt.alloc(), target, name, number)?;
        if put_new(rt, side, path.as_path())? {
            return Ok(path);
        }
    }
    Err(io::Error::from(ErrorKind::AlreadyExists))
}

/// Keeps a new file beside a path where it can't stand, under a name of its own. Where it can't be given one it has
/// the name that it had.
pub fn put_aside<R: AllocGlobal + Files>(rt: &R, side: Side, target: Path<'_>) -> PathBuf {
    match put_first(rt, side.path.as_path(), target) {
        Ok(path) => path,
        Err(_) => side.path,
    }
}
