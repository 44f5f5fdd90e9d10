//! Files that begin with a mark and a number: they alone are replaced.
ghost use Rattle.std.specs.Prelude.{◌≡◌};
ghost use Rattle.nl_saving.specs.Marks.{begins_with_digit, is_marked};

use crate::files::{FileFault, read_all};
use crate::putting::fill_and_put;
use crate::saving::open_old;
use crate::sides::Side;
use crate::standing::{Found, found_of, stands_at, sync_folder, told_at};
use std::fs::File;
use std::io;
use std::io::{ErrorKind, Read};
use std::path::Path;
use std::rt::Files;

/// How many bytes are read of a file to see what it is.
const HEAD: u64 = 64;

fn begins_with_digit(bytes: &[u8]) -> bool
    ensures { result ≡ begins_with_digit bytes.now }
{
    match bytes {
        [b'0'..=b'9', ..] => true,
        _ => false,
    }
}

/// Whether bytes begin with a mark and a digit behind it.
#[tactic(auto, unfolding(crate::specs::Marks::is_marked))]
pub fn is_marked(mark: &[u8], bytes: &[u8]) -> bool
    ensures { result ≡ is_marked mark.now bytes.now }
{
    match mark {
        [] => begins_with_digit(bytes),
        [b, mark @ ..] => match bytes {
            [] => false,
            [c, bytes @ ..] => {
                if b == c {
                    is_marked(mark, bytes)
                } else {
                    false
                }
            }
        },
    }
}

/// The first bytes of a file.
fn head_of<R: AllocGlobal>(rt: &R, file: File) -> io::Result<Vec<u8>> {
    match read_all(rt.alloc(), &mut file.take(HEAD)) {
        Ok(head) => Ok(head),
        Err(FileFault::Unread) => Err(io::Error::from(ErrorKind::Other)),
        Err(FileFault::Refused(_)) => Err(io::Error::from(ErrorKind::OutOfMemory)),
    }
}

/// Whether a regular file stands at a path, which isn't a link, and begins with a mark and a number.
fn stands_marked<R: AllocGlobal + Files<File = File>>(
    rt: &R,
    path: Path<'_>,
    mark: &[u8],
) -> io::Result<bool> {
    let Some(file) = open_old(rt, path.as_str()) else {
        return Ok(false);
    };
    if !stands_at(rt, path, &file)? {
        return Ok(false);
    }
    let head = head_of(rt, file)?;
    Ok(is_marked(mark, head.as_slice()))
}

/// Whether a new file may come to a path where this was found.
fn may_come<R: AllocGlobal + Files<File = File>>(
    rt: &R,
    path: Path<'_>,
    found: Found,
    mark: &[u8],
) -> io::Result<bool> {
    match found {
        Found::Nothing => Ok(true),
        Found::Regular(_) => stands_marked(rt, path, mark),
        Found::Other => Ok(false),
    }
}

/// Fills a new file, and puts it at a path where this was found. Answers whether it did, and leaves none else.
fn put_like<R: AllocGlobal + Files<File = File>>(
    rt: &R,
    path: Path<'_>,
    found: Found,
    like: Path<'_>,
    bytes: &[u8],
) -> io::Result<bool> {
    let like = told_at(rt, like)?;
    let mut side = Side::create(rt, path)?;
    match fill_and_put(rt, &mut side, path, like.as_ref(), Some(found), bytes) {
        Ok(true) => {
            sync_folder(rt, path);
            Ok(true)
        }
        other => {
            side.remove(rt);
            other
        }
    }
}

/// Writes a file that begins with a mark and a number, whole or not at all, with the owner, the group and the mode of
/// the file at another path. It replaces such a file alone, and no link. Answers whether it did: what else stands
/// there stays.
///
/// # Errors
/// Those of the system. What stood there stays then.
pub fn save_marked<R: AllocGlobal + Files<File = File>>(
    rt: &R,
    path: &str,
    mark: &[u8],
    like: &str,
    bytes: &[u8],
) -> io::Result<bool> {
    let path = Path::new(path);
    let found = found_of(told_at(rt, path)?.as_ref());
    if !may_come(rt, path, found, mark)? {
        return Ok(false);
    }
    put_like(rt, path, found, Path::new(like), bytes)
}
