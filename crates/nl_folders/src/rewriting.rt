//! The calls that turn a file's bytes into others: of each run of blocks that differ one write, and at the end
//! the size, where the writes leave another one.
ghost use Rattle.std.specs.Prelude.{◌≡◌, ◌<◌, ◌≤◌, ◌==◌, length, true, false, IfNone, IfOk, IfSome};
ghost use Rattle.std.specs.List.{list_all};
ghost use Rattle.std.specs.Str.{bytes_eq};
ghost use Rattle.nl_types.specs.declared.event.Change.TheVariants.{Truncate};
ghost use Rattle.nl_types.specs.Plain.Calls.{resized};
ghost use Rattle.nl_folders.specs.Blocks.{block_stands, blocks_in};
ghost use Rattle.nl_folders.specs.Private.Rewriting.{BlocksStand, IsNextRun, MakesFile, RewritesFile, place_of, write_of};
ghost use Rattle.nl_folders.specs.Spelled.{spelling};

use crate::paths::spelled;
use nl_names::Name;
use nl_types::{BLOCK_SIZE, Change, Items};
use std::alloc::{AllocError, Global};

/// How many blocks a file of so many bytes has.
fn blocks_in(size: usize) -> usize
    ensures { result ≡ blocks_in size }
{
    size.div_ceil(BLOCK_SIZE)
}

/// Where a block begins, or else the end.
fn place_of(size: usize, block: usize) -> usize
    ensures { result ≡ place_of size block }
{
    if block < blocks_in(size) {
        BLOCK_SIZE * block
    } else {
        size
    }
}

fn are_zeros(bytes: &[u8]) -> bool
    ensures { result ≡ list_all (λ b. b == 0) bytes.now }
{
    bytes.iter().all(|byte| *byte == 0)
}

/// Whether the rest of a file begins with these bytes, if zeros stand behind its end. So zeros need no write
/// there: they come with the size.
fn has_bytes(rest: &[u8], bytes: &[u8]) -> bool
    ensures { result ≡ bytes_eq (resized rest.now (length bytes.now)) bytes.now }
{
    let shared = rest.len().min(bytes.len());
    rest[..shared] == bytes[..shared] && are_zeros(&bytes[shared..])
}

/// Whether a block of the new bytes stands in the old ones already.
fn block_stands(old: &[u8], new: &[u8], block: usize) -> bool
    requires { block < blocks_in (length new.now) }
    ensures { result ≡ block_stands old.now new.now block }
{
    let start = BLOCK_SIZE * block;
    let end = place_of(new.len(), block + 1);
    has_bytes(&old[start.min(old.len())..], &new[start..end])
}

/// The first block from one on that doesn't stand already.
fn standing_up_to(old: &[u8], new: &[u8], from: usize) -> usize
    requires { from ≤ blocks_in (length new.now) }
    ensures behind { from ≤ result }
    ensures within { result ≤ blocks_in (length new.now) }
    ensures standing { BlocksStand true old.now new.now from result }
    ensures other { result < blocks_in (length new.now) → block_stands old.now new.now result ≡ false }
{
    let blocks = blocks_in(new.len());
    for block in from..blocks {
        if !block_stands(old, new, block) {
            return block;
        }
    }
    blocks
}

/// The first block from one on that stands already.
fn others_up_to(old: &[u8], new: &[u8], from: usize) -> usize
    requires { from ≤ blocks_in (length new.now) }
    ensures behind { from ≤ result }
    ensures within { result ≤ blocks_in (length new.now) }
    ensures others { BlocksStand false old.now new.now from result }
{
    let blocks = blocks_in(new.len());
    for block in from..blocks {
        if block_stands(old, new, block) {
            return block;
        }
    }
    blocks
}

/// Blocks that are written at once.
#[derive(Clone, Copy)]
struct Run {
    first: usize,
    end: usize,
}

/// The first run of blocks that don't stand already, from a block on.
fn next_run(old: &[u8], new: &[u8], from: usize) -> Option<Run>
    requires { from ≤ blocks_in (length new.now) }
    ensures found { IfSome result (IsNextRun old.now new.now from) }
    ensures none { IfNone result (BlocksStand true old.now new.now from (blocks_in (length new.now))) }
{
    let first = standing_up_to(old, new, from);
    if first == blocks_in(new.len()) {
        return None;
    }
    let end = others_up_to(old, new, first + 1);
    Some(Run { first, end })
}

fn write_of(alloc: Global, path: &[Name], new: &[u8], run: Run) -> Result<Change, AllocError>
    requires { run.first ≤ run.end }
    ensures { IfOk result (λ call. call ≡ write_of path.now new.now run) }
{
    let path = spelled(alloc, path)?;
    let start = place_of(new.len(), run.first);
    let end = place_of(new.len(), run.end);
    let bytes = Items::from_slice(alloc, &new[start..end])?;
    Ok(Change::Write {
        path,
        offset: start as u64,
        bytes,
    })
}

fn truncation(alloc: Global, path: &[Name], size: usize) -> Result<Change, AllocError>
    ensures { IfOk result (λ call. call ≡ Truncate (spelling path.now) size) }
{
    let path = spelled(alloc, path)?;
    Ok(Change::Truncate {
        path,
        size: size as u64,
    })
}

/// The calls that turn a file's bytes into others.
pub(crate) fn rewriting(
    alloc: Global,
    path: &[Name],
    old: &[u8],
    new: &[u8],
) -> Result<Items<Change>, AllocError>
    ensures { IfOk result (RewritesFile path.now old.now new.now) }
{
    let mut calls = Items::new(alloc);
    let mut done = 0;
    while let Some(run) = next_run(old, new, done) {
        calls.push(write_of(alloc, path, new, run)?)?;
        done = run.end;
    }
    // Writes end where the last of their blocks does.
    let size = old.len().max(place_of(new.len(), done));
    if size != new.len() {
        calls.push(truncation(alloc, path, new.len())?)?;
    }
    Ok(calls)
}

/// The calls that make a file with these bytes.
pub(crate) fn file_made(
    alloc: Global,
    path: &[Name],
    new: &[u8],
) -> Result<Items<Change>, AllocError>
    ensures { IfOk result (MakesFile path.now new.now) }
{
    let mut calls = Items::new(alloc);
    let named = spelled(alloc, path)?;
    calls.push(Change::Create { path: named })?;
    let writes = rewriting(alloc, path, &[], new)?;
    calls.append(writes.into_vec())?;
    Ok(calls)
}
