//! Paths as lists of names.
ghost use Rattle.std.specs.Prelude.{◌≡◌, ◌==◌, ◌≤◌, [], ◌∷◌, ◌++◌, if◌then◌else◌, true, length, IfOk, OnOk};
ghost use Rattle.std.specs.List.{slice_split, onto_first, list_all};
ghost use Rattle.nl_types.specs.Plain.Paths.{same_name, path_cmp, is_within, is_name, names_of, path_of};
ghost use Rattle.nl_types.specs.Plain.Calls.{IsUnlessMemory};

use nl_types::{Items, VolError};
use std::alloc::{AllocError, Global};
use std::cmp::Ordering;

/// A name in a directory: 1 to 255 bytes, neither NUL nor a slash among them, and neither `.` nor
/// `..`, which POSIX keeps for the directory itself and its parent.
pub type Name = Items<u8>;

/// The names from the root down. The root is the empty list.
pub type Path = Items<Name>;

pub fn is_same_name(a: &[u8], b: &[u8]) -> bool
    ensures { result ≡ same_name a.now b.now }
{
    a.cmp(&b).is_eq()
}

/// The order of a tree: by names, and these by bytes.
#[tactic(auto, using(crate::proofs::PathLemmas::ends))]
pub fn compare(a: &[Name], b: &[Name]) -> Ordering
    ensures { result ≡ path_cmp a.now b.now }
{
    match (a, b) {
        ([], []) => Ordering::Equal,
        ([], _) => Ordering::Less,
        ([_, ..], []) => Ordering::Greater,
        ([n, a @ ..], [m, b @ ..]) => n.as_slice().cmp(&m.as_slice()).then(compare(a, b)),
    }
}

/// Whether a path is `top` or lies below it.
#[tactic(auto, using(crate::proofs::PathLemmas::ends))]
pub fn begins_with(path: &[Name], top: &[Name]) -> bool
    ensures value { result ≡ is_within top.now path.now }
    ensures not_longer { result ≡ true → length top.now ≤ length path.now }
{
    match (top, path) {
        ([], _) => true,
        ([_, ..], []) => false,
        ([n, top @ ..], [m, path @ ..]) => {
            is_same_name(n.as_slice(), m.as_slice()) && begins_with(path, top)
        }
    }
}

fn is_valid(name: &[u8]) -> bool
    ensures { result ≡ is_name name.now }
{
    if name.is_empty() || name.len() > 255 || name.contains(&0) || name.contains(&47) {
        return false;
    }
    !is_same_name(name, b".") && !is_same_name(name, b"..")
}

/// Puts a copy of a name behind the others.
pub fn push_name(alloc: Global, path: &mut Path, name: &[u8]) -> Result<(), AllocError>
    ensures { OnOk result (path.new ≡ path.old ++ name.now ∷ []) }
{
    path.push(Items::from_slice(alloc, name)?)
}

/// Puts a byte in front of the first name.
fn onto_first(alloc: Global, byte: u8, names: &mut Path) -> Result<(), AllocError>
    ensures { OnOk result (names.new ≡ onto_first byte names.old) }
{
    match names.pop_front() {
        Some(mut first) => {
            first.push_front(byte)?;
            names.push_front(first)
        }
        None => {
            let mut first = Items::new(alloc);
            first.push_front(byte)?;
            names.push_front(first)
        }
    }
}

/// The names with a byte in front of them. A slash ends a name.
fn with_byte(alloc: Global, byte: u8, mut names: Path) -> Result<Path, AllocError>
    ensures { IfOk result (λ all. all ≡ (if byte == 47 then [] ∷ names else onto_first byte names)) }
{
    if byte == b'/' {
        names.push_front(Items::new(alloc))?;
    } else {
        onto_first(alloc, byte, &mut names)?;
    }
    Ok(names)
}

/// One empty name.
fn no_name(alloc: Global) -> Result<Path, AllocError>
    ensures { IfOk result (λ names. names ≡ [] ∷ []) }
{
    let mut names = Items::new(alloc);
    names.push(Items::new(alloc))?;
    Ok(names)
}

fn split_at_slashes(alloc: Global, bytes: &[u8]) -> Result<Path, AllocError>
    ensures { IfOk result (λ names. names ≡ slice_split (λ b. b == 47) bytes.now) }
{
    match bytes {
        [] => no_name(alloc),
        [b, rest @ ..] => with_byte(alloc, *b, split_at_slashes(alloc, rest)?),
    }
}

fn are_valid(names: &[Name]) -> bool
    ensures { result ≡ list_all is_name names.now }
{
    names.iter().all(|n| is_valid(n.as_slice()))
}

/// The names between slashes, in what follows the first slash.
fn names_of(alloc: Global, bytes: &[u8]) -> Result<Path, VolError>
    ensures { IsUnlessMemory result (names_of bytes.now) }
{
    if bytes.is_empty() {
        return Ok(Items::new(alloc));
    }
    let names = split_at_slashes(alloc, bytes)?;
    if are_valid(names.as_slice()) {
        Ok(names)
    } else {
        Err(VolError::BadName)
    }
}

/// The path that the bytes spell, as POSIX has absolute pathnames: 1 to 4,095 bytes of which the
/// first is a slash, else `BadPath`, and names between slashes, else `BadName`. Unlike POSIX it
/// takes no doubled or trailing slash.
pub fn parse(alloc: Global, bytes: &[u8]) -> Result<Path, VolError>
    ensures { IsUnlessMemory result (path_of bytes.now) }
{
    match bytes {
        [b'/', rest @ ..] if rest.len() < 4095 => names_of(alloc, rest),
        _ => Err(VolError::BadPath),
    }
}
