//! Paths as calls give them, and where they lead.
ghost use Rattle.std.specs.Prelude.{◌≡◌, ◌==◌, ◌&&◌, ◌∷◌, [], not, Ok, Err, MatchOption, MatchResult};
ghost use Rattle.std.specs.List.{list_all};
ghost use Rattle.nl_types.specs.Plain.Paths.{is_name, path_of};
ghost use Rattle.nl_types.specs.Plain.Calls.{and_then, is_above};
ghost use Rattle.nl_types.specs.declared.kind.Kind.TheVariants as kind;
ghost use Rattle.nl_types.specs.Resolving.{resolve_from, step_to};
ghost use Rattle.nl_tree.specs.Held.{Holding, inodes_of_holding};
ghost use Rattle.nl_tree.specs.Private.PathParts.{DividesAtSlash, IsOnePart, IsPartEnd, parts_of, path_behind};
ghost use Rattle.nl_tree.specs.Naming.{IsPlaceOf, IsPlaceRefused};
ghost use Rattle.nl_tree.specs.Reading.{as_directory, as_file, link_at};

use crate::tree_read::{Link, TreeRead};
use nl_types::limits::{PATH_LENGTH_LIMIT, ROOT_INODE};
use nl_types::{InodeNumber, Kind, VolError, is_name};

/// Where the first part ends, if others follow it.
fn part_end(parts: &[u8]) -> Option<usize>
    ensures { MatchOption result (IsOnePart parts.now) (IsPartEnd parts.now) }
{
    for (i, b) in parts.iter().enumerate() {
        if *b == b'/' {
            return Some(i);
        }
    }
    None
}

/// The first part and what stands behind its slash, if others follow it.
fn split_part(parts: &[u8]) -> Option<(&[u8], &[u8])>
    ensures { MatchOption result (IsOnePart parts.now)
        (λ split. DividesAtSlash parts.now split.0.now split.1.now) }
{
    match part_end(parts) {
        Some(end) => Some((&parts[..end], &parts[end + 1..])),
        None => None,
    }
}

/// Whether the parts between slashes are names.
fn are_names(parts: &[u8]) -> bool
    ensures { result ≡ list_all is_name (parts_of parts.now) }
{
    let mut rest = parts;
    while let Some((part, behind)) = split_part(rest) {
        if !is_name(part) {
            return false;
        }
        rest = behind;
    }
    is_name(rest)
}

/// The names of a path, by syntax alone: what stands behind its first slash. Refused by `BadPath` where it
/// does not begin with a slash or has more than 4,095 bytes, and then by `BadName` where a part is no name
/// (POSIX, "Pathname").
pub(crate) fn names_behind(path: &[u8]) -> Result<&[u8], VolError>
    ensures { MatchResult result (λ names. path_of path.now ≡ Ok (path_behind names.now))
        (λ e. path_of path.now ≡ Err e) }
{
    match path {
        [b'/', parts @ ..] if parts.len() < PATH_LENGTH_LIMIT => {
            if parts.is_empty() || are_names(parts) {
                Ok(parts)
            } else {
                Err(VolError::BadName)
            }
        }
        _ => Err(VolError::BadPath),
    }
}

/// One step of a walk, which goes on through a directory alone.
fn step<T: TreeRead>(tree: &T, at: Link, name: &[u8]) -> Result<Link, VolError>
    ensures { (held : Holding) → T.holds tree.now held
        → result ≡ step_to (inodes_of_holding held) at name.now }
{
    let (inode, kind) = at;
    match kind {
        Kind::File => Err(VolError::NotDir),
        Kind::Directory => tree.find(inode, name).ok_or(VolError::NotFound),
    }
}

/// The walk by the names between slashes.
fn walk<T: TreeRead>(tree: &T, from: Link, names: &[u8]) -> Result<Link, VolError>
    ensures { (held : Holding) → T.holds tree.now held
        → result ≡ resolve_from (inodes_of_holding held) from (parts_of names.now) }
{
    let mut at = from;
    let mut rest = names;
    while let Some((name, behind)) = split_part(rest) {
        at = step(tree, at, name)?;
        rest = behind;
    }
    step(tree, at, rest)
}

/// Where a path leads: an inode and its kind. It takes no memory.
///
/// Refused by `BadPath` and `BadName` as the path's syntax is, by `NotDir` where the walk comes to a file,
/// and by `NotFound` where it comes to a name that isn't there.
pub(crate) fn find_path<T: TreeRead>(tree: &T, path: &[u8]) -> Result<Link, VolError>
    ensures { (held : Holding) → T.holds tree.now held
        → result ≡ link_at held path.now }
{
    let root = (InodeNumber::new(ROOT_INODE), Kind::Directory);
    let names = names_behind(path)?;
    if names.is_empty() {
        return Ok(root);
    }
    walk(tree, root, names)
}

/// The file at a path. It takes no memory.
///
/// Refused by `BadPath` and `BadName` as the path's syntax is, by `NotDir` where a file is on the way, by
/// `NotFound` where nothing stands, and by `IsDir` where a directory does.
pub fn find_file<T: TreeRead>(tree: &T, path: &[u8]) -> Result<InodeNumber, VolError>
    ensures { (held : Holding) → T.holds tree.now held
        → result ≡ and_then (link_at held path.now) as_file }
{
    let (inode, kind) = find_path(tree, path)?;
    match kind {
        Kind::File => Ok(inode),
        Kind::Directory => Err(VolError::IsDir),
    }
}

/// The directory at a path. Refused as `find_path` is, and by `NotDir` where there is a file.
pub(crate) fn find_directory<T: TreeRead>(tree: &T, path: &[u8]) -> Result<InodeNumber, VolError>
    ensures { (held : Holding) → T.holds tree.now held
        → result ≡ and_then (link_at held path.now) as_directory }
{
    let (inode, kind) = find_path(tree, path)?;
    match kind {
        Kind::File => Err(VolError::NotDir),
        Kind::Directory => Ok(inode),
    }
}

/// A name in a directory, and what the directory has under it.
#[derive(Clone, Copy)]
pub(crate) struct Place<'p> {
    pub(crate) directory: InodeNumber,
    pub(crate) name: &'p [u8],
    pub(crate) link: Option<Link>,
}

/// One step of a walk, to a directory.
fn step_into<T: TreeRead>(
    tree: &T,
    directory: InodeNumber,
    name: &[u8],
) -> Result<InodeNumber, VolError>
    ensures { (held : Holding) → T.holds tree.now held
        → result ≡ and_then (step_to (inodes_of_holding held) (directory, kind.Directory) name.now)
        as_directory }
{
    let at = (directory, Kind::Directory);
    match step(tree, at, name)? {
        (inode, Kind::Directory) => Ok(inode),
        (_, Kind::File) => Err(VolError::NotDir),
    }
}

/// Where the last of the names between slashes stands. It takes no memory.
///
/// Refused by `NotDir` where a file is on the way, and by `NotFound` where nothing stands there.
pub(crate) fn find_place<'p, T: TreeRead>(tree: &T, names: &'p [u8]) -> Result<Place<'p>, VolError>
    ensures { (held : Holding) → T.holds tree.now held → MatchResult result
        (λ place. IsPlaceOf held (parts_of names.now) place.directory place.name.now place.link)
        (IsPlaceRefused held (parts_of names.now)) }
{
    let mut directory = InodeNumber::new(ROOT_INODE);
    let mut rest = names;
    while let Some((name, behind)) = split_part(rest) {
        directory = step_into(tree, directory, name)?;
        rest = behind;
    }
    Ok(Place {
        directory,
        name: rest,
        link: tree.find(directory, rest),
    })
}

/// Whether the names between slashes begin with others, and go on behind them.
pub(crate) fn is_above(top: &[u8], names: &[u8]) -> bool
    ensures { result ≡ is_above (parts_of top.now) (parts_of names.now) }
{
    match names.strip_prefix(top) {
        Some(rest) => rest.first() == Some(&b'/'),
        None => false,
    }
}
