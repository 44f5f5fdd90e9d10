//! A part of an earlier tree that comes back into a later one.
ghost use Rattle.std.specs.Prelude.{◌≡◌, ◌++◌, ◌∷◌, [], not, IfErr, IfOk, OnOk, Some, take, length};
ghost use Rattle.std.specs.Option.{option_copied};
ghost use Rattle.std.specs.FinMap.{find};
ghost use Rattle.nl_types.specs.Plain.Paths.{is_within, path_cmp};
ghost use Rattle.nl_shown.specs.Reverted.{IsInOrder, IsReverted, RefusesRevert, attributes_of, folder_with, or_earlier};
ghost use Rattle.nl_shown.specs.Private.Inserting.{FoldersAbove, IsWithoutPart, PutsFolder, RefusesFolder, RefusesFolders, before_path, behind_path, entry_with, inserted, inside, is_before, outside, standing_of, with_attributes};

use crate::parts::is_directory;
use nl_folders::{Path, begins_with, compare, copied, find_in, is_same_path};
use nl_manifests::{Attributes, HostEntry, HostObject, HostTree};
use nl_names::Name;
use nl_types::Items;
use std::alloc::{AllocError, Global};

/// Why a part doesn't come back.
#[derive(Clone, Copy)]
pub enum RevertError {
    Memory,
    /// Nothing stood at the path.
    NothingThere,
    /// A file or a link stands above the path now, where a folder has to be.
    NoFolder,
}

impl From<AllocError> for RevertError {
    ghost use Rattle.std.specs.Prelude.{◌≡◌};
    ghost use Rattle.nl_shown.specs.declared.reverting.RevertError.TheVariants.{Memory};

    ghost from_gives = { λ _ e. e ≡ Memory };

    fn from(_: AllocError) -> RevertError {
        RevertError::Memory
    }
}

// ---- parts of a tree

fn is_inside(entry: &(Path, HostEntry), top: &[Name]) -> bool
    ensures { result ≡ is_within top.now entry.now.0 }
{
    begins_with(entry.0.as_slice(), top)
}

fn add_inside(entry: (Path, HostEntry), top: &[Name], part: &mut HostTree) -> Result<(), AllocError>
    ensures { OnOk result (part.new ≡ part.old ++ inside top.now (entry ∷ [])) }
{
    if is_inside(&entry, top) {
        part.push(entry)
    } else {
        Ok(())
    }
}

/// The entries at and below a path.
fn inside(alloc: Global, tree: HostTree, top: &[Name]) -> Result<HostTree, AllocError>
    ensures { IfOk result (λ part. part ≡ inside top.now tree) }
{
    let mut part = Items::new(alloc);
    for entry in tree.into_vec() {
        add_inside(entry, top, &mut part)?;
    }
    Ok(part)
}

fn add_outside(
    entry: (Path, HostEntry),
    top: &[Name],
    rest: &mut HostTree,
) -> Result<(), AllocError>
    ensures { OnOk result (rest.new ≡ rest.old ++ outside top.now (entry ∷ [])) }
{
    if is_inside(&entry, top) {
        Ok(())
    } else {
        rest.push(entry)
    }
}

/// All other entries.
fn outside(alloc: Global, tree: HostTree, top: &[Name]) -> Result<HostTree, AllocError>
    ensures { IfOk result (λ rest. rest ≡ outside top.now tree) }
{
    let mut rest = Items::new(alloc);
    for entry in tree.into_vec() {
        add_outside(entry, top, &mut rest)?;
    }
    Ok(rest)
}

fn is_before(entry: &(Path, HostEntry), path: &[Name]) -> bool
    ensures { result ≡ is_before path.now entry.now }
{
    compare(entry.0.as_slice(), path).is_lt()
}

fn add_beside(
    entry: (Path, HostEntry),
    path: &[Name],
    before: &mut HostTree,
    behind: &mut HostTree,
) -> Result<(), AllocError>
    ensures before { OnOk result (before.new ≡ before.old ++ before_path path.now (entry ∷ [])) }
    ensures behind { OnOk result (behind.new ≡ behind.old ++ behind_path path.now (entry ∷ [])) }
{
    if is_before(&entry, path) {
        before.push(entry)
    } else {
        behind.push(entry)
    }
}

/// The entries before a path, and all others.
fn parted(alloc: Global, tree: HostTree, path: &[Name]) -> Result<(HostTree, HostTree), AllocError>
    ensures before { IfOk result (λ parts. parts.0 ≡ before_path path.now tree) }
    ensures behind { IfOk result (λ parts. parts.1 ≡ behind_path path.now tree) }
{
    let mut before = Items::new(alloc);
    let mut behind = Items::new(alloc);
    for entry in tree.into_vec() {
        add_beside(entry, path, &mut before, &mut behind)?;
    }
    Ok((before, behind))
}

/// A tree with a part that comes behind all that is before a path.
fn inserted(
    alloc: Global,
    tree: HostTree,
    path: &[Name],
    part: HostTree,
) -> Result<HostTree, AllocError>
    ensures { IfOk result (λ all. all ≡ inserted path.now part tree) }
{
    let (mut all, behind) = parted(alloc, tree, path)?;
    all.append(part.into_vec())?;
    all.append(behind.into_vec())?;
    Ok(all)
}

// ---- folders above the part

/// The attributes of what stands at a path.
fn attributes_at(tree: &[(Path, HostEntry)], path: &[Name]) -> Option<Attributes>
    ensures { IsInOrder tree.now → result ≡ attributes_of (find path_cmp path.now tree.now) }
{
    match find_in(tree, path) {
        Some(entry) => entry.attributes,
        None => None,
    }
}

fn or_earlier(now: Option<Attributes>, earlier: Option<Attributes>) -> Option<Attributes>
    ensures { result ≡ or_earlier now earlier }
{
    match now {
        Some(attributes) => Some(attributes),
        None => earlier,
    }
}

fn entry_with(
    entry: (Path, HostEntry),
    path: &[Name],
    earlier: Option<Attributes>,
) -> (Path, HostEntry)
    ensures { result ≡ entry_with path.now earlier entry }
{
    let (at, HostEntry { object, attributes }) = entry;
    let attributes = if is_same_path(at.as_slice(), path) {
        or_earlier(attributes, earlier)
    } else {
        attributes
    };
    (at, HostEntry { object, attributes })
}

/// A tree in which what stands at a path has the attributes that it had, if it has none.
fn with_attributes(
    alloc: Global,
    tree: HostTree,
    path: &[Name],
    earlier: Option<Attributes>,
) -> Result<HostTree, AllocError>
    ensures { IfOk result (λ all. all ≡ with_attributes path.now earlier tree) }
{
    let mut all = Items::new(alloc);
    for entry in tree.into_vec() {
        all.push(entry_with(entry, path, earlier))?;
    }
    Ok(all)
}

/// A folder alone.
fn folder_at(
    alloc: Global,
    path: &[Name],
    attributes: Option<Attributes>,
) -> Result<HostTree, AllocError>
    ensures { IfOk result (λ part. part ≡ (path.now, folder_with attributes) ∷ []) }
{
    let mut part = Items::new(alloc);
    let object = HostObject::Directory;
    part.push((copied(alloc, path)?, HostEntry { object, attributes }))?;
    Ok(part)
}

/// What stands at a path, as a folder has to be there.
#[derive(Clone, Copy)]
enum Standing {
    Nothing,
    Folder,
    NoFolder,
}

fn standing_at(tree: &[(Path, HostEntry)], path: &[Name]) -> Standing
    ensures { IsInOrder tree.now → result ≡ standing_of (find path_cmp path.now tree.now) }
{
    match find_in(tree, path) {
        None => Standing::Nothing,
        Some(entry) => {
            if is_directory(&entry.object) {
                Standing::Folder
            } else {
                Standing::NoFolder
            }
        }
    }
}

/// A tree in which a folder stands at a path: the one that is there, or else one with these attributes.
fn with_folder(
    alloc: Global,
    tree: HostTree,
    path: &[Name],
    earlier: Option<Attributes>,
) -> Result<HostTree, RevertError>
    ensures done { IfOk result (λ new. IsInOrder tree → PutsFolder path.now earlier tree new) }
    ensures refused { IfErr result (λ e. IsInOrder tree → RefusesFolder path.now tree e) }
{
    match standing_at(tree.as_slice(), path) {
        Standing::Folder => Ok(tree),
        Standing::NoFolder => Err(RevertError::NoFolder),
        Standing::Nothing => {
            let part = folder_at(alloc, path, earlier)?;
            let tree = inserted(alloc, tree, path, part)?;
            Ok(tree)
        }
    }
}

/// A tree in which folders stand above a path: those that are there, or else those that were.
fn with_folders(
    alloc: Global,
    mut tree: HostTree,
    top: &[Name],
    earlier: &[(Path, HostEntry)],
) -> Result<HostTree, RevertError>
    ensures done { IfOk result (λ new. IsInOrder tree → IsInOrder earlier.now
        → FoldersAbove top.now (length top.now) earlier.now tree new) }
    ensures refused { IfErr result (λ e. IsInOrder tree → IsInOrder earlier.now
        → RefusesFolders top.now tree e) }
{
    for depth in 0..top.len() {
        let path = &top[..depth];
        tree = with_folder(alloc, tree, path, attributes_at(earlier, path))?;
    }
    Ok(tree)
}

/// A tree without what lies at and below a path, with the folders above it.
fn without_part(
    alloc: Global,
    tree: HostTree,
    top: &[Name],
    earlier: &[(Path, HostEntry)],
) -> Result<HostTree, RevertError>
    ensures done { IfOk result (λ new. IsInOrder tree → IsInOrder earlier.now
        → IsWithoutPart tree earlier.now top.now new) }
    ensures refused { IfErr result (λ e. IsInOrder tree → IsInOrder earlier.now
        → RefusesRevert tree earlier.now top.now e) }
{
    let folder = &top[..top.len().saturating_sub(1)];
    let rest = outside(alloc, tree, top)?;
    let rest = with_attributes(alloc, rest, folder, attributes_at(earlier, folder))?;
    with_folders(alloc, rest, top, earlier)
}

/// A later tree, in which at and below a path all stands as in an earlier one. Above it a folder comes back where
/// nothing stands; and the folder that it stands in has the attributes that it had, if it has none. Both trees are
/// in the order of their paths.
///
/// # Errors
/// `NothingThere` where the earlier tree has nothing at the path; `NoFolder` where the later one has a file or a
/// link above it; `Memory`.
pub fn reverted(
    alloc: Global,
    later: HostTree,
    earlier: HostTree,
    top: &[Name],
) -> Result<HostTree, RevertError>
    ensures reverted { IfOk result (λ tree. IsInOrder later → IsInOrder earlier
        → IsReverted later earlier top.now tree) }
    ensures refused { IfErr result (λ e. IsInOrder later → IsInOrder earlier
        → RefusesRevert later earlier top.now e) }
{
    if find_in(earlier.as_slice(), top).is_none() {
        return Err(RevertError::NothingThere);
    }
    let rest = without_part(alloc, later, top, earlier.as_slice())?;
    let part = inside(alloc, earlier, top)?;
    let tree = inserted(alloc, rest, top, part)?;
    Ok(tree)
}
