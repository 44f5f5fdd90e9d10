//! Manifests that are none, as damage leaves them, and what comes back where one of them had it.
ghost use Rattle.std.specs.Prelude.{◌≡◌, IfOk};
ghost use Rattle.std.specs.List.{list_any};
ghost use Rattle.nl_types.specs.Plain.Paths.{same_name};
ghost use Rattle.nl_manifests.specs.HostTrees.{manifest_name};
ghost use Rattle.nl_shown.specs.Lost.{coming_back, has_bad_manifest, has_folder, is_bad_manifest, is_manifest_path, stands_beside, tells_of};
ghost use Rattle.nl_shown.specs.Reverted.{IsInOrder};

use crate::parts::is_directory;
use crate::unknown::with_lost;
use nl_folders::{Path, begins_with, find_in};
use nl_manifests::{HostEntry, HostTree};
use nl_names::Name;
use std::alloc::{AllocError, Global};

// ---- one manifest

fn is_manifest_name(name: &[u8]) -> bool
    ensures { result ≡ same_name name.now manifest_name }
{
    name.cmp(&b".nlkeep".as_slice()).is_eq()
}

fn is_manifest_path(path: &[Name]) -> bool
    ensures { result ≡ is_manifest_path path.now }
{
    match path {
        [] => false,
        [_, ..] => {
            let last = path.len() - 1;
            is_manifest_name(path[last].as_slice())
        }
    }
}

fn stands_beside(manifest: &[Name], top: &[Name]) -> bool
    ensures { result ≡ stands_beside manifest.now top.now }
{
    let folder = &manifest[..manifest.len().saturating_sub(1)];
    begins_with(top, folder) && top.len() == manifest.len()
}

/// Whether a manifest at a path tells of something at or below another one. Of a folder that is its own alone.
fn tells_of(manifest: &[Name], top: &[Name], top_is_folder: bool) -> bool
    ensures { result ≡ tells_of manifest.now top.now top_is_folder }
{
    let folder = &manifest[..manifest.len().saturating_sub(1)];
    begins_with(folder, top) || (stands_beside(manifest, top) && !top_is_folder)
}

/// Whether a path that a tree shows is that of a manifest which is none, and would tell of something at or below
/// `top`: what is a manifest isn't shown.
pub fn is_bad_manifest(path: &[Name], top: &[Name], top_is_folder: bool) -> bool
    ensures { result ≡ is_bad_manifest top.now top_is_folder path.now }
{
    is_manifest_path(path) && tells_of(path, top, top_is_folder)
}

// ---- a tree

/// Whether a tree, which is in the order of its paths, has a folder at a path.
pub fn has_folder(tree: &[(Path, HostEntry)], path: &[Name]) -> bool
    ensures { IsInOrder tree.now → result ≡ has_folder path.now tree.now }
{
    match find_in(tree, path) {
        Some(entry) => is_directory(&entry.object),
        None => false,
    }
}

/// Whether one of the entries is of a manifest which is none, and would tell of something at or below `top`.
fn any_bad_manifest(tree: &[(Path, HostEntry)], top: &[Name], top_is_folder: bool) -> bool
    ensures { result ≡ list_any (λ e. is_bad_manifest top.now top_is_folder e.0) tree.now }
{
    tree.iter().any(|entry| is_bad_manifest(entry.0.as_slice(), top, top_is_folder))
}

/// Whether a tree, which is in the order of its paths, shows a manifest which is none, and would tell of something
/// at or below a path.
fn has_bad_manifest(tree: &[(Path, HostEntry)], top: &[Name]) -> bool
    ensures { IsInOrder tree.now → result ≡ has_bad_manifest top.now tree.now }
{
    any_bad_manifest(tree, top, has_folder(tree, top))
}

/// An earlier tree as it comes back at and below a path into a later one: where a manifest is none that would tell
/// of something there, as `with_lost` has it. Both trees are in the order of their paths.
///
/// # Errors
/// Memory.
pub fn coming_back(
    alloc: Global,
    earlier: HostTree,
    later: &[(Path, HostEntry)],
    top: &[Name],
) -> Result<HostTree, AllocError>
    ensures comes { IfOk result (λ tree. IsInOrder later.now → IsInOrder earlier
        → tree ≡ coming_back later.now top.now earlier) }
    ensures ordered { IfOk result (λ tree. IsInOrder later.now → IsInOrder earlier → IsInOrder tree) }
{
    if has_bad_manifest(earlier.as_slice(), top) {
        with_lost(alloc, earlier, later, top)
    } else {
        Ok(earlier)
    }
}
