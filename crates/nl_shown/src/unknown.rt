//! Attributes of entries of which none are known, as a manifest is none: what comes of them is no more open than it
//! was.
ghost use Rattle.std.specs.Prelude.{◌≡◌, IfOk};
ghost use Rattle.std.specs.Option.{option_copied};
ghost use Rattle.nl_shown.specs.Reverted.{IsInOrder};
ghost use Rattle.nl_shown.specs.Unknown.{comes_alone, is_lost, known_now, lost_entry, private_attributes, private_entry, with_lost, with_private};

use crate::parts::is_directory;
use nl_folders::{Path, begins_with, find_in};
use nl_manifests::{Attributes, HostEntry, HostObject, HostTree, Time};
use nl_names::Name;
use nl_types::Items;
use std::alloc::{AllocError, Global};

// ---- for its owner alone

/// Those of what is its owner's alone, who is root, and dates from 1970.
fn private_attributes(object: &HostObject) -> Attributes
    ensures { result ≡ private_attributes object.now }
{
    Attributes {
        mode: if is_directory(object) { 0o700 } else { 0o600 },
        owner: 0,
        group: 0,
        time: Time {
            is_negative: false,
            seconds: 0,
            nanoseconds: 0,
        },
    }
}

fn private_entry(entry: (Path, HostEntry)) -> (Path, HostEntry)
    ensures { result ≡ private_entry entry }
{
    let (path, HostEntry { object, attributes }) = entry;
    let attributes = match attributes {
        Some(attributes) => attributes,
        None => private_attributes(&object),
    };
    let attributes = Some(attributes);
    (path, HostEntry { object, attributes })
}

/// A tree in which what has no known attributes is its owner's alone.
///
/// # Errors
/// Memory.
pub fn with_private(alloc: Global, tree: HostTree) -> Result<HostTree, AllocError>
    ensures { IfOk result (λ all. all ≡ with_private tree) }
{
    let mut all = Items::new(alloc);
    for entry in tree.into_vec() {
        all.push(private_entry(entry))?;
    }
    Ok(all)
}

// ---- as what stands there

/// Those of a file that stands there now.
fn known_now(now: Option<&HostEntry>) -> Option<Attributes>
    ensures { result ≡ known_now (option_copied now.entry) }
{
    let entry = now?;
    match entry.object {
        HostObject::File(_) => entry.attributes,
        HostObject::Directory => None,
        HostObject::Link(_) => None,
    }
}

/// Whether no manifest comes back along with what stood at a path.
fn comes_alone(path: &[Name], object: &HostObject, now: Option<&HostEntry>, top: &[Name]) -> bool
    ensures { result ≡ comes_alone path.now object.now (option_copied now.entry) top.now }
{
    if is_directory(object) {
        path.len() < top.len() && now.is_none()
    } else {
        path.len() == top.len()
    }
}

fn is_lost(path: &[Name], entry: &HostEntry, now: Option<&HostEntry>, top: &[Name]) -> bool
    ensures { result ≡ is_lost path.now entry.now (option_copied now.entry) top.now }
{
    entry.attributes.is_none()
        && begins_with(top, path)
        && comes_alone(path, &entry.object, now, top)
}

fn lost_entry(entry: (Path, HostEntry), now: Option<&HostEntry>, top: &[Name]) -> (Path, HostEntry)
    ensures { result ≡ lost_entry (option_copied now.entry) top.now entry }
{
    if !is_lost(entry.0.as_slice(), &entry.1, now, top) {
        return entry;
    }
    let (path, HostEntry { object, .. }) = entry;
    let attributes = match known_now(now) {
        Some(attributes) => attributes,
        None => private_attributes(&object),
    };
    let attributes = Some(attributes);
    (path, HostEntry { object, attributes })
}

/// An earlier tree in which what comes back at or above a path, and has no known attributes, is no more open than
/// what stands there later, or is its owner's alone. Below the path manifests come back as they are. The later tree
/// is in the order of its paths.
///
/// # Errors
/// Memory.
pub(crate) fn with_lost(
    alloc: Global,
    earlier: HostTree,
    later: &[(Path, HostEntry)],
    top: &[Name],
) -> Result<HostTree, AllocError>
    ensures { IfOk result (λ tree. IsInOrder later.now → tree ≡ with_lost later.now top.now earlier) }
{
    let mut tree = Items::new(alloc);
    for entry in earlier.into_vec() {
        let now = find_in(later, entry.0.as_slice());
        tree.push(lost_entry(entry, now, top))?;
    }
    Ok(tree)
}
