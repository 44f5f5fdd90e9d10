//! Paths that words say, and the parts of trees that lie there.
use crate::faults::{Fault, fault_at};
use nl_folders::Path;
use nl_manifests::HostTree;
use nl_names::Name;
use nl_shown::part_at;
use nl_types::Items;
use std::alloc::{AllocError, Global};

/// The names that a word says. A slash in front or behind, or one more between two names, says nothing, and
/// neither does a name `.`, which nothing in a volume has.
pub fn path_said(alloc: Global, word: &str) -> Result<Path, AllocError> {
    let mut path = Items::new(alloc);
    for name in word.split('/') {
        if !name.is_empty() && name != "." {
            path.push(Name::new(alloc, name.as_bytes())?)?;
        }
    }
    Ok(path)
}

/// What lies at and below the path that a word says, as a tree of its own.
pub fn part_wanted(alloc: Global, tree: HostTree, word: &str) -> Result<HostTree, Fault> {
    let path = path_said(alloc, word)?;
    let part = part_at(alloc, tree, path.as_slice())?;
    if part.is_empty() {
        return Err(fault_at(alloc, word, "nothing is there"));
    }
    Ok(part)
}
