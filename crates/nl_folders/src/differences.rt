//! What differs between two trees.
ghost use Rattle.std.specs.Prelude.{◌≡◌, ◌++◌, ◌∷◌, ◌↔◌, [], IfOk, OnOk, IsTrue, Some};
ghost use Rattle.std.specs.Option.{option_copied};
ghost use Rattle.nl_folders.specs.Differences.{difference_of, differences, told};
ghost use Rattle.nl_folders.specs.Private.Merging.{TellsNext};

use crate::paths::{Path, compare, copied, is_same_path};
use crate::trees::is_same_object;
use nl_names::Name;
use nl_types::{Items, Object};
use std::alloc::{AllocError, Global};
use std::cmp::Ordering;

/// What differs at a path from one tree to another.
#[derive(Clone, Copy)]
pub enum Difference {
    /// Nothing stood there.
    Added,
    /// Nothing stands there any more.
    Removed,
    /// A file has other bytes.
    Rewritten,
    /// A directory stands where a file stood, or a file where a directory stood.
    Replaced,
}

/// What differs between what stood somewhere and what stands there.
pub fn difference_between(old: Option<&Object>, new: Option<&Object>) -> Option<Difference>
    ensures { result ≡ difference_of (option_copied old.entry) (option_copied new.entry) }
{
    match (old, new) {
        (None, None) => None,
        (None, Some(_)) => Some(Difference::Added),
        (Some(_), None) => Some(Difference::Removed),
        (Some(Object::Dir), Some(Object::Dir)) => None,
        (Some(Object::File(old)), Some(Object::File(new))) => {
            if old.as_slice() == new.as_slice() {
                None
            } else {
                Some(Difference::Rewritten)
            }
        }
        (Some(Object::Dir), Some(Object::File(_))) => Some(Difference::Replaced),
        (Some(Object::File(_)), Some(Object::Dir)) => Some(Difference::Replaced),
    }
}

fn is_same_entry(one: &(Path, Object), other: &(Path, Object)) -> bool
    ensures { IsTrue result ↔ (one.now ≡ other.now) }
{
    is_same_path(one.0.as_slice(), other.0.as_slice()) && is_same_object(&one.1, &other.1)
}

/// Whether two trees are one.
pub fn same_trees(one: &[(Path, Object)], other: &[(Path, Object)]) -> bool
    ensures { IsTrue result ↔ (one.now ≡ other.now) }
{
    if one.len() != other.len() {
        return false;
    }
    for at in 0..one.len() {
        if !is_same_entry(&one[at], &other[at]) {
            return false;
        }
    }
    true
}

/// Adds a difference at a path.
fn add(
    alloc: Global,
    path: &[Name],
    difference: Difference,
    all: &mut Items<(Path, Difference)>,
) -> Result<(), AllocError>
    ensures { OnOk result (all.new ≡ all.old ++ (path.now, difference) ∷ []) }
{
    let path = copied(alloc, path)?;
    all.push((path, difference))
}

/// Adds what differs at a path at which both trees have something.
fn add_between(
    alloc: Global,
    path: &[Name],
    old: &Object,
    new: &Object,
    all: &mut Items<(Path, Difference)>,
) -> Result<(), AllocError>
    ensures { OnOk result (all.new ≡ all.old ++ told path.now (difference_of (Some old.now) (Some new.now))) }
{
    match difference_between(Some(old), Some(new)) {
        None => Ok(()),
        Some(difference) => add(alloc, path, difference, all),
    }
}

/// How many entries of each tree are told of.
#[derive(Clone, Copy)]
struct Passed {
    in_old: usize,
    in_new: usize,
}

const OLD: Passed = Passed {
    in_old: 1,
    in_new: 0,
};

const NEW: Passed = Passed {
    in_old: 0,
    in_new: 1,
};

const BOTH: Passed = Passed {
    in_old: 1,
    in_new: 1,
};

/// Adds what differs at the least path of both trees. None where nothing is left of them.
fn add_first(
    alloc: Global,
    old: &[(Path, Object)],
    new: &[(Path, Object)],
    all: &mut Items<(Path, Difference)>,
) -> Result<Option<Passed>, AllocError>
    ensures { IfOk result (TellsNext old.now new.now all.old all.new) }
{
    match (old, new) {
        ([], []) => Ok(None),
        ([], [f, ..]) => {
            add(alloc, f.0.as_slice(), Difference::Added, all)?;
            Ok(Some(NEW))
        }
        ([e, ..], []) => {
            add(alloc, e.0.as_slice(), Difference::Removed, all)?;
            Ok(Some(OLD))
        }
        ([e, ..], [f, ..]) => match compare(e.0.as_slice(), f.0.as_slice()) {
            Ordering::Less => {
                add(alloc, e.0.as_slice(), Difference::Removed, all)?;
                Ok(Some(OLD))
            }
            Ordering::Equal => {
                add_between(alloc, e.0.as_slice(), &e.1, &f.1, all)?;
                Ok(Some(BOTH))
            }
            Ordering::Greater => {
                add(alloc, f.0.as_slice(), Difference::Added, all)?;
                Ok(Some(NEW))
            }
        },
    }
}

/// All that differs from one tree to another, in the order of the paths.
pub fn all_differences(
    alloc: Global,
    old: &[(Path, Object)],
    new: &[(Path, Object)],
) -> Result<Items<(Path, Difference)>, AllocError>
    ensures { IfOk result (λ all. all ≡ differences old.now new.now) }
{
    let mut all = Items::new(alloc);
    let mut in_old = 0;
    let mut in_new = 0;
    while let Some(passed) = add_first(alloc, &old[in_old..], &new[in_new..], &mut all)? {
        in_old += passed.in_old;
        in_new += passed.in_new;
    }
    Ok(all)
}
