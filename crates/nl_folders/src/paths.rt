//! Paths as lists of names.
ghost use Rattle.std.specs.Prelude.{◌≡◌, ◌≤◌, [], ◌∷◌, ◌++◌, true, length, IfOk, OnOk};
ghost use Rattle.nl_types.specs.Plain.Paths.{same_name, same_path, path_cmp, is_within};
ghost use Rattle.nl_folders.specs.Private.Agreeing.{AgreeOn};
ghost use Rattle.nl_folders.specs.Spelled.{joined, spelling};

use nl_names::Name;
use nl_types::Items;
use std::alloc::{AllocError, Global};
use std::cmp::Ordering;

/// The names from the root down. The root is the empty list.
pub type Path = Items<Name>;

/// The order of a tree: by names, and these by bytes.
#[tactic(auto, using(crate::proofs::PathLemmas::ends))]
pub fn compare(a: &[Name], b: &[Name]) -> Ordering
    ensures { result ≡ path_cmp a.now b.now }
{
    match (a, b) {
        ([], []) => Ordering::Equal,
        ([], _) => Ordering::Less,
        ([_, ..], []) => Ordering::Greater,
        ([n, a @ ..], [m, b @ ..]) => match n.as_slice().cmp(&m.as_slice()) {
            Ordering::Less => Ordering::Less,
            Ordering::Equal => compare(a, b),
            Ordering::Greater => Ordering::Greater,
        },
    }
}

fn is_same_name(a: &Name, b: &Name) -> bool
    ensures { result ≡ same_name a.now b.now }
{
    a.as_slice().cmp(&b.as_slice()).is_eq()
}

/// How many of the first names of two paths are the same. Of `from` of them that is known, and they aren't looked
/// at again.
pub(crate) fn shared_names(a: &[Name], b: &[Name], from: usize) -> usize
    ensures within_one { result ≤ length a.now }
    ensures within_other { result ≤ length b.now }
    ensures same { AgreeOn from a.now b.now → AgreeOn result a.now b.now }
{
    let most = a.len().min(b.len());
    let mut shared = from.min(most);
    while shared < most {
        if !is_same_name(&a[shared], &b[shared]) {
            return shared;
        }
        shared += 1;
    }
    shared
}

/// Whether two paths are one.
pub fn is_same_path(a: &[Name], b: &[Name]) -> bool
    ensures { result ≡ same_path a.now b.now }
{
    compare(a, b).is_eq()
}

/// Whether a path is `top` or lies below it.
#[tactic(auto, using(crate::proofs::PathLemmas::ends))]
pub fn begins_with(path: &[Name], top: &[Name]) -> bool
    ensures value { result ≡ is_within top.now path.now }
    ensures not_longer { result ≡ true → length top.now ≤ length path.now }
{
    match (top, path) {
        ([], _) => true,
        ([_, ..], []) => false,
        ([n, top @ ..], [m, path @ ..]) => { is_same_name(n, m) && begins_with(path, top) }
    }
}

fn append_shared(path: &mut Vec<Name>, names: &[Name]) -> Result<(), AllocError>
    ensures { OnOk result (path.new.items ≡ path.old.items ++ names.now) }
{
    match names {
        [] => Ok(()),
        [name, rest @ ..] => {
            path.push(name.share()?)?;
            append_shared(path, rest)
        }
    }
}

/// A path that shares its names.
pub fn copied(alloc: Global, path: &[Name]) -> Result<Path, AllocError>
    ensures { IfOk result (λ copy. copy ≡ path.now) }
{
    appended(alloc, path, &[])
}

/// A path, and another one below it.
pub fn appended(alloc: Global, top: &[Name], below: &[Name]) -> Result<Path, AllocError>
    ensures { IfOk result (λ path. path ≡ top.now ++ below.now) }
{
    let mut path = Vec::with_capacity(alloc, top.len().saturating_add(below.len()))?;
    append_shared(&mut path, top)?;
    append_shared(&mut path, below)?;
    Ok(Items::from_vec(path))
}

/// The same path. The names at its head that stand at that of another one too are shared with that: so paths that
/// come one by one, each with names of its own, don't keep them.
pub fn sharing(alloc: Global, path: &[Name], other: &[Name]) -> Result<Path, AllocError>
    ensures { IfOk result (λ same. same ≡ path.now) }
{
    let shared = shared_names(path, other, 0);
    appended(alloc, &other[..shared], &path[shared..])
}

/// The path of a name in a directory.
pub fn with_name(alloc: Global, directory: &[Name], name: &[u8]) -> Result<Path, AllocError>
    ensures { IfOk result (λ path. path ≡ directory.now ++ name.now ∷ []) }
{
    let mut path = Vec::with_capacity(alloc, directory.len().saturating_add(1))?;
    append_shared(&mut path, directory)?;
    path.push(Name::new(alloc, name)?)?;
    Ok(Items::from_vec(path))
}

fn append_spelled(spelling: &mut Vec<u8>, names: &[Name]) -> Result<(), AllocError>
    ensures { OnOk result (spelling.new.items ≡ spelling.old.items ++ joined names.now) }
{
    match names {
        [] => Ok(()),
        [name, rest @ ..] => {
            spelling.push(b'/')?;
            spelling.extend_from_slice(name.as_slice())?;
            append_spelled(spelling, rest)
        }
    }
}

/// The bytes by which a call is given the path: each name behind a slash, and for the root a slash alone.
pub fn spelled(alloc: Global, path: &[Name]) -> Result<Items<u8>, AllocError>
    ensures { IfOk result (λ bytes. bytes ≡ spelling path.now) }
{
    let mut bytes = Vec::new(alloc);
    if path.is_empty() {
        bytes.push(b'/')?;
    } else {
        append_spelled(&mut bytes, path)?;
    }
    Ok(Items::from_vec(bytes))
}
