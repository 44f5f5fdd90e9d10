//! A tree as the list of its entries in order.
ghost use Rattle.std.specs.Prelude.{◌≡◌, ◌≤◌, ◌∷◌, ◌++◌, map, length, OnOk, IfOk};
ghost use Rattle.std.specs.Option.{option_copied};
ghost use Rattle.nl_types.specs.declared.reply.Object.TheVariants.{File};
ghost use Rattle.nl_types.specs.Plain.Trees.{lookup, insert, remove, root_alone, name_below, object_kind, children, moved_path, move_subtree};
ghost use Rattle.nl_types.specs.Plain.Calls.{named};

use crate::path::{Name, Path, begins_with, compare, is_same_name, push_name};
use nl_types::{Items, Kind, Named, Object};
use std::alloc::{AllocError, Global};
use std::cmp::Ordering;

/// The directories and files of a volume with their paths, ascending. The root is among them.
pub type Tree = Items<(Path, Object)>;

/// The tree of a new volume.
pub fn root_alone_tree(alloc: Global) -> Result<Tree, AllocError>
    ensures { IfOk result (λ tree. tree ≡ root_alone) }
{
    let mut tree = Items::new(alloc);
    tree.push((Items::new(alloc), Object::Dir))?;
    Ok(tree)
}

/// What stands at a path.
pub fn find<'a>(entries: &'a [(Path, Object)], path: &[Name]) -> Option<&'a Object>
    ensures { option_copied result ≡ lookup entries.now path.now }
{
    match entries {
        [] => None,
        [first, rest @ ..] => {
            if compare(path, first.0.as_slice()).is_eq() {
                Some(&first.1)
            } else {
                find(rest, path)
            }
        }
    }
}

/// The name that a path has in a directory, if it lies right below it.
fn name_in<'a>(dir: &[Name], path: &'a [Name]) -> Option<&'a Name>
    ensures { option_copied result ≡ name_below dir.now path.now }
{
    match dir {
        [] => match path {
            [] => None,
            [name] => Some(name),
            [_, _, ..] => None,
        },
        [n, dir @ ..] => match path {
            [] => None,
            [m, path @ ..] => {
                if is_same_name(n.as_slice(), m.as_slice()) {
                    name_in(dir, path)
                } else {
                    None
                }
            }
        },
    }
}

fn kind(object: &Object) -> Kind
    ensures { result ≡ object_kind object.now }
{
    match object {
        Object::Dir => Kind::Directory,
        Object::File(_) => Kind::File,
    }
}

/// The names with a copy of one more in front, with its kind.
fn with_named(
    alloc: Global,
    mut names: Items<Named>,
    name: &[u8],
    object: &Object,
) -> Result<Items<Named>, AllocError>
    ensures { IfOk result (λ all. all ≡ named (name.now, object_kind object.now) ∷ names) }
{
    let name = Items::from_slice(alloc, name)?;
    let kind = kind(object);
    names.push_front(Named { name, kind })?;
    Ok(names)
}

/// The names in a directory with their kinds, ascending.
pub fn names_in(
    alloc: Global,
    entries: &[(Path, Object)],
    dir: &[Name],
) -> Result<Items<Named>, AllocError>
    ensures { IfOk result (λ names. names ≡ map named (children entries.now dir.now)) }
{
    match entries {
        [] => Ok(Items::new(alloc)),
        [first, rest @ ..] => {
            let names = names_in(alloc, rest, dir)?;
            match name_in(dir, first.0.as_slice()) {
                Some(name) => with_named(alloc, names, name.as_slice(), &first.1),
                None => Ok(names),
            }
        }
    }
}

/// How many names a directory has.
pub fn count_in(entries: &[(Path, Object)], dir: &[Name]) -> usize
    ensures value { result ≡ length (children entries.now dir.now) }
    ensures no_more { result ≤ length entries.now }
{
    match entries {
        [] => 0,
        [first, rest @ ..] => {
            let count = count_in(rest, dir);
            if name_in(dir, first.0.as_slice()).is_some() {
                count + 1
            } else {
                count
            }
        }
    }
}

fn append_copies(alloc: Global, path: &mut Path, names: &[Name]) -> Result<(), AllocError>
    ensures { OnOk result (path.new ≡ path.old ++ names.now) }
{
    match names {
        [] => Ok(()),
        [name, rest @ ..] => {
            push_name(alloc, path, name.as_slice())?;
            append_copies(alloc, path, rest)
        }
    }
}

fn copy_path(alloc: Global, path: &[Name]) -> Result<Path, AllocError>
    ensures { IfOk result (λ copy. copy ≡ path.now) }
{
    let mut copy = Items::new(alloc);
    append_copies(alloc, &mut copy, path)?;
    Ok(copy)
}

fn copy_object(alloc: Global, object: &Object) -> Result<Object, AllocError>
    ensures { IfOk result (λ copy. copy ≡ object.now) }
{
    match object {
        Object::Dir => Ok(Object::Dir),
        Object::File(bytes) => Ok(Object::File(Items::from_slice(alloc, bytes.as_slice())?)),
    }
}

fn copy_entry(alloc: Global, path: &[Name], object: &Object) -> Result<(Path, Object), AllocError>
    ensures { IfOk result (λ copy. copy ≡ (path.now, object.now)) }
{
    let path = copy_path(alloc, path)?;
    let object = copy_object(alloc, object)?;
    Ok((path, object))
}

/// The tree with a copy of an entry in front.
fn with_first(
    alloc: Global,
    mut tree: Tree,
    path: &[Name],
    object: &Object,
) -> Result<Tree, AllocError>
    ensures { IfOk result (λ all. all ≡ (path.now, object.now) ∷ tree) }
{
    tree.push_front(copy_entry(alloc, path, object)?)?;
    Ok(tree)
}

pub fn copy(alloc: Global, entries: &[(Path, Object)]) -> Result<Tree, AllocError>
    ensures { IfOk result (λ copy. copy ≡ entries.now) }
{
    match entries {
        [] => Ok(Items::new(alloc)),
        [first, rest @ ..] => {
            with_first(alloc, copy(alloc, rest)?, first.0.as_slice(), &first.1)
        }
    }
}

/// The tree with an object at a path.
pub fn with(
    alloc: Global,
    entries: &[(Path, Object)],
    path: &[Name],
    object: &Object,
) -> Result<Tree, AllocError>
    ensures { IfOk result (λ tree. tree ≡ insert entries.now path.now object.now) }
{
    match entries {
        [] => with_first(alloc, Items::new(alloc), path, object),
        [first, rest @ ..] => match compare(path, first.0.as_slice()) {
            Ordering::Less => with_first(alloc, copy(alloc, entries)?, path, object),
            Ordering::Equal => with_first(alloc, copy(alloc, rest)?, first.0.as_slice(), object),
            Ordering::Greater => {
                let tree = with(alloc, rest, path, object)?;
                with_first(alloc, tree, first.0.as_slice(), &first.1)
            }
        },
    }
}

/// The tree with a file at a path.
pub fn with_file(
    alloc: Global,
    entries: &[(Path, Object)],
    path: &[Name],
    bytes: Items<u8>,
) -> Result<Tree, AllocError>
    ensures { IfOk result (λ tree. tree ≡ insert entries.now path.now (File bytes)) }
{
    with(alloc, entries, path, &Object::File(bytes))
}

/// The tree with nothing at a path.
pub fn without(alloc: Global, entries: &[(Path, Object)], path: &[Name]) -> Result<Tree, AllocError>
    ensures { IfOk result (λ tree. tree ≡ remove entries.now path.now) }
{
    match entries {
        [] => Ok(Items::new(alloc)),
        [first, rest @ ..] => {
            let tree = without(alloc, rest, path)?;
            if compare(path, first.0.as_slice()).is_eq() {
                Ok(tree)
            } else {
                with_first(alloc, tree, first.0.as_slice(), &first.1)
            }
        }
    }
}

/// Where a path is found once `from` is called `to`.
fn path_after(alloc: Global, from: &[Name], to: &[Name], path: &[Name]) -> Result<Path, AllocError>
    ensures { IfOk result (λ moved. moved ≡ moved_path from.now to.now path.now) }
{
    if begins_with(path, from) {
        let mut moved = copy_path(alloc, to)?;
        append_copies(alloc, &mut moved, &path[from.len()..])?;
        Ok(moved)
    } else {
        copy_path(alloc, path)
    }
}

/// The tree in which `to` stands in the place of `from` at the front of every path.
pub fn with_moved(
    alloc: Global,
    entries: &[(Path, Object)],
    from: &[Name],
    to: &[Name],
) -> Result<Tree, AllocError>
    ensures { IfOk result (λ tree. tree ≡ move_subtree entries.now from.now to.now) }
{
    match entries {
        [] => Ok(Items::new(alloc)),
        [first, rest @ ..] => {
            let tree = with_moved(alloc, rest, from, to)?;
            if begins_with(first.0.as_slice(), to) {
                return Ok(tree);
            }
            let path = path_after(alloc, from, to, first.0.as_slice())?;
            with(alloc, tree.as_slice(), path.as_slice(), &first.1)
        }
    }
}
