//! Trees with the file of pins, and without it.
ghost use Rattle.std.specs.Prelude.{◌≡◌, ◌++◌, ◌∷◌, [], IfOk, OnOk, Some};
ghost use Rattle.nl_pins.specs.Trees.{before_pins, behind_pins, is_before_pins, is_of_pins, pins_path, with_pins, without_pins};

use nl_folders::{Path, Tree, compare};
use nl_names::Name;
use nl_types::{Items, Object};
use std::alloc::{AllocError, Global};

/// Whether a path is that of the file, or lies below a folder in its place.
pub fn is_of_pins(path: &[Name]) -> bool
    ensures { result ≡ is_of_pins path.now }
{
    match path {
        [] => false,
        [name, ..] => name.as_slice().cmp(&b".nlkeep-pins".as_slice()).is_eq(),
    }
}

/// The path of the file.
pub fn path_of_pins(alloc: Global) -> Result<Path, AllocError>
    ensures { IfOk result (λ path. path ≡ pins_path) }
{
    let mut path = Items::new(alloc);
    path.push(Name::new(alloc, b".nlkeep-pins".as_slice())?)?;
    Ok(path)
}

fn add_other<T: Drop>(entry: (Path, T), rest: &mut Items<(Path, T)>) -> Result<(), AllocError>
    ensures { OnOk result (rest.new ≡ rest.old ++ without_pins (entry ∷ [])) }
{
    if is_of_pins(entry.0.as_slice()) {
        return Ok(());
    }
    rest.push(entry)
}

/// A tree without the file, and without what lies below a folder in its place.
///
/// # Errors
/// Memory.
pub fn without_pins<T: Drop>(
    alloc: Global,
    tree: Items<(Path, T)>,
) -> Result<Items<(Path, T)>, AllocError>
    ensures { IfOk result (λ rest. rest ≡ without_pins tree) }
{
    let mut rest = Items::new(alloc);
    for entry in tree.into_vec() {
        add_other(entry, &mut rest)?;
    }
    Ok(rest)
}

/// Whether an entry comes before that of the file, whose path this is.
fn is_before(entry: &(Path, Object), path: &[Name]) -> bool
    requires { path.now ≡ pins_path }
    ensures { result ≡ is_before_pins entry.now }
{
    compare(entry.0.as_slice(), path).is_lt()
}

/// Adds an entry to those before the file, or to those behind it.
fn add_beside(
    entry: (Path, Object),
    path: &[Name],
    before: &mut Tree,
    behind: &mut Tree,
) -> Result<(), AllocError>
    requires { path.now ≡ pins_path }
    ensures before { OnOk result (before.new ≡ before.old ++ before_pins (entry ∷ [])) }
    ensures behind { OnOk result (behind.new ≡ behind.old ++ behind_pins (entry ∷ [])) }
{
    if is_before(&entry, path) {
        before.push(entry)
    } else {
        behind.push(entry)
    }
}

/// The entries before the file, whose path this is, and those behind it.
fn parted(alloc: Global, path: &[Name], tree: Tree) -> Result<(Tree, Tree), AllocError>
    requires { path.now ≡ pins_path }
    ensures before { IfOk result (λ parts. parts.0 ≡ before_pins tree) }
    ensures behind { IfOk result (λ parts. parts.1 ≡ behind_pins tree) }
{
    let mut before = Items::new(alloc);
    let mut behind = Items::new(alloc);
    for entry in tree.into_vec() {
        add_beside(entry, path, &mut before, &mut behind)?;
    }
    Ok((before, behind))
}

/// A tree with the file, which has these bytes.
fn with_file(alloc: Global, tree: Tree, bytes: Items<u8>) -> Result<Tree, AllocError>
    ensures { IfOk result (λ with. with ≡ with_pins (Some bytes) tree) }
{
    let path = path_of_pins(alloc)?;
    let (mut before, behind) = parted(alloc, path.as_slice(), tree)?;
    before.push((path, Object::File(bytes)))?;
    before.append(behind.into_vec())?;
    Ok(before)
}

/// A tree that has no such file, with one of these bytes, if there are any.
///
/// # Errors
/// Memory.
pub fn with_pins(alloc: Global, bytes: Option<Items<u8>>, tree: Tree) -> Result<Tree, AllocError>
    ensures { IfOk result (λ with. with ≡ with_pins bytes tree) }
{
    match bytes {
        None => Ok(tree),
        Some(bytes) => with_file(alloc, tree, bytes),
    }
}
