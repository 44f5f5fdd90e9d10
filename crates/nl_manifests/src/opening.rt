//! Trees of a volume, as the trees of the host that they show.
ghost use Rattle.std.specs.Prelude.{◌≡◌, ◌++◌, [], ◌&&◌, IfOk, OnOk, Some, None, is_some, option_and_then};
ghost use Rattle.std.specs.Option.{option_copied};
ghost use Rattle.std.specs.List.{flat_map};
ghost use Rattle.nl_types.specs.Plain.Paths.{same_name};
ghost use Rattle.nl_types.specs.declared.reply.Object.TheVariants.{File};
ghost use Rattle.nl_types.specs.Plain.Trees.{IsTree};
ghost use Rattle.nl_manifests.specs.HostTrees.{Shows, line_in, manifest_at, last_name, manifest_for, manifest_name, parted, refused, shown_directory, shown_file, shown_in, shown_link, told_of_file};
ghost use Rattle.nl_manifests.specs.Readings.{manifest_in};
ghost use Rattle.nl_manifests.specs.Private.Opening.{above_in, entry_if, link_part, links_part, manifest_entry, manifests, object_part, parts};
ghost use Rattle.nl_manifests.specs.Private.Places.{Puts, PutsIfOrdered};

use crate::attributes::Attributes;
use crate::host_tree::{HostEntry, HostObject, HostTree, Opened};
use crate::looking::{Entries, Known};
use crate::manifest::{Line, LineKind};
use crate::names::is_manifest_name;
use crate::ordered::put;
use crate::reading::read_manifest;
use crate::refusing::refused_lines;
use nl_folders::{Path, copied, with_name};
use nl_names::Name;
use nl_types::{Items, Object, is_name};
use std::alloc::{AllocError, Global};

// ---- manifests

/// The manifest that stands in a file.
fn known(alloc: Global, bytes: &[u8]) -> Result<Option<Known>, AllocError>
    ensures { IfOk result (λ known. known ≡ manifest_in bytes.now) }
{
    match read_manifest(alloc, bytes)? {
        None => Ok(None),
        Some(manifest) => Ok(Some(Known::new(manifest))),
    }
}

/// The manifest of a directory.
fn manifest_at(
    alloc: Global,
    tree: &Entries<'_, Object>,
    directory: &[Name],
) -> Result<Option<Known>, AllocError>
    ensures { IfOk result (λ manifest. manifest ≡ manifest_at tree.now.all.now directory.now) }
{
    let path = with_name(alloc, directory, b".nlkeep".as_slice())?;
    match tree.found(path.as_slice()) {
        Some(Object::File(bytes)) => known(alloc, bytes.as_slice()),
        Some(Object::Dir) => Ok(None),
        None => Ok(None),
    }
}

/// The manifest of what stands at a path, none of a file.
fn manifest_for(
    alloc: Global,
    tree: &Entries<'_, Object>,
    path: &[Name],
    object: &Object,
) -> Result<Option<Known>, AllocError>
    ensures { IfOk result (λ manifest. manifest ≡ manifest_for tree.now.all.now path.now object.now) }
{
    match object {
        Object::Dir => manifest_at(alloc, tree, path),
        Object::File(_) => Ok(None),
    }
}

fn add_manifest(
    alloc: Global,
    path: &[Name],
    manifest: Option<Known>,
    all: &mut Items<(Path, Known)>,
) -> Result<(), AllocError>
    ensures { OnOk result (all.new ≡ all.old ++ manifest_entry path.now manifest) }
{
    match manifest {
        None => Ok(()),
        Some(manifest) => {
            let path = copied(alloc, path)?;
            all.push((path, manifest))
        }
    }
}

/// The manifests of all directories.
fn manifests(alloc: Global, tree: &Entries<'_, Object>) -> Result<Items<(Path, Known)>, AllocError>
    ensures { IfOk result (λ all. all ≡ manifests tree.now.all.now) }
{
    let mut all = Items::new(alloc);
    for entry in tree.all {
        let path = entry.0.as_slice();
        let manifest = manifest_for(alloc, tree, path, &entry.1)?;
        add_manifest(alloc, path, manifest, &mut all)?;
    }
    Ok(all)
}

// ---- entries

/// A directory with the attributes that its own manifest tells.
fn shown_directory(own: Option<&Known>) -> HostEntry
    ensures { result ≡ shown_directory (option_copied own.entry) }
{
    let attributes = match own {
        None => None,
        Some(manifest) => Some(manifest.own()),
    };
    HostEntry {
        object: HostObject::Directory,
        attributes,
    }
}

/// The attributes that a line tells of a file.
fn file_attributes(line: Option<&Line>) -> Option<Attributes>
    ensures { result
        ≡ option_and_then (λ l. told_of_file l.kind l.attributes) (option_copied line.entry) }
{
    match line {
        None => None,
        Some(line) => match &line.kind {
            LineKind::File => Some(line.attributes),
            LineKind::Link(_) => None,
        },
    }
}

fn shown_file(alloc: Global, bytes: &[u8], line: Option<&Line>) -> Result<HostEntry, AllocError>
    ensures { IfOk result (λ entry. entry ≡ shown_file bytes.now (option_copied line.entry)) }
{
    Ok(HostEntry {
        object: HostObject::File(Items::from_slice(alloc, bytes)?),
        attributes: file_attributes(line),
    })
}

fn line_in<'a>(manifest: Option<&'a Known>, name: &[u8]) -> Option<&'a Line>
    ensures { option_copied result ≡ line_in (option_copied manifest.entry) name.now }
{
    match manifest {
        None => None,
        Some(manifest) => manifest.line_named(name),
    }
}

/// Whether a file under this name is its directory's manifest.
fn is_hidden(above: Option<&Known>, name: &[u8]) -> bool
    ensures { result ≡ (is_some (option_copied above.entry) && same_name name.now manifest_name) }
{
    above.is_some() && is_manifest_name(name)
}

/// A file under a name, of whose directory there may be a manifest. The file of a manifest isn't shown.
fn file_under(
    alloc: Global,
    above: Option<&Known>,
    name: &[u8],
    bytes: &[u8],
) -> Result<Option<HostEntry>, AllocError>
    ensures { IfOk result (λ entry. entry
        ≡ shown_in (option_copied above.entry) name.now None (Some (File bytes.now))) }
{
    if is_hidden(above, name) {
        return Ok(None);
    }
    let entry = shown_file(alloc, bytes, line_in(above, name))?;
    Ok(Some(entry))
}

/// A file at a path.
fn file_at(
    alloc: Global,
    all: &Entries<'_, Known>,
    path: &[Name],
    bytes: &[u8],
) -> Result<Option<HostEntry>, AllocError>
    ensures { IfOk result (λ entry. entry
        ≡ shown_in (above_in all.now.all.now (parted path.now)) (last_name (parted path.now)) None
        (Some (File bytes.now))) }
{
    match path {
        [] => file_under(alloc, None, b"".as_slice(), bytes),
        [_, ..] => {
            let last = path.len() - 1;
            let above = all.found(&path[..last]);
            file_under(alloc, above, path[last].as_slice(), bytes)
        }
    }
}

/// The link that a line tells of.
fn shown_link(alloc: Global, line: &Line) -> Result<Option<HostEntry>, AllocError>
    ensures { IfOk result (λ entry. entry ≡ shown_link line.now.name (Some line.now)) }
{
    if !is_name(line.name.as_slice()) {
        return Ok(None);
    }
    match &line.kind {
        LineKind::File => Ok(None),
        LineKind::Link(target) => Ok(Some(HostEntry {
            object: HostObject::Link(Items::from_slice(alloc, target.as_slice())?),
            attributes: Some(line.attributes),
        })),
    }
}

// ---- in order

type Shown = Vec<(Path, HostEntry)>;

fn put_if(path: Path, entry: Option<HostEntry>, shown: &mut Shown) -> Result<(), AllocError>
    ensures { OnOk result (PutsIfOrdered shown.old.items (entry_if path entry) shown.new.items) }
{
    match entry {
        None => Ok(()),
        Some(entry) => put(shown, path, entry),
    }
}

/// Puts the link of a line, where nothing stands in its place.
fn put_link(
    alloc: Global,
    tree: &Entries<'_, Object>,
    directory: &[Name],
    line: &Line,
    shown: &mut Shown,
) -> Result<(), AllocError>
    ensures { OnOk result (PutsIfOrdered shown.old.items (link_part tree.now.all.now directory.now line.now)
        shown.new.items) }
{
    let path = with_name(alloc, directory, line.name.as_slice())?;
    match tree.found(path.as_slice()) {
        Some(_) => Ok(()),
        None => {
            let entry = shown_link(alloc, line)?;
            put_if(path, entry, shown)
        }
    }
}

fn put_links(
    alloc: Global,
    tree: &Entries<'_, Object>,
    directory: &[Name],
    lines: &[Line],
    shown: &mut Shown,
) -> Result<(), AllocError>
    ensures { OnOk result (PutsIfOrdered shown.old.items
        (flat_map (link_part tree.now.all.now directory.now) lines.now) shown.new.items) }
{
    for line in lines {
        put_link(alloc, tree, directory, line, shown)?;
    }
    Ok(())
}

fn put_links_of(
    alloc: Global,
    tree: &Entries<'_, Object>,
    directory: &[Name],
    own: Option<&Known>,
    shown: &mut Shown,
) -> Result<(), AllocError>
    ensures { OnOk result (PutsIfOrdered shown.old.items
        (links_part tree.now.all.now directory.now (option_copied own.entry)) shown.new.items) }
{
    match own {
        None => Ok(()),
        Some(manifest) => put_links(alloc, tree, directory, manifest.lines(), shown),
    }
}

/// Puts a directory with the links in it, or a file.
fn put_object(
    alloc: Global,
    tree: &Entries<'_, Object>,
    all: &Entries<'_, Known>,
    entry: &(Path, Object),
    shown: &mut Shown,
) -> Result<(), AllocError>
    ensures { OnOk result (PutsIfOrdered shown.old.items
        (object_part tree.now.all.now all.now.all.now entry.now.0 entry.now.1) shown.new.items) }
{
    let path = entry.0.as_slice();
    match &entry.1 {
        Object::Dir => {
            let own = all.found(path);
            put(shown, copied(alloc, path)?, shown_directory(own))?;
            put_links_of(alloc, tree, path, own, shown)
        }
        Object::File(bytes) => {
            let file = file_at(alloc, all, path, bytes.as_slice())?;
            put_if(copied(alloc, path)?, file, shown)
        }
    }
}

fn put_objects(
    alloc: Global,
    tree: &Entries<'_, Object>,
    all: &Entries<'_, Known>,
) -> Result<HostTree, AllocError>
    ensures { IfOk result (λ shown. Puts [] (parts tree.now.all.now all.now.all.now tree.now.all.now) shown) }
{
    let mut shown = Vec::new(alloc);
    for entry in tree.all {
        put_object(alloc, tree, all, entry, &mut shown)?;
    }
    Ok(Items::from_vec(shown))
}

/// What a tree shows: its directories and files with the attributes that manifests tell, and the links that
/// manifests tell of. A file that is no manifest is shown as it is, whatever its name.
///
/// # Errors
/// Memory.
pub fn open(alloc: Global, tree: &[(Path, Object)]) -> Result<Opened, AllocError>
    ensures shows { IfOk result (λ opened. IsTree tree.now → Shows tree.now opened.tree) }
    ensures refused { IfOk result (λ opened. opened.refused ≡ refused tree.now) }
{
    let entries = Entries::of(tree);
    let all = manifests(alloc, &entries)?;
    let manifests = Entries::of(all.as_slice());
    let shown = put_objects(alloc, &entries, &manifests)?;
    let refused = refused_lines(alloc, &entries, &manifests)?;
    Ok(Opened {
        tree: shown,
        refused,
    })
}
