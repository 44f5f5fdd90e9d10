//! Trees of the host, sealed in trees of a volume.
ghost use Rattle.std.specs.Prelude.{◌≡◌, ◌++◌, [], IfErr, IfOk, OnOk};
ghost use Rattle.std.specs.List.{list_all};
ghost use Rattle.std.specs.Option.{option_copied};
ghost use Rattle.nl_types.specs.Plain.Trees.{IsTree};
ghost use Rattle.nl_manifests.specs.HostTrees.{Shows, refused};
ghost use Rattle.nl_manifests.specs.Sealed.{IsSealed, RefusesSealing, is_small, is_within_limits, line_under};
ghost use Rattle.nl_manifests.specs.Private.Places.{Puts, PutsIfOrdered};
ghost use Rattle.nl_manifests.specs.Private.Sealing.{EachEndsByLength, EndsByLength, lines_until, manifest_part, own_manifest, sealed_part, sealed_parts};

use crate::host_tree::{HostEntry, HostObject};
use crate::judging::is_host_tree;
use crate::manifest::{Line, LineKind, Manifest};
use crate::names::name_below;
use crate::ordered::put;
use crate::printing::printed;
use nl_folders::{Path, Tree, copied, with_name};
use nl_names::Name;
use nl_types::limits::{FILE_LIMIT, PATH_LIMIT};
use nl_types::{Items, Object};
use std::alloc::{AllocError, AllocFailed, Global};

/// The most paths of a tree, the root's included.
const MOST_PATHS: usize = PATH_LIMIT + 1;

/// Why a tree of the host isn't sealed.
#[derive(Clone, Copy)]
pub enum SealError {
    Memory,
    /// No tree of a volume shows it. Its paths are not in order, or the directory of one is not there; a name
    /// is none, or that of its directory's manifest; something has attributes in a directory that has none; or
    /// attributes or a target are such as no host has.
    Unshown,
    /// With the manifests there are more paths than in any tree, or a file is greater than any may be.
    TooBig,
}

impl From<AllocError> for SealError {
    ghost use Rattle.std.specs.Prelude.{◌≡◌};
    ghost use Rattle.nl_manifests.specs.declared.sealing.SealError.TheVariants.{Memory};

    ghost from_gives = { λ _ e. e ≡ Memory };

    fn from(_: AllocError) -> SealError {
        SealError::Memory
    }
}

// ---- manifests

/// Adds the line of a file or a link that has attributes.
fn add_line(
    alloc: Global,
    name: Option<&Name>,
    entry: &HostEntry,
    lines: &mut Items<Line>,
) -> Result<(), AllocError>
    ensures { OnOk result (lines.new ≡ lines.old ++ line_under (option_copied name.entry) entry.now) }
{
    let Some(name) = name else {
        return Ok(());
    };
    let Some(attributes) = entry.attributes else {
        return Ok(());
    };
    let kind = match &entry.object {
        HostObject::Directory => return Ok(()),
        HostObject::File(_) => LineKind::File,
        HostObject::Link(target) => LineKind::Link(Items::from_slice(alloc, target.as_slice())?),
    };
    lines.push(Line {
        name: Items::from_slice(alloc, name.as_slice())?,
        kind,
        attributes,
    })
}

/// The lines of a directory, by the entries that come behind it. Those below it have longer paths, up to the first
/// entry that isn't below it: so a look at their lengths is enough, however deep the tree is.
fn lines_until(
    alloc: Global,
    directory: &[Name],
    behind: &[(Path, HostEntry)],
) -> Result<Items<Line>, AllocError>
    requires { EndsByLength directory.now behind.now }
    ensures { IfOk result (λ lines. lines ≡ lines_until directory.now behind.now) }
{
    let mut lines = Items::new(alloc);
    for entry in behind {
        let path = entry.0.as_slice();
        if path.len() <= directory.len() {
            return Ok(lines);
        }
        add_line(alloc, name_below(directory, path), &entry.1, &mut lines)?;
    }
    Ok(lines)
}

/// The manifest of an entry, by those that come behind it.
fn own_manifest(
    alloc: Global,
    entry: &(Path, HostEntry),
    behind: &[(Path, HostEntry)],
) -> Result<Option<Manifest>, AllocError>
    requires { EndsByLength entry.now.0 behind.now }
    ensures { IfOk result (λ manifest. manifest ≡ own_manifest entry.now behind.now) }
{
    match (&entry.1.object, entry.1.attributes) {
        (HostObject::Directory, Some(own)) => {
            let lines = lines_until(alloc, entry.0.as_slice(), behind)?;
            Ok(Some(Manifest { own, lines }))
        }
        (HostObject::Directory, None) => Ok(None),
        (HostObject::File(_), _) => Ok(None),
        (HostObject::Link(_), _) => Ok(None),
    }
}

// ---- entries

type Sealed = Vec<(Path, Object)>;

fn put_manifest(
    alloc: Global,
    directory: &[Name],
    manifest: Option<Manifest>,
    sealed: &mut Sealed,
) -> Result<(), AllocError>
    ensures { OnOk result (PutsIfOrdered sealed.old.items (manifest_part directory.now manifest)
        sealed.new.items) }
{
    match manifest {
        None => Ok(()),
        Some(manifest) => {
            let path = with_name(alloc, directory, b".nlkeep".as_slice())?;
            let bytes = printed(alloc, &manifest)?;
            put(sealed, path, Object::File(bytes))
        }
    }
}

/// Puts what an entry becomes: a directory gets its manifest, and a link is in that of its directory.
fn put_entry(
    alloc: Global,
    path: &[Name],
    object: &HostObject,
    manifest: Option<Manifest>,
    sealed: &mut Sealed,
) -> Result<(), AllocError>
    ensures { OnOk result (PutsIfOrdered sealed.old.items (sealed_part path.now object.now manifest)
        sealed.new.items) }
{
    match object {
        HostObject::Directory => {
            put(sealed, copied(alloc, path)?, Object::Dir)?;
            put_manifest(alloc, path, manifest, sealed)
        }
        HostObject::File(bytes) => {
            let bytes = Items::from_slice(alloc, bytes.as_slice())?;
            put(sealed, copied(alloc, path)?, Object::File(bytes))
        }
        HostObject::Link(_) => Ok(()),
    }
}

fn put_all(alloc: Global, host: &[(Path, HostEntry)]) -> Result<Tree, AllocError>
    requires { EachEndsByLength host.now }
    ensures { IfOk result (λ tree. Puts [] (sealed_parts host.now) tree) }
{
    let mut sealed = Vec::new(alloc);
    for at in 0..host.len() {
        let entry = &host[at];
        let manifest = own_manifest(alloc, entry, &host[at + 1..])?;
        put_entry(
            alloc,
            entry.0.as_slice(),
            &entry.1.object,
            manifest,
            &mut sealed,
        )?;
    }
    Ok(Items::from_vec(sealed))
}

// ---- limits

fn is_small(object: &Object) -> bool
    ensures { result ≡ is_small object.now }
{
    match object {
        Object::Dir => true,
        Object::File(bytes) => bytes.len() <= FILE_LIMIT as usize,
    }
}

fn are_small(tree: &[(Path, Object)]) -> bool
    ensures { result ≡ list_all (λ e. is_small e.1) tree.now }
{
    tree.iter().all(|entry| is_small(&entry.1))
}

fn is_within_limits(tree: &[(Path, Object)]) -> bool
    ensures { result ≡ is_within_limits tree.now }
{
    let is_short = tree.len() <= MOST_PATHS;
    is_short && are_small(tree)
}

/// The tree of a volume that shows a tree of the host: its directories and files, a manifest in each directory
/// that has attributes, and no line that shows nothing.
///
/// # Errors
/// `Unshown` where no tree shows it; `TooBig` where the one that does is beyond the limits; `Memory`.
pub fn seal(alloc: Global, host: &[(Path, HostEntry)]) -> Result<Tree, SealError>
    ensures tree { IfOk result (λ tree. IsTree tree) }
    ensures shows { IfOk result (λ tree. Shows tree host.now) }
    ensures told { IfOk result (λ tree. refused tree ≡ []) }
    ensures sealed { IfOk result (λ tree. IsSealed host.now tree) }
    ensures refused { IfErr result (RefusesSealing host.now) }
{
    let is_shown = is_host_tree(alloc, host)?;
    if !is_shown {
        return Err(SealError::Unshown);
    }
    let tree = put_all(alloc, host)?;
    if is_within_limits(tree.as_slice()) {
        Ok(tree)
    } else {
        Err(SealError::TooBig)
    }
}
