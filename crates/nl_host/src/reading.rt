//! A folder of the host, read whole.
ghost use Rattle.std.specs.Prelude.{◌≡◌, ◌<◌, ◌++◌, ◌∷◌, [], IfErr, OnOk, length};

use crate::host_folder::{Found, HostFolder, Kind, Listed, Listing};
use crate::open_folders::OpenFolders;
use nl_folders::{FolderError, Path, with_name};
use nl_manifests::{HostEntry, HostObject, HostTree};
use nl_names::Name;
use nl_types::limits::PATH_LIMIT;
use nl_types::{Items, VolError};
use std::alloc::Global;
use std::fs::File;
use std::rt::{Env, Files};

/// The most paths of a tree, the root's included.
const MOST_PATHS: usize = PATH_LIMIT + 1;

/// Who is told of each file that was read.
pub trait Watching {
    /// A file of so many bytes was read.
    fn tell(&mut self, bytes: u64);
}

/// Something that is yet to be read.
#[derive(Drop)]
struct Pending {
    path: Path,
    listed: Listed,
}

/// Puts what is in a folder on the stack, the first one on top.
fn add_all(
    alloc: Global,
    folder: &[Name],
    all: Vec<Found>,
    pending: &mut Vec<Pending>,
) -> Result<(), FolderError> {
    for found in all.into_iter().rev() {
        pending.push(Pending {
            path: with_name(alloc, folder, found.name.as_slice())?,
            listed: found.listed,
        })?;
    }
    Ok(())
}

/// A folder. What is in it comes onto what is pending.
fn folder_read<R: AllocGlobal + Files<File = File> + Env + Clone + Drop>(
    alloc: Global,
    folder: &mut HostFolder<'_, R>,
    opened: &mut OpenFolders<'_, R>,
    next: &Pending,
    pending: &mut Vec<Pending>,
) -> Result<Option<HostEntry>, FolderError> {
    let path = next.path.as_slice();
    if !folder.enter(alloc, opened, path, next.listed.identity)? {
        return Ok(None);
    }
    let Some(Listing { all, attributes }) = folder.list(alloc, opened, path)? else {
        return Ok(None);
    };
    add_all(alloc, path, all, pending)?;
    Ok(Some(HostEntry {
        object: HostObject::Directory,
        attributes,
    }))
}

/// A file, with the attributes that it had once it was read.
fn file_read<R: AllocGlobal + Files<File = File> + Env + Clone + Drop, W: Watching>(
    alloc: Global,
    folder: &mut HostFolder<'_, R>,
    opened: &OpenFolders<'_, R>,
    next: &Pending,
    watching: &mut W,
) -> Result<Option<HostEntry>, FolderError> {
    let Some(read) = folder.read(alloc, opened, next.path.as_slice(), &next.listed)? else {
        return Ok(None);
    };
    watching.tell(read.bytes.len() as u64);
    Ok(Some(HostEntry {
        attributes: next.listed.attributes.map(|_| read.attributes),
        object: HostObject::File(Items::from_vec(read.bytes)),
    }))
}

fn link_read<R: AllocGlobal + Files<File = File> + Env + Clone + Drop>(
    alloc: Global,
    folder: &mut HostFolder<'_, R>,
    opened: &OpenFolders<'_, R>,
    next: &Pending,
) -> Result<Option<HostEntry>, FolderError> {
    let Some(target) = folder.target(alloc, opened, next.path.as_slice())? else {
        return Ok(None);
    };
    Ok(Some(HostEntry {
        object: HostObject::Link(target),
        attributes: next.listed.attributes,
    }))
}

/// What stands at a path. What is in a folder comes onto what is pending. None where it is left out.
fn visit<R: AllocGlobal + Files<File = File> + Env + Clone + Drop, W: Watching>(
    alloc: Global,
    folder: &mut HostFolder<'_, R>,
    opened: &mut OpenFolders<'_, R>,
    next: &Pending,
    pending: &mut Vec<Pending>,
    watching: &mut W,
) -> Result<Option<HostEntry>, FolderError> {
    let path = next.path.as_slice();
    if let Err(error) = opened.climb_to(path.len().saturating_sub(1)) {
        folder.give_up(alloc, path, &error)?;
        return Ok(None);
    }
    match next.listed.kind {
        Kind::Directory => folder_read(alloc, folder, opened, next, pending),
        Kind::File => file_read(alloc, folder, opened, next, watching),
        Kind::Link => link_read(alloc, folder, opened, next),
    }
}

/// Puts an entry at the end of a tree. One of the most paths that a tree may have is full.
fn add(tree: &mut HostTree, path: Path, entry: HostEntry) -> Result<(), FolderError>
    ensures room { length tree.old < 524278 → IfErr result (λ error. error ≡ FolderError.Refused VolError.Memory) }
    ensures added { OnOk result (tree.new ≡ tree.old ++ (path, entry) ∷ []) }
{
    if tree.len() >= MOST_PATHS {
        return Err(FolderError::Refused(VolError::TooBig));
    }
    tree.push((path, entry))?;
    Ok(())
}

/// All that is to be kept of a folder that is open, which is the first of some.
fn read_opened<R: AllocGlobal + Files<File = File> + Env + Clone + Drop, W: Watching>(
    alloc: Global,
    folder: &mut HostFolder<'_, R>,
    opened: &mut OpenFolders<'_, R>,
    watching: &mut W,
) -> Result<HostTree, FolderError> {
    let mut tree = Items::new(alloc);
    let mut pending = Vec::new(alloc);
    pending.push(Pending {
        path: Items::new(alloc),
        listed: Listed {
            kind: Kind::Directory,
            identity: opened.first(),
            size: 0,
            attributes: None,
        },
    })?;
    for _ in 0..u64::MAX {
        let Some(next) = pending.pop() else {
            return Ok(tree);
        };
        let read = visit(alloc, folder, opened, &next, &mut pending, watching)?;
        if let Some(entry) = read {
            add(&mut tree, next.path, entry)?;
        }
    }
    Err(FolderError::Refused(VolError::TooBig))
}

/// All that is to be kept of a folder of the host, in the order of the paths, with the attributes that are kept.
/// What vanishes meanwhile, can't be read to its end, or turns into something else is left out, and noted.
///
/// # Errors
/// `Unread` where the system doesn't give the folder itself, which then knows why; `Refused` by `TooBig` where
/// there are more paths than in any tree, and by `Memory`. `Unread` too where relative paths would lead elsewhere than
/// before.
pub fn read_folder<R: AllocGlobal + Files<File = File> + Env + Clone + Drop, W: Watching>(
    alloc: Global,
    folder: &mut HostFolder<'_, R>,
    watching: &mut W,
) -> Result<HostTree, FolderError> {
    let mut opened = folder.opened()?;
    let read = read_opened(alloc, folder, &mut opened, watching);
    if let Err(error) = opened.close() {
        folder.give_up(alloc, &[], &error)?;
    }
    read
}
