//! The folder of the host that is kept.
use crate::faults::{Fault, fault_at, system_fault, told, volume_fault};
use crate::own_files::OwnFiles;
use crate::progress::{Progress, Reading};
use crate::unpacking::{TOO_MANY, sealed};
use nl_folders::{FolderError, Tree};
use nl_host::{HostFolder, LeftOut, Pattern, Reason, Selection, TooBig, read_folder};
use nl_manifests::HostTree;
use nl_pins::is_of_pins;
use nl_types::limits::VOLUME_BLOCK_LIMIT;
use nl_types::{BLOCK_SIZE, Items, VolError};
use std::alloc::{AllocError, Global};
use std::os::unix::fs::MetadataExt;
use std::path::PathBuf;
use std::{fs, io};

/// The most bytes that a volume has.
const MOST_BYTES: u64 = VOLUME_BLOCK_LIMIT as u64 * BLOCK_SIZE as u64;

/// The folder that is to be kept.
#[derive(Clone, Copy)]
pub struct Selected<'a> {
    pub folder: &'a str,
    /// What a person left out.
    pub excluded: &'a [Pattern<'a>],
    /// Whether names and bytes alone are kept.
    pub is_plain: bool,
    /// Whether other file systems than the folder's are passed over.
    pub is_one_system: bool,
}

/// What is said of a folder that was other in the end than in the beginning.
pub const CHANGED: &str = "changed while it was read";

/// What was found in a folder.
#[derive(Drop)]
pub struct Scan {
    pub folder: HostTree,
    pub left_out: Vec<LeftOut>,
}

/// The devices of the file systems that the host has at /proc, /sys and /dev, where no files of anybody are.
fn system_devices(rt: &HostRuntime) -> Result<Vec<u64>, AllocError> {
    let mut devices = Vec::new(rt.alloc());
    let Ok(top) = fs::metadata(rt, "/") else {
        return Ok(devices);
    };
    for folder in ["/proc", "/sys", "/dev"] {
        if let Ok(told) = fs::metadata(rt, folder) {
            if told.dev() != top.dev() {
                devices.push(told.dev())?;
            }
        }
    }
    Ok(devices)
}

fn too_big_fault(alloc: Global, files: &[TooBig]) -> Result<Fault, AllocError> {
    let what = "no volume takes files above 64M; leave them out by --exclude:";
    let mut lines = Vec::with_capacity(alloc, files.len())?;
    for file in files {
        let (path, size) = (file.path.as_str(), file.size);
        lines.push(format!(in alloc; "{path} ({size} bytes)")?)?;
    }
    Ok(Fault::Listed(String::from_str(alloc, what)?, lines))
}

fn too_many_text(alloc: Global, folder: &str, bytes: u64) -> Result<String, AllocError> {
    let more = bytes.saturating_sub(MOST_BYTES);
    format!(in alloc;
        "{folder}: has {bytes} bytes in files, and no volume has more than {MOST_BYTES}: \
         leave {more} out by --exclude"
    )
}

/// Why there is no tree of a folder, and why the system doesn't give it, if it doesn't.
fn scan_fault(alloc: Global, path: &str, error: FolderError, failure: Option<io::Error>) -> Fault {
    match (error, failure) {
        (FolderError::Refused(VolError::TooBig), _) => fault_at(alloc, path, TOO_MANY),
        (FolderError::Refused(error), _) => volume_fault(alloc, path, error),
        (FolderError::Unread, Some(why)) => system_fault(alloc, path, "cannot be read", &why),
        (FolderError::Unread, None) => fault_at(alloc, path, "cannot be read"),
        (FolderError::Disordered, _) => fault_at(alloc, path, CHANGED),
    }
}

/// Notes that something with a path of the host is left out.
fn note(
    left_out: &mut Vec<LeftOut>,
    path: Result<String, AllocError>,
    reason: Reason,
) -> Result<(), AllocError> {
    left_out.push(LeftOut {
        path: path?,
        reason,
    })?;
    Ok(())
}

/// What was read of a folder without what has the name of the file of pins, and how often that stands in the
/// folder itself.
fn without_pins(alloc: Global, tree: HostTree) -> Result<(HostTree, usize), AllocError> {
    let mut rest = Items::new(alloc);
    let mut count: usize = 0;
    for (path, entry) in tree.into_vec() {
        if !is_of_pins(path.as_slice()) {
            rest.push((path, entry))?;
        } else if path.len() == 1 {
            count = count.saturating_add(1);
        }
    }
    Ok((rest, count))
}

/// Leaves what has the name of the file of pins out of what was read of a folder.
fn without_reserved(
    alloc: Global,
    folder: &str,
    tree: HostTree,
    left_out: &mut Vec<LeftOut>,
) -> Result<HostTree, AllocError> {
    let (rest, count) = without_pins(alloc, tree)?;
    let folder = folder.trim_end_matches('/');
    for _ in 0..count {
        note(
            left_out,
            format!(in alloc; "{folder}/.nlkeep-pins"),
            Reason::Reserved,
        )?;
    }
    Ok(rest)
}

/// Sees to it that a volume takes the files of a folder.
fn judge_files(
    alloc: Global,
    folder: &str,
    host: &HostFolder<'_, HostRuntime>,
) -> Result<(), Fault> {
    if !host.too_big.is_empty() {
        return Err(too_big_fault(alloc, host.too_big.as_slice())?);
    }
    if host.bytes > MOST_BYTES {
        return Err(told(too_many_text(alloc, folder, host.bytes)));
    }
    Ok(())
}

/// The tree of a volume that keeps what was read of a folder, without pins.
pub fn kept_tree(alloc: Global, path: &str, folder: HostTree) -> Result<Tree, Fault> {
    sealed(alloc, path, folder.as_slice(), CHANGED)
}

/// What is to be kept of what was read of a folder, and what is left out.
fn scan_of(
    alloc: Global,
    folder: &str,
    tree: HostTree,
    left_out: Vec<LeftOut>,
) -> Result<Scan, Fault> {
    let mut left_out = left_out;
    let folder = without_reserved(alloc, folder, tree, &mut left_out)?;
    Ok(Scan { folder, left_out })
}

/// All that is to be kept of a folder, and what is left out.
///
/// # Errors
/// A folder that can't be read; files that no volume takes; more bytes than a volume takes.
fn scan_below(
    rt: &HostRuntime,
    folder: &str,
    selection: &Selection<'_>,
    is_plain: bool,
    progress: &mut Progress<'_>,
) -> Result<Scan, Fault> {
    let alloc = rt.alloc();
    let mut host = HostFolder::new(rt, folder, *selection, is_plain);
    let read = read_folder(alloc, &mut host, &mut Reading::new(progress));
    judge_files(alloc, folder, &host)?;
    match read {
        Ok(tree) => scan_of(alloc, folder, tree, host.left_out),
        Err(error) => Err(scan_fault(alloc, folder, error, host.failure)),
    }
}

/// The path of the folder that is to be kept, links followed.
fn root_of(rt: &HostRuntime, folder: &str) -> Result<PathBuf, Fault> {
    match fs::metadata(rt, folder) {
        Ok(told) if !told.is_dir() => return Err(fault_at(rt.alloc(), folder, "is no folder")),
        _ => {}
    }
    match fs::canonicalize(rt, folder) {
        Ok(root) => Ok(root),
        Err(error) => Err(system_fault(rt.alloc(), folder, "cannot be read", &error)),
    }
}

/// All that is to be kept of a folder but what a person left out. `image` is where the volume's image stands.
pub fn scan_folder(
    rt: &HostRuntime,
    selected: Selected<'_>,
    image: &str,
    progress: &mut Progress<'_>,
) -> Result<Scan, Fault> {
    let root = root_of(rt, selected.folder)?;
    let own = OwnFiles::of(rt, image)?;
    let systems = system_devices(rt)?;
    let selection = Selection {
        excluded: selected.excluded,
        image: own.image.as_slice(),
        sides: own.sides.as_slice(),
        is_one_system: selected.is_one_system,
        systems: systems.as_slice(),
    };
    let root = root.as_path().as_str();
    scan_below(rt, root, &selection, selected.is_plain, progress)
}
